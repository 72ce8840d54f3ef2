//! The assembler: the text of a source, and the image that it lays out.
#![tactic(auto)]

pub mod assemble;
mod bytes;
mod drafted;
mod field;
mod headers;
mod judge;
mod kinds;
pub mod laws;
mod limits;
mod named;
mod noted;
mod plan;
mod sections;
mod spelling;
mod spot;
pub mod stop;
mod survey;
mod surveying;
mod surveyor;
mod value;
mod walk;
