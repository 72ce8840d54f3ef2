//! The lines of a source text: directives and instructions, and what is wrong with a line by itself.
#![tactic(auto)]

pub mod arguments;
pub mod directive;
pub mod instruction;
pub mod kind;
pub mod line;
pub mod matching;
pub mod parts;
pub mod shape;
