//! The decoder: the operation that a source of bytes gives next, and the length of its spelling.
#![tactic(auto)]

pub mod bytes;
pub mod decode;
pub mod decoded;
pub mod laws;
pub mod slice_source;
pub mod source;
