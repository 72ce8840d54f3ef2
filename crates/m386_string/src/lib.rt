//! String operations: one element, and the turns of a repetition.
#![tactic(auto)]

pub mod element;
pub mod exec;
pub mod laws;
pub mod repetition;
