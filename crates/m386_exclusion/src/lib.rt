//! No two processors hold one task.
#![tactic(auto)]

pub mod laws;
