//! IN and OUT, and the I/O permission bit map that says which ports a task may use.
#![tactic(auto)]

pub mod exec;
pub mod laws;
pub mod map;
pub mod ports;
pub mod transfer;
