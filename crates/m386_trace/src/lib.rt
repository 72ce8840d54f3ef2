//! The report on a run, line by line.
#![tactic(auto)]

pub mod cycle;
mod field;
pub mod laws;
pub mod machine;
pub mod proc;
pub mod report;
pub mod soak;
pub mod task;
pub mod verdict;
pub mod words;
