//! Where a processor stands within a step, by the cycles that a task switch makes.
#![tactic(auto)]

pub mod laws;
