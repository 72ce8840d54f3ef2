//! Each step of the machine keeps the law of a step, and so its runs exclude.
#![tactic(auto)]

pub mod laws;
