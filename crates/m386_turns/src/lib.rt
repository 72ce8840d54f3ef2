//! What several threads share under one lock: processors, of which one at a time makes its cycles.
#![tactic(auto)]

pub mod turns;
