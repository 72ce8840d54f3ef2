//! Several processors on one memory, one cycle at a time, in a given order.
#![tactic(auto)]

mod ahead;
pub mod counted;
pub mod exclusion;
pub mod laws;
pub mod machine;
pub mod order;
mod plans;
mod running;
pub mod switches;
#[cfg(test)]
mod tests;
mod unfinished;
