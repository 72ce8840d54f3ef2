//! The words of a call: what its command is, and what the values of its options ask for.
#![tactic(auto)]

pub mod call;
pub mod line;
pub mod number;
pub mod reading;
pub mod stop;
#[cfg(test)]
mod tests;
pub mod usage;
pub mod values;
