//! An image that is made from a number: a large valid input for tests and for `soak`.
#![tactic(auto)]

mod code;
pub mod generate;
mod sections;
mod tables;
#[cfg(test)]
mod tests;
