//! The checks that a task switch makes, as one table in order.
#![tactic(auto)]

pub mod descriptor;
pub mod facts;
pub mod first;
mod holds;
pub mod table;
#[cfg(test)]
mod tests;
