//! The fields of a task state segment, and the orders in which a switch saves and loads them.
#![tactic(auto)]

pub mod fields;
pub mod orders;
