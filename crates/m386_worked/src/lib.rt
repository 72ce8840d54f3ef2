//! Worked steps: what builds one or reads it from a text, and what compares a step with it.
#![tactic(auto)]

pub mod asks;
pub mod cases;
pub mod changes;
pub mod cycles;
pub mod numbers;
pub mod segments;
pub mod states;
pub mod texts;
