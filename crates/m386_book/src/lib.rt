//! The book of a run, which says who holds which task, and the verdict: whether its image and its cycles keep the rules under
//! which no two processors hold one task.
#![tactic(auto)]

pub mod clean;
pub mod holding;
pub mod laws;
mod moves;
mod rules;
mod segments;
mod table;
mod tasks;
pub mod verdict;
pub mod waiting;
