//! Processors that run in threads of their own.
#![tactic(auto)]

pub mod locked;
