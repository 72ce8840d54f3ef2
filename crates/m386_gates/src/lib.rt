//! Transfers of control: near and far jumps, calls and returns, and call gates.
#![tactic(auto)]

pub mod calls;
pub mod copies;
pub mod exec;
pub mod far;
pub mod laws;
pub mod near;
pub mod returns;
pub mod transfer;
