//! The state of one processor, as a plain value: its registers and where its turn stands.
#![tactic(auto)]

pub mod event;
pub mod proc;
pub mod segment;
