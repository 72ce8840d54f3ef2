//! What the numbers of a descriptor say: its bytes, its kind, its offsets, and who may use it.
#![tactic(auto)]

pub mod access;
pub mod bytes;
pub mod gate;
pub mod kind;
pub mod offsets;
pub mod selector;
