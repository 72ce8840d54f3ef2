//! The delivery of events through the IDT, and the return from their handlers.
#![tactic(auto)]

pub mod deliver;
pub mod exec;
pub mod gate;
pub mod iret;
pub mod laws;
pub mod second;
