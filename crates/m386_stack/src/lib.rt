//! The stack: pushes and pops on a stack that is taken as a value, and PUSH, POP, PUSHA, POPA, PUSHF, POPF and LEAVE.
#![tactic(auto)]

pub mod all;
pub mod exec;
pub mod flags;
pub mod frame;
pub mod laws;
pub mod names;
pub mod single;
pub mod stack;
