//! What every crate of the machine speaks in: cycles, faults, the bus of one processor, the groups of an access, and
//! the plain values that state, operations and arithmetic share.
#![tactic(auto)]

pub mod ask;
pub mod bus;
pub mod bytes;
pub mod desc;
pub mod exception;
pub mod fault;
pub mod flags;
pub mod kind;
pub mod laws;
pub mod list;
pub mod number;
pub mod probe;
pub mod segments;
pub mod split;
