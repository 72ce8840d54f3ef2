//! What calls, deliveries and returns share: where a transfer leads, on which stack, and the state there; and what an instruction comes
//! to that may end in a task switch.
#![tactic(auto)]

pub mod executed;
pub mod gate;
pub mod laws;
pub mod place;
pub mod returns;
