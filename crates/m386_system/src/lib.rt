//! Operations on the processor itself: its table registers, CR0, IF, HLT, WAIT and the coprocessor.
#![tactic(auto)]

pub mod control;
pub mod coprocessor;
pub mod exec;
pub mod halt;
pub mod interrupts;
pub mod laws;
pub mod tables;
pub mod task;
pub mod work;
