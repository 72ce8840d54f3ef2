//! One step of one processor over any bus, and the same step over listed values.
#![tactic(auto)]

pub mod alone;
pub mod answer;
pub mod begin;
pub mod code;
pub mod events;
pub mod fetch;
pub mod instruction;
pub mod laws;
pub mod probe;
pub mod run;
pub mod settled;
pub mod step;
