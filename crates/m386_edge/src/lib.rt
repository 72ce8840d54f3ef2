//! Where bytes come from and go to, and what the processors' threads pass before each cycle.
#![tactic(auto)]

pub mod failed;
mod failures;
pub mod gate;
pub mod mem_sink;
pub mod mem_source;
pub mod reading;
pub mod sink;
pub mod source;
pub mod std_sink;
pub mod std_source;
pub mod writing;
