//! Operations to bytes.
#![tactic(auto)]

mod candidate;
pub mod encode;
mod order;
mod parts;
pub mod round_trip;
mod same;
pub mod wide;
