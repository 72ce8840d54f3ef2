//! Memory and ports as bytes, the history of every cycle made on them, and a bus over a few bytes.
#![tactic(auto)]

pub mod ended;
pub mod fixed;
mod group;
pub mod history;
pub mod laws;
pub mod store;
