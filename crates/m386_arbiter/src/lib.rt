//! One record that processors in threads of their own share, handed round by tickets.
#![tactic(auto)]

mod arbiter;
mod plays;
mod rule;
pub mod seat_bus;
pub mod seats;
