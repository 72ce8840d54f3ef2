//! Moves, arithmetic, shifts and tests of bits, on registers and memory.
#![tactic(auto)]

pub mod action;
pub mod alone;
pub mod bit_strings;
pub mod bound;
pub mod change;
pub mod compare;
pub mod exec;
pub mod laws;
pub mod moves;
pub mod products;
pub mod update;
