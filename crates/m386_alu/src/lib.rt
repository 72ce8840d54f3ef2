//! Arithmetic, logic, shifts, bit tests, products and quotients of the 80386, as functions of plain values. Each answers a
//! result and the flags register after it. None takes memory.
#![tactic(auto)]

pub mod arithmetic;
pub mod bit_tests;
pub mod division;
pub mod double_shifts;
pub mod flags;
mod logic;
pub mod products;
mod rotates;
pub mod shifts;
mod signs;
mod sums;
pub mod width;
