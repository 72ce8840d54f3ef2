//! The operations of the machine and how they are spelled: one table of opcode rows, and what a string of bytes reads as.
#![tactic(auto)]

pub mod fields;
pub mod form;
mod lookup;
pub mod name;
pub mod op;
pub mod operand;
pub mod outcome;
pub mod reading;
pub mod row;
pub mod rows;
