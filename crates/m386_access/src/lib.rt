//! Operands in memory and their faults, the forms of operands, conditions, and the parts of a state that an instruction changes.
#![tactic(auto)]

pub mod access;
pub mod address;
pub mod after;
pub mod conditions;
pub mod modify;
pub mod operands;
pub mod ran;
pub mod registers;
