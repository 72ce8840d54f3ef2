//! Descriptors by their selectors: the tables of rules that a load makes, loads of segment registers and of LDTR, and what LAR,
//! LSL, VERR, VERW and ARPL find.
#![tactic(auto)]

pub mod arpl;
pub mod descriptor;
pub mod laws;
pub mod load;
pub mod look;
pub mod pointer;
pub mod requirements;
pub mod rules;
pub mod segment;
pub mod tables;
pub mod wanted;
