//! Operations on segment registers and on selectors: MOV from and to a segment register, LDS, LES, LFS, LGS, LSS, LAR, LSL, VERR,
//! VERW and ARPL.
#![tactic(auto)]

pub mod adjust;
pub mod exec;
pub mod found;
pub mod laws;
pub mod names;
pub mod pointers;
pub mod registers;
pub mod zero;
