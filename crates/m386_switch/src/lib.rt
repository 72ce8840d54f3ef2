//! The task switch: its checks in order, whole or at the first that fails; LTR; and the change to an inner stack.
#![tactic(auto)]

mod entered;
pub mod fields;
pub mod inner;
mod later;
pub mod laws;
pub mod ltr;
pub mod outcome;
mod parts;
pub mod switch;
mod written;
