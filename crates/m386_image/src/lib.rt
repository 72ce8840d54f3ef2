//! The image file: what a machine begins with, read from bytes and written as bytes.
#![tactic(auto)]

pub mod fault;
pub mod image;
pub mod laws;
mod number;
mod plan;
pub mod reading;
mod section;
#[cfg(test)]
mod tests;
pub mod writing;
