//! Worked descriptors, first states, fields of a task state segment, check tables and arithmetic.
#![tactic(auto)]

#[cfg(test)]
mod tests;
