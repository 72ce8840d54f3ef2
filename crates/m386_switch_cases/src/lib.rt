//! Worked task switches: each row of the check table, whole switches, their effects, and where task state segments may lie.
#![tactic(auto)]

#[cfg(test)]
mod tests;
