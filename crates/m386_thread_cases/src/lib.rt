//! Worked cases of threads: seats at the arbiter, and turns under one lock.
#![tactic(auto)]

#[cfg(test)]
mod tests;
