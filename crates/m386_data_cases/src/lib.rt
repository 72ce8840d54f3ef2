//! Worked operations on registers and memory, and their cycles.
#![tactic(auto)]

#[cfg(test)]
mod tests;
