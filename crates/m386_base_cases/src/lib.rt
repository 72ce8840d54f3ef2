//! Worked accesses, memory and its history, and what sources and sinks give and take.
#![tactic(auto)]

#[cfg(test)]
mod tests;
