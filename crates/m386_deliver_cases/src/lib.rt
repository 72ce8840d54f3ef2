//! Worked deliveries, returns from them, and second faults.
#![tactic(auto)]

#[cfg(test)]
mod tests;
