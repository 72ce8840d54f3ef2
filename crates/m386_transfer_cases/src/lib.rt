//! Worked steps of jumps, calls and returns, near and far.
#![tactic(auto)]

#[cfg(test)]
mod tests;
