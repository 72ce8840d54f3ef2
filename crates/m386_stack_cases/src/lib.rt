//! Worked operations on the stack.
#![tactic(auto)]

#[cfg(test)]
mod tests;
