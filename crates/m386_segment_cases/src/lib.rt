//! Worked steps of operations with segment registers and with stacks.
#![tactic(auto)]

#[cfg(test)]
mod tests;
