//! Worked books of tasks, and verdicts on runs.
#![tactic(auto)]

#[cfg(test)]
mod tests;
