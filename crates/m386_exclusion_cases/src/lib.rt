//! Clean runs with a task switch in them: of these the law of exclusion speaks.
#![tactic(auto)]

pub mod shown;
#[cfg(test)]
mod tests;
