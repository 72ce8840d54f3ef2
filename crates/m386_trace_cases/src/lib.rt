//! Worked lines of a report.
#![tactic(auto)]

#[cfg(test)]
mod tests;
