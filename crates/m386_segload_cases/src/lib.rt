//! Worked rules of descriptors, and loads by them.
#![tactic(auto)]

#[cfg(test)]
mod tests;
