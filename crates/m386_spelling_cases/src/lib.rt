//! Worked spellings: what strings of bytes read as, how they are decoded, and what is written for an operation.
#![tactic(auto)]

#[cfg(test)]
mod tests;
