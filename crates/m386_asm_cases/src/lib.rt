//! Worked texts of the assembler.
#![tactic(auto)]

#[cfg(test)]
mod tests;
