//! Worked words of the assembler's text.
#![tactic(auto)]

#[cfg(test)]
mod tests;
