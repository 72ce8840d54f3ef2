//! Worked steps: what a step is, decoding, deliveries, strings, and operations on the processor itself.
#![tactic(auto)]

#[cfg(test)]
mod tests;
