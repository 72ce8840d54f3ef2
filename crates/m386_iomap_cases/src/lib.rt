//! Worked cases of IN, OUT and the I/O map: each spelling, which levels need the map, and which ports a map allows.
#![tactic(auto)]

#[cfg(test)]
mod tests;
