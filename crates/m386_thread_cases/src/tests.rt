//! Threads that share a record or take turns.
mod seats;
mod turns;
