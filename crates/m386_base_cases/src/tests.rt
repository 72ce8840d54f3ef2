//! What stands below every other crate.
mod accesses;
mod edges;
mod memory;
