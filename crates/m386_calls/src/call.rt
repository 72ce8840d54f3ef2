//! What a call asks for.
use m386_core::order::Order;

/// What decides who makes the next cycle.
#[derive(Debug, Drop)]
pub enum Schedule {
    /// Each processor runs in a thread of its own, and whichever comes first goes on.
    Threads,
    /// An order that names processors.
    Named(Order),
}

/// What the words of a run ask for.
#[derive(Debug, Drop)]
pub struct Asked {
    /// How many processors run, 1 to 8. `None`: all that the image has.
    pub cpus: Option<u8>,
    /// The most steps of each processor, at most 65,536.
    pub steps: u32,
    /// What decides who makes the next cycle.
    pub schedule: Schedule,
}

/// What a call asks for.
#[derive(Debug, Drop)]
pub enum Call {
    /// The run of an image that the input has.
    Run(Asked),
    /// The image of a source text that the input has.
    Assemble,
    /// The run of the image that is made from this number.
    Soak(u64),
}
