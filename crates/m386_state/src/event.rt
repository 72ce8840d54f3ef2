//! An event that waits for its delivery.

/// What made an event. It decides about EXT and about the gate's privilege test (PRM 9.6, 9.7).
#[derive(Clone, Copy, Debug, PartialEq, Eq)]
pub enum Cause {
    /// INT n, INT3 or INTO.
    Soft,
    /// An exception of the processor.
    Exception,
    /// A planned interrupt or one that was requested from outside.
    External,
}

/// An event: its vector, the error code where it has one, and its cause.
#[derive(Clone, Copy, Debug, PartialEq, Eq)]
pub struct Event {
    /// The number of the gate in the IDT.
    pub vector: u8,
    /// The error code that the handler is pushed.
    pub code: Option<u16>,
    /// What made the event.
    pub cause: Cause,
}
