//! What a source or a sink answers where it can't go on.

/// A read or a write failed. The source or sink counted it.
#[derive(Clone, Copy, Debug, PartialEq, Eq)]
pub struct Failed;
