//! An operation with its length.

use m386_opmap::op::Op;

/// An operation that was decoded.
#[derive(Debug, PartialEq, Eq, Drop)]
pub struct Decoded {
    /// The operation.
    pub op: Op,
    /// How many bytes its spelling has, 1 to 15.
    pub len: u8,
}
