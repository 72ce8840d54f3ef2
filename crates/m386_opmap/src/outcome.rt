//! What a string of bytes reads as.

use crate::op::Op;

/// What bytes read as, from the first on.
#[derive(Debug, PartialEq, Eq, Drop)]
pub enum Reading {
    /// They begin with the spelling of an operation.
    Spelled {
        /// The operation.
        op: Op,
        /// How many bytes its spelling has.
        len: usize,
    },
    /// They are the begin of a spelling, and more bytes are to come.
    More,
    /// No spelling begins with them.
    Refused {
        /// The place of the first byte after which none does, from 0 on.
        at: usize,
    },
}
