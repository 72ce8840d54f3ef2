//! What the lines of a text say together.

use crate::value::Names;

/// What the lines of a text say together.
#[derive(Drop)]
pub(crate) struct Survey<'a> {
    /// The names.
    pub(crate) names: Names<'a>,
    /// The first memory size, if its names are known.
    pub(crate) memory: Option<i128>,
    /// The first number of processors, if its names are known.
    pub(crate) cpus: Option<i128>,
}
