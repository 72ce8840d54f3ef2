//! The first walk over a text, as far as it has come.

use crate::value::Names;
use m386_words::expression::Expression;

/// What the lines so far say together.
#[derive(Drop)]
pub(crate) struct Surveying<'a> {
    /// How many they are.
    pub(crate) lines: u64,
    /// Where they end.
    pub(crate) place: u128,
    /// Their names.
    pub(crate) names: Names<'a>,
    /// The first memory size.
    pub(crate) memory: Option<Expression<'a>>,
    /// The first number of processors.
    pub(crate) cpus: Option<Expression<'a>>,
}
