//! The second walk over a text, as far as it has come.

use crate::drafted::Draft;
use crate::noted::Noted;

/// What is known of the lines so far, none of which is faulty.
#[derive(Drop)]
pub(crate) struct Walk {
    /// How many they are.
    pub(crate) lines: u64,
    /// Where they end.
    pub(crate) place: u128,
    /// What they gave once.
    pub(crate) noted: Noted,
    /// What they lay out.
    pub(crate) draft: Draft,
    /// Whether they lay anything out: no bytes are made where the memory's size isn't valid, since a fault comes in any case.
    pub(crate) makes: bool,
}
