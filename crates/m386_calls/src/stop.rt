//! Why words give no call.
use crate::usage::UsageKind;

/// Why there is no call.
#[derive(Clone, Copy, Debug, PartialEq, Eq)]
pub enum CallStop {
    /// There was no memory to read the words.
    Memory,
    /// The words are refused.
    Refused(UsageKind),
}
