//! What a name is.
ghost use Rattle.m386_asm.specs.Bounds.{IsNameValue};

/// What a name is: its value, and the line that defines it first.
#[derive(Clone, Copy)]
pub(crate) struct Named {
    /// The value, a place or a number.
    pub(crate) value: i128,
    /// The number of the line, from 1.
    pub(crate) line: u64,
    /// The value is no larger than a text can make it.
    pub(crate) ghost fits: { IsNameValue value },
}
