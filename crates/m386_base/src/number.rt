//! The widths of operands and the flags register, as plain values.

/// How wide an operand is.
#[derive(Clone, Copy, Debug, PartialEq, Eq)]
pub enum Width {
    /// A byte.
    W8,
    /// A word of 16 bits.
    W16,
    /// A doubleword of 32 bits.
    W32,
}

/// The EFLAGS register (PRM 2.3.4.1).
#[derive(Clone, Copy, Debug, PartialEq, Eq)]
pub struct Flags(pub u32);
