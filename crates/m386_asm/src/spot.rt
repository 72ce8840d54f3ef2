//! Where a line stands.
ghost use Rattle.std.specs.Prelude.{◌<◌, ◌^◌};
ghost use Rattle.m386_asm.specs.Bounds.{IsPlace};

/// Where a line stands.
#[derive(Clone, Copy)]
pub(crate) struct Spot {
    /// How many lines stand before it.
    pub(crate) lines: u64,
    /// The place of its first byte.
    pub(crate) place: u128,
    /// How many bytes it has.
    pub(crate) len: u128,
    /// The place is no larger than a text can make it.
    pub(crate) ghost placed: { IsPlace place },
    /// Nor is the number of bytes.
    pub(crate) ghost short: { len < 2 ^ 69 },
}
