//! What a gate leads to.
ghost use Rattle.std.specs.Prelude.{◌≡◌};

/// A gate of the 386: the selector and the offset that it leads to, and how many doublewords a call through it copies
/// (PRM 6.3.4). A task gate has the selector alone.
#[derive(Clone, Copy, Debug, PartialEq, Eq)]
pub struct Gate4 {
    /// The selector of the code segment, or of a TSS.
    pub selector: u16,
    /// The offset in the code segment.
    pub offset: u32,
    /// The number of doublewords to copy, 0 to 31.
    pub count: u8,
}

impl Gate4 {
    ghost use Rattle.m386_desc.specs.Gate.{gate_in};
    ghost use Rattle.m386_desc.specs.Bytes.{two_doublewords};

    /// The gate that stands in two doublewords, the low one first.
    #[tactic(auto, unfolding(crate::specs::Gate::gate_in, crate::specs::Bytes::two_doublewords))]
    pub fn of(lo: u32, hi: u32) -> Gate4
        ensures { result ≡ gate_in (two_doublewords lo hi) }
    {
        Gate4 {
            selector: (lo >> 16) as u16,
            offset: (lo & 0xffff) + ((hi >> 16) << 16),
            count: (hi & 0x1f) as u8,
        }
    }
}
