//! A segment or system descriptor as a plain value, in the state and in the tables.
ghost use Rattle.std.specs.Prelude.{◌<◌, ◌^◌};

/// A descriptor's four numbers (PRM 5.1.1). Make one by `Desc::new`, whose contract says which value it is.
#[derive(Clone, Copy, Debug, PartialEq, Eq)]
pub struct Desc {
    /// The linear address of the segment's first byte, or bits 16 to 47 of a gate as they stand there.
    pub base: u32,
    /// The 20 bits of the limit as they stand in the descriptor, in bytes or in pages of 4,096.
    pub raw_limit: u32,
    /// Byte 5: type, S, DPL and P.
    pub access: u8,
    /// The high half of byte 6: G, D/B, a bit that stays 0, and AVL.
    pub flags: u8,
    pub ghost limit_fits: { raw_limit < 2 ^ 20 },
    pub ghost flags_fit: { flags < 16 },
}

impl Desc {
    ghost use Rattle.std.specs.Prelude.{◌≡◌, ◌<◌, ◌^◌};
    ghost use Rattle.m386_base.specs.Descriptor.{descriptor};

    /// The descriptor of these numbers. It takes no memory.
    pub fn new(base: u32, raw_limit: u32, access: u8, flags: u8) -> Desc
        requires limit { raw_limit < 2 ^ 20 }
        requires flags { flags < 16 }
        ensures { result ≡ descriptor base raw_limit access flags }
    {
        Desc {
            base,
            raw_limit,
            access,
            flags,
        }
    }
}
