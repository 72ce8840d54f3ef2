//! What the first bytes of an instruction say.
ghost use Rattle.std.specs.Prelude.{◌≡◌, Some, None, if◌then◌else◌};
ghost use Rattle.m386_opmap.specs.Prefix.{is_prefix, no_prefixes, with_prefix};

use crate::op::{Arg, Rep};

/// What prefixes say (PRM 17.2.1).
#[derive(Clone, Copy, Debug, PartialEq, Eq)]
pub struct Prefixes {
    /// The segment register of the last segment prefix: ES 0, CS 1, SS 2, DS 3, FS 4, GS 5.
    pub seg: Option<u8>,
    /// Whether the operand size is 16 bits, by the prefix 66h.
    pub narrow: bool,
    /// Whether there is LOCK.
    pub lock: bool,
    /// The last of the prefixes F2h and F3h.
    pub rep: Rep,
}

/// What the bytes of an instruction say before its immediate.
#[derive(Clone, Copy, Debug, PartialEq, Eq)]
pub struct Fields {
    /// What its prefixes say.
    pub prefixes: Prefixes,
    /// The number of its opcode, of an opcode 0Fh xx 0F00h + xx.
    pub opcode: u16,
    /// The middle bits of its ModRM byte, 0 where there is none.
    pub middle: u8,
    /// What its ModRM byte names, a register or memory.
    pub place: Option<Arg>,
}

impl Prefixes {
    /// What is said before the first prefix.
    pub fn none() -> Prefixes
        ensures { result ≡ no_prefixes }
    {
        Prefixes {
            seg: None,
            narrow: false,
            lock: false,
            rep: Rep::Once,
        }
    }

    /// What is said with one more byte behind, None where that is no prefix. The last of a kind holds.
    #[tactic(auto, unfolding(crate::specs::Prefix::is_prefix, crate::specs::Prefix::with_prefix))]
    pub fn with(&self, byte: u8) -> Option<Prefixes>
        ensures { result ≡ (if is_prefix byte then Some (with_prefix self.now byte) else None) }
    {
        let mut after = *self;
        match byte {
            0x26 => after.seg = Some(0),
            0x2e => after.seg = Some(1),
            0x36 => after.seg = Some(2),
            0x3e => after.seg = Some(3),
            0x64 => after.seg = Some(4),
            0x65 => after.seg = Some(5),
            0x66 => after.narrow = true,
            0xf0 => after.lock = true,
            0xf2 => after.rep = Rep::NotEqual,
            0xf3 => after.rep = Rep::Equal,
            _ => return None,
        }
        Some(after)
    }
}
