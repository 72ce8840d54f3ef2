//! Why a text gives no image.
ghost use Rattle.std.specs.Prelude.{◌≡◌};
ghost use Rattle.m386_asm.specs.declared.stop.AsmStop.TheVariants.{Memory};

use m386_base::fault::NoMemory;
use m386_lines::kind::AsmKind;

/// Why a text gives no image.
#[derive(Clone, Copy, Debug, PartialEq, Eq)]
pub enum AsmStop {
    /// There was no memory for what was to be kept.
    Memory,
    /// A line is faulty.
    Bad {
        /// The number of the first faulty line, from 1. That of a missing header is one more than the number of lines.
        line: u32,
        /// The least of its kinds.
        kind: AsmKind,
    },
}

impl From<NoMemory> for AsmStop {
    ghost from_gives = { λ _ stop. stop ≡ Memory };

    fn from(_: NoMemory) -> Self {
        AsmStop::Memory
    }
}
