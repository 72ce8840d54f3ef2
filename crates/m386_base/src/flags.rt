//! Bits of a number, and the flags as bits of the flags register.
ghost use Rattle.std.specs.Prelude.{◌≡◌, ◌<◌};
ghost use Rattle.m386_base.specs.Flags.{place, has_bit, with_flag, has_flag};

use crate::number::Flags;

/// A flag of one bit (PRM 2.3.4.1).
#[derive(Clone, Copy, Debug, PartialEq, Eq)]
pub enum Flag {
    /// CF, bit 0.
    Carry,
    /// PF, bit 2.
    Parity,
    /// AF, bit 4.
    Adjust,
    /// ZF, bit 6.
    Zero,
    /// SF, bit 7.
    Sign,
    /// TF, bit 8.
    Trap,
    /// IF, bit 9.
    Interrupt,
    /// DF, bit 10.
    Direction,
    /// OF, bit 11.
    Overflow,
    /// NT, bit 14.
    NestedTask,
}

/// Whether bit k of a number is 1.
pub fn has_bit(number: u32, k: u32) -> bool
    requires { k < 32 }
    ensures { result ≡ has_bit number k }
{
    number >> k & 1 == 1
}

/// The place of a flag in the flags register.
fn place_of(flag: Flag) -> u32
    ensures exact { result ≡ place flag }
    ensures inside { result < 32 }
{
    match flag {
        Flag::Carry => 0,
        Flag::Parity => 2,
        Flag::Adjust => 4,
        Flag::Zero => 6,
        Flag::Sign => 7,
        Flag::Trap => 8,
        Flag::Interrupt => 9,
        Flag::Direction => 10,
        Flag::Overflow => 11,
        Flag::NestedTask => 14,
    }
}

/// Whether a flag is 1.
pub fn has_flag(flag: Flag, flags: Flags) -> bool
    ensures { result ≡ has_flag flag flags }
{
    has_bit(flags.0, place_of(flag))
}

/// The flags with one of them put to a value. All other bits stay.
pub fn put_flag(flag: Flag, value: bool, flags: Flags) -> Flags
    ensures { result ≡ with_flag flag value flags }
{
    let mask = 1 << place_of(flag);
    Flags(if value {
        flags.0 | mask
    } else {
        flags.0 & !mask
    })
}
