//! CF as a number, and what a result says by its flags.
ghost use Rattle.std.specs.Prelude.{◌≡◌};
ghost use Rattle.m386_alu.specs.Flags.{with_result, carry_of};

use crate::width::has_sign;
use m386_base::flags::{Flag, put_flag};
use m386_base::number::{Flags, Width};

/// CF as a number.
pub fn carry(flags: Flags) -> u32
    ensures { result ≡ carry_of flags }
{
    flags.0 & 1
}

/// The flags with SF, ZF and PF as this result makes them. All other bits stay.
pub fn put_result(width: Width, value: u32, flags: Flags) -> Flags
    ensures { result ≡ with_result width value flags }
{
    let sign = put_flag(Flag::Sign, has_sign(width, value), flags);
    let zero = put_flag(Flag::Zero, value == 0, sign);
    put_flag(Flag::Parity, (value & 0xff).count_ones() % 2 == 0, zero)
}
