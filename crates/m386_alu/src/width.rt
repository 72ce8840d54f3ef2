//! The numbers of a width.
ghost use Rattle.std.specs.Prelude.{◌≡◌, ◌+◌, ◌-◌, ◌*◌, ◌<◌, ◌^◌};
ghost use Rattle.m386_alu.specs.Width.{bits, is_negative};

use m386_base::number::Width;

/// How many bits an operand of this width has: 8, 16 or 32 (PRM 2.2).
pub fn bits_of(width: Width) -> u32
    ensures { result ≡ bits width }
{
    match width {
        Width::W8 => 8,
        Width::W16 => 16,
        Width::W32 => 32,
    }
}

/// The greatest number of this width, whose bits are all 1.
pub fn max_of(width: Width) -> u32
    ensures { result ≡ 2 ^ bits width - 1 }
{
    match width {
        Width::W8 => 0xff,
        Width::W16 => 0xffff,
        Width::W32 => 0xffff_ffff,
    }
}

/// Whether the top bit of a number of this width is 1 (PRM 2.2).
pub fn has_sign(width: Width, number: u32) -> bool
    ensures { result ≡ is_negative (bits width) number }
{
    number > max_of(width) / 2
}

/// Two numbers of a width as one of twice the width.
pub fn double(width: Width, upper: u32, lower: u32) -> u64
    requires { lower < 2 ^ bits width }
    ensures { result ≡ upper * 2 ^ bits width + lower }
{
    (upper as u64) << bits_of(width) | lower as u64
}
