//! Numbers of some bits and the whole numbers that they stand for.
ghost use Rattle.std.specs.Prelude.{◌≡◌, ◌-◌, ◌<◌, ◌≤◌, ◌^◌};
ghost use Rattle.m386_alu.specs.Signs.{modulo, magnitude_of, signed_by};
ghost use Rattle.m386_alu.specs.Width.{is_negative, is_signed_number};

/// The greatest number of 1 to 64 bits, whose bits are all 1.
pub fn max_of_bits(bits: u32) -> u64
    requires { (1 ≤ bits) × (bits ≤ 64) }
    ensures { result ≡ 2 ^ bits - 1 }
{
    u64::MAX >> (64 - bits)
}

/// Whether the top bit of a number of 1 to 64 bits is 1.
pub fn has_top_bit(bits: u32, number: u64) -> bool
    requires { (1 ≤ bits) × (bits ≤ 64) }
    ensures { result ≡ is_negative bits number }
{
    number > max_of_bits(bits) / 2
}

/// How far the signed reading of a number of 1 to 64 bits is from 0.
pub fn magnitude(bits: u32, number: u64) -> u64
    requires bits { (1 ≤ bits) × (bits ≤ 64) }
    requires fits { number < 2 ^ bits }
    ensures { result ≡ magnitude_of bits number }
{
    if has_top_bit(bits, number) {
        max_of_bits(bits) - number + 1
    } else {
        number
    }
}

/// The number of 1 to 64 bits that stands for the whole number so far from 0, below it or above.
#[tactic(auto, using(crate::proofs::Magnitudes::modulo_fits))]
pub fn with_sign(bits: u32, magnitude: u64, negative: bool) -> u64
    requires bits { (1 ≤ bits) × (bits ≤ 64) }
    requires fits { magnitude < 2 ^ bits }
    ensures exact { result ≡ modulo bits (signed_by negative magnitude) }
    ensures fits { result < 2 ^ bits }
{
    if negative {
        0u64.wrapping_sub(magnitude) & max_of_bits(bits)
    } else {
        magnitude
    }
}

/// Whether the whole number so far from 0, below it or above, is the signed reading of a number of 1 to 63 bits.
pub fn fits_signed(bits: u32, magnitude: u64, negative: bool) -> bool
    requires bits { (1 ≤ bits) × (bits ≤ 63) }
    ensures { result ≡ is_signed_number bits (signed_by negative magnitude) }
{
    let most = max_of_bits(bits) / 2;
    if negative {
        magnitude <= most + 1
    } else {
        magnitude <= most
    }
}
