//! Quotients and remainders.
ghost use Rattle.std.specs.Prelude.{◌≡◌, ◌+◌, ◌/◌, ◌%◌, ◌<◌, ◌^◌, true, false, IfSome};
ghost use Rattle.m386_alu.specs.Division.{quotient_of, div_of};
ghost use Rattle.m386_alu.specs.Signs.{magnitude_of};
ghost use Rattle.m386_alu.specs.Width.{bits};

use crate::signs::{fits_signed, has_top_bit, magnitude, with_sign};
use crate::width::{bits_of, double, has_sign, max_of};
use m386_base::number::Width;

/// The quotient and the remainder of numbers read without a sign.
#[tactic(auto, unfolding(crate::specs::Division::quotient_of))]
fn divide_unsigned(width: Width, dividend: u64, by: u32) -> Option<(u32, u32)>
    requires by_fits { by < 2 ^ bits width }
    requires by { 0 < by }
    ensures { result ≡ quotient_of false (bits width) dividend by }
{
    let quotient = dividend / by as u64;
    if quotient > max_of(width) as u64 {
        return None;
    }
    Some((quotient as u32, (dividend % by as u64) as u32))
}

/// The quotient and the remainder of the magnitudes of numbers read with a sign.
fn divide_magnitudes(width: Width, dividend: u64, by: u32) -> (u64, u64)
    requires dividend_fits { dividend < 2 ^ (bits width + bits width) }
    requires by_fits { by < 2 ^ bits width }
    requires by { 0 < by }
    ensures quotient { result.0 ≡ magnitude_of (bits width + bits width) dividend / magnitude_of (bits width) by }
    ensures rest { result.1 ≡ magnitude_of (bits width + bits width) dividend % magnitude_of (bits width) by }
    ensures small { result.1 < 2 ^ bits width }
{
    let bits = bits_of(width);
    let dividend_size = magnitude(2 * bits, dividend);
    let by_size = magnitude(bits, by as u64);
    (dividend_size / by_size, dividend_size % by_size)
}

/// The quotient and the remainder of numbers read with a sign: those of the magnitudes, with their signs.
fn divide_signed(width: Width, dividend: u64, by: u32) -> Option<(u32, u32)>
    requires dividend_fits { dividend < 2 ^ (bits width + bits width) }
    requires by_fits { by < 2 ^ bits width }
    requires by { 0 < by }
    ensures { result ≡ quotient_of true (bits width) dividend by }
{
    let bits = bits_of(width);
    let negative = has_top_bit(2 * bits, dividend);
    let quotient_negative = negative != has_sign(width, by);
    let (quotient, rest) = divide_magnitudes(width, dividend, by);
    if !fits_signed(bits, quotient, quotient_negative) {
        return None;
    }
    let quotient = with_sign(bits, quotient, quotient_negative);
    Some((quotient as u32, with_sign(bits, rest, negative) as u32))
}

/// The quotient and the remainder of a number of two halves by an operand.
#[tactic(auto, unfolding(crate::specs::Division::div_of), using(crate::proofs::Doubling::both_fit))]
fn divide(signed: bool, width: Width, high: u32, low: u32, by: u32) -> Option<(u32, u32)>
    requires high_fits { high < 2 ^ bits width }
    requires low_fits { low < 2 ^ bits width }
    requires by_fits { by < 2 ^ bits width }
    ensures { result ≡ div_of signed width high low by }
{
    if by == 0 {
        return None;
    }
    let dividend = double(width, high, low);
    if signed {
        divide_signed(width, dividend, by)
    } else {
        divide_unsigned(width, dividend, by)
    }
}

/// The quotient and the remainder of a number of two halves by an operand, read with or without a sign (PRM 3.2.4): None
/// exactly where the operand is 0 or the quotient doesn't fit the width. A signed quotient is rounded toward zero, and may
/// be the least number of its width (own choice). It takes no memory.
pub fn div(signed: bool, width: Width, high: u32, low: u32, by: u32) -> Option<(u32, u32)>
    requires high_fits { high < 2 ^ bits width }
    requires low_fits { low < 2 ^ bits width }
    requires by_fits { by < 2 ^ bits width }
    ensures exact { result ≡ div_of signed width high low by }
    ensures fits { IfSome result (λ p. (p.0 < 2 ^ bits width) × (p.1 < 2 ^ bits width)) }
{
    divide(signed, width, high, low, by)
}
