//! Products of two operands.
ghost use Rattle.std.specs.Prelude.{◌≡◌, ◌+◌, ◌<◌, ◌^◌, true};
ghost use Rattle.m386_alu.specs.Flags.{KeepsOthers};
ghost use Rattle.m386_alu.specs.Products.{product_of, extension, halves_of, mul_of};
ghost use Rattle.m386_alu.specs.Width.{bits};

use crate::signs::{magnitude, with_sign};
use crate::width::{bits_of, has_sign, max_of};
use m386_base::flags::{Flag, put_flag};
use m386_base::number::{Flags, Width};

/// The product of two numbers read with a sign, as a number of twice their width.
fn signed_product(width: Width, a: u32, b: u32) -> u64
    requires a_fits { a < 2 ^ bits width }
    requires b_fits { b < 2 ^ bits width }
    ensures { result ≡ product_of true (bits width) a b }
{
    let bits = bits_of(width);
    let product = magnitude(bits, a as u64) * magnitude(bits, b as u64);
    let negative = has_sign(width, a) != has_sign(width, b);
    with_sign(2 * bits, product, negative)
}

/// The product of two numbers as a number of twice their width.
fn product(signed: bool, width: Width, a: u32, b: u32) -> u64
    requires a_fits { a < 2 ^ bits width }
    requires b_fits { b < 2 ^ bits width }
    ensures exact { result ≡ product_of signed (bits width) a b }
    ensures fits { result < 2 ^ (bits width + bits width) }
{
    if signed {
        signed_product(width, a, b)
    } else {
        a as u64 * b as u64
    }
}

/// The upper half of a product that is no longer than its lower half.
fn extend(signed: bool, width: Width, low: u32) -> u32
    ensures { result ≡ extension signed (bits width) low }
{
    if signed && has_sign(width, low) {
        max_of(width)
    } else {
        0
    }
}

/// A product in two halves, and the flags after it.
fn halve(signed: bool, width: Width, product: u64, flags: Flags) -> (u32, u32, Flags)
    requires { product < 2 ^ (bits width + bits width) }
    ensures { result ≡ halves_of signed (bits width) product flags }
{
    let high = (product >> bits_of(width)) as u32;
    let low = (product & max_of(width) as u64) as u32;
    let longer = high != extend(signed, width, low);
    let flags = put_flag(Flag::Overflow, longer, flags);
    (high, low, put_flag(Flag::Carry, longer, flags))
}

/// The upper and the lower half of the product of two operands of a width, read with or without a sign (PRM 3.2.3), and the
/// flags after it: CF and OF say that the upper half isn't the extension of the lower. SF, ZF, AF and PF stay (own choice).
/// It takes no memory.
pub fn mul(signed: bool, width: Width, a: u32, b: u32, flags: Flags) -> (u32, u32, Flags)
    requires a_fits { a < 2 ^ bits width }
    requires b_fits { b < 2 ^ bits width }
    ensures exact { result ≡ mul_of signed width a b flags }
    ensures high_fits { result.0 < 2 ^ bits width }
    ensures low_fits { result.1 < 2 ^ bits width }
    ensures others { KeepsOthers flags result.2 }
{
    halve(signed, width, product(signed, width, a, b), flags)
}
