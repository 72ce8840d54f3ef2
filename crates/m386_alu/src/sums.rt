//! Sums and differences with their flags.
ghost use Rattle.std.specs.Prelude.{◌≡◌, ◌+◌, ◌-◌, ◌/◌, ◌%◌, ◌^◌, ◌<◌, ◌≤◌, ◌==◌, ◌+ℤ◌, ◌-ℤ◌, pos, not, nat_le, nat_lt};
ghost use Rattle.m386_alu.specs.Sums.{sum_of, difference_of};
ghost use Rattle.m386_alu.specs.Width.{bits, signed, is_signed_number};

use crate::flags::put_result;
use crate::width::{has_sign, max_of};
use m386_base::flags::{Flag, put_flag};
use m386_base::number::{Flags, Width};

/// Whether bit 4 of three numbers has an odd number of ones: there a carry or borrow out of the low four bits shows.
fn crosses_nibble(a: u32, b: u32, value: u32) -> bool
    ensures { result ≡ not ((a / 16 + b / 16 + value / 16) % 2 == 0) }
{
    (a ^ b ^ value) & 0x10 != 0
}

/// Whether a sum is no signed number of the width: two operands of one sign, and a result of the other.
fn sum_overflows(width: Width, a: u32, b: u32, carry: u32, value: u32) -> bool
    requires a_fits { a < 2 ^ bits width }
    requires b_fits { b < 2 ^ bits width }
    requires carry { carry ≤ 1 }
    requires sum { value ≡ (a + b + carry) % 2 ^ bits width }
    ensures { result ≡ not (is_signed_number (bits width) (signed (bits width) a +ℤ signed (bits width) b +ℤ pos carry)) }
{
    let negative = has_sign(width, a);
    has_sign(width, b) == negative && has_sign(width, value) != negative
}

/// The sum of two operands and a carry of 0 or 1, and the flags after it (PRM 3.2.1).
pub fn sum(width: Width, a: u32, b: u32, carry: u32, flags: Flags) -> (u32, Flags)
    requires a_fits { a < 2 ^ bits width }
    requires b_fits { b < 2 ^ bits width }
    requires carry { carry ≤ 1 }
    ensures { result ≡ sum_of width a b carry flags }
{
    let max = max_of(width) as u64;
    let total = a as u64 + b as u64 + carry as u64;
    let value = (total & max) as u32;
    let flags = put_flag(
        Flag::Overflow,
        sum_overflows(width, a, b, carry, value),
        flags,
    );
    let flags = put_flag(Flag::Adjust, crosses_nibble(a, b, value), flags);
    let flags = put_flag(Flag::Carry, total > max, flags);
    (value, put_result(width, value, flags))
}

/// Whether a difference is no signed number of the width: two operands of two signs, and a result of the second's.
fn difference_overflows(width: Width, a: u32, b: u32, borrow: u32, value: u32) -> bool
    requires a_fits { a < 2 ^ bits width }
    requires b_fits { b < 2 ^ bits width }
    requires borrow { borrow ≤ 1 }
    requires difference { value ≡ (a + 2 ^ bits width - (b + borrow)) % 2 ^ bits width }
    ensures { result ≡ not (is_signed_number (bits width) (signed (bits width) a -ℤ signed (bits width) b -ℤ pos borrow)) }
{
    let negative = has_sign(width, a);
    has_sign(width, b) != negative && has_sign(width, value) != negative
}

/// The difference of two operands and a borrow of 0 or 1, and the flags after it (PRM 3.2.1).
pub fn difference(width: Width, a: u32, b: u32, borrow: u32, flags: Flags) -> (u32, Flags)
    requires a_fits { a < 2 ^ bits width }
    requires b_fits { b < 2 ^ bits width }
    requires borrow { borrow ≤ 1 }
    ensures { result ≡ difference_of width a b borrow flags }
{
    let taken = b as u64 + borrow as u64;
    let value = a.wrapping_sub(b).wrapping_sub(borrow) & max_of(width);
    let flags = put_flag(
        Flag::Overflow,
        difference_overflows(width, a, b, borrow, value),
        flags,
    );
    let flags = put_flag(Flag::Adjust, crosses_nibble(a, b, value), flags);
    let flags = put_flag(Flag::Carry, taken > a as u64, flags);
    (value, put_result(width, value, flags))
}
