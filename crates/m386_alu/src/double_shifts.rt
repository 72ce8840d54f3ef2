//! Double shifts: SHLD and SHRD.
ghost use Rattle.std.specs.Prelude.{◌≡◌, ◌<◌, ◌≤◌, ◌^◌, if◌then◌else◌};
ghost use Rattle.m386_alu.specs.DoubleShifts.{shifted_left_into, shifted_right_into, after_double_shift, double_shift_of};
ghost use Rattle.m386_alu.specs.Flags.{KeepsOthers};
ghost use Rattle.m386_alu.specs.Width.{bits};

use crate::flags::put_result;
use crate::shifts::put_sign_change;
use crate::width::{bits_of, double, max_of};
use m386_base::flags::{Flag, put_flag};
use m386_base::number::{Flags, Width};

/// A number after SHLD, and CF: the bit moved out last.
fn shift_left_into(width: Width, a: u32, b: u32, count: u32) -> (u32, u32)
    requires a_fits { a < 2 ^ bits width }
    requires b_fits { b < 2 ^ bits width }
    requires count { (0 < count) × (count < 32) × (count ≤ bits width) }
    ensures { result ≡ shifted_left_into (bits width) count a b }
{
    let bits = bits_of(width);
    let both = double(width, a, b);
    let value = both << count >> bits & max_of(width) as u64;
    (value as u32, (both >> (2 * bits - count) & 1) as u32)
}

/// A number after SHRD, and CF: the bit moved out last.
fn shift_right_into(width: Width, a: u32, b: u32, count: u32) -> (u32, u32)
    requires a_fits { a < 2 ^ bits width }
    requires b_fits { b < 2 ^ bits width }
    requires count { (0 < count) × (count < 32) × (count ≤ bits width) }
    ensures { result ≡ shifted_right_into (bits width) count a b }
{
    let both = double(width, b, a);
    let value = both >> count & max_of(width) as u64;
    (value as u32, (both >> (count - 1) & 1) as u32)
}

/// A number and CF after a double shift.
fn move_between(left: bool, width: Width, a: u32, b: u32, count: u32) -> (u32, u32)
    requires a_fits { a < 2 ^ bits width }
    requires b_fits { b < 2 ^ bits width }
    requires count { (0 < count) × (count < 32) × (count ≤ bits width) }
    ensures { result ≡ (if left then shifted_left_into (bits width) count a b else shifted_right_into (bits width) count a b) }
{
    if left {
        shift_left_into(width, a, b, count)
    } else {
        shift_right_into(width, a, b, count)
    }
}

/// A number and the flags after a double shift by the low 5 bits of a count.
#[tactic(auto, unfolding(crate::specs::DoubleShifts::double_shift_of))]
fn double_shift_by(
    left: bool,
    width: Width,
    a: u32,
    b: u32,
    count: u8,
    flags: Flags,
) -> (u32, Flags)
    requires a_fits { a < 2 ^ bits width }
    requires b_fits { b < 2 ^ bits width }
    ensures { result ≡ double_shift_of left width a b count flags }
{
    let count = count as u32 % 32;
    if count == 0 || count > bits_of(width) {
        return (a, flags);
    }
    let (value, out) = move_between(left, width, a, b, count);
    let flags = put_sign_change(width, count, a, value, flags);
    let flags = put_flag(Flag::Carry, out == 1, flags);
    (value, put_result(width, value, flags))
}

/// A number after SHLD (`left`) or SHRD with bits of `b` moved in, and the flags after it (PRM 3.4.4.2). Of the count the
/// low 5 bits count; where these are more than the width nothing changes, OF after a single one says that the sign changed,
/// and AF stays (own choices). The 80386 has these operations for 16 and 32 bits. It takes no memory.
pub fn double_shift(
    left: bool,
    width: Width,
    a: u32,
    b: u32,
    count: u8,
    flags: Flags,
) -> (u32, Flags)
    requires a_fits { a < 2 ^ bits width }
    requires b_fits { b < 2 ^ bits width }
    ensures exact { result ≡ double_shift_of left width a b count flags }
    ensures fits { result.0 < 2 ^ bits width }
    ensures others { KeepsOthers flags result.1 }
{
    double_shift_by(left, width, a, b, count, flags)
}
