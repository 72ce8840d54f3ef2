//! Rotates of numbers, alone and with a carry above them.
ghost use Rattle.std.specs.Prelude.{◌≡◌, ◌<◌, ◌≤◌, ◌^◌, ◌+◌, ◌*◌, ◌/◌, ◌%◌, ℕ};
ghost use Rattle.m386_alu.specs.Shifts.{shifted};
ghost use Rattle.m386_alu.specs.declared.shifts.ShiftOp.TheVariants.{Rol, Ror, Rcl, Rcr};
ghost use Rattle.m386_alu.specs.Width.{bits};
ghost use Rattle.m386_alu.specs.Turns.{turned_left, turned_right};

use crate::width::{bits_of, max_of};
use m386_base::number::Width;

/// A number of some bits with its bits turned to the left.
fn turn_left(number: u64, bits: u32, count: u32) -> u64
    requires fits { number < 2 ^ bits }
    requires bits { (8 ≤ bits) × (bits ≤ 33) }
    requires count { count < 32 }
    ensures exact { result ≡ turned_left bits count number }
    ensures fits { result < 2 ^ bits }
{
    let places = count % bits;
    let max = (1 << bits) - 1;
    number << places & max | number >> (bits - places)
}

/// A number of some bits with its bits turned to the right.
fn turn_right(number: u64, bits: u32, count: u32) -> u64
    requires fits { number < 2 ^ bits }
    requires bits { (8 ≤ bits) × (bits ≤ 33) }
    requires count { count < 32 }
    ensures exact { result ≡ turned_right bits count number }
    ensures fits { result < 2 ^ bits }
{
    let places = count % bits;
    let leaving = number & ((1 << places) - 1);
    leaving << (bits - places) | number >> places
}

/// A number after ROL, and CF: its lowest bit, which was moved out last.
pub fn rotate_left(width: Width, number: u32, count: u32) -> (u32, u32)
    requires fits { number < 2 ^ bits width }
    requires count { (0 < count) × (count < 32) }
    ensures { (c : ℕ) → result ≡ shifted Rol (bits width) count (number, c) }
{
    let value = turn_left(number as u64, bits_of(width), count) as u32;
    (value, value & 1)
}

/// A number after ROR, and CF: its top bit, which was moved out last.
pub fn rotate_right(width: Width, number: u32, count: u32) -> (u32, u32)
    requires fits { number < 2 ^ bits width }
    requires count { (0 < count) × (count < 32) }
    ensures { (c : ℕ) → result ≡ shifted Ror (bits width) count (number, c) }
{
    let bits = bits_of(width);
    let value = turn_right(number as u64, bits, count) as u32;
    (value, value >> (bits - 1))
}

/// A number with the carry as a bit above it.
fn join(width: Width, number: u32, carry: u32) -> u64
    requires fits { number < 2 ^ bits width }
    requires carry { carry < 2 }
    ensures exact { result ≡ carry * 2 ^ bits width + number }
    ensures fits { result < 2 ^ (bits width + 1) }
{
    (carry as u64) << bits_of(width) | number as u64
}

/// A number and the bit above it.
fn part(width: Width, joined: u64) -> (u32, u32)
    requires { joined < 2 ^ (bits width + 1) }
    ensures value { result.0 ≡ joined % 2 ^ bits width }
    ensures carry { result.1 ≡ joined / 2 ^ bits width }
{
    let value = joined & max_of(width) as u64;
    (value as u32, (joined >> bits_of(width)) as u32)
}

/// A number and CF after RCL: the carry stands above the number, and both turn.
pub fn rotate_left_with_carry(width: Width, number: u32, count: u32, carry: u32) -> (u32, u32)
    requires fits { number < 2 ^ bits width }
    requires count { count < 32 }
    requires carry { carry < 2 }
    ensures { result ≡ shifted Rcl (bits width) count (number, carry) }
{
    part(
        width,
        turn_left(join(width, number, carry), bits_of(width) + 1, count),
    )
}

/// A number and CF after RCR: the carry stands above the number, and both turn.
pub fn rotate_right_with_carry(width: Width, number: u32, count: u32, carry: u32) -> (u32, u32)
    requires fits { number < 2 ^ bits width }
    requires count { count < 32 }
    requires carry { carry < 2 }
    ensures { result ≡ shifted Rcr (bits width) count (number, carry) }
{
    part(
        width,
        turn_right(join(width, number, carry), bits_of(width) + 1, count),
    )
}
