//! Shifts and rotates with their flags.
ghost use Rattle.std.specs.Prelude.{◌≡◌, ◌<◌, ◌≤◌, ◌^◌, ◌*◌, ◌/◌, ◌%◌, ℕ};
ghost use Rattle.m386_alu.specs.Shifts.{shifted, shift_of, after_shift, with_shifted, with_sign_change};
ghost use Rattle.m386_alu.specs.Flags.{carry_of, KeepsOthers};
ghost use Rattle.m386_alu.specs.declared.shifts.ShiftOp.TheVariants.{Shl, Shr, Sar};
ghost use Rattle.m386_alu.specs.Width.{bits};

use crate::flags::{carry, put_result};
use crate::rotates::{rotate_left, rotate_left_with_carry, rotate_right, rotate_right_with_carry};
use crate::width::{bits_of, has_sign, max_of};
use m386_base::flags::{Flag, put_flag};
use m386_base::number::{Flags, Width};

/// A shift or rotate, in the order of the opcodes.
#[derive(Clone, Copy, Debug, PartialEq, Eq)]
pub enum ShiftOp {
    /// To the left; the bit moved out comes in.
    Rol,
    /// To the right; the bit moved out comes in.
    Ror,
    /// To the left through CF.
    Rcl,
    /// To the right through CF.
    Rcr,
    /// To the left; zeros come in.
    Shl,
    /// To the right; zeros come in.
    Shr,
    /// To the right; the sign comes in.
    Sar,
}

/// A number after SHL, and CF: the bit moved out last.
fn shift_left(width: Width, number: u32, count: u32) -> (u32, u32)
    requires fits { number < 2 ^ bits width }
    requires count { (0 < count) × (count < 32) }
    ensures { (c : ℕ) → result ≡ shifted Shl (bits width) count (number, c) }
{
    let wide = (number as u64) << count;
    let value = wide & max_of(width) as u64;
    (value as u32, (wide >> bits_of(width) & 1) as u32)
}

/// A number after SHR, and CF: the bit moved out last.
fn shift_right(width: Width, number: u32, count: u32) -> (u32, u32)
    requires fits { number < 2 ^ bits width }
    requires count { (0 < count) × (count < 32) }
    ensures { (c : ℕ) → result ≡ shifted Shr (bits width) count (number, c) }
{
    (number >> count, number >> (count - 1) & 1)
}

/// A number after SAR, and CF: the bit moved out last. Of a negative number the complement is shifted.
fn shift_right_signed(width: Width, number: u32, count: u32) -> (u32, u32)
    requires fits { number < 2 ^ bits width }
    requires count { (0 < count) × (count < 32) }
    ensures { (c : ℕ) → result ≡ shifted Sar (bits width) count (number, c) }
{
    if has_sign(width, number) {
        let max = max_of(width);
        let complement = max - number;
        (
            max - (complement >> count),
            1 - (complement >> (count - 1) & 1),
        )
    } else {
        shift_right(width, number, count)
    }
}

/// A number and CF after a shift or rotate.
fn move_bits(op: ShiftOp, width: Width, number: u32, count: u32, carry: u32) -> (u32, u32)
    requires fits { number < 2 ^ bits width }
    requires count { (0 < count) × (count < 32) }
    requires carry { carry < 2 }
    ensures { result ≡ shifted op (bits width) count (number, carry) }
{
    match op {
        ShiftOp::Rol => rotate_left(width, number, count),
        ShiftOp::Ror => rotate_right(width, number, count),
        ShiftOp::Rcl => rotate_left_with_carry(width, number, count, carry),
        ShiftOp::Rcr => rotate_right_with_carry(width, number, count, carry),
        ShiftOp::Shl => shift_left(width, number, count),
        ShiftOp::Shr => shift_right(width, number, count),
        ShiftOp::Sar => shift_right_signed(width, number, count),
    }
}

/// The flags with SF, ZF and PF by the result of a shift, and as they were for a rotate.
fn put_shifted(op: ShiftOp, width: Width, value: u32, flags: Flags) -> Flags
    ensures { result ≡ with_shifted op width value flags }
{
    match op {
        ShiftOp::Rol | ShiftOp::Ror | ShiftOp::Rcl | ShiftOp::Rcr => flags,
        ShiftOp::Shl | ShiftOp::Shr | ShiftOp::Sar => put_result(width, value, flags),
    }
}

/// The flags with OF as a shift or rotate of one number to another makes it.
pub(crate) fn put_sign_change(
    width: Width,
    count: u32,
    before: u32,
    after: u32,
    flags: Flags,
) -> Flags
    ensures { result ≡ with_sign_change (bits width) count before after flags }
{
    if count == 1 {
        let changed = has_sign(width, before) != has_sign(width, after);
        put_flag(Flag::Overflow, changed, flags)
    } else {
        flags
    }
}

/// A number and the flags after a shift or rotate by a count of 1 to 31.
fn shift_some(op: ShiftOp, width: Width, a: u32, count: u32, flags: Flags) -> (u32, Flags)
    requires a_fits { a < 2 ^ bits width }
    requires count { (0 < count) × (count < 32) }
    ensures { result ≡ after_shift op width a count (shifted op (bits width) count (a, carry_of flags)) flags }
{
    let (value, out) = move_bits(op, width, a, count, carry(flags));
    let flags = put_sign_change(width, count, a, value, flags);
    let flags = put_flag(Flag::Carry, out == 1, flags);
    (value, put_shifted(op, width, value, flags))
}

/// A shift or rotate by the low 5 bits of a count, and the flags after it.
#[tactic(auto, unfolding(crate::specs::Shifts::shift_of))]
fn shift_by(op: ShiftOp, width: Width, a: u32, count: u8, flags: Flags) -> (u32, Flags)
    requires { a < 2 ^ bits width }
    ensures { result ≡ shift_of op width a count flags }
{
    let count = count as u32 % 32;
    if count == 0 {
        (a, flags)
    } else {
        shift_some(op, width, a, count, flags)
    }
}

/// A shift or rotate of a number of a width, and the flags after it (PRM 3.4.4). Of the count the low 5 bits count. After
/// a single one OF says that the sign changed; after more it stays, and so does AF always (own choice). It takes no
/// memory.
pub fn shift(op: ShiftOp, width: Width, a: u32, count: u8, flags: Flags) -> (u32, Flags)
    requires { a < 2 ^ bits width }
    ensures exact { result ≡ shift_of op width a count flags }
    ensures fits { result.0 < 2 ^ bits width }
    ensures others { KeepsOthers flags result.1 }
{
    shift_by(op, width, a, count, flags)
}
