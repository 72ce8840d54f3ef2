//! What an operation makes of one operand and of the flags.
ghost use Rattle.std.specs.Prelude.{◌≡◌, ◌<◌, ◌^◌};
ghost use Rattle.m386_alu.specs.Width.{bits};
ghost use Rattle.m386_data.specs.Change.{low_of, with_old_carry, changed};

use m386_alu::arithmetic::{AluOp, alu};
use m386_alu::bit_tests::{BitOp, bits};
use m386_alu::double_shifts::double_shift;
use m386_alu::shifts::{ShiftOp, shift};
use m386_alu::width::{bits_of, max_of};
use m386_base::flags::{Flag, has_flag, put_flag};
use m386_base::number::{Flags, Width};

/// A change of one operand.
#[derive(Clone, Copy)]
pub enum Change {
    /// Arithmetic or logic with a second operand.
    Arithmetic(AluOp, u32),
    /// Plus 1, with CF as it was.
    Increment,
    /// Minus 1, with CF as it was.
    Decrement,
    /// Each bit turned. All flags stay.
    Invert,
    /// 0 minus the operand.
    Negate,
    /// A shift or rotate by a count, of which the low byte counts.
    Shift(ShiftOp, u32),
    /// A shift that takes in bits of a second operand.
    DoubleShift {
        /// Whether it goes to the left.
        left: bool,
        /// The second operand.
        source: u32,
        /// The count, of which the low byte counts.
        count: u32,
    },
    /// A test of one bit that may change it. The bit's number is taken modulo the width.
    Bit(BitOp, u32),
}

/// So many low bits of a number.
pub fn low(width: Width, n: u32) -> u32
    ensures exact { result ≡ low_of width n }
    ensures fits { result < 2 ^ bits width }
{
    match width {
        Width::W8 => n % 256,
        Width::W16 => n % 65536,
        Width::W32 => n,
    }
}

/// A result and its flags, but with CF as it was.
fn with_old_carry(flags: Flags, found: (u32, Flags)) -> (u32, Flags)
    ensures { result ≡ with_old_carry flags found }
{
    let carry = has_flag(Flag::Carry, flags);
    (found.0, put_flag(Flag::Carry, carry, found.1))
}

/// An operand of a width after a change, and the flags after it.
#[tactic(auto, unfolding(crate::specs::Change::changed))]
pub fn apply(change: Change, width: Width, old: u32, flags: Flags) -> (u32, Flags)
    ensures { result ≡ changed change width old flags }
{
    let a = low(width, old);
    match change {
        Change::Arithmetic(op, b) => alu(op, width, a, low(width, b), flags),
        Change::Increment => with_old_carry(flags, alu(AluOp::Add, width, a, 1, flags)),
        Change::Decrement => with_old_carry(flags, alu(AluOp::Sub, width, a, 1, flags)),
        Change::Invert => (max_of(width) - a, flags),
        Change::Negate => alu(AluOp::Sub, width, 0, a, flags),
        Change::Shift(op, count) => shift(op, width, a, (count % 256) as u8, flags),
        Change::DoubleShift {
            left,
            source,
            count,
        } => double_shift(
            left,
            width,
            a,
            low(width, source),
            (count % 256) as u8,
            flags,
        ),
        Change::Bit(op, k) => bits(op, width, a, (k % bits_of(width)) as u8, flags),
    }
}
