//! The eight operations of arithmetic and logic on two operands.
ghost use Rattle.std.specs.Prelude.{◌≡◌, ◌<◌, ◌^◌};
ghost use Rattle.m386_alu.specs.Arithmetic.{alu_of};
ghost use Rattle.m386_alu.specs.Flags.{KeepsOthers};
ghost use Rattle.m386_alu.specs.Width.{bits};

use crate::flags::carry;
use crate::logic::logic;
use crate::sums::{difference, sum};
use m386_base::number::{Flags, Width};

/// An operation on two operands, in the order of the opcodes.
#[derive(Clone, Copy, Debug, PartialEq, Eq)]
pub enum AluOp {
    /// The sum.
    Add,
    /// Each bit of either.
    Or,
    /// The sum with CF.
    Adc,
    /// The difference with CF as a borrow.
    Sbb,
    /// Each bit of both.
    And,
    /// The difference.
    Sub,
    /// Each bit of one alone.
    Xor,
    /// The difference, for its flags.
    Cmp,
}

/// The result of an operation on two operands, and the flags after it.
fn calculate(op: AluOp, width: Width, a: u32, b: u32, flags: Flags) -> (u32, Flags)
    requires a_fits { a < 2 ^ bits width }
    requires b_fits { b < 2 ^ bits width }
    ensures { result ≡ alu_of op width a b flags }
{
    match op {
        AluOp::Add => sum(width, a, b, 0, flags),
        AluOp::Or => logic(width, a | b, flags),
        AluOp::Adc => sum(width, a, b, carry(flags), flags),
        AluOp::Sbb => difference(width, a, b, carry(flags), flags),
        AluOp::And => logic(width, a & b, flags),
        AluOp::Sub | AluOp::Cmp => difference(width, a, b, 0, flags),
        AluOp::Xor => logic(width, a ^ b, flags),
    }
}

/// The result of an operation on two operands of a width, and the flags after it (PRM 3.2.1, 3.2.2, 3.4.1). CMP answers the
/// difference too, which its caller doesn't store. It takes no memory.
pub fn alu(op: AluOp, width: Width, a: u32, b: u32, flags: Flags) -> (u32, Flags)
    requires a_fits { a < 2 ^ bits width }
    requires b_fits { b < 2 ^ bits width }
    ensures exact { result ≡ alu_of op width a b flags }
    ensures fits { result.0 < 2 ^ bits width }
    ensures others { KeepsOthers flags result.1 }
{
    calculate(op, width, a, b, flags)
}
