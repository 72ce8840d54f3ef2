//! Tests of one bit that may change it.
ghost use Rattle.std.specs.Prelude.{◌≡◌, ◌<◌, ◌^◌};
ghost use Rattle.m386_alu.specs.BitTests.{tested, bit_test_of};
ghost use Rattle.m386_alu.specs.Flags.{KeepsOthers};
ghost use Rattle.m386_alu.specs.Width.{bits};

use m386_base::flags::{Flag, put_flag};
use m386_base::number::{Flags, Width};

/// What a bit test does to the bit.
#[derive(Clone, Copy, Debug, PartialEq, Eq)]
pub enum BitOp {
    /// BT: nothing.
    Test,
    /// BTS: it becomes 1.
    Set,
    /// BTR: it becomes 0.
    Reset,
    /// BTC: it becomes the other value.
    Complement,
}

/// A number after a test of one of its bits.
fn change(op: BitOp, number: u32, bit: u8) -> u32
    requires { bit < 32 }
    ensures { result ≡ tested op number bit }
{
    let mask = 1 << bit;
    match op {
        BitOp::Test => number,
        BitOp::Set => number | mask,
        BitOp::Reset => number & !mask,
        BitOp::Complement => number ^ mask,
    }
}

/// A number of a width after a test of the bit at this place, and the flags after it: CF is the bit as it was
/// (PRM 3.4.2). All other flags stay (own choice). It takes no memory.
#[tactic(auto, using(crate::proofs::Tested::tested_fits))]
pub fn bits(op: BitOp, width: Width, a: u32, bit: u8, flags: Flags) -> (u32, Flags)
    requires a_fits { a < 2 ^ bits width }
    requires inside { bit < bits width }
    ensures exact { result ≡ bit_test_of op a bit flags }
    ensures fits { result.0 < 2 ^ bits width }
    ensures others { KeepsOthers flags result.1 }
{
    let was_set = a >> bit & 1 == 1;
    (change(op, a, bit), put_flag(Flag::Carry, was_set, flags))
}
