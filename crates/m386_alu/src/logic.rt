//! Results of logic with their flags.
ghost use Rattle.std.specs.Prelude.{◌≡◌};
ghost use Rattle.m386_alu.specs.Logic.{logic_of};

use crate::flags::put_result;
use m386_base::flags::{Flag, put_flag};
use m386_base::number::{Flags, Width};

/// A result of AND, OR or XOR, and the flags after it (PRM 3.4.1). AF is 0 (own choice).
#[tactic(auto, unfolding(crate::specs::Logic::logic_of))]
pub fn logic(width: Width, value: u32, flags: Flags) -> (u32, Flags)
    ensures { result ≡ logic_of width value flags }
{
    let flags = put_flag(Flag::Overflow, false, flags);
    let flags = put_flag(Flag::Adjust, false, flags);
    let flags = put_flag(Flag::Carry, false, flags);
    (value, put_result(width, value, flags))
}
