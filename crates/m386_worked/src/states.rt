//! The states of a case, from a bare processor on.
ghost use Rattle.std.specs.Prelude.{◌<◌};

use m386_base::number::Flags;
use m386_state::event::{Cause, Event};
use m386_state::proc::{Mode, Proc, start_bare};
use m386_state::segment::TableReg;

/// A bare processor at 1000h, no two of whose registers are the same.
pub fn bare() -> Proc {
    let none = TableReg { base: 0, limit: 0 };
    let mut p = start_bare(0x1000, none, none);
    p.regs = [
        0xa0a1_a2a3,
        0xc0c1_c2c3,
        0xd0d1_d2d3,
        0xb0b1_b2b3,
        0x4041_4243,
        0x5051_5253,
        0x6061_6263,
        0x7071_7273,
    ];
    p
}

/// The state at another EIP.
pub fn at(p: &Proc, eip: u32) -> Proc {
    let mut after = *p;
    after.eip = eip;
    after
}

/// The state at another EIP with a register changed.
pub fn loaded(p: &Proc, eip: u32, register: usize, value: u32) -> Proc
    requires { register < 8 }
{
    let mut after = at(p, eip);
    after.regs[register] = value;
    after
}

/// The state with an exception pending.
pub fn pending(p: &Proc, vector: u8, code: Option<u16>) -> Proc {
    let mut after = *p;
    after.pending = Some(Event {
        vector,
        code,
        cause: Cause::Exception,
    });
    after
}

/// The state with these flags.
pub fn flagged(p: &Proc, flags: u32) -> Proc {
    let mut after = *p;
    after.eflags = Flags(flags);
    after
}

/// The state in this mode.
pub fn in_mode(p: &Proc, mode: Mode) -> Proc {
    let mut after = *p;
    after.mode = mode;
    after
}

/// The state with a requested vector, held back or not.
pub fn requested(p: &Proc, vector: u8, shadow: bool) -> Proc {
    let mut after = *p;
    after.request = Some(vector);
    after.shadow = shadow;
    after
}
