//! Operations of the stack: each in both widths, on stacks of each kind, with the cycles and the faults worked out by hand. The
//! bytes at 1010h are 11h to 88h; what an instruction pops lies there, or behind its own bytes.
pub(super) mod flags;
pub(super) mod registers;
pub(super) mod segments;
pub(super) mod single;

use super::{Case, bare, loaded, read, step_over_bytes, step_over_values, write};
use m386_base::ask::{Ask, Role};
use m386_base::desc::Desc;
use m386_state::proc::{Proc, unusable};
use m386_state::segment::Seg;
use std::process::Abort;

/// The places of the registers that are changed here.
const EAX: usize = 0;

const ESP: usize = 4;

const EBP: usize = 5;

/// The accessed byte of data that may be written, and of data that may not.
const WRITABLE: u8 = 0x93;

/// The same of data that expands down.
const DOWNWARD: u8 = 0x97;

/// A cycle of this role.
fn of_role(role: Role, ask: Ask) -> Ask {
    Ask { role, ..ask }
}

/// A group of a push.
fn push(part: u8, addr: u32, enables: u8, value: u32) -> Ask {
    of_role(Role::Push, write(part, addr, enables, value))
}

/// A group of a pop.
fn pop(part: u8, addr: u32, enables: u8, value: u32) -> Ask {
    of_role(Role::Pop, read(part, addr, enables, value))
}

/// A group of a flags image that is popped.
fn image(addr: u32, enables: u8, value: u32) -> Ask {
    of_role(Role::Flags, read(0, addr, enables, value))
}

/// A doubleword of a descriptor in the GDT.
fn descriptor(addr: u32, value: u32) -> Ask {
    of_role(Role::Gdt, read(0, addr, 15, value))
}

/// A segment with a limit in bytes.
fn segment(base: u32, limit: u16, access: u8, big: bool) -> Seg {
    let desc = if big {
        Desc::new(base, limit as u32, access, 4)
    } else {
        Desc::new(base, limit as u32, access, 0)
    };
    Seg {
        selector: 0x18,
        usable: true,
        desc,
    }
}

/// The bare processor at this ESP.
fn flat(esp: u32) -> Proc {
    let mut p = bare();
    p.regs[ESP] = esp;
    p
}

/// The state on another stack.
fn on_stack(p: &Proc, esp: u32, ss: Seg) -> Proc {
    let (data, code) = (p.segs[0], p.segs[1]);
    let mut after = *p;
    after.regs[ESP] = esp;
    after.segs = [data, code, ss, data, data, data];
    after
}

/// The bare processor on a stack of 32 bits at this ESP.
fn big(esp: u32, limit: u16, access: u8) -> Proc {
    on_stack(&bare(), esp, segment(0, limit, access, true))
}

/// The bare processor on a stack of 16 bits at this ESP.
fn small(esp: u32, limit: u16, access: u8) -> Proc {
    on_stack(&bare(), esp, segment(0, limit, access, false))
}

/// The bare processor on a stack that can't be used.
fn without_stack() -> Proc {
    on_stack(&bare(), 0x1010, unusable(0))
}

/// The state behind an instruction, at this EIP and ESP.
fn behind(p: &Proc, eip: u32, esp: u32) -> Proc {
    loaded(p, eip, ESP, esp)
}

/// A step over its bytes and over its values.
fn one(rt: &impl Abort, name: &str, before: &Proc, code: &[u8], cycles: &[Ask], after: Proc) {
    let case = Case {
        name,
        before: *before,
        code,
        cycles,
        after,
    };
    step_over_bytes(rt, &case);
    step_over_values(rt, &case);
}
