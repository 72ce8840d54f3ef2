//! Worked deliveries and returns over a bus of a few bytes. The IDT is at 0 and has the vectors 0 to 32, the GDT at 110h, the TSS
//! that TR holds at 180h; the stack of the program is at 280h and that of the inner level at 300h.
mod gates;
mod handlers;
mod returns;
mod seconds;
mod stacks;
mod tasks;

ghost use Rattle.std.specs.Prelude.{◌≡◌, ◌≤◌, false};

use m386_base::ask::{Ask, Cycle, Role, Space};
use m386_base::bus::Bus;
use m386_base::desc::Desc;
use m386_base::fault::{Break, Fault};
use m386_base::number::Flags;
use m386_deliver::deliver::deliver;
use m386_memory::fixed::FixedBus;
use m386_state::event::{Cause, Event};
use m386_state::proc::{Proc, start_bare, unusable};
use m386_state::segment::{Seg, TableReg};
use std::process::Abort;

/// Eight bytes of a descriptor or a gate, as two doublewords.
#[derive(Clone, Copy, Debug, PartialEq, Eq)]
struct Entry {
    low: u32,
    high: u32,
}

/// Whole 32-bit code of level 0, marked as accessed.
const CODE_0: Entry = Entry {
    low: 0xffff,
    high: 0x00cf_9b00,
};

/// The same data, which may be written.
const DATA_0: Entry = Entry {
    low: 0xffff,
    high: 0x00cf_9300,
};

/// The same code of level 3.
const CODE_3: Entry = Entry {
    low: 0xffff,
    high: 0x00cf_fb00,
};

/// The same data of level 3.
const DATA_3: Entry = Entry {
    low: 0xffff,
    high: 0x00cf_f300,
};

/// No descriptor.
const NONE: Entry = Entry { low: 0, high: 0 };

/// What stands in memory beside the tables' fixed entries: the gate of the vector, the descriptor 0018 of the handler's code, the
/// descriptor 0020 of the inner stack, and ESP0 with SS0.
#[derive(Clone, Copy)]
struct Surroundings {
    vector: u8,
    gate: Entry,
    code: Entry,
    stack: Entry,
    esp0: u32,
    ss0: u32,
}

/// An interrupt gate of DPL 3 for vector 32, to 0018:00000044, in code of level 0, with a stack of level 0.
fn usual() -> Surroundings {
    Surroundings {
        vector: 32,
        gate: Entry {
            low: 0x0018_0044,
            high: 0xee00,
        },
        code: CODE_0,
        stack: DATA_0,
        esp0: 0x300,
        ss0: 0x20,
    }
}

/// A segment register with a whole segment of this access byte.
fn flat(selector: u16, access: u8) -> Seg {
    Seg {
        selector,
        usable: true,
        desc: Desc::new(0, 0xf_ffff, access, 0xc),
    }
}

/// The state of a program at level 0.
fn kernel() -> Proc {
    let data = flat(0x10, 0x93);
    let mut p = start_bare(
        0x1234_5678,
        TableReg {
            base: 0x110,
            limit: 0x37,
        },
        TableReg {
            base: 0,
            limit: 0x107,
        },
    );
    p.regs = [1, 2, 3, 4, 0x280, 6, 7, 8];
    p.eflags = Flags(0x4303);
    p.segs = [data, flat(8, 0x9b), data, data, data, data];
    p.tr = Seg {
        selector: 0x3b,
        usable: true,
        desc: Desc::new(0x180, 0x67, 0x8b, 0),
    };
    p
}

/// The state of a program at level 3.
fn user() -> Proc {
    let data = flat(0x33, 0xf3);
    let mut p = kernel();
    p.segs = [data, flat(0x2b, 0xfb), data, data, data, data];
    p
}

/// The state with another TR.
fn with_task(p: &Proc, selector: u16, limit: u32) -> Proc
    requires { limit ≤ 0xfffff }
{
    let mut after = *p;
    after.tr = Seg {
        selector,
        usable: true,
        desc: Desc::new(0x180, limit, 0x8b, 0),
    };
    after
}

/// The state without a task.
fn without_task(p: &Proc) -> Proc {
    let mut after = *p;
    after.tr = unusable(0);
    after
}

/// An event without an error code.
fn event(cause: Cause, vector: u8) -> Event {
    Event {
        vector,
        code: None,
        cause,
    }
}

/// Puts a doubleword into memory.
fn put(bus: &mut FixedBus<0x400>, addr: u32, value: u32)
    requires inside { addr ≤ 0x3fc }
    requires free { (⟦<FixedBus<0x400> as Bus>⟧.view bus.old).kept ≡ false }
    ensures free { (⟦<FixedBus<0x400> as Bus>⟧.view bus.new).kept ≡ false }
{
    bus.poke(addr, (value % 256) as u8);
    bus.poke(addr + 1, (value / 0x100 % 256) as u8);
    bus.poke(addr + 2, (value / 0x1_0000 % 256) as u8);
    bus.poke(addr + 3, (value / 0x100_0000) as u8);
}

/// Puts an entry of a table into memory.
fn put_entry(bus: &mut FixedBus<0x400>, addr: u32, entry: Entry)
    requires inside { addr ≤ 0x3f8 }
    requires free { (⟦<FixedBus<0x400> as Bus>⟧.view bus.old).kept ≡ false }
    ensures free { (⟦<FixedBus<0x400> as Bus>⟧.view bus.new).kept ≡ false }
{
    put(bus, addr, entry.low);
    put(bus, addr + 4, entry.high);
}

/// A bus with what stands in memory.
fn bus_of(w: &Surroundings) -> FixedBus<0x400>
    ensures free { (⟦<FixedBus<0x400> as Bus>⟧.view result).kept ≡ false }
{
    let mut bus = FixedBus::<0x400>::new();
    if w.vector <= 32 {
        put_entry(&mut bus, u32::from(w.vector) * 8, w.gate);
    }
    put_entry(&mut bus, 0x118, CODE_0);
    put_entry(&mut bus, 0x120, DATA_0);
    put_entry(&mut bus, 0x128, w.code);
    put_entry(&mut bus, 0x130, w.stack);
    put_entry(&mut bus, 0x138, CODE_3);
    put_entry(&mut bus, 0x140, DATA_3);
    put(&mut bus, 0x184, w.esp0);
    put(&mut bus, 0x188, w.ss0);
    bus
}

/// A group, read.
fn read(role: Role, part: u8, addr: u32, enables: u8, value: u32) -> Ask {
    Ask {
        space: Space::Memory,
        write: false,
        joined: false,
        role,
        part,
        addr,
        enables,
        value,
    }
}

/// The same cycle, joined to the one before it.
fn joined(ask: Ask) -> Ask {
    Ask {
        joined: true,
        ..ask
    }
}

/// A doubleword, pushed.
fn push(addr: u32, value: u32) -> Ask {
    Ask {
        write: true,
        ..read(Role::Push, 0, addr, 15, value)
    }
}

/// The access byte of a descriptor whose upper doubleword is at this address, written as an accessed one.
fn accessed(addr: u32, value: u32) -> Ask {
    Ask {
        write: true,
        joined: true,
        ..read(Role::GdtAcc, 0, addr, 2, value)
    }
}

/// A delivery makes so many cycles and fails with this fault, behind which the state is as before.
fn fails(
    rt: &impl Abort,
    name: &str,
    w: &Surroundings,
    before: &Proc,
    e: Event,
    cycles: usize,
    fault: Fault,
) {
    let mut p = *before;
    let mut bus = bus_of(w);
    let found = deliver(&mut p, &mut bus, e);
    assert_eq!(rt; found, Err(Break::Fault(fault)), "{name} {:?}", e.cause);
    assert_eq!(rt; p, *before, "{name} {:?}", e.cause);
    assert_eq!(rt; bus.cycles().len(), cycles, "{name} {:?}", e.cause);
}

/// A delivery makes these cycles and comes to this state.
fn comes_to(
    rt: &impl Abort,
    name: &str,
    w: &Surroundings,
    before: &Proc,
    e: Event,
    cycles: &[Ask],
    after: &Proc,
) {
    let mut p = *before;
    let mut bus = bus_of(w);
    let found = deliver(&mut p, &mut bus, e);
    assert_eq!(rt; found, Ok(()), "{name}");
    assert_eq!(rt; p, *after, "{name}");
    makes(rt, name, &bus, cycles);
}

/// These are the cycles that were made.
fn makes(rt: &impl Abort, name: &str, bus: &FixedBus<0x400>, cycles: &[Ask]) {
    assert_eq!(rt; bus.cycles().len(), cycles.len(), "{name}");
    for (cycle, ask) in bus.cycles().iter().zip(cycles) {
        assert_eq!(rt; *cycle, Cycle { cpu: 0, ask: *ask }, "{name}");
    }
}

/// A fault with an error code.
fn coded(vector: u8, code: u16) -> Fault {
    Fault {
        vector,
        code: Some(code),
    }
}
