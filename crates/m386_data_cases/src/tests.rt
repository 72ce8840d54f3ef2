//! Worked operations over a bus of a few bytes: their cycles and the state after them. Flags are numbers: CF 1, PF 4, AF 10h,
//! ZF 40h, SF 80h, DF 400h, OF 800h, and bit 1, which is always 1.
mod arithmetic;
mod bits;
mod flags;
mod moves;

ghost use Rattle.std.specs.Prelude.{◌≡◌, ◌<◌, [], false};

use arrayvec::ArrayVec;
use m386_base::ask::{Ask, Cycle, Role, Space};
use m386_base::bus::Bus;
use m386_base::desc::Desc;
use m386_base::exception::Exception;
use m386_base::fault::{Break, Fault};
use m386_base::number::{Flags, Width};
use m386_data::exec::{exec, takes};
use m386_memory::fixed::FixedBus;
use m386_opmap::name::Name;
use m386_opmap::op::{Addr, Arg, Op, Rep};
use m386_state::proc::{Proc, start_bare};
use m386_state::segment::{Seg, TableReg};
use std::process::Abort;

/// The bytes at 10h. All others below 20h are 0.
const DATA: [u8; 8] = [0x11, 0x22, 0x33, 0x44, 0x55, 0x66, 0x77, 0x88];

/// A bare processor, no two of whose registers are the same.
fn bare() -> Proc {
    let none = TableReg { base: 0, limit: 0 };
    let mut p = start_bare(0x1000, none, none);
    p.regs = [
        0xa0a1_a2a3,
        0xc0c1_c2c3,
        0xd0d1_d2d3,
        0xb0b1_b2b3,
        0x4041_4243,
        0x5051_5253,
        0x6061_6263,
        0x7071_7273,
    ];
    p
}

/// The state with a register changed.
fn loaded(p: &Proc, register: usize, value: u32) -> Proc
    requires { register < 8 }
{
    let mut after = *p;
    after.regs[register] = value;
    after
}

/// The state with these flags.
fn flagged(p: &Proc, flags: u32) -> Proc {
    let mut after = *p;
    after.eflags = Flags(flags);
    after
}

/// The state whose data segments have this access byte and limit, counted in bytes. SS is flat.
fn in_segment(p: &Proc, access: u8, limit: u16) -> Proc {
    let code = p.segs[1];
    let stack = p.segs[2];
    let other = Seg {
        selector: 0x18,
        usable: true,
        desc: Desc::new(0, limit as u32, access, 4),
    };
    let mut after = *p;
    after.segs = [other, code, stack, other, other, other];
    after
}

/// Memory at an offset.
fn at(disp: u32) -> Arg {
    Arg::Mem(Addr {
        seg: None,
        base: None,
        index: None,
        scale: 1,
        disp,
    })
}

/// Memory at the offset in a register.
fn behind(base: u8) -> Arg {
    Arg::Mem(Addr {
        seg: None,
        base: Some(base),
        index: None,
        scale: 1,
        disp: 0,
    })
}

/// A group of an operand, read.
fn read(part: u8, addr: u32, enables: u8, value: u32) -> Ask {
    Ask {
        space: Space::Memory,
        write: false,
        joined: false,
        role: Role::Operand,
        part,
        addr,
        enables,
        value,
    }
}

/// The same, written.
fn write(part: u8, addr: u32, enables: u8, value: u32) -> Ask {
    Ask {
        write: true,
        ..read(part, addr, enables, value)
    }
}

/// The same cycle, joined to the one before it.
fn joined(ask: Ask) -> Ask {
    Ask {
        joined: true,
        ..ask
    }
}

/// What an exception without an error code comes to.
fn interrupt(exception: Exception) -> Result<Proc, Fault> {
    Err(exception.fault())
}

/// An operation.
#[derive(Clone, Copy)]
struct Spelled<'a> {
    name: Name,
    width: Width,
    lock: bool,
    args: &'a [Arg],
}

/// An operation without LOCK.
fn words(name: Name, width: Width, args: &[Arg]) -> Spelled<'_> {
    Spelled {
        name,
        width,
        lock: false,
        args,
    }
}

/// The same with LOCK.
fn locked(name: Name, width: Width, args: &[Arg]) -> Spelled<'_> {
    Spelled {
        name,
        width,
        lock: true,
        args,
    }
}

/// The operation as a value.
fn operation(words: Spelled<'_>) -> Op {
    let mut args = ArrayVec::new();
    for arg in words.args {
        if !args.is_full() {
            args.push(*arg);
        }
    }
    Op {
        name: words.name,
        width: words.width,
        args,
        lock: words.lock,
        rep: Rep::Once,
    }
}

/// A bus that holds the bytes of `DATA`.
fn bus_of_data() -> FixedBus<0x20>
    ensures free { (⟦<FixedBus<0x20> as Bus>⟧.view result).kept ≡ false }
{
    let mut bus = FixedBus::<0x20>::new();
    for (i, byte) in DATA.iter().enumerate() {
        bus.poke(0x10 + i as u32, *byte);
    }
    bus.clear();
    bus
}

/// An operation makes these cycles and comes to this state, or to a fault, behind which the state is as before.
fn comes_to(
    rt: &impl Abort,
    words: Spelled<'_>,
    before: &Proc,
    cycles: &[Ask],
    end: Result<Proc, Fault>,
) {
    let op = operation(words);
    assert!(rt; takes(&op), "{:?} {:?}", op.name, op.width);
    let mut p = *before;
    let mut bus = bus_of_data();
    let found = match exec(&mut p, &op, &mut bus) {
        Ok(()) => Ok(p),
        Err(Break::Fault(fault)) => {
            assert_eq!(rt; p, *before, "{:?}", op.name);
            Err(fault)
        }
        Err(Break::Stop(stop)) => panic!(rt; "{:?} stops: {stop:?}", op.name),
    };
    assert_eq!(rt; found, end, "{:?} {:?} {:?}", op.name, op.width, words.args);
    assert_eq!(rt;
        bus.cycles().len(),
        cycles.len(),
        "{:?} {:?}",
        op.name,
        words.args
    );
    for (cycle, ask) in bus.cycles().iter().zip(cycles) {
        assert_eq!(rt;
            *cycle,
            Cycle { cpu: 0, ask: *ask },
            "{:?} {:?}",
            op.name,
            words.args
        );
    }
}
