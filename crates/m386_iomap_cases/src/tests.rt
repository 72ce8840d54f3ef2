//! A call, the cycles that it makes with what they read, and what it comes to. The task's segment is at 200h, and its map begins right
//! behind the fields of the task.
mod accesses;
mod levels;
mod map;
mod spellings;

ghost use Rattle.std.specs.Prelude.{◌≡◌, ◌≤◌, false, length};

use m386_access::after::len_of;
use m386_base::ask::{Ask, Role, Space};
use m386_base::bus::Bus;
use m386_base::desc::Desc;
use m386_base::exception::undefined_opcode;
use m386_base::fault::{Break, Fault, Stop};
use m386_base::number::{Flags, Width};
use m386_base::probe::ProbeBus;
use m386_decode::bytes::decode_bytes;
use m386_iomap::exec::{exec, takes};
use m386_iomap::map::may_use;
use m386_state::proc::{Proc, start_bare};
use m386_state::segment::{Seg, TableReg};
use std::process::Abort;

/// A cycle: the place of its first byte in an access of ports, the address of its group, the bytes that are enabled, and the value.
#[derive(Clone, Copy, Debug, PartialEq, Eq)]
enum Made {
    /// The map's base is read.
    Base(u32, u8, u32),
    /// A byte of the map is read.
    Byte(u32, u8, u32),
    /// Ports are read.
    Read(u8, u32, u8, u32),
    /// Ports are written.
    Write(u8, u32, u8, u32),
}

use Made::{Base, Byte, Read, Write};

/// The base of a map that begins right behind the fields.
const BASE: Made = Base(0x264, 0xc, 0x68_0000);

/// The most cycles of a case.
const MOST: usize = 4;

/// A call of a case.
#[derive(Clone, Copy, Debug)]
enum Call<'a> {
    /// Whether the map allows an access of this width from a port on.
    MayUse(u16, Width),
    /// The instruction that has these bytes.
    Execute(&'a [u8]),
}

/// What a call comes to.
#[derive(Clone, Copy, Debug, PartialEq, Eq)]
enum End {
    /// The map says whether.
    Answer(bool),
    /// The state behind the instruction.
    State(Proc),
    /// A fault, in the state before.
    Fault(Fault),
    /// The bus stopped, in the state before.
    Stopped,
}

/// The fault #GP(0).
const REFUSED: End = End::Fault(Fault {
    vector: 13,
    code: Some(0),
});

/// A state at a level, with EAX A1B2C3D4h, the flags of this IOPL, and a task of this limit, below 100000h.
fn at(level: u8, iopl: u8, edx: u32, limit: u32) -> Proc {
    let table = TableReg { base: 0, limit: 7 };
    let mut p = start_bare(0x1234_5678, table, table);
    p.regs = [0xa1b2_c3d4, 0xffff_0001, edx, 3, 4, 5, 6, 7];
    p.eflags = Flags(0x4ed7 & 0xffff_cfff | u32::from(iopl % 4) * 0x1000);
    let [data, mut code, ..] = p.segs;
    code.selector = u16::from(level % 4);
    p.segs = [data, code, data, data, data, data];
    p.tr = Seg {
        selector: 0x18,
        usable: true,
        desc: Desc::new(0x200, limit % 0x10_0000, 0x8b, 0),
    };
    p
}

/// The cycle as it is asked for, a read with what it gives.
fn ask_of(made: Made) -> Ask {
    let (space, write, role) = match made {
        Base(..) | Byte(..) => (Space::Memory, false, Role::Map),
        Read(..) => (Space::Port, false, Role::Operand),
        Write(..) => (Space::Port, true, Role::Operand),
    };
    let (part, addr, enables, value) = match made {
        Base(addr, enables, value) => (26, addr, enables, value),
        Byte(addr, enables, value) => (0, addr, enables, value),
        Read(part, addr, enables, value) | Write(part, addr, enables, value) => {
            (part, addr, enables, value)
        }
    };
    Ask {
        space,
        write,
        joined: false,
        role,
        part,
        addr,
        enables,
        value,
    }
}

/// What a call comes to over a bus. An instruction that the crate doesn't take is #UD.
fn ended<'a>(p: &mut Proc, call: Call<'_>, bus: &mut ProbeBus<'a>) -> Result<Option<bool>, Break>
    requires { (⟦<ProbeBus<'a> as Bus>⟧.view bus.old).kept ≡ false }
{
    match call {
        Call::MayUse(port, width) => Ok(Some(may_use(p, bus, port, len_of(width))?)),
        Call::Execute(bytes) => {
            let decoded = decode_bytes(bytes)?;
            if !takes(&decoded.op) {
                return Err(Break::Fault(undefined_opcode()));
            }
            exec(p, &decoded.op, bus)?;
            Ok(None)
        }
    }
}

/// What a call that is told these values comes to, the cycle that it wants behind them, and how many it made.
fn told(before: &Proc, call: Call<'_>, values: &[u32]) -> (End, Option<Ask>, usize)
    requires { length values.now ≤ 192 }
{
    let mut p = *before;
    let mut bus = ProbeBus::new(values);
    let end = match ended(&mut p, call, &mut bus) {
        Ok(Some(allowed)) if p == *before => End::Answer(allowed),
        Ok(_) => End::State(p),
        Err(Break::Fault(fault)) if p == *before => End::Fault(fault),
        Err(Break::Stop(Stop::Paused)) if p == *before => End::Stopped,
        Err(_) => End::State(p),
    };
    (end, bus.wanted(), bus.made())
}

/// A call makes these cycles, and comes to this end. Over each front of what it reads it wants the next cycle, and leaves the state.
fn comes_to(rt: &impl Abort, name: &str, before: &Proc, call: Call<'_>, made: &[Made], end: End) {
    let mut values = [0; MOST];
    for (i, made) in made.iter().enumerate() {
        assert!(rt; i < MOST, "{name}");
        if i >= MOST {
            return;
        }
        let ask = ask_of(*made);
        let mut next = ask;
        if !ask.write {
            next.value = 0;
        }
        let found = told(before, call, &values[..i]);
        assert_eq!(rt; found, (End::Stopped, Some(next), i), "{name} {i}");
        values[i] = if ask.write { 0 } else { ask.value };
    }
    let found = told(before, call, &values);
    assert_eq!(rt; found, (end, None, made.len()), "{name}");
}
