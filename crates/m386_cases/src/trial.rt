//! One step over a case, and what it comes to.
ghost use Rattle.std.specs.Prelude.{◌≡◌, ◌+◌, ◌<◌, ◌≤◌, ◌≢◌, [], false, length};

use crate::case::Case;
use crate::state::{AREA, AREA_SIZE, CODE, State};
use m386_base::ask::{Ask, Role, Space};
use m386_base::bus::Bus;
use m386_base::number::Flags;
use m386_memory::fixed::FixedBus;
use m386_state::event::{Cause, Event};
use m386_state::proc::{Mode, Proc, start_bare};
use m386_state::segment::TableReg;
use m386_step::alone::step_alone;
use std::fmt;

/// The bus of a case: its last byte is the last that an instruction may reach.
pub type CaseBus = FixedBus<0x2040>;

/// What a step left, where that isn't what the case says.
#[derive(Clone, Copy)]
pub struct Found {
    processor: Proc,
    area: [u8; AREA_SIZE],
}

/// A processor that starts bare, at this EIP, with what the state says.
fn processor(state: &State, eip: u32) -> Proc
    ensures { result.mode ≡ Mode.Running }
{
    let none = TableReg { base: 0, limit: 0 };
    let mut p = start_bare(eip, none, none);
    let registers = state.registers;
    p.regs = registers;
    p.eflags = Flags(state.flags);
    p
}

/// The processor after the instruction as the case says. Where flags are undefined, they are those of `stepped`.
fn wanted(case: &Case<'_>, stepped: &Proc) -> Proc {
    let after = &case.after;
    let mut p = processor(after, CODE.wrapping_add(case.size));
    p.eflags = Flags(after.flags & !after.undefined | stepped.eflags.0 & after.undefined);
    if let Some(vector) = after.vector {
        p.eip = CODE;
        p.pending = Some(Event {
            vector,
            code: (vector == 13).then_some(0),
            cause: Cause::Exception,
        });
    }
    p
}

/// Puts bytes into memory.
fn put(bus: &mut CaseBus, addr: u32, bytes: &[u8])
    requires { addr + length bytes.now ≤ 0x2040 }
{
    for (i, byte) in bytes.iter().enumerate() {
        bus.poke(addr + i as u32, *byte);
    }
}

/// The bytes of the group of this number that an instruction may reach.
fn group(bus: &mut CaseBus, number: u32) -> [u8; 4]
    requires { number < 16 }
{
    bus.clear();
    let ask = Ask {
        space: Space::Memory,
        write: false,
        joined: false,
        role: Role::Operand,
        part: 0,
        addr: AREA + 4 * number,
        enables: 15,
        value: 0,
    };
    bus.cycle(ask, false).unwrap_or(0).to_le_bytes()
}

/// The bytes that an instruction may reach.
fn area_of(bus: &mut CaseBus) -> [u8; AREA_SIZE] {
    let mut area = [0; AREA_SIZE];
    for number in 0..16 {
        for (i, byte) in group(bus, number).into_iter().enumerate() {
            area[4 * number as usize + i] = byte;
        }
    }
    area
}

/// The state that one step over the case leaves. Bytes in the bus from earlier cases are overwritten where a lawful
/// instruction could meet them.
fn stepped(case: &Case<'_>, bus: &mut CaseBus) -> Proc {
    put(bus, CODE, &case.code);
    put(bus, AREA, &case.before.area);
    bus.clear();
    let mut p = processor(&case.before, CODE);
    step_alone(&mut p, bus);
    p
}

/// Makes one step over a case. `None`: it left what the case says.
pub fn tried(case: &Case<'_>, bus: &mut CaseBus) -> Option<Found> {
    let processor = stepped(case, bus);
    let area = area_of(bus);
    if processor == wanted(case, &processor) && area == case.after.area {
        None
    } else {
        Some(Found { processor, area })
    }
}

impl fmt::Display for Found {
    /// Writes the registers, EFLAGS, EIP, the bytes from 2000h on and the exception.
    fn fmt<W: fmt::Write>(&self, f: &mut fmt::Formatter<W>) -> fmt::Result {
        let p = &self.processor;
        for (number, value) in p.regs.iter().enumerate() {
            write!(f, "{number}={value:08x} ")?;
        }
        let flags = p.eflags.0;
        let eip = p.eip;
        write!(f, "f={flags:x} eip={eip:x} 2000=")?;
        for byte in &self.area {
            write!(f, "{byte:02x}")?;
        }
        match p.pending {
            None => Ok(()),
            Some(event) => {
                let vector = event.vector;
                write!(f, " v={vector:x}")
            }
        }
    }
}
