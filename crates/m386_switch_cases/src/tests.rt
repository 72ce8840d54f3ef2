//! What stands before a switch, one builder of its memory, and what a switch is to come to. The GDT is at 100h with eleven
//! descriptors, of which the last lies outside the limit by a byte; the LDT follows at 158h with two. The old task has its segment at
//! 200h, the new one at 280h.
mod effects;
mod ltr;
mod order;
mod parts;
mod places;
mod rows;
mod whole;

ghost use Rattle.std.specs.Prelude.{◌≡◌, false};

use m386_base::ask::{Ask, Role};
use m386_base::bus::Bus;
use m386_base::desc::Desc;
use m386_base::fault::Stop;
use m386_base::kind::SwitchKind;
use m386_base::number::Flags;
use m386_memory::fixed::FixedBus;
use m386_state::proc::{Proc, start_bare, unusable};
use m386_state::segment::{Seg, TableReg};
use m386_switch::outcome::Outcome;
use m386_switch::switch::switch;
use std::process::Abort;

/// Base, limit, access byte (P in bit 7, DPL in bits 5 and 6, S in bit 4, the type below) and flags (G in bit 3, D in bit 2).
#[derive(Clone, Copy, Debug, PartialEq, Eq)]
struct Line {
    base: u32,
    limit: u32,
    access: u8,
    flags: u8,
}

macro_rules! lines {
    ($($base:literal $limit:literal $access:literal $flags:literal;)*) => {
        [$(Line { base: $base, limit: $limit, access: $access, flags: $flags }),*]
    };
}

/// The places of descriptors in their array: the old and the new TSS, the LDT, and those of CS, SS, DS and FS in the GDT.
const OLD_TSS: u8 = 1;

const NEW_TSS: u8 = 2;

const LDT_AT: u8 = 3;

const CS_AT: u8 = 4;

const SS_AT: u8 = 5;

const DS_AT: u8 = 6;

const FS_AT: u8 = 8;
/// Those of ES and GS, in the LDT.
const ES_AT: u8 = 11;

const GS_AT: u8 = 12;

/// No accessed bit is set. The new task has level 2.
const DESCRIPTORS: [Line; 13] = lines![
    0x200 0x67 0x89 0;
    0x200 0x67 0xab 0;
    0x280 0x67 0xa9 0;
    0x158 0xf 0x82 0;
    // Code that may be read, and data that may be written.
    0 0xffff 0xda 4;
    0x1000 0xffff 0xd2 4;
    0x2000 0xf_ffff 0xd2 0xc;
    0 0 0 0;
    // Conforming code of level 0.
    0x3000 0xffff 0x9e 4;
    // Another TSS that is available.
    0x280 0x67 0xa9 0;
    0x280 0x67 0xa9 0;
    // Code of level 3, and data that may just be read.
    0x1234_5678 0xffff 0xfa 4;
    0x4000 0xff 0xd0 0;
];

/// The new task's fields at the place of their numbers. The upper halves of those of 16 bits have other bits.
const FIELDS: [u32; 26] = [
    0x7777_7777,
    0x1000_0001,
    0x1000_0002,
    0x1000_0003,
    0x1000_0004,
    0x1000_0005,
    0x1000_0006,
    0x1000_0007,
    0x44,
    0xffff_bfff,
    0xb000_0000,
    0xb000_0001,
    0xb000_0002,
    0xb000_0003,
    0xb000_0004,
    0xb000_0005,
    0xb000_0006,
    0xb000_0007,
    0xdead_0006,
    0xdead_0022,
    0xdead_002a,
    0xdead_0032,
    0xdead_0041,
    0xdead_000d,
    0xdead_001a,
    0x0068_0000,
];

/// What stands before a switch. The selector of the new TSS is what a JMP, a CALL, a gate or a start names, and the back link of the
/// old task.
#[derive(Clone, Copy)]
struct World {
    before: Proc,
    selector: u16,
    descriptors: [Line; 13],
    fields: [u32; 26],
}

/// What makes a switch, whether the TSS itself is named, and the EXT bit.
#[derive(Clone, Copy, Debug)]
struct Way {
    kind: SwitchKind,
    direct: bool,
    ext: bool,
}

macro_rules! ways {
    ($($kind:ident $direct:literal $ext:literal;)*) => {
        [$(Way { kind: SwitchKind::$kind, direct: $direct, ext: $ext }),*]
    };
}

/// Each kind, by itself and through a gate, and an event with EXT and without.
const WAYS: [Way; 8] = ways![
    Jmp true false;
    Jmp false false;
    Call true false;
    Call false false;
    Event false false;
    Event false true;
    Iret true false;
    Start true false;
];

/// A segment register with a whole segment of level 1 that no table has.
fn flat(selector: u16, access: u8) -> Seg {
    Seg {
        selector,
        usable: true,
        desc: Desc::new(0, 0xf_ffff, access, 0xc),
    }
}

/// The state of the old task, at level 1. Its LDT isn't that of the new one.
fn before() -> Proc {
    let gdtr = TableReg {
        base: 0x100,
        limit: 0x56,
    };
    let idtr = TableReg { base: 0, limit: 7 };
    let mut p = start_bare(0x0101_0101, gdtr, idtr);
    p.regs = [
        0xa000_0000,
        0xa000_0001,
        0xa000_0002,
        0xa000_0003,
        0xa000_0004,
        0xa000_0005,
        0xa000_0006,
        0xa000_0007,
    ];
    p.eflags = Flags(0x4ed7);
    p.segs = [
        flat(0x1113, 0xb3),
        flat(0x2221, 0xbb),
        flat(0x3331, 0xb3),
        flat(0x4443, 0xb3),
        flat(0x5553, 0xb3),
        flat(0x6663, 0xb3),
    ];
    p.ldtr = Seg {
        selector: 0x18,
        usable: true,
        desc: Desc::new(0x300, 0xffff, 0x82, 0),
    };
    p.tr = Seg {
        selector: 9,
        usable: true,
        desc: Desc::new(0x200, 0x67, 0xab, 0),
    };
    p
}

/// What stands before a switch that is whole. An IRET goes to a task that is busy, and a start has none.
fn sound(kind: SwitchKind) -> World {
    let mut w = World {
        before: before(),
        selector: 0x11,
        descriptors: DESCRIPTORS,
        fields: FIELDS,
    };
    match kind {
        SwitchKind::Iret => {
            w.descriptors[NEW_TSS as usize].access = 0xab;
            w.descriptors[10].access = 0xab;
        }
        SwitchKind::Start => w.before.tr = unusable(0),
        SwitchKind::Jmp | SwitchKind::Call | SwitchKind::Event => {}
    }
    w
}

/// One thing of a world that a case changes.
#[derive(Clone, Copy, Debug)]
enum Change {
    /// Nothing.
    Nothing,
    /// TR holds no task.
    NoTask,
    /// The selector of the new TSS.
    Selector(u16),
    /// The limit of the GDT.
    GdtLimit(u16),
    /// The flags of the old task.
    OldFlags(u32),
    /// The base of the GDT.
    GdtBase(u32),
    /// The limit of the old TSS.
    OldLimit(u32),
    /// The base of the old TSS.
    OldBase(u32),
    /// EIP of the old task.
    OldEip(u32),
    /// A general register of the old task.
    OldRegister(u8, u32),
    /// A field of the new task, by its number.
    Field(u8, u32),
    /// Bits of the access byte of a descriptor that are turned over.
    Access(u8, u8),
    /// The limit of a descriptor.
    Limit(u8, u32),
    /// The base of a descriptor.
    Base(u8, u32),
    /// The flags of a descriptor.
    Flags(u8, u8),
}

/// The world with a change.
fn changed(w: &World, change: Change) -> World {
    let mut after = *w;
    match change {
        Change::Nothing => {}
        Change::NoTask => after.before.tr = unusable(0),
        Change::Selector(selector) => after.selector = selector,
        Change::GdtLimit(limit) => after.before.gdtr.limit = limit,
        Change::OldFlags(flags) => after.before.eflags = Flags(flags),
        Change::OldLimit(limit) => {
            after.before.tr.desc = Desc::new(0x200, limit % 0x10_0000, 0xab, 0);
        }
        Change::OldBase(base) => {
            after.before.tr.desc = Desc::new(base, 0x67, 0xab, 0);
            after.descriptors[OLD_TSS as usize].base = base;
        }
        Change::GdtBase(base) => after.before.gdtr.base = base,
        Change::OldEip(eip) => after.before.eip = eip,
        Change::OldRegister(number, value) => {
            after.before.regs[(number % 8) as usize] = value;
        }
        Change::Field(number, value) => after.fields[(number % 26) as usize] = value,
        Change::Access(at, bits) => after.descriptors[(at % 13) as usize].access ^= bits,
        Change::Limit(at, limit) => after.descriptors[(at % 13) as usize].limit = limit,
        Change::Base(at, base) => after.descriptors[(at % 13) as usize].base = base,
        Change::Flags(at, flags) => after.descriptors[(at % 13) as usize].flags = flags,
    }
    after
}

/// The world with a case's changes.
fn with(w: &World, changes: [Change; 3]) -> World {
    changed(&changed(&changed(w, changes[0]), changes[1]), changes[2])
}

/// Puts a byte into memory, where there is any.
fn put_byte(bus: &mut FixedBus<0x400>, addr: u32, byte: u8) {
    if addr < 0x400 {
        bus.poke(addr, byte);
    }
}

/// Puts two bytes into memory.
fn put_word(bus: &mut FixedBus<0x400>, addr: u32, value: u32) {
    put_byte(bus, addr, (value % 0x100) as u8);
    put_byte(bus, addr.wrapping_add(1), (value / 0x100 % 0x100) as u8);
}

/// Puts four bytes into memory.
fn put(bus: &mut FixedBus<0x400>, addr: u32, value: u32) {
    put_word(bus, addr, value % 0x1_0000);
    put_word(bus, addr.wrapping_add(2), value / 0x1_0000);
}

/// Puts a descriptor into memory.
fn put_line(bus: &mut FixedBus<0x400>, addr: u32, d: Line) {
    put_word(bus, addr, d.limit % 0x1_0000);
    put_word(bus, addr.wrapping_add(2), d.base % 0x1_0000);
    put_byte(bus, addr.wrapping_add(4), (d.base / 0x1_0000 % 0x100) as u8);
    put_byte(bus, addr.wrapping_add(5), d.access);
    let high = d.limit / 0x1_0000 % 16 + u32::from(d.flags % 16) * 16;
    put_byte(bus, addr.wrapping_add(6), high as u8);
    put_byte(bus, addr.wrapping_add(7), (d.base / 0x100_0000) as u8);
}

/// A bus over a world's memory: the new task's fields, the old task's back link and the tables, each over what lies below it.
fn bus_of(w: &World) -> FixedBus<0x400>
    ensures free { (⟦<FixedBus<0x400> as Bus>⟧.view result).kept ≡ false }
{
    let mut bus = FixedBus::<0x400>::new();
    let base = w.descriptors[NEW_TSS as usize].base;
    for (number, value) in w.fields.iter().enumerate() {
        put(&mut bus, base.wrapping_add(number as u32 * 4), *value);
    }
    let back = 0xbeef_0000 + u32::from(w.selector);
    put(&mut bus, w.descriptors[OLD_TSS as usize].base, back);
    for (at, d) in w.descriptors.iter().enumerate() {
        put_line(&mut bus, w.before.gdtr.base.wrapping_add(at as u32 * 8), *d);
    }
    bus.leave();
    bus
}

/// A descriptor of a world as it is read.
fn desc_of(w: &World, at: u8) -> Desc {
    let d = w.descriptors[(at % 13) as usize];
    Desc::new(d.base, d.limit % 0x10_0000, d.access, d.flags % 16)
}

/// A register that names a descriptor of a world, if it can be used.
fn register(w: &World, at: u8, selector: u32, usable: bool) -> Seg {
    let selector = (selector % 0x1_0000) as u16;
    if usable {
        Seg {
            selector,
            usable,
            desc: desc_of(w, at),
        }
    } else {
        unusable(selector)
    }
}

/// EFLAGS of the new task: the bits of the image that a load may change, with NT by the kind.
fn flags_of(kind: SwitchKind, image: u32) -> Flags {
    let loaded = image & 0x3fd5 | 2;
    Flags(match kind {
        SwitchKind::Jmp | SwitchKind::Start => loaded,
        SwitchKind::Call | SwitchKind::Event => loaded | 0x4000,
        SwitchKind::Iret => loaded | image & 0x4000,
    })
}

/// The bits of a word of registers that can be used: ES, CS, SS, DS, FS and GS from bit 0 on, and LDTR.
const LDTR_BIT: u8 = 0x40;

/// The state in the new task with these of its registers usable.
fn entered(w: &World, kind: SwitchKind, usable: u8) -> Proc {
    let f = w.fields;
    let mut p = w.before;
    p.regs = [f[10], f[11], f[12], f[13], f[14], f[15], f[16], f[17]];
    p.eip = f[8];
    p.eflags = flags_of(kind, f[9]);
    p.segs = [
        register(w, ES_AT, f[18], usable & 1 != 0),
        register(w, CS_AT, f[19], usable & 2 != 0),
        register(w, SS_AT, f[20], usable & 4 != 0),
        register(w, DS_AT, f[21], usable & 8 != 0),
        register(w, FS_AT, f[22], usable & 0x10 != 0),
        register(w, GS_AT, f[23], usable & 0x20 != 0),
    ];
    p.ldtr = register(w, LDT_AT, f[24], usable & LDTR_BIT != 0);
    p.tr = register(w, (w.selector / 8 % 13) as u8, u32::from(w.selector), true);
    p.cr0 = 9;
    p
}

/// A letter for each sort of cycle. The second letter of a sort is a cycle that is joined to the one before it.
fn letter(ask: &Ask) -> u8 {
    match (ask.role, ask.write, ask.joined) {
        (Role::Back, false, false) => b'b',
        (Role::Tss, false, false) => b't',
        (Role::Tss, false, true) => b'u',
        (Role::ClaimJmp, true, true) => b'J',
        (Role::ClaimCall, true, true) => b'C',
        (Role::ClaimStart, true, true) => b'S',
        (Role::ClaimLtr, true, true) => b'T',
        (Role::Save, true, false) => b's',
        (Role::Link, true, false) => b'k',
        (Role::RelJmp, false, false) => b'q',
        (Role::RelJmp, true, true) => b'Q',
        (Role::RelRet, false, false) => b'r',
        (Role::RelRet, true, true) => b'R',
        (Role::Load, false, false) => b'f',
        (Role::Gdt, false, false) => b'g',
        (Role::Gdt, false, true) => b'h',
        (Role::GdtAcc, true, true) => b'G',
        (Role::Ldt, false, false) => b'l',
        (Role::Ldt, false, true) => b'm',
        (Role::LdtAcc, true, true) => b'L',
        _ => b'?',
    }
}

/// What is looked at of a cycle: the letter of its sort, its part, address, enables and value.
fn seen(ask: &Ask) -> (u8, u8, u32, u8, u32) {
    (letter(ask), ask.part, ask.addr, ask.enables, ask.value)
}

/// The cycles from the descriptor of the TSS to the last field, of tasks whose segments are aligned.
fn head(kind: SwitchKind) -> &'static str {
    match kind {
        SwitchKind::Jmp => "tuJssssssssssssssssqQffffffffffffffffff",
        SwitchKind::Call | SwitchKind::Event => "tuCsssssssssssssssskffffffffffffffffff",
        SwitchKind::Iret => "btussssssssssssssssrRffffffffffffffffff",
        SwitchKind::Start => "tuSffffffffffffffffff",
    }
}

/// The cycles behind the last field, where all rows hold and no accessed bit was set: LDT, CS, SS, DS, ES, FS, GS.
const ALL: &str = "ghghGghGghGlmLghGlmL";

/// All registers.
const ALL_USABLE: u8 = 0x7f;

/// The cycles of a bus are those of the letters, of a head and behind it.
fn makes(rt: &impl Abort, name: &str, way: Way, bus: &FixedBus<0x400>, head: &str, tail: &str) {
    let cycles = bus.cycles();
    let wanted = head.as_bytes().len() + tail.as_bytes().len();
    assert_eq!(rt; cycles.len(), wanted, "{name} {way:?}");
    let letters = head.as_bytes().iter().chain(tail.as_bytes());
    for (at, (cycle, want)) in cycles.iter().zip(letters).enumerate() {
        assert_eq!(rt; letter(&cycle.ask), *want, "{name} {way:?} {at}");
    }
}

/// What the caller names: the back link alone says where an IRET goes.
fn named(w: &World, kind: SwitchKind) -> u16 {
    match kind {
        SwitchKind::Iret => 0x4b,
        SwitchKind::Jmp | SwitchKind::Call | SwitchKind::Event | SwitchKind::Start => w.selector,
    }
}

/// What a switch came to: its answer, the state behind it, and the bus that it was made on.
#[derive(Drop)]
struct Ran {
    found: Result<Outcome, Stop>,
    after: Proc,
    bus: FixedBus<0x400>,
}

/// A switch of this way from a world.
fn switched(w: &World, way: Way) -> Ran {
    let mut after = w.before;
    let mut bus = bus_of(w);
    let selector = named(w, way.kind);
    let found = switch(
        &mut after, &mut bus, way.kind, selector, way.direct, way.ext,
    );
    Ran { found, after, bus }
}

/// A switch from a world comes to this outcome and state, by the cycles of a head and a tail. The answer is the bus.
fn comes_to(
    rt: &impl Abort,
    name: &str,
    w: &World,
    way: Way,
    outcome: Outcome,
    after: &Proc,
    letters: (&'static str, &'static str),
) -> FixedBus<0x400> {
    let ran = switched(w, way);
    assert_eq!(rt; ran.found, Ok(outcome), "{name} {way:?}");
    assert_eq!(rt; ran.after, *after, "{name} {way:?}");
    makes(rt, name, way, &ran.bus, letters.0, letters.1);
    ran.bus
}
