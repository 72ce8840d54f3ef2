//! Whole switches of each kind, cycle by cycle.
use super::{ALL, Way, comes_to, head, seen, sound};
use m386_base::desc::Desc;
use m386_base::kind::SwitchKind;
use m386_base::number::Flags;
use m386_memory::fixed::FixedBus;
use m386_state::proc::Proc;
use m386_state::segment::Seg;
use m386_switch::outcome::Outcome;
use std::process::Abort;

/// The letter of a cycle's sort, its part, address, enables and value.
type Cycle = (u8, u8, u32, u8, u32);

macro_rules! cycles {
    ($($letter:literal $part:literal $addr:literal $enables:literal $value:literal;)*) => {
        [$(($letter, $part, $addr, $enables, $value)),*]
    };
}

/// The descriptor of a TSS that is available, read and claimed by a JMP.
const NAMED_BY_JMP: [Cycle; 3] = cycles![
    b't' 0 0x110 15 0x280_0067;
    b'u' 0 0x114 15 0xa900;
    b'J' 0 0x114 2 0xab00;
];

/// The same by a CALL or an event.
const NAMED_BY_CALL: [Cycle; 3] = cycles![
    b't' 0 0x110 15 0x280_0067;
    b'u' 0 0x114 15 0xa900;
    b'C' 0 0x114 2 0xab00;
];

/// The same by a start.
const NAMED_BY_START: [Cycle; 3] = cycles![
    b't' 0 0x110 15 0x280_0067;
    b'u' 0 0x114 15 0xa900;
    b'S' 0 0x114 2 0xab00;
];

/// The back link of the old task, and the descriptor of a TSS that is busy.
const NAMED_BY_IRET: [Cycle; 3] = cycles![
    b'b' 0 0x200 3 0x11;
    b't' 0 0x110 15 0x280_0067;
    b'u' 0 0x114 15 0xab00;
];

/// The cycles that name the new task and claim it.
fn naming(kind: SwitchKind) -> &'static [Cycle] {
    match kind {
        SwitchKind::Jmp => NAMED_BY_JMP.as_slice(),
        SwitchKind::Call | SwitchKind::Event => NAMED_BY_CALL.as_slice(),
        SwitchKind::Iret => NAMED_BY_IRET.as_slice(),
        SwitchKind::Start => NAMED_BY_START.as_slice(),
    }
}

/// The old task's EIP and flags.
const SAVED: [Cycle; 2] = cycles![
    b's' 8 0x220 15 0x101_0101;
    b's' 9 0x224 15 0x4ed7;
];

/// As an IRET saves them, without NT.
const SAVED_BY_IRET: [Cycle; 2] = cycles![
    b's' 8 0x220 15 0x101_0101;
    b's' 9 0x224 15 0xed7;
];

/// The cycles that save EIP and the flags.
fn saving(kind: SwitchKind) -> &'static [Cycle] {
    match kind {
        SwitchKind::Jmp | SwitchKind::Call | SwitchKind::Event => SAVED.as_slice(),
        SwitchKind::Iret => SAVED_BY_IRET.as_slice(),
        SwitchKind::Start => &[],
    }
}

/// The old task's registers.
const SAVED_REGISTERS: [Cycle; 14] = cycles![
    b's' 10 0x228 15 0xa000_0000;
    b's' 11 0x22c 15 0xa000_0001;
    b's' 12 0x230 15 0xa000_0002;
    b's' 13 0x234 15 0xa000_0003;
    b's' 14 0x238 15 0xa000_0004;
    b's' 15 0x23c 15 0xa000_0005;
    b's' 16 0x240 15 0xa000_0006;
    b's' 17 0x244 15 0xa000_0007;
    b's' 18 0x248 3 0x1113;
    b's' 19 0x24c 3 0x2221;
    b's' 20 0x250 3 0x3331;
    b's' 21 0x254 3 0x4443;
    b's' 22 0x258 3 0x5553;
    b's' 23 0x25c 3 0x6663;
];

/// The cycles that save the registers.
fn saving_registers(kind: SwitchKind) -> &'static [Cycle] {
    match kind {
        SwitchKind::Jmp | SwitchKind::Call | SwitchKind::Event | SwitchKind::Iret => {
            SAVED_REGISTERS.as_slice()
        }
        SwitchKind::Start => &[],
    }
}

/// The old busy bit, cleared by a JMP.
const RELEASED_BY_JMP: [Cycle; 2] = cycles![
    b'q' 0 0x10c 2 0xab00;
    b'Q' 0 0x10c 2 0xa900;
];

/// The same by an IRET.
const RELEASED_BY_IRET: [Cycle; 2] = cycles![
    b'r' 0 0x10c 2 0xab00;
    b'R' 0 0x10c 2 0xa900;
];

/// The old task's selector, written as the back link.
const LINKED: [Cycle; 1] = cycles![
    b'k' 0 0x280 3 0x9;
];

/// The cycles that leave the old task.
fn leaving(kind: SwitchKind) -> &'static [Cycle] {
    match kind {
        SwitchKind::Jmp => RELEASED_BY_JMP.as_slice(),
        SwitchKind::Call | SwitchKind::Event => LINKED.as_slice(),
        SwitchKind::Iret => RELEASED_BY_IRET.as_slice(),
        SwitchKind::Start => &[],
    }
}

/// The new task's fields.
const LOADED: [Cycle; 18] = cycles![
    b'f' 8 0x2a0 15 0x44;
    b'f' 9 0x2a4 15 0xffff_bfff;
    b'f' 10 0x2a8 15 0xb000_0000;
    b'f' 11 0x2ac 15 0xb000_0001;
    b'f' 12 0x2b0 15 0xb000_0002;
    b'f' 13 0x2b4 15 0xb000_0003;
    b'f' 14 0x2b8 15 0xb000_0004;
    b'f' 15 0x2bc 15 0xb000_0005;
    b'f' 16 0x2c0 15 0xb000_0006;
    b'f' 17 0x2c4 15 0xb000_0007;
    b'f' 18 0x2c8 3 0x6;
    b'f' 19 0x2cc 3 0x22;
    b'f' 20 0x2d0 3 0x2a;
    b'f' 21 0x2d4 3 0x32;
    b'f' 22 0x2d8 3 0x41;
    b'f' 23 0x2dc 3 0xd;
    b'f' 24 0x2e0 3 0x1a;
    b'f' 25 0x2e4 3 0x0;
];

/// The descriptors of the LDT, CS, SS, DS, ES, FS and GS, with their accessed bytes.
const DESCRIBED: [Cycle; 20] = cycles![
    b'g' 0 0x118 15 0x158_000f;
    b'h' 0 0x11c 15 0x8200;
    b'g' 0 0x120 15 0xffff;
    b'h' 0 0x124 15 0x40_da00;
    b'G' 0 0x124 2 0xdb00;
    b'g' 0 0x128 15 0x1000_ffff;
    b'h' 0 0x12c 15 0x40_d200;
    b'G' 0 0x12c 2 0xd300;
    b'g' 0 0x130 15 0x2000_ffff;
    b'h' 0 0x134 15 0xcf_d200;
    b'G' 0 0x134 2 0xd300;
    b'l' 0 0x158 15 0x5678_ffff;
    b'm' 0 0x15c 15 0x1240_fa34;
    b'L' 0 0x15c 2 0xfb00;
    b'g' 0 0x140 15 0x3000_ffff;
    b'h' 0 0x144 15 0x40_9e00;
    b'G' 0 0x144 2 0x9f00;
    b'l' 0 0x160 15 0x4000_00ff;
    b'm' 0 0x164 15 0xd000;
    b'L' 0 0x164 2 0xd100;
];

/// A kind, and the flags and the access byte of TR behind a switch.
const BEHIND: [(SwitchKind, u32, u8); 5] = [
    (SwitchKind::Jmp, 0x3fd7, 0xa9),
    (SwitchKind::Call, 0x7fd7, 0xa9),
    (SwitchKind::Event, 0x7fd7, 0xa9),
    (SwitchKind::Iret, 0x3fd7, 0xab),
    (SwitchKind::Start, 0x3fd7, 0xa9),
];

/// A register that can be used.
fn usable(selector: u16, desc: Desc) -> Seg {
    Seg {
        selector,
        usable: true,
        desc,
    }
}

/// The state behind a switch with these flags and this access byte of TR. Access bytes are as they were read.
fn after(before: &Proc, flags: u32, access: u8) -> Proc {
    let mut p = *before;
    p.regs = [
        0xb000_0000,
        0xb000_0001,
        0xb000_0002,
        0xb000_0003,
        0xb000_0004,
        0xb000_0005,
        0xb000_0006,
        0xb000_0007,
    ];
    p.eip = 0x44;
    p.eflags = Flags(flags);
    p.segs = [
        usable(6, Desc::new(0x1234_5678, 0xffff, 0xfa, 4)),
        usable(0x22, Desc::new(0, 0xffff, 0xda, 4)),
        usable(0x2a, Desc::new(0x1000, 0xffff, 0xd2, 4)),
        usable(0x32, Desc::new(0x2000, 0xf_ffff, 0xd2, 0xc)),
        usable(0x41, Desc::new(0x3000, 0xffff, 0x9e, 4)),
        usable(0xd, Desc::new(0x4000, 0xff, 0xd0, 0)),
    ];
    p.ldtr = usable(0x1a, Desc::new(0x158, 0xf, 0x82, 0));
    p.tr = usable(0x11, Desc::new(0x280, 0x67, access, 0));
    p.cr0 = 9;
    p
}

/// The cycles from a place on are these. The answer is the place behind them.
fn go_on(rt: &impl Abort, bus: &FixedBus<0x400>, from: usize, wanted: &[Cycle]) -> usize {
    let mut at = from;
    for want in wanted {
        let got = bus.cycles().get(at).map(|cycle| cycle.ask);
        assert_eq!(rt; got.map(|ask| seen(&ask)), Some(*want), "{at}");
        at = at.saturating_add(1);
    }
    at
}

/// The cycles of a bus are those of a whole switch, in their order.
fn makes_each(rt: &impl Abort, bus: &FixedBus<0x400>, kind: SwitchKind) {
    let mut at = go_on(rt, bus, 0, naming(kind));
    at = go_on(rt, bus, at, saving(kind));
    at = go_on(rt, bus, at, saving_registers(kind));
    at = go_on(rt, bus, at, leaving(kind));
    at = go_on(rt, bus, at, &LOADED);
    at = go_on(rt, bus, at, &DESCRIBED);
    assert_eq!(rt; bus.cycles().len(), at, "{kind:?}");
}

#[test]
fn a_whole_switch_of_each_kind(rt: HostRuntime) {
    for (kind, flags, access) in BEHIND {
        let w = sound(kind);
        let way = Way {
            kind,
            direct: true,
            ext: false,
        };
        let after = after(&w.before, flags, access);
        let letters = (head(kind), ALL);
        let bus = comes_to(&rt, "whole", &w, way, Outcome::Done, &after, letters);
        makes_each(&rt, &bus, kind);
    }
}
