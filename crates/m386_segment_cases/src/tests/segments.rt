//! MOV from and to a segment register. Descriptors have the limit FFFFh, counted in bytes, and the base 0. The high doubleword of
//! one has its access byte in bits 8 to 15: P in bit 15, DPL in 13 and 14, S in 12 and the type below.
ghost use Rattle.std.specs.Prelude.{◌≡◌, [], false};

use super::{Case, at, bare, fetch, joined, loaded, pending, read, step_over_values, write};
use m386_base::ask::{Ask, Cycle, Role};
use m386_base::desc::Desc;
use m386_memory::fixed::FixedBus;
use m386_state::proc::{Mode, Proc, start_bare, unusable};
use m386_state::segment::{Seg, TableReg};
use m386_step::alone::step_alone;
use std::process::Abort;

/// A group of a descriptor, read at the beginning of a locked group.
pub(crate) fn table(role: Role, addr: u32, value: u32) -> Ask {
    Ask {
        role,
        ..read(0, addr, 15, value)
    }
}

/// A group of a descriptor in the GDT, read within a locked group.
pub(crate) fn gdt(part: u8, addr: u32, enables: u8, value: u32) -> Ask {
    joined(Ask {
        role: Role::Gdt,
        ..read(part, addr, enables, value)
    })
}

/// An access byte, written in the group of bytes that has it.
pub(crate) fn mark(role: Role, addr: u32, enables: u8, value: u32) -> Ask {
    joined(Ask {
        role,
        ..write(0, addr, enables, value)
    })
}

/// A processor at a level, with a GDT of three entries at 1800h and an LDT of three at 1900h.
pub(crate) fn leveled(level: u16) -> Proc {
    let mut p = bare();
    let level = level & 3;
    p.segs[1].selector = 8 | level;
    p.gdtr = TableReg {
        base: 0x1800,
        limit: 0x17,
    };
    p.ldtr = Seg {
        selector: 0x20,
        usable: true,
        desc: Desc::new(0x1900, 0x17, 0x82, 0),
    };
    p
}

/// The same with a selector in AX.
fn naming(level: u16, selector: u16) -> Proc {
    let mut p = leveled(level);
    p.regs[0] = 0xa0a1_0000 | u32::from(selector);
    p
}

/// A segment register with a descriptor of this access byte.
pub(crate) fn held(selector: u16, access: u8) -> Seg {
    Seg {
        selector,
        usable: true,
        desc: Desc::new(0, 0xffff, access, 4),
    }
}

/// The state with a segment register changed.
pub(crate) fn with(p: &Proc, number: usize, value: Seg) -> Proc {
    let [es, cs, ss, ds, fs, gs] = p.segs;
    let mut after = *p;
    after.segs = [
        if number == 0 { value } else { es },
        cs,
        if number == 2 { value } else { ss },
        if number == 3 { value } else { ds },
        if number == 4 { value } else { fs },
        if number == 5 { value } else { gs },
    ];
    after
}

/// The state with the shadow of a load of SS.
fn shadowed(p: &Proc) -> Proc {
    let mut after = *p;
    after.shadow = true;
    after
}

/// A level, a selector, the high doubleword of its descriptor where that is read, and the vector and error code of the fault, with
/// vector 0 where it is loaded.
type Line = (u16, u16, u32, u8, u16);

/// A load from AX by these two bytes: its cycles, and the fault or the register. An access byte whose bit 0 is clear is written
/// behind the read of a descriptor that is taken.
fn load(rt: &impl Abort, code: u32, number: usize, line: Line) {
    let (level, selector, high, vector, error) = line;
    let before = naming(level, selector);
    let (role, accessed, address) = if selector & 4 == 0 {
        (Role::Gdt, Role::GdtAcc, 0x1810)
    } else {
        (Role::Ldt, Role::LdtAcc, 0x1910)
    };
    let cycles = [
        fetch(0x1000, code),
        table(role, address, 0xffff),
        joined(table(role, address + 4, high)),
        mark(accessed, address + 4, 2, high & 0xff00 | 0x100),
    ];
    let used = match (high == 0, vector == 0 && high & 0x100 == 0) {
        (true, _) => 1,
        (false, false) => 3,
        (false, true) => 4,
    };
    let taken = with(
        &at(&before, 0x1002),
        number,
        held(selector, (high >> 8 & 0xff) as u8),
    );
    let after = match (vector == 0, number == 2) {
        (false, _) => pending(&before, vector, Some(error)),
        (true, false) => taken,
        (true, true) => shadowed(&taken),
    };
    let case = Case {
        name: "a load from AX",
        before,
        code: &[],
        cycles: &cycles[..used],
        after,
    };
    step_over_values(rt, &case);
}

#[test]
fn stack_segments_are_loaded_by_their_rules(rt: HostRuntime) {
    for line in [
        (0, 0x10, 0x0040_9300, 0, 0),
        (0, 0x10, 0x0040_9200, 0, 0),
        (0, 0x10, 0x0040_9600, 0, 0),
        (3, 0x13, 0x0040_f300, 0, 0),
        (3, 0x17, 0x0040_f200, 0, 0),
        (1, 0x11, 0x0040_b200, 0, 0),
        // Null, and outside its table.
        (0, 0, 0, 13, 0),
        (0, 3, 0, 13, 0),
        (0, 0x18, 0, 13, 0x18),
        (0, 0x1c, 0, 13, 0x1c),
        // RPL.
        (0, 0x11, 0x0040_9300, 13, 0x10),
        (3, 0x10, 0x0040_f300, 13, 0x10),
        // No writable data.
        (0, 0x10, 0x0040_9000, 13, 0x10),
        (0, 0x10, 0x0040_9a00, 13, 0x10),
        (0, 0x10, 0x0000_8200, 13, 0x10),
        // DPL.
        (0, 0x10, 0x0040_b200, 13, 0x10),
        (3, 0x13, 0x0040_d200, 13, 0x10),
        // Not present, also where another rule is broken.
        (0, 0x10, 0x0040_1200, 12, 0x10),
        (3, 0x17, 0x0040_7200, 12, 0x14),
        (0, 0x11, 0x0040_1200, 13, 0x10),
        (0, 0x10, 0x0040_1000, 13, 0x10),
        (0, 0x10, 0x0040_3200, 13, 0x10),
    ] {
        load(&rt, 0xd08e, 2, line);
    }
}

#[test]
fn data_segments_are_loaded_by_their_rules(rt: HostRuntime) {
    for line in [
        (0, 0x10, 0x0040_9300, 0, 0),
        (0, 0x10, 0x0040_9200, 0, 0),
        (0, 0x14, 0x0040_9200, 0, 0),
        (0, 0x10, 0x0040_9000, 0, 0),
        (0, 0x10, 0x0040_9a00, 0, 0),
        (3, 0x13, 0x0040_9e00, 0, 0),
        (2, 0x13, 0x0040_f200, 0, 0),
        // Outside its table.
        (0, 0x18, 0, 13, 0x18),
        (0, 0x1f, 0, 13, 0x1c),
        // Code that can't be read, and types of the system.
        (0, 0x10, 0x0040_9800, 13, 0x10),
        (0, 0x10, 0x0040_9c00, 13, 0x10),
        (0, 0x10, 0x0000_8200, 13, 0x10),
        (0, 0x10, 0x0000_8900, 13, 0x10),
        // CPL, and RPL.
        (3, 0x10, 0x0040_9200, 13, 0x10),
        (0, 0x13, 0x0040_9200, 13, 0x10),
        (3, 0x10, 0x0040_da00, 13, 0x10),
        // Not present, also where another rule is broken.
        (0, 0x10, 0x0040_1200, 11, 0x10),
        (0, 0x16, 0x0040_5200, 11, 0x14),
        (0, 0x10, 0x0040_1800, 13, 0x10),
        (3, 0x10, 0x0040_1200, 13, 0x10),
        (0, 0x13, 0x0040_1200, 13, 0x10),
    ] {
        load(&rt, 0xd88e, 3, line);
        load(&rt, 0xc08e, 0, line);
        load(&rt, 0xe08e, 4, line);
        load(&rt, 0xe88e, 5, line);
    }
}

#[test]
fn a_null_selector_leaves_a_segment_unusable(rt: HostRuntime) {
    for (code, number) in [(0xc08e, 0), (0xd88e, 3), (0xe08e, 4), (0xe88e, 5)] {
        for selector in [0, 1, 2, 3] {
            let before = naming(0, selector);
            let case = Case {
                name: "a null load",
                before,
                code: &[],
                cycles: &[fetch(0x1000, code)],
                after: with(&at(&before, 0x1002), number, unusable(selector)),
            };
            step_over_values(&rt, &case);
        }
    }
    let null = with(&leveled(0), 3, unusable(0));
    let access = Case {
        name: "MOV EAX, [0] through a null DS",
        before: null,
        code: &[],
        cycles: &[fetch(0x1000, 0xa1), fetch(0x1004, 0)],
        after: pending(&null, 13, Some(0)),
    };
    step_over_values(&rt, &access);
}

#[test]
fn a_table_ends_with_its_limit(rt: HostRuntime) {
    let mut short = naming(0, 0x10);
    short.gdtr.limit = 0x16;
    let mut local = naming(0, 0x14);
    local.ldtr.desc = Desc::new(0x1900, 0x16, 0x82, 0);
    let mut none = naming(0, 0x14);
    none.ldtr.usable = false;
    for (before, code) in [(short, 0x10), (local, 0x14), (none, 0x14)] {
        let case = Case {
            name: "MOV DS, AX",
            before,
            code: &[],
            cycles: &[fetch(0x1000, 0xd88e)],
            after: pending(&before, 13, Some(code)),
        };
        step_over_values(&rt, &case);
    }
}

#[test]
fn a_descriptor_is_read_and_marked_at_any_address(rt: HostRuntime) {
    // The bytes of the descriptor are FF FF 00 00 00 92 40 00.
    let mut by_1 = naming(0, 0x10);
    by_1.gdtr.base = 0x1801;
    let mut by_2 = naming(0, 0x10);
    by_2.gdtr.base = 0x1802;
    let mut by_3 = naming(0, 0x10);
    by_3.gdtr.base = 0x1803;
    let begin = fetch(0x1000, 0xd88e);
    for (before, cycles) in [
        (
            by_1,
            [
                begin,
                gdt(0, 0x1810, 14, 0x00ff_ff00),
                gdt(3, 0x1814, 1, 0),
                gdt(0, 0x1814, 14, 0x4092_0000),
                gdt(3, 0x1818, 1, 0),
                mark(Role::GdtAcc, 0x1814, 4, 0x0093_0000),
            ],
        ),
        (
            by_2,
            [
                begin,
                gdt(0, 0x1810, 12, 0xffff_0000),
                gdt(2, 0x1814, 3, 0),
                gdt(0, 0x1814, 12, 0x9200_0000),
                gdt(2, 0x1818, 3, 0x40),
                mark(Role::GdtAcc, 0x1814, 8, 0x9300_0000),
            ],
        ),
        (
            by_3,
            [
                begin,
                gdt(0, 0x1810, 8, 0xff00_0000),
                gdt(1, 0x1814, 7, 0xff),
                gdt(0, 0x1814, 8, 0),
                gdt(1, 0x1818, 7, 0x4092),
                mark(Role::GdtAcc, 0x1818, 1, 0x93),
            ],
        ),
    ] {
        let mut cycles = cycles;
        cycles[1].joined = false;
        let case = Case {
            name: "MOV DS, AX",
            before,
            code: &[],
            cycles: &cycles,
            after: with(&at(&before, 0x1002), 3, held(0x10, 0x92)),
        };
        step_over_values(&rt, &case);
    }
}

/// MOV from a segment register.
pub(crate) const STORES: &str = "\
start cs=b:0:fffff:9b:c ss=1234:0:fffff:93:c ldtr=20:1900:17:82:0 gdtr=1800:17
MOV EAX, SS
 r fetch 0 1000 f d08c
 after eip=1002 eax=a0a11234
MOV CX, SS with 66h
 r fetch 0 1000 f d18c66
 after eip=1003 ecx=c0c11234
MOV EDX, CS
 r fetch 0 1000 f ca8c
 after eip=1002 edx=d0d1000b
MOV [1010h], SS
 r fetch 0 1000 f 1010158c
 r fetch 0 1004 f 0
 w data 0 1010 3 1234
 after eip=1006
MOV [1013h], SS, split over two groups
 r fetch 0 1000 f 1013158c
 r fetch 0 1004 f 0
 w data 0 1010 8 34000000
 w data 1 1014 1 12
 after eip=1006
MOV [FFFFFFFFh], SS, past the last offset
 r fetch 0 1000 f ffff158c
 r fetch 0 1004 f ffff
 after pending=d:0
";

/// MOV to a segment register from memory.
pub(crate) const MEMORY: &str = "\
start ldtr=20:1900:17:82:0 gdtr=1800:17
MOV DS, [1012h]
 r fetch 0 1000 f 10121d8e
 r fetch 0 1004 f 0
 r data 0 1010 c 100000
 r gdt 0 1810 f ffff
 r+ gdt 0 1814 f 409300
 after eip=1006 ds=10:0:ffff:93:4
MOV DS, [1013h], split over two groups
 r fetch 0 1000 f 10131d8e
 r fetch 0 1004 f 0
 r data 0 1010 8 14000000
 r data 1 1014 1 0
 r ldt 0 1910 f ffff
 r+ ldt 0 1914 f 409200
 w+ ldtacc 0 1914 2 9300
 after eip=1006 ds=14:0:ffff:92:4
MOV DS, [FFFFFFFFh], past the last offset
 r fetch 0 1000 f ffff1d8e
 r fetch 0 1004 f ffff
 after pending=d:0
";

/// MOV to SS and the instruction behind it.
pub(crate) const SHADOWS: &str = "\
start eax=a0a10010 flags=202 ldtr=20:1900:17:82:0 gdtr=1800:17
MOV SS, AX
 r fetch 0 1000 f d08e
 r gdt 0 1810 f ffff
 r+ gdt 0 1814 f 409300
 after eip=1002 ss=10:0:ffff:93:4 shadow=1
MOV SS, AX with TF set
 before flags=102
 r fetch 0 1000 f d08e
 r gdt 0 1810 f ffff
 r+ gdt 0 1814 f 409300
 after eip=1002 ss=10:0:ffff:93:4 pending=1 shadow=1
NOP under the shadow
 before eip=1002 ss=10:0:ffff:93:4 shadow=1 request=20
 r fetch 0 1000 f 90d08e
 after eip=1003 shadow=0
";

/// Accesses through a segment that was loaded.
pub(crate) const LIMITS: &str = "\
start ss=10:0:ffff:93:4 ds=10:0:ffff:93:4 ldtr=20:1900:17:82:0 gdtr=1800:17
MOV EAX, [FFFCh]
 r fetch 0 1000 f fffca1
 r fetch 0 1004 f 0
 r data 0 fffc f 5
 after eip=1005 eax=5
MOV EAX, [FFFDh]
 r fetch 0 1000 f fffda1
 r fetch 0 1004 f 0
 after pending=d:0
MOV EAX, SS:[FFFDh]
 r fetch 0 1000 f fffda136
 r fetch 0 1004 f 0
 after pending=c:0
";

/// A memory of 16,384 bytes: code at 1000h, and at 1810h a descriptor of four bytes at 2000h.
fn small_segment() -> FixedBus<0x4000> {
    let mut bus = FixedBus::<0x4000>::new();
    let code = [
        0xb8, 0x10, 0, 0, 0, // MOV EAX, 10h
        0x8e, 0xd8, // MOV DS, AX
        0xa1, 4, 0, 0, 0, // MOV EAX, [4]
    ];
    for (i, byte) in code.iter().enumerate() {
        bus.poke(0x1000 + i as u32, *byte);
    }
    let descriptor = [3, 0, 0, 0x20, 0, 0x92, 0x40, 0];
    for (i, byte) in descriptor.iter().enumerate() {
        bus.poke(0x1810 + i as u32, *byte);
    }
    bus
}

#[test]
fn a_segment_is_loaded_and_its_limit_is_kept(rt: HostRuntime) {
    let mut bus = small_segment();
    let none = TableReg { base: 0, limit: 0 };
    let gdtr = TableReg {
        base: 0x1800,
        limit: 0x17,
    };
    let begun = start_bare(0x1000, gdtr, none);
    let mut p = begun;
    let loading = [
        fetch(0x1004, 0xa1d8_8e00),
        table(Role::Gdt, 0x1810, 0x2000_0003),
        joined(table(Role::Gdt, 0x1814, 0x0040_9200)),
        mark(Role::GdtAcc, 0x1814, 2, 0x9300),
    ];
    let failing = [fetch(0x1004, 0xa1d8_8e00), fetch(0x1008, 4)];
    let first = [fetch(0x1000, 0x10b8), fetch(0x1004, 0xa1d8_8e00)];
    for cycles in [&first[..], &loading[..], &failing[..]] {
        bus.clear();
        assert!(rt; p.mode != Mode::Shutdown);
        step_alone(&mut p, &mut bus);
        assert_eq!(rt; bus.cycles().len(), cycles.len());
        for (cycle, ask) in bus.cycles().iter().zip(cycles) {
            assert_eq!(rt; *cycle, Cycle { cpu: 0, ask: *ask });
        }
    }
    let small = Seg {
        selector: 0x10,
        usable: true,
        desc: Desc::new(0x2000, 3, 0x92, 4),
    };
    let ended = loaded(&with(&begun, 3, small), 0x1007, 0, 0x10);
    assert_eq!(rt; p, pending(&ended, 13, Some(0)));
}
