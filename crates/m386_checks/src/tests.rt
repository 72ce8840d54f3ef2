//! The check table at work: each row, each data segment register, and the order.
ghost use Rattle.std.specs.Prelude.{◌<◌};

use crate::facts::{Context, Facts, Fail, SwitchKind};
use crate::first::{first_fail, old_fail};
use m386_base::desc::Desc;
use m386_base::fault::Fault;

/// A direct JMP to a sound task of level 3.
fn sound() -> Facts {
    let data = Some(Desc::new(0, 0xf_ffff, 0xf2, 0xc));
    Facts {
        kind: SwitchKind::Jmp,
        direct: true,
        cpl: 0,
        rpl: 0,
        ext: false,
        tr_usable: true,
        selector: 0x20,
        in_gdt: true,
        tss: Some(Desc::new(0x3080, 0x67, 0x89, 0)),
        ldt: 0x28,
        ldt_desc: Some(Desc::new(0x5000, 0x17, 0x82, 0)),
        segs: [0x53, 0x3b, 0x43, 0x4b, 0x5b, 0x63],
        seg_descs: [
            data,
            Some(Desc::new(0, 0xffff, 0xfa, 4)),
            data,
            data,
            data,
            data,
        ],
        eip: 0x4100,
    }
}

/// The descriptor with some bits of its access byte kept, and others set.
fn changed(desc: Option<Desc>, keep: u8, set: u8) -> Option<Desc> {
    match desc {
        Some(d) => Some(Desc::new(d.base, d.raw_limit, d.access & keep | set, d.flags)),
        None => None,
    }
}

/// The facts, but that a row fails, of rows 10 to 18 for a segment register.
fn spoiled(facts: &Facts, row: u8, seg: u8) -> Facts
    requires { seg < 6 }
{
    let mut spoilt = *facts;
    let at = seg as usize;
    match row {
        1 => spoilt.tr_usable = false,
        2 => spoilt.in_gdt = false,
        3 => spoilt.tss = changed(spoilt.tss, 0xf7, 0),
        4 => spoilt.cpl = 3,
        5 => spoilt.tss = changed(spoilt.tss, 0xff, 2),
        6 => spoilt.tss = changed(spoilt.tss, 0x7f, 0),
        7 => spoilt.tss = Some(Desc::new(0, 0x66, 0x89, 0)),
        8 => spoilt.ldt_desc = changed(spoilt.ldt_desc, 0xfd, 0),
        9 => spoilt.ldt_desc = changed(spoilt.ldt_desc, 0x7f, 0),
        10 => spoilt.seg_descs[at] = changed(spoilt.seg_descs[at], 0xf7, 0),
        13 => spoilt.seg_descs[at] = changed(spoilt.seg_descs[at], 0xfd, 0),
        16 => spoilt.seg_descs[at] = changed(spoilt.seg_descs[at], 0xfd, 8),
        11 | 14 | 17 => spoilt.seg_descs[at] = changed(spoilt.seg_descs[at], 0x9f, 0),
        12 | 15 | 18 => spoilt.seg_descs[at] = changed(spoilt.seg_descs[at], 0x7f, 0),
        _ => spoilt.eip = 0x1_0000,
    }
    spoilt
}

/// Row, segment register, vector and error code, in the order of the tests.
const CASES: [(u8, u8, u8, u16); 28] = [
    (1, 0, 13, 0),
    (2, 0, 13, 0x20),
    (3, 0, 13, 0x20),
    (4, 0, 13, 0x20),
    (5, 0, 13, 0x20),
    (6, 0, 11, 0x20),
    (7, 0, 10, 0x20),
    (8, 0, 10, 0x28),
    (9, 0, 10, 0x28),
    (10, 1, 10, 0x38),
    (11, 1, 10, 0x38),
    (12, 1, 11, 0x38),
    (13, 2, 10, 0x40),
    (14, 2, 10, 0x40),
    (15, 2, 12, 0x40),
    (16, 3, 10, 0x48),
    (17, 3, 10, 0x48),
    (18, 3, 11, 0x48),
    (16, 0, 10, 0x50),
    (17, 0, 10, 0x50),
    (18, 0, 11, 0x50),
    (16, 4, 10, 0x58),
    (17, 4, 10, 0x58),
    (18, 4, 11, 0x58),
    (16, 5, 10, 0x60),
    (17, 5, 10, 0x60),
    (18, 5, 11, 0x60),
    (19, 0, 13, 0),
];

#[test]
fn each_row_fails_alone(rt: HostRuntime) {
    assert_eq!(rt; first_fail(&sound()), None);
    for (row, seg, vector, code) in CASES {
        assert!(rt; seg < 6);
        let facts = spoiled(&sound(), row, seg);
        let context = if row < 8 { Context::Old } else { Context::New };
        let fail = Fail {
            row,
            seg,
            fault: Fault {
                vector,
                code: Some(code),
            },
            context,
        };
        assert_eq!(rt;
            first_fail(&facts),
            Some(fail),
            "row {row} of segment {seg}"
        );
        let old = if row < 8 { Some(fail) } else { None };
        assert_eq!(rt; old_fail(&facts), old, "row {row} of segment {seg}");
    }
}

#[test]
fn the_earlier_of_two_comes_first(rt: HostRuntime) {
    let mut before = (1, 0);
    for (row, seg, _, _) in CASES {
        assert!(rt; before.1 < 6 && seg < 6);
        let facts = spoiled(&spoiled(&sound(), row, seg), before.0, before.1);
        let found = first_fail(&facts).map(|fail| (fail.row, fail.seg));
        assert_eq!(rt; found, Some(before), "rows {} and {row}", before.0);
        before = (row, seg);
    }
}

/// One thing that a case changes, of the segment register of that case where it is one of a segment.
#[derive(Clone, Copy, Debug, PartialEq, Eq)]
enum Part {
    /// Whether TR holds a task: 0 or 1.
    Tr,
    /// The TSS selector.
    Selector,
    /// Whether it lies in the GDT: 0 or 1.
    InGdt,
    /// CPL.
    Cpl,
    /// The RPL of the selector that was named.
    Rpl,
    /// The access byte of the TSS.
    Tss,
    /// The limit of the TSS, with G from 100000h on.
    TssLimit,
    /// No descriptor of the TSS.
    NoTss,
    /// The LDT selector.
    Ldt,
    /// The access byte of the LDT.
    LdtAccess,
    /// No descriptor of the LDT.
    NoLdt,
    /// The segment's selector.
    Seg,
    /// The segment's access byte.
    Access,
    /// The segment's flags.
    Flags,
    /// No descriptor of the segment.
    NoSeg,
    /// EIP.
    Eip,
}

/// A descriptor with another access byte.
fn accessed(desc: Option<Desc>, access: u8) -> Option<Desc> {
    match desc {
        Some(d) => Some(Desc::new(d.base, d.raw_limit, access, d.flags)),
        None => None,
    }
}

/// The facts with one part changed.
fn with(facts: &Facts, seg: u8, part: Part, value: u32) -> Facts
    requires { seg < 6 }
{
    let mut new = *facts;
    let at = seg as usize;
    let byte = (value & 0xff) as u8;
    let word = (value & 0xffff) as u16;
    match part {
        Part::Tr => new.tr_usable = value == 1,
        Part::Selector => new.selector = word,
        Part::InGdt => new.in_gdt = value == 1,
        Part::Cpl => new.cpl = byte,
        Part::Rpl => new.rpl = byte,
        Part::Tss => new.tss = accessed(new.tss, byte),
        Part::TssLimit => {
            let access = if new.kind == SwitchKind::Iret {
                0xab
            } else {
                0xa9
            };
            let flags = if value < 0x10_0000 { 0 } else { 8 };
            new.tss = Some(Desc::new(0, value & 0xf_ffff, access, flags));
        }
        Part::NoTss => new.tss = None,
        Part::Ldt => new.ldt = word,
        Part::LdtAccess => new.ldt_desc = accessed(new.ldt_desc, byte),
        Part::NoLdt => new.ldt_desc = None,
        Part::Seg => new.segs[at] = word,
        Part::Access => new.seg_descs[at] = accessed(new.seg_descs[at], byte),
        Part::Flags => new.seg_descs[at] = Some(Desc::new(0, 0xffff, 0xfa, (value & 0xf) as u8)),
        Part::NoSeg => new.seg_descs[at] = None,
        Part::Eip => new.eip = value,
    }
    new
}

/// The kinds of a switch, each with whether the TSS was named itself and whether it comes with EXT: JMP, CALL, the two
/// through a task gate, an event, an IRET and a start.
static KINDS: [(SwitchKind, bool, bool); 7] = [
    (SwitchKind::Jmp, true, false),
    (SwitchKind::Call, true, false),
    (SwitchKind::Jmp, false, false),
    (SwitchKind::Call, false, false),
    (SwitchKind::Event, false, true),
    (SwitchKind::Iret, false, false),
    (SwitchKind::Start, false, false),
];

/// A sound switch of a kind from level 1 to a task of level 2 whose TSS has level 1. Its ES has the RPL 0 and FS the RPL 1,
/// and GS is null.
fn sound_switch(kind: SwitchKind, direct: bool, ext: bool) -> Facts {
    let data = Some(Desc::new(0, 0xf_ffff, 0xd2, 0xc));
    let access = if kind == SwitchKind::Iret { 0xab } else { 0xa9 };
    Facts {
        kind,
        direct,
        cpl: 1,
        rpl: 1,
        ext,
        tr_usable: true,
        selector: 0x21,
        in_gdt: true,
        tss: Some(Desc::new(0x3080, 0x67, access, 0)),
        ldt: 0x2b,
        ldt_desc: Some(Desc::new(0x5000, 0x17, 0xe2, 0)),
        segs: [0x50, 0x3a, 0x42, 0x4a, 0x59, 3],
        seg_descs: [
            data,
            Some(Desc::new(0, 0xffff, 0xda, 4)),
            data,
            data,
            data,
            None,
        ],
        eip: 0x4100,
    }
}

/// Where a row is told, by its number from 1: the vector for JMP and CALL, the vector for all else, and which selector is
/// named: 0 none, 1 that of the TSS, 2 of the LDT, 3 of the segment register.
static TOLD: [(u8, u8, u8); 19] = [
    (13, 13, 0),
    (13, 10, 1),
    (13, 10, 1),
    (13, 10, 1),
    (13, 10, 1),
    (11, 11, 1),
    (10, 10, 1),
    (10, 10, 2),
    (10, 10, 2),
    (10, 10, 3),
    (10, 10, 3),
    (11, 11, 3),
    (10, 10, 3),
    (10, 10, 3),
    (12, 12, 3),
    (10, 10, 3),
    (10, 10, 3),
    (11, 11, 3),
    (13, 13, 0),
];

/// What a row's failure is told as.
fn told(facts: &Facts, row: u8, seg: u8) -> Fail
    requires segment { seg < 6 }
    requires least { 0 < row }
    requires most { row < 20 }
{
    let (jump, other, named) = TOLD[row as usize - 1];
    let jumps = facts.kind == SwitchKind::Jmp || facts.kind == SwitchKind::Call;
    let selector = match named {
        1 => facts.selector,
        2 => facts.ldt,
        _ => facts.segs[seg as usize],
    };
    let plain = selector & 0xfffc;
    let code = if named == 0 {
        0
    } else if facts.ext {
        plain | 1
    } else {
        plain
    };
    Fail {
        row,
        seg: if named == 3 { seg } else { 0 },
        fault: Fault {
            vector: if jumps { jump } else { other },
            code: Some(code),
        },
        context: if row < 8 { Context::Old } else { Context::New },
    }
}

/// A segment register, two parts of the facts with their values, and the row that fails for each kind, 0 where all hold.
type Case = (u8, (Part, u32), (Part, u32), [u8; 7]);

/// The kinds that name the TSS itself, and the other ones.
const DIRECT: [u8; 7] = [4, 4, 0, 0, 0, 0, 0];

/// The part that changes nothing.
const NONE: (Part, u32) = (Part::Eip, 0x4100);

/// Each part of each row's condition, holding and false alone.
static PARTS: [Case; 285] = [
    // Nothing.
    (0, NONE, NONE, [0; 7]),
    // TR: a start needs none.
    (0, (Part::Tr, 0), NONE, [1, 1, 1, 1, 1, 1, 0]),
    // The TSS selector: null, in the LDT, not in the GDT, with any RPL.
    (0, (Part::Selector, 0), NONE, [2; 7]),
    (0, (Part::Selector, 1), NONE, [2; 7]),
    (0, (Part::Selector, 2), NONE, [2; 7]),
    (0, (Part::Selector, 3), NONE, [2; 7]),
    (0, (Part::Selector, 37), NONE, [2; 7]),
    (0, (Part::InGdt, 0), NONE, [2; 7]),
    (0, (Part::Selector, 0x20), NONE, [0; 7]),
    (0, (Part::Selector, 0x23), NONE, [0; 7]),
    (0, (Part::Selector, 4), NONE, [2; 7]),
    // Each type that is no 386 TSS, data and code of the same bits, and none.
    (0, (Part::Tss, 0xa0), NONE, [3; 7]),
    (0, (Part::Tss, 0xa1), NONE, [3; 7]),
    (0, (Part::Tss, 0xa2), NONE, [3; 7]),
    (0, (Part::Tss, 0xa3), NONE, [3; 7]),
    (0, (Part::Tss, 0xa4), NONE, [3; 7]),
    (0, (Part::Tss, 0xa5), NONE, [3; 7]),
    (0, (Part::Tss, 0xa6), NONE, [3; 7]),
    (0, (Part::Tss, 0xa7), NONE, [3; 7]),
    (0, (Part::Tss, 0xa8), NONE, [3; 7]),
    (0, (Part::Tss, 0xaa), NONE, [3; 7]),
    (0, (Part::Tss, 0xac), NONE, [3; 7]),
    (0, (Part::Tss, 0xad), NONE, [3; 7]),
    (0, (Part::Tss, 0xae), NONE, [3; 7]),
    (0, (Part::Tss, 0xaf), NONE, [3; 7]),
    (0, (Part::Tss, 0xb9), NONE, [3; 7]),
    (0, (Part::Tss, 0xbb), NONE, [3; 7]),
    (0, (Part::NoTss, 0), NONE, [3; 7]),
    // The level of the TSS, of which CPL and RPL may be less.
    (0, (Part::Cpl, 0), NONE, [0; 7]),
    (0, (Part::Rpl, 0), NONE, [0; 7]),
    (0, (Part::Cpl, 2), NONE, DIRECT),
    (0, (Part::Rpl, 2), NONE, DIRECT),
    (0, (Part::Cpl, 3), (Part::Rpl, 0), DIRECT),
    (0, (Part::Cpl, 0), (Part::Rpl, 3), DIRECT),
    // Busy, and available.
    (0, (Part::Tss, 0xab), NONE, [5, 5, 5, 5, 5, 0, 5]),
    (0, (Part::Tss, 0xa9), NONE, [0, 0, 0, 0, 0, 5, 0]),
    // Busy and available ones of other levels.
    (0, (Part::Tss, 0x8b), NONE, [4, 4, 5, 5, 5, 0, 5]),
    (0, (Part::Tss, 0x89), NONE, [4, 4, 0, 0, 0, 5, 0]),
    (0, (Part::Tss, 0xe9), NONE, [0, 0, 0, 0, 0, 5, 0]),
    // Not present.
    (0, (Part::Tss, 0x29), NONE, [6, 6, 6, 6, 6, 5, 6]),
    (0, (Part::Tss, 0x2b), NONE, [5, 5, 5, 5, 5, 6, 5]),
    // Its limit, in bytes and in pages.
    (0, (Part::TssLimit, 0x0), NONE, [7; 7]),
    (0, (Part::TssLimit, 0x66), NONE, [7; 7]),
    (0, (Part::TssLimit, 0x67), NONE, [0; 7]),
    (0, (Part::TssLimit, 0x68), NONE, [0; 7]),
    (0, (Part::TssLimit, 0xfffff), NONE, [0; 7]),
    (0, (Part::TssLimit, 0x100000), NONE, [0; 7]),
    // The LDT: null, with no descriptor and one that would not do; in the LDT; none; each other type.
    (0, (Part::Ldt, 0), (Part::NoLdt, 0), [0; 7]),
    (0, (Part::Ldt, 1), (Part::NoLdt, 0), [0; 7]),
    (0, (Part::Ldt, 2), (Part::NoLdt, 0), [0; 7]),
    (0, (Part::Ldt, 3), (Part::NoLdt, 0), [0; 7]),
    (0, (Part::Ldt, 3), (Part::LdtAccess, 0x89), [0; 7]),
    (0, (Part::Ldt, 0), (Part::LdtAccess, 0x02), [0; 7]),
    (0, (Part::Ldt, 4), NONE, [8; 7]),
    (0, (Part::Ldt, 0x2f), NONE, [8; 7]),
    (0, (Part::NoLdt, 0), NONE, [8; 7]),
    (0, (Part::Ldt, 0x28), NONE, [0; 7]),
    (0, (Part::LdtAccess, 0xe0), NONE, [8; 7]),
    (0, (Part::LdtAccess, 0xe1), NONE, [8; 7]),
    (0, (Part::LdtAccess, 0xe3), NONE, [8; 7]),
    (0, (Part::LdtAccess, 0xe4), NONE, [8; 7]),
    (0, (Part::LdtAccess, 0xe5), NONE, [8; 7]),
    (0, (Part::LdtAccess, 0xe6), NONE, [8; 7]),
    (0, (Part::LdtAccess, 0xe7), NONE, [8; 7]),
    (0, (Part::LdtAccess, 0xe8), NONE, [8; 7]),
    (0, (Part::LdtAccess, 0xe9), NONE, [8; 7]),
    (0, (Part::LdtAccess, 0xea), NONE, [8; 7]),
    (0, (Part::LdtAccess, 0xeb), NONE, [8; 7]),
    (0, (Part::LdtAccess, 0xec), NONE, [8; 7]),
    (0, (Part::LdtAccess, 0xed), NONE, [8; 7]),
    (0, (Part::LdtAccess, 0xee), NONE, [8; 7]),
    (0, (Part::LdtAccess, 0xef), NONE, [8; 7]),
    (0, (Part::LdtAccess, 0xf2), NONE, [8; 7]),
    // Not present, and of another level.
    (0, (Part::LdtAccess, 0x62), NONE, [9; 7]),
    (0, (Part::LdtAccess, 0x82), NONE, [0; 7]),
    // CS: null, none, data, a system descriptor, code of 16 bits; execute-only and accessed code.
    (1, (Part::Seg, 0), NONE, [10; 7]),
    (1, (Part::Seg, 1), NONE, [10; 7]),
    (1, (Part::Seg, 2), NONE, [10; 7]),
    (1, (Part::Seg, 3), NONE, [10; 7]),
    (1, (Part::NoSeg, 0), NONE, [10; 7]),
    (1, (Part::Access, 0xd0), NONE, [10; 7]),
    (1, (Part::Access, 0xd2), NONE, [10; 7]),
    (1, (Part::Access, 0xd6), NONE, [10; 7]),
    (1, (Part::Access, 0xc9), NONE, [10; 7]),
    (1, (Part::Access, 0xcc), NONE, [10; 7]),
    (1, (Part::Access, 0xcb), NONE, [10; 7]),
    (1, (Part::Access, 0xc2), NONE, [10; 7]),
    (1, (Part::Flags, 0xb), NONE, [10; 7]),
    (1, (Part::Flags, 3), NONE, [10; 7]),
    (1, (Part::Access, 0xd8), NONE, [0; 7]),
    (1, (Part::Access, 0xd9), NONE, [0; 7]),
    (1, (Part::Access, 0xdb), NONE, [0; 7]),
    // Its level, which is the RPL, or of conforming code at most that.
    (1, (Part::Access, 0x9a), NONE, [11; 7]),
    (1, (Part::Access, 0xba), NONE, [11; 7]),
    (1, (Part::Access, 0xfa), NONE, [11; 7]),
    (1, (Part::Access, 0x9e), NONE, [0; 7]),
    (1, (Part::Access, 0xbe), NONE, [0; 7]),
    (1, (Part::Access, 0xde), NONE, [0; 7]),
    (1, (Part::Access, 0x9c), NONE, [0; 7]),
    (1, (Part::Access, 0xbc), NONE, [0; 7]),
    (1, (Part::Access, 0xdc), NONE, [0; 7]),
    (1, (Part::Access, 0xfe), NONE, [11; 7]),
    (1, (Part::Access, 0xfc), NONE, [11; 7]),
    // The RPL of CS, and with it the new level.
    (1, (Part::Seg, 0x39), NONE, [11; 7]),
    (1, (Part::Seg, 0x3b), NONE, [11; 7]),
    (1, (Part::Seg, 0x38), NONE, [11; 7]),
    (1, (Part::Seg, 0x3b), (Part::Access, 0xfa), [14; 7]),
    (1, (Part::Seg, 0x39), (Part::Access, 0xba), [14; 7]),
    (1, (Part::Seg, 0x3f), (Part::Access, 0xde), [14; 7]),
    (1, (Part::Seg, 0x3e), NONE, [0; 7]),
    // Not present.
    (1, (Part::Access, 0x5a), NONE, [12; 7]),
    (1, (Part::Access, 0x5e), NONE, [12; 7]),
    // SS: null, none, read-only, code, a system descriptor; writable and downward.
    (2, (Part::Seg, 0), NONE, [13; 7]),
    (2, (Part::Seg, 1), NONE, [13; 7]),
    (2, (Part::Seg, 2), NONE, [13; 7]),
    (2, (Part::Seg, 3), NONE, [13; 7]),
    (2, (Part::NoSeg, 0), NONE, [13; 7]),
    (2, (Part::Access, 0xd0), NONE, [13; 7]),
    (2, (Part::Access, 0xd1), NONE, [13; 7]),
    (2, (Part::Access, 0xd4), NONE, [13; 7]),
    (2, (Part::Access, 0xd5), NONE, [13; 7]),
    (2, (Part::Access, 0xda), NONE, [13; 7]),
    (2, (Part::Access, 0xde), NONE, [13; 7]),
    (2, (Part::Access, 0xc2), NONE, [13; 7]),
    (2, (Part::Access, 0xcb), NONE, [13; 7]),
    (2, (Part::Access, 0xc9), NONE, [13; 7]),
    (2, (Part::Access, 0xd3), NONE, [0; 7]),
    (2, (Part::Access, 0xd6), NONE, [0; 7]),
    (2, (Part::Access, 0xd7), NONE, [0; 7]),
    // Its level and its RPL, each of which is the new level.
    (2, (Part::Access, 0x92), NONE, [14; 7]),
    (2, (Part::Access, 0xb2), NONE, [14; 7]),
    (2, (Part::Access, 0xf2), NONE, [14; 7]),
    (2, (Part::Seg, 0x40), NONE, [14; 7]),
    (2, (Part::Seg, 0x41), NONE, [14; 7]),
    (2, (Part::Seg, 0x43), NONE, [14; 7]),
    (2, (Part::Seg, 0x43), (Part::Access, 0xf2), [14; 7]),
    (2, (Part::Seg, 0x41), (Part::Access, 0xb2), [14; 7]),
    (2, (Part::Seg, 0x46), NONE, [0; 7]),
    // Not present.
    (2, (Part::Access, 0x52), NONE, [15; 7]),
    // DS: null, with no descriptor and one that would not do.
    (3, (Part::Seg, 0), (Part::NoSeg, 0), [0; 7]),
    (3, (Part::Seg, 1), (Part::NoSeg, 0), [0; 7]),
    (3, (Part::Seg, 2), (Part::NoSeg, 0), [0; 7]),
    (3, (Part::Seg, 3), (Part::NoSeg, 0), [0; 7]),
    (3, (Part::Seg, 0), (Part::Access, 0x02), [0; 7]),
    (3, (Part::Seg, 3), (Part::Access, 0x98), [0; 7]),
    (3, (Part::Seg, 3), (Part::Access, 0x12), [0; 7]),
    // None, execute-only and system descriptors; read-only and downward data, readable code.
    (3, (Part::NoSeg, 0), NONE, [16; 7]),
    (3, (Part::Access, 0xd8), NONE, [16; 7]),
    (3, (Part::Access, 0xdc), NONE, [16; 7]),
    (3, (Part::Access, 0xc2), NONE, [16; 7]),
    (3, (Part::Access, 0xc9), NONE, [16; 7]),
    (3, (Part::Access, 0xcb), NONE, [16; 7]),
    (3, (Part::Access, 0xc5), NONE, [16; 7]),
    (3, (Part::Access, 0xcc), NONE, [16; 7]),
    (3, (Part::Access, 0xce), NONE, [16; 7]),
    (3, (Part::Access, 0xcf), NONE, [16; 7]),
    (3, (Part::Access, 0xd0), NONE, [0; 7]),
    (3, (Part::Access, 0xd1), NONE, [0; 7]),
    (3, (Part::Access, 0xd3), NONE, [0; 7]),
    (3, (Part::Access, 0xd4), NONE, [0; 7]),
    (3, (Part::Access, 0xd6), NONE, [0; 7]),
    (3, (Part::Access, 0xda), NONE, [0; 7]),
    (3, (Part::Access, 0xdb), NONE, [0; 7]),
    (3, (Part::Access, 0xde), NONE, [0; 7]),
    (3, (Part::Access, 0xf2), NONE, [0; 7]),
    (3, (Part::Access, 0xfa), NONE, [0; 7]),
    // The level, against that of the task and against the RPL alone; conforming code of any level.
    (3, (Part::Access, 0x92), (Part::Seg, 0x48), [17; 7]),
    (3, (Part::Access, 0xb2), (Part::Seg, 0x48), [17; 7]),
    (3, (Part::Access, 0x9a), (Part::Seg, 0x48), [17; 7]),
    (3, (Part::Access, 0xba), (Part::Seg, 0x48), [17; 7]),
    (3, (Part::Access, 0x90), (Part::Seg, 0x48), [17; 7]),
    (3, (Part::Seg, 0x4b), NONE, [17; 7]),
    (3, (Part::Seg, 0x4b), (Part::Access, 0xda), [17; 7]),
    (3, (Part::Seg, 0x4b), (Part::Access, 0xf2), [0; 7]),
    (3, (Part::Seg, 0x48), NONE, [0; 7]),
    (3, (Part::Seg, 0x49), NONE, [0; 7]),
    (3, (Part::Seg, 0x4a), NONE, [0; 7]),
    (3, (Part::Seg, 0x4e), NONE, [0; 7]),
    (3, (Part::Seg, 0x4b), (Part::Access, 0x9e), [0; 7]),
    (3, (Part::Seg, 0x4b), (Part::Access, 0xbe), [0; 7]),
    (3, (Part::Seg, 0x4b), (Part::Access, 0xde), [0; 7]),
    (3, (Part::Seg, 0x4b), (Part::Access, 0xfe), [0; 7]),
    // Not present.
    (3, (Part::Access, 0x52), NONE, [18; 7]),
    (3, (Part::Access, 0x5e), NONE, [18; 7]),
    (3, (Part::Access, 0x72), NONE, [18; 7]),
    // ES: null, with no descriptor and one that would not do.
    (0, (Part::Seg, 0), (Part::NoSeg, 0), [0; 7]),
    (0, (Part::Seg, 1), (Part::NoSeg, 0), [0; 7]),
    (0, (Part::Seg, 2), (Part::NoSeg, 0), [0; 7]),
    (0, (Part::Seg, 3), (Part::NoSeg, 0), [0; 7]),
    (0, (Part::Seg, 0), (Part::Access, 0x02), [0; 7]),
    (0, (Part::Seg, 3), (Part::Access, 0x98), [0; 7]),
    (0, (Part::Seg, 3), (Part::Access, 0x12), [0; 7]),
    // None, execute-only and system descriptors; read-only and downward data, readable code.
    (0, (Part::NoSeg, 0), NONE, [16; 7]),
    (0, (Part::Access, 0xd8), NONE, [16; 7]),
    (0, (Part::Access, 0xdc), NONE, [16; 7]),
    (0, (Part::Access, 0xc2), NONE, [16; 7]),
    (0, (Part::Access, 0xc9), NONE, [16; 7]),
    (0, (Part::Access, 0xcb), NONE, [16; 7]),
    (0, (Part::Access, 0xc5), NONE, [16; 7]),
    (0, (Part::Access, 0xcc), NONE, [16; 7]),
    (0, (Part::Access, 0xce), NONE, [16; 7]),
    (0, (Part::Access, 0xcf), NONE, [16; 7]),
    (0, (Part::Access, 0xd0), NONE, [0; 7]),
    (0, (Part::Access, 0xd1), NONE, [0; 7]),
    (0, (Part::Access, 0xd3), NONE, [0; 7]),
    (0, (Part::Access, 0xd4), NONE, [0; 7]),
    (0, (Part::Access, 0xd6), NONE, [0; 7]),
    (0, (Part::Access, 0xda), NONE, [0; 7]),
    (0, (Part::Access, 0xdb), NONE, [0; 7]),
    (0, (Part::Access, 0xde), NONE, [0; 7]),
    (0, (Part::Access, 0xf2), NONE, [0; 7]),
    (0, (Part::Access, 0xfa), NONE, [0; 7]),
    // The level, against that of the task and against the RPL alone; conforming code of any level.
    (0, (Part::Access, 0x92), (Part::Seg, 0x50), [17; 7]),
    (0, (Part::Access, 0xb2), (Part::Seg, 0x50), [17; 7]),
    (0, (Part::Access, 0x9a), (Part::Seg, 0x50), [17; 7]),
    (0, (Part::Access, 0xba), (Part::Seg, 0x50), [17; 7]),
    (0, (Part::Access, 0x90), (Part::Seg, 0x50), [17; 7]),
    (0, (Part::Seg, 0x53), NONE, [17; 7]),
    (0, (Part::Seg, 0x53), (Part::Access, 0xda), [17; 7]),
    (0, (Part::Seg, 0x53), (Part::Access, 0xf2), [0; 7]),
    (0, (Part::Seg, 0x50), NONE, [0; 7]),
    (0, (Part::Seg, 0x51), NONE, [0; 7]),
    (0, (Part::Seg, 0x52), NONE, [0; 7]),
    (0, (Part::Seg, 0x56), NONE, [0; 7]),
    (0, (Part::Seg, 0x53), (Part::Access, 0x9e), [0; 7]),
    (0, (Part::Seg, 0x53), (Part::Access, 0xbe), [0; 7]),
    (0, (Part::Seg, 0x53), (Part::Access, 0xde), [0; 7]),
    (0, (Part::Seg, 0x53), (Part::Access, 0xfe), [0; 7]),
    // Not present.
    (0, (Part::Access, 0x52), NONE, [18; 7]),
    (0, (Part::Access, 0x5e), NONE, [18; 7]),
    (0, (Part::Access, 0x72), NONE, [18; 7]),
    // FS: null, with no descriptor and one that would not do.
    (4, (Part::Seg, 0), (Part::NoSeg, 0), [0; 7]),
    (4, (Part::Seg, 1), (Part::NoSeg, 0), [0; 7]),
    (4, (Part::Seg, 2), (Part::NoSeg, 0), [0; 7]),
    (4, (Part::Seg, 3), (Part::NoSeg, 0), [0; 7]),
    (4, (Part::Seg, 0), (Part::Access, 0x02), [0; 7]),
    (4, (Part::Seg, 3), (Part::Access, 0x98), [0; 7]),
    (4, (Part::Seg, 3), (Part::Access, 0x12), [0; 7]),
    // None, execute-only and system descriptors; read-only and downward data, readable code.
    (4, (Part::NoSeg, 0), NONE, [16; 7]),
    (4, (Part::Access, 0xd8), NONE, [16; 7]),
    (4, (Part::Access, 0xdc), NONE, [16; 7]),
    (4, (Part::Access, 0xc2), NONE, [16; 7]),
    (4, (Part::Access, 0xc9), NONE, [16; 7]),
    (4, (Part::Access, 0xcb), NONE, [16; 7]),
    (4, (Part::Access, 0xc5), NONE, [16; 7]),
    (4, (Part::Access, 0xcc), NONE, [16; 7]),
    (4, (Part::Access, 0xce), NONE, [16; 7]),
    (4, (Part::Access, 0xcf), NONE, [16; 7]),
    (4, (Part::Access, 0xd0), NONE, [0; 7]),
    (4, (Part::Access, 0xd1), NONE, [0; 7]),
    (4, (Part::Access, 0xd3), NONE, [0; 7]),
    (4, (Part::Access, 0xd4), NONE, [0; 7]),
    (4, (Part::Access, 0xd6), NONE, [0; 7]),
    (4, (Part::Access, 0xda), NONE, [0; 7]),
    (4, (Part::Access, 0xdb), NONE, [0; 7]),
    (4, (Part::Access, 0xde), NONE, [0; 7]),
    (4, (Part::Access, 0xf2), NONE, [0; 7]),
    (4, (Part::Access, 0xfa), NONE, [0; 7]),
    // The level, against that of the task and against the RPL alone; conforming code of any level.
    (4, (Part::Access, 0x92), (Part::Seg, 0x58), [17; 7]),
    (4, (Part::Access, 0xb2), (Part::Seg, 0x58), [17; 7]),
    (4, (Part::Access, 0x9a), (Part::Seg, 0x58), [17; 7]),
    (4, (Part::Access, 0xba), (Part::Seg, 0x58), [17; 7]),
    (4, (Part::Access, 0x90), (Part::Seg, 0x58), [17; 7]),
    (4, (Part::Seg, 0x5b), NONE, [17; 7]),
    (4, (Part::Seg, 0x5b), (Part::Access, 0xda), [17; 7]),
    (4, (Part::Seg, 0x5b), (Part::Access, 0xf2), [0; 7]),
    (4, (Part::Seg, 0x58), NONE, [0; 7]),
    (4, (Part::Seg, 0x59), NONE, [0; 7]),
    (4, (Part::Seg, 0x5a), NONE, [0; 7]),
    (4, (Part::Seg, 0x5e), NONE, [0; 7]),
    (4, (Part::Seg, 0x5b), (Part::Access, 0x9e), [0; 7]),
    (4, (Part::Seg, 0x5b), (Part::Access, 0xbe), [0; 7]),
    (4, (Part::Seg, 0x5b), (Part::Access, 0xde), [0; 7]),
    (4, (Part::Seg, 0x5b), (Part::Access, 0xfe), [0; 7]),
    // Not present.
    (4, (Part::Access, 0x52), NONE, [18; 7]),
    (4, (Part::Access, 0x5e), NONE, [18; 7]),
    (4, (Part::Access, 0x72), NONE, [18; 7]),
    // GS: null at first, with no descriptor.
    (5, (Part::Seg, 0x62), NONE, [16; 7]),
    (5, (Part::Seg, 0), NONE, [0; 7]),
    (5, (Part::Seg, 1), NONE, [0; 7]),
    (5, (Part::Seg, 2), NONE, [0; 7]),
    // EIP, at the last offset of CS and behind it.
    (1, (Part::Eip, 0x0), NONE, [0; 7]),
    (1, (Part::Eip, 0xffff), NONE, [0; 7]),
    (1, (Part::Eip, 0x10000), NONE, [19; 7]),
    (1, (Part::Eip, 0xffffffff), NONE, [19; 7]),
];

#[test]
fn each_part_of_a_row_counts(rt: HostRuntime) {
    for (at, (seg, one, other, rows)) in PARTS.iter().copied().enumerate() {
        for ((kind, direct, ext), row) in KINDS.iter().copied().zip(rows) {
            assert!(rt; seg < 6);
            let sound = sound_switch(kind, direct, ext);
            let facts = with(&with(&sound, seg, other.0, other.1), seg, one.0, one.1);
            let wanted = if row > 0 && row < 20 {
                // Row 14 is told of SS also where it fails by a change of CS.
                Some(told(&facts, row, if row == 14 { 2 } else { seg }))
            } else {
                None
            };
            assert_eq!(rt; first_fail(&facts), wanted, "case {at}");
        }
    }
}

#[test]
fn faults_by_kind_and_ext(rt: HostRuntime) {
    for (kind, vector) in [
        (SwitchKind::Jmp, 13),
        (SwitchKind::Call, 13),
        (SwitchKind::Event, 10),
        (SwitchKind::Iret, 10),
        (SwitchKind::Start, 10),
    ] {
        let mut facts = sound();
        facts.kind = kind;
        facts.ext = true;
        facts.selector = 0x23;
        facts.in_gdt = false;
        let named = Fault {
            vector,
            code: Some(0x21),
        };
        assert_eq!(rt; first_fail(&facts).map(|fail| fail.fault), Some(named));
        facts = spoiled(&sound(), 19, 0);
        facts.ext = true;
        let unnamed = Fault {
            vector: 13,
            code: Some(0),
        };
        assert_eq!(rt; first_fail(&facts).map(|fail| fail.fault), Some(unnamed));
    }
}
