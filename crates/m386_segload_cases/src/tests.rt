//! The tables of rules and their parts: each rule alone, each order that a fault or an error code shows, each type of descriptor.
//! Access bytes are P in bit 7, DPL in bits 5 and 6, S in bit 4 and the type below.
use m386_base::desc::Desc;
use m386_base::fault::{Fault, Stop};
use m386_base::probe::ProbeBus;
use m386_desc::bytes::desc_bytes;
use m386_segload::arpl::arpl;
use m386_segload::look::look;
use m386_segload::requirements::first_broken;
use m386_segload::rules::{
    CALL_GATE_RULES, Candidate, DATA_RULES, DIRECT_RULES, EVENT_GATE_RULES, INNER_STACK_RULES,
    JUMP_TARGET_RULES, LOCAL_TABLE_RULES, OFFSET_RULES, RETURN_RULES, Rule, STACK_RULES,
    TARGET_RULES, TASK_STACK_RULES,
};
use m386_segload::tables::{is_in_gdt, is_there, place_for};
use m386_segload::wanted::Look;
use m386_state::proc::{Proc, start_bare};
use m386_state::segment::{Seg, TableReg};
use std::process::Abort;

/// A level, a selector, the access byte of its descriptor where it is in its table, and the vector and error code of the fault, with
/// vector 0 where there is none.
type Line = (u8, u16, Option<u8>, u8, u16);

/// A selector with a descriptor of 32 bits and 64 KiB. The error code names the selector without EXT.
fn candidate(level: u8, selector: u16, access: Option<u8>) -> Candidate {
    Candidate {
        selector,
        desc: match access {
            Some(access) => Some(Desc::new(0, 0xffff, access, 4)),
            None => None,
        },
        level,
        code: selector / 4 * 4,
        offset: 0,
    }
}

/// The fault that is wanted.
fn wanted(vector: u8, code: u16) -> Option<Fault> {
    if vector == 0 {
        return None;
    }
    Some(Fault {
        vector,
        code: Some(code),
    })
}

/// A line of a table.
fn hold(rt: &impl Abort, rules: &[Rule], line: Line) {
    let (level, selector, access, vector, code) = line;
    assert_eq!(rt;
        first_broken(rules, &candidate(level, selector, access)),
        wanted(vector, code),
        "level {level}, selector {selector}"
    );
}

#[test]
fn stack_segments_are_of_their_level(rt: HostRuntime) {
    for line in [
        (0, 0x10, Some(0x92), 0, 0),
        (0, 0x10, Some(0x93), 0, 0),
        (0, 0x10, Some(0x96), 0, 0),
        (1, 0x11, Some(0xb2), 0, 0),
        (2, 0x16, Some(0xd2), 0, 0),
        (3, 0x13, Some(0xf2), 0, 0),
        // Null.
        (0, 0, None, 13, 0),
        (3, 3, None, 13, 0),
        // Outside its table.
        (0, 0x10, None, 13, 0x10),
        (3, 0x17, None, 13, 0x14),
        // RPL.
        (0, 0x11, Some(0x92), 13, 0x10),
        (3, 0x10, Some(0xf2), 13, 0x10),
        (1, 0x13, Some(0xb2), 13, 0x10),
        // No writable data.
        (0, 0x10, Some(0x90), 13, 0x10),
        (0, 0x10, Some(0x94), 13, 0x10),
        (0, 0x10, Some(0x9a), 13, 0x10),
        (0, 0x10, Some(0x9e), 13, 0x10),
        (0, 0x10, Some(0x82), 13, 0x10),
        // DPL.
        (0, 0x10, Some(0xb2), 13, 0x10),
        (0, 0x10, Some(0xf2), 13, 0x10),
        (3, 0x13, Some(0xd2), 13, 0x10),
        (2, 0x12, Some(0xb2), 13, 0x10),
        // Not present, also where another rule is broken.
        (0, 0x10, Some(0x12), 12, 0x10),
        (3, 0x17, Some(0x72), 12, 0x14),
        (0, 0x11, Some(0x12), 13, 0x10),
        (0, 0x10, Some(0x10), 13, 0x10),
        (0, 0x10, Some(0x32), 13, 0x10),
    ] {
        hold(&rt, &STACK_RULES, line);
    }
}

#[test]
fn data_segments_are_readable_and_of_an_outer_level(rt: HostRuntime) {
    for line in [
        (0, 0x10, Some(0x90), 0, 0),
        (0, 0x10, Some(0x92), 0, 0),
        (0, 0x10, Some(0x94), 0, 0),
        (0, 0x10, Some(0x97), 0, 0),
        (0, 0x10, Some(0x9a), 0, 0),
        (0, 0x10, Some(0x9e), 0, 0),
        (0, 0x14, Some(0x92), 0, 0),
        (0, 0x10, None, 13, 0x10),
        (3, 0x17, None, 13, 0x14),
        // Code that can't be read, and types of the system.
        (0, 0x10, Some(0x98), 13, 0x10),
        (0, 0x10, Some(0x9c), 13, 0x10),
        (0, 0x10, Some(0x82), 13, 0x10),
        (0, 0x10, Some(0x89), 13, 0x10),
        (0, 0x10, Some(0x8c), 13, 0x10),
        // Conforming code is of any level, and other code isn't.
        (3, 0x13, Some(0x9e), 0, 0),
        (0, 0x13, Some(0x9e), 0, 0),
        (3, 0x10, Some(0x9a), 13, 0x10),
        (0, 0x13, Some(0x9a), 13, 0x10),
        // Not present, also where another rule is broken.
        (0, 0x10, Some(0x12), 11, 0x10),
        (3, 0x17, Some(0x1e), 11, 0x14),
        (0, 0x10, Some(0x18), 13, 0x10),
        (0, 0x10, Some(0x02), 13, 0x10),
        (3, 0x10, Some(0x12), 13, 0x10),
        (0, 0x13, Some(0x12), 13, 0x10),
    ] {
        hold(&rt, &DATA_RULES, line);
    }
}

/// The lowest DPL of data for each CPL, in fours, and each RPL: the higher of the two.
const LOWEST: [u8; 16] = [0, 1, 2, 3, 1, 1, 2, 3, 2, 2, 2, 3, 3, 3, 3, 3];

/// Each CPL, RPL and DPL: whether DPL is at least the lowest.
fn each_level(rt: &impl Abort, access: u8, rules: &[Rule]) {
    for (i, lowest) in LOWEST.iter().enumerate() {
        for dpl in [0, 0x20, 0x40, 0x60] {
            let line = candidate((i / 4) as u8, 0x10 + (i % 4) as u16, Some(access | dpl));
            let fault = if dpl >= *lowest * 0x20 { 0 } else { 13 };
            assert_eq!(rt; first_broken(rules, &line), wanted(fault, 0x10), "pair {i}");
        }
    }
}

#[test]
fn levels_of_data_and_of_call_gates(rt: HostRuntime) {
    each_level(&rt, 0x92, &DATA_RULES);
    each_level(&rt, 0x9a, &DATA_RULES);
    each_level(&rt, 0x8c, &CALL_GATE_RULES);
}

#[test]
fn tables_of_the_system(rt: HostRuntime) {
    for line in [
        (0, 0x28, Some(0x82), 0, 0),
        (0, 0x2b, Some(0xe2), 0, 0),
        (0, 0x28, None, 13, 0x28),
        (0, 0x2c, None, 13, 0x2c),
        (0, 0x28, Some(0x81), 13, 0x28),
        (0, 0x28, Some(0x89), 13, 0x28),
        (0, 0x28, Some(0x92), 13, 0x28),
        (0, 0x28, Some(0x02), 11, 0x28),
        (0, 0x28, Some(0x09), 13, 0x28),
    ] {
        hold(&rt, &LOCAL_TABLE_RULES, line);
    }
    for line in [
        (0, 0x102, Some(0x8e), 0, 0),
        (3, 0x102, Some(0xef), 0, 0),
        (2, 0x102, Some(0xee), 0, 0),
        (3, 0x102, Some(0xe5), 0, 0),
        (3, 0x102, Some(0x85), 13, 0x100),
        (0, 0x102, Some(0x05), 11, 0x100),
        (0, 0x102, None, 13, 0x100),
        // Types of the 286, a call gate, a TSS and data.
        (0, 0x102, Some(0x86), 13, 0x100),
        (0, 0x102, Some(0x87), 13, 0x100),
        (0, 0x102, Some(0x8c), 13, 0x100),
        (0, 0x102, Some(0x89), 13, 0x100),
        (0, 0x102, Some(0x9e), 13, 0x100),
        // DPL, and not present.
        (3, 0x102, Some(0x8e), 13, 0x100),
        (3, 0x102, Some(0xcf), 13, 0x100),
        (0, 0x102, Some(0x0e), 11, 0x100),
        (3, 0x102, Some(0x0e), 13, 0x100),
        (0, 0x102, Some(0x0c), 13, 0x100),
    ] {
        hold(&rt, &EVENT_GATE_RULES, line);
    }
    for line in [
        (3, 0x13, Some(0x6c), 11, 0x10),
        (3, 0x10, Some(0x4c), 13, 0x10),
    ] {
        hold(&rt, &CALL_GATE_RULES, line);
    }
}

#[test]
fn stacks_of_inner_levels(rt: HostRuntime) {
    for line in [
        (0, 0x10, Some(0x92), 0, 0),
        (1, 0x11, Some(0xb6), 0, 0),
        (0, 0, None, 10, 0),
        (0, 0x10, None, 10, 0x10),
        (1, 0x10, Some(0xb2), 10, 0x10),
        (1, 0x11, Some(0x92), 10, 0x10),
        (0, 0x10, Some(0x90), 10, 0x10),
        (0, 0x10, Some(0x9a), 10, 0x10),
        (0, 0x10, Some(0x12), 12, 0x10),
        (0, 0x11, Some(0x12), 10, 0x10),
        (0, 0x10, Some(0x32), 10, 0x10),
        (0, 0x10, Some(0x10), 10, 0x10),
    ] {
        hold(&rt, &INNER_STACK_RULES, line);
    }
    // A null selector has the error code 0, without EXT; the others have it.
    let mut null = candidate(0, 0, None);
    null.code = 1;
    assert_eq!(rt; first_broken(&INNER_STACK_RULES, &null), wanted(10, 0));
    let mut outside = candidate(0, 0x10, None);
    outside.code = 0x11;
    assert_eq!(rt;
        first_broken(&INNER_STACK_RULES, &outside),
        wanted(10, 0x11)
    );
    // ESP and SS of level n end at byte 8n + 9 of the TSS.
    for (level, limit, vector) in [
        (0, 9, 0),
        (0, 8, 10),
        (1, 17, 0),
        (1, 16, 10),
        (2, 25, 0),
        (2, 24, 10),
    ] {
        assert!(rt; limit < 0x10_0000);
        let mut c = candidate(level, 0x28, None);
        c.desc = Some(Desc::new(0, limit, 0x8b, 0));
        assert_eq!(rt; first_broken(&TASK_STACK_RULES, &c), wanted(vector, 0x28));
    }
    hold(&rt, &TASK_STACK_RULES, (0, 0x28, None, 10, 0));
}

#[test]
fn code_behind_a_gate(rt: HostRuntime) {
    for line in [
        (0, 0x10, Some(0x9a), 0, 0),
        (3, 0x10, Some(0x98), 0, 0),
        (3, 0x13, Some(0xda), 0, 0),
        (3, 0x10, Some(0x9e), 0, 0),
        (0, 3, None, 13, 0),
        (0, 0x10, None, 13, 0x10),
        (0, 0x10, Some(0x92), 13, 0x10),
        (0, 0x10, Some(0x8c), 13, 0x10),
        (0, 0x10, Some(0xba), 13, 0x10),
        (2, 0x10, Some(0xfe), 13, 0x10),
        (0, 0x10, Some(0x1a), 11, 0x10),
        (0, 0x10, Some(0x12), 13, 0x10),
        (0, 0x10, Some(0x3a), 13, 0x10),
    ] {
        hold(&rt, &TARGET_RULES, line);
    }
    // Code of 16 bits isn't built.
    let mut narrow = candidate(0, 0x10, None);
    narrow.desc = Some(Desc::new(0, 0xffff, 0x9a, 0));
    assert_eq!(rt; first_broken(&TARGET_RULES, &narrow), wanted(13, 0x10));
    for line in [
        (3, 0x10, Some(0xfa), 0, 0),
        (3, 0x10, Some(0x9e), 0, 0),
        (0, 3, None, 13, 0),
        (0, 0x10, None, 13, 0x10),
        (3, 0x10, Some(0x9a), 13, 0x10),
        (3, 0x10, Some(0xda), 13, 0x10),
        (0, 0x10, Some(0xfe), 13, 0x10),
        (3, 0x10, Some(0x7a), 11, 0x10),
        (3, 0x10, Some(0x1a), 13, 0x10),
    ] {
        hold(&rt, &JUMP_TARGET_RULES, line);
    }
}

#[test]
fn code_that_a_transfer_names(rt: HostRuntime) {
    for line in [
        (0, 0x10, Some(0x9a), 0, 0),
        (3, 0x10, Some(0xfa), 0, 0),
        (2, 0x12, Some(0xd8), 0, 0),
        // Conforming code takes any RPL and each DPL up to CPL.
        (1, 0x13, Some(0x9e), 0, 0),
        (1, 0x13, Some(0xbe), 0, 0),
        (1, 0x10, Some(0xde), 13, 0x10),
        // Other code takes RPL up to CPL and DPL of CPL.
        (1, 0x12, Some(0xba), 13, 0x10),
        (1, 0x11, Some(0x9a), 13, 0x10),
        (1, 0x11, Some(0xda), 13, 0x10),
        (0, 2, None, 13, 0),
        (0, 0x14, None, 13, 0x14),
        (0, 0x10, Some(0x92), 13, 0x10),
        (0, 0x10, Some(0x1a), 11, 0x10),
        (0, 0x11, Some(0x1a), 13, 0x10),
        (0, 0x10, Some(0x12), 13, 0x10),
    ] {
        hold(&rt, &DIRECT_RULES, line);
    }
    for line in [
        (0, 0x10, Some(0x9a), 0, 0),
        (0, 0x13, Some(0xfa), 0, 0),
        (1, 0x12, Some(0x9e), 0, 0),
        (1, 0x12, Some(0xde), 0, 0),
        (0, 0, None, 13, 0),
        (0, 0x10, None, 13, 0x10),
        // RPL below CPL.
        (3, 0x12, Some(0xda), 13, 0x10),
        (1, 0x10, Some(0x9e), 13, 0x10),
        // No code, DPL that isn't RPL, and conforming code with DPL above RPL.
        (0, 0x10, Some(0x92), 13, 0x10),
        (0, 0x13, Some(0xda), 13, 0x10),
        (3, 0x13, Some(0x9a), 13, 0x10),
        (1, 0x12, Some(0xfe), 13, 0x10),
        (0, 0x10, Some(0x1a), 11, 0x10),
        (0, 0x11, Some(0x1a), 13, 0x10),
        (1, 0x10, Some(0x1a), 13, 0x10),
    ] {
        hold(&rt, &RETURN_RULES, line);
    }
    for (offset, vector) in [(0, 0), (0xffff, 0), (0x1_0000, 13)] {
        let mut c = candidate(0, 0x10, Some(0x9a));
        c.offset = offset;
        assert_eq!(rt; first_broken(&OFFSET_RULES, &c), wanted(vector, 0));
    }
}

/// What finds each type: LAR 8, LSL 4, VERR 2, VERW 1. Types of the system first, and then those of data and code.
const FINDS: [u8; 32] = [
    0, 0, 12, 0, 0, 8, 0, 0, 0, 12, 0, 12, 8, 0, 0, 0, //
    14, 14, 15, 15, 14, 14, 15, 15, 12, 12, 14, 14, 12, 12, 14, 14,
];

/// What a look finds at the selector of a candidate, at its level, in tables that hold its descriptor.
fn looked(what: Look, c: &Candidate) -> Result<Option<u32>, Stop> {
    let (limit, words) = match c.desc {
        Some(desc) => (0xffff, words_of(desc)),
        None => (0, [0; 2]),
    };
    let table = TableReg {
        base: 0x1800,
        limit,
    };
    let mut p = start_bare(0, table, table);
    p.segs[1].selector = 8 | u16::from(c.level);
    p.ldtr = Seg {
        selector: 0x20,
        usable: true,
        desc: Desc::new(0x2000, u32::from(limit), 0x82, 0),
    };
    look(&p, &mut ProbeBus::new(&words), what, c.selector)
}

/// The two doublewords of a descriptor.
fn words_of(desc: Desc) -> [u32; 2] {
    let [b0, b1, b2, b3, b4, b5, b6, b7] = desc_bytes(&desc);
    [
        u32::from_le_bytes([b0, b1, b2, b3]),
        u32::from_le_bytes([b4, b5, b6, b7]),
    ]
}

/// Each of the four that finds the descriptor of a candidate, as in `FINDS`. `None`: one of them wants more than that descriptor.
fn finders(c: &Candidate) -> Option<u8> {
    let mut found = 0;
    for (what, bit) in [
        (Look::Lar, 8),
        (Look::Lsl, 4),
        (Look::Verr, 2),
        (Look::Verw, 1),
    ] {
        if looked(what, c).ok()?.is_some() {
            found |= bit;
        }
    }
    Some(found)
}

#[test]
fn each_type_is_found_by_some(rt: HostRuntime) {
    for (i, finds) in FINDS.iter().enumerate() {
        let kind = i as u8;
        // Present or not, at level 0 and at level 3 with DPL 3.
        assert_eq!(rt;
            finders(&candidate(0, 0x10, Some(kind))),
            Some(*finds),
            "type {i}"
        );
        assert_eq!(rt;
            finders(&candidate(0, 0x10, Some(kind | 0x80))),
            Some(*finds),
            "type {i}"
        );
        assert_eq!(rt;
            finders(&candidate(3, 0x17, Some(kind | 0x60))),
            Some(*finds),
            "type {i}"
        );
        // With DPL 0 at level 3 or with RPL 3 just conforming code is.
        let conforming = if kind >= 0x1c { *finds } else { 0 };
        assert_eq!(rt;
            finders(&candidate(3, 0x10, Some(kind))),
            Some(conforming),
            "type {i}"
        );
        assert_eq!(rt;
            finders(&candidate(0, 0x13, Some(kind))),
            Some(conforming),
            "type {i}"
        );
        assert_eq!(rt;
            finders(&candidate(2, 0x12, Some(kind | 0x20))),
            Some(conforming),
            "type {i}"
        );
    }
    assert_eq!(rt; finders(&candidate(0, 0x10, None)), Some(0));
    assert_eq!(rt; finders(&candidate(0, 0, None)), Some(0));
}

#[test]
fn rights_and_limits_are_shown(rt: HostRuntime) {
    for (raw_limit, access, flags, rights, limit) in [
        (0xf_ffff, 0x93, 0xc, 0xc0_9300, 0xffff_ffff),
        (0x1_2345, 0xfb, 5, 0x50_fb00, 0x1_2345),
        (0, 0x96, 8, 0x80_9600, 0xfff),
        (0x67, 0x89, 0, 0x8900, 0x67),
    ] {
        assert!(rt; raw_limit < 0x10_0000 && flags < 16);
        let mut c = candidate(0, 0x10, None);
        c.desc = Some(Desc::new(0x1234_5678, raw_limit, access, flags));
        assert_eq!(rt; looked(Look::Lar, &c), Ok(Some(rights)));
        assert_eq!(rt; looked(Look::Lsl, &c), Ok(Some(limit)));
    }
}

#[test]
fn an_rpl_is_raised_and_never_lowered(rt: HostRuntime) {
    for (destination, source, raised) in [
        (0, 3, 3),
        (0xfff0, 0x0001, 0xfff1),
        (0x1235, 0xfffe, 0x1236),
        (0x1236, 0x0003, 0x1237),
        (0x0014, 0x0007, 0x0017),
    ] {
        assert_eq!(rt; arpl(destination, source), (raised, true));
    }
    for (destination, source) in [(0, 0), (3, 0), (0x13, 0xffff), (0x12, 0x11), (0x12, 0xffee)] {
        assert_eq!(rt; arpl(destination, source), (destination, false));
    }
}

/// A processor whose GDT has this limit, with an LDT of this one that can be used or not.
fn with_tables(gdt: u16, ldt: u32, usable: bool) -> Proc {
    let table = TableReg {
        base: 0x1803,
        limit: gdt,
    };
    let mut p = start_bare(0, table, table);
    p.ldtr = Seg {
        selector: 0x20,
        usable,
        desc: Desc::new(0x2005, if ldt < 0x10_0000 { ldt } else { 0 }, 0x82, 0),
    };
    p
}

#[test]
fn a_descriptor_lies_wholly_in_its_table(rt: HostRuntime) {
    for (p, selector, there, global) in [
        (with_tables(0x17, 0x17, true), 0x10, true, true),
        (with_tables(0x16, 0x17, true), 0x10, false, false),
        (with_tables(0x17, 0x17, true), 0x13, true, true),
        (with_tables(0x17, 0x17, true), 0x18, false, false),
        (with_tables(7, 7, true), 0, false, false),
        (with_tables(7, 7, true), 3, false, false),
        (with_tables(7, 7, true), 8, false, false),
        (with_tables(0xffff, 7, true), 0xfff8, true, true),
        (with_tables(0xfffe, 7, true), 0xfff8, false, false),
        // In the LDT, whose entry 0 counts.
        (with_tables(7, 7, true), 4, true, false),
        (with_tables(7, 6, true), 4, false, false),
        (with_tables(7, 0x17, true), 0x17, true, false),
        (with_tables(0x17, 0x16, true), 0x17, false, false),
        (with_tables(0x17, 0x17, false), 0x14, false, false),
    ] {
        assert_eq!(rt; is_there(&p, selector), there, "selector {selector}");
        assert_eq!(rt; is_in_gdt(&p, selector), global, "selector {selector}");
    }
    let p = with_tables(0x17, 0x17, true);
    for (selector, address) in [(0x10, 0x1813), (0x13, 0x1813), (4, 0x2005), (0x17, 0x2015)] {
        assert_eq!(rt; place_for(&p, selector), address, "selector {selector}");
    }
}
