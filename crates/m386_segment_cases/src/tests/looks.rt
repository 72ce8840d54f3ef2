//! LAR, LSL, VERR, VERW and ARPL. Flags are numbers: ZF is 40h, and 8D7h has all arithmetic flags.
use super::segments::{leveled, table};
use super::{Case, at, fetch, flagged, joined, loaded, step_over_values};
use m386_base::ask::Role;
use m386_state::proc::Proc;
use std::process::Abort;

/// LAR EAX, ECX; LSL EAX, ECX; VERR CX; VERW CX.
const CODES: [u32; 4] = [0x00c1_020f, 0x00c1_030f, 0x00e1_000f, 0x00e9_000f];

/// A processor at a level with a selector in CX and all arithmetic flags set.
fn naming(level: u16, selector: u16) -> Proc {
    let mut p = flagged(&leveled(level), 0x8d7);
    p.regs[1] = 0xc0c1_0000 | u32::from(selector);
    p
}

/// The state after LAR, LSL, VERR or VERW, by its place, where it finds a descriptor of this access byte with the limit 1234FFFh.
fn after_finding(p: &Proc, place: usize, access: u32) -> Proc {
    match place {
        0 => loaded(p, 0x1003, 0, 0x00c0_0000 | access << 8),
        1 => loaded(p, 0x1003, 0, 0x0123_4fff),
        _ => at(p, 0x1003),
    }
}

/// One of the four at a selector whose descriptor is in the GDT and has this access byte.
fn look(rt: &impl Abort, place: usize, p: &Proc, access: u32, found: bool) {
    assert!(rt; place < 4 && access < 0x100);
    let after = if found {
        after_finding(p, place, access)
    } else {
        flagged(&at(p, 0x1003), 0x897)
    };
    let case = Case {
        name: "a look",
        before: *p,
        code: &[],
        cycles: &[
            fetch(0x1000, CODES[place]),
            table(Role::Gdt, 0x1810, 0x1234),
            joined(table(Role::Gdt, 0x1814, 0x00c0_0000 | access << 8)),
        ],
        after,
    };
    step_over_values(rt, &case);
}

/// What finds each type: LAR 1, LSL 2, VERR 4, VERW 8. Types of the system first, and then those of data and code.
const FINDS: [u32; 32] = [
    0, 0, 3, 0, 0, 1, 0, 0, 0, 3, 0, 3, 1, 0, 0, 0, //
    7, 7, 15, 15, 7, 7, 15, 15, 3, 3, 7, 7, 3, 3, 7, 7,
];

/// Each type at a level, by one of the four: as the table has it, or just conforming code.
fn each_type(rt: &impl Abort, p: &Proc, dpl: u32, place: usize, conforming: bool) {
    assert!(rt; place < 4 && dpl < 4);
    for (i, finds) in FINDS.iter().enumerate() {
        let found = finds >> place & 1 == 1 && (!conforming || i >= 0x1c);
        look(rt, place, p, i as u32 | dpl << 5, found);
    }
}

#[test]
fn each_type_is_looked_at_from_each_level(rt: HostRuntime) {
    for place in [0, 1, 2, 3] {
        each_type(&rt, &naming(0, 0x10), 0, place, false);
        each_type(&rt, &naming(3, 0x13), 3, place, false);
        // CPL above DPL, and RPL above DPL.
        each_type(&rt, &naming(3, 0x10), 2, place, true);
        each_type(&rt, &naming(0, 0x11), 0, place, true);
    }
}

#[test]
fn nothing_is_found_outside_the_tables(rt: HostRuntime) {
    let mut none = naming(0, 0x14);
    none.ldtr.usable = false;
    for place in [0, 1, 2, 3] {
        assert!(rt; place < 4);
        for before in [
            naming(0, 0),
            naming(3, 3),
            naming(0, 0x18),
            naming(0, 0x1c),
            none,
        ] {
            let case = Case {
                name: "a look at no descriptor",
                before,
                code: &[],
                cycles: &[fetch(0x1000, CODES[place])],
                after: flagged(&at(&before, 0x1003), 0x897),
            };
            step_over_values(&rt, &case);
        }
    }
}

/// LAR, LSL, VERR and VERW with operands of each kind.
pub(crate) const WIDTHS: &str = "\
start ecx=c0c10017 ldtr=20:1900:17:82:0 gdtr=1800:17
LAR EAX, ECX
 r fetch 0 1000 f c1020f
 r ldt 0 1910 f ffff
 r+ ldt 0 1914 f 12cffb34
 after eip=1003 eax=c0fb00 flags=42
LAR AX, CX
 r fetch 0 1000 f c1020f66
 r ldt 0 1910 f ffff
 r+ ldt 0 1914 f 12cffb34
 after eip=1004 eax=a0a1fb00 flags=42
LSL EAX, ECX
 r fetch 0 1000 f c1030f
 r ldt 0 1910 f ffff
 r+ ldt 0 1914 f 12cffb34
 after eip=1003 eax=ffffffff flags=42
LSL AX, CX
 r fetch 0 1000 f c1030f66
 r ldt 0 1910 f ffff
 r+ ldt 0 1914 f 12cffb34
 after eip=1004 eax=a0a1ffff flags=42
LAR EAX, [1010h], which reads two bytes
 r fetch 0 1000 f 1005020f
 r fetch 0 1004 f 10
 r data 0 1010 3 10
 r gdt 0 1810 f ffff
 r+ gdt 0 1814 f 12cffb34
 after eip=1007 eax=c0fb00 flags=42
VERR [1013h], split over two groups
 r fetch 0 1000 f 1325000f
 r fetch 0 1004 f 10
 r data 0 1010 8 10000000
 r data 1 1014 1 0
 r gdt 0 1810 f ffff
 r+ gdt 0 1814 f 12cffb34
 after eip=1007 flags=42
VERW [FFFFFFFFh], past the last offset
 r fetch 0 1000 f ff2d000f
 r fetch 0 1004 f ffffff
 after pending=d:0
";

#[test]
fn an_rpl_is_raised_in_a_register(rt: HostRuntime) {
    for (destination, source, result, flags) in [
        (0xa0a1_1230, 0xc0c1_0003, 0xa0a1_1233, 0x8d7),
        (0xa0a1_fff1, 0xc0c1_fff2, 0xa0a1_fff2, 0x8d7),
        (0xa0a1_1232, 0xc0c1_0002, 0xa0a1_1232, 0x897),
        (0xa0a1_1233, 0xc0c1_0000, 0xa0a1_1233, 0x897),
    ] {
        let mut before = flagged(&leveled(3), 0x8d7);
        before.regs[0] = destination;
        before.regs[1] = source;
        let case = Case {
            name: "ARPL AX, CX",
            before,
            code: &[],
            cycles: &[fetch(0x1000, 0xc863)],
            after: flagged(&loaded(&before, 0x1002, 0, result), flags),
        };
        step_over_values(&rt, &case);
    }
}

/// ARPL in memory.
pub(crate) const RAISED: &str = "\
start ecx=c0c10002 flags=897 ldtr=20:1900:17:82:0 gdtr=1800:17
ARPL [1010h], CX
 r fetch 0 1000 f 10100d63
 r fetch 0 1004 f 0
 r data 0 1010 3 1235
 w data 0 1010 3 1236
 after eip=1006 flags=8d7
ARPL [1013h], CX, split over two groups
 r fetch 0 1000 f 10130d63
 r fetch 0 1004 f 0
 r data 0 1010 8 34000000
 r data 1 1014 1 12
 w data 0 1010 8 36000000
 w data 1 1014 1 12
 after eip=1006 flags=8d7
ARPL [1010h], CX, which raises nothing
 before flags=8d7
 r fetch 0 1000 f 10100d63
 r fetch 0 1004 f 0
 r data 0 1010 3 1236
 after eip=1006 flags=897
ARPL [1010h], CX, through a segment that can't be written
 before ds=10:0:ffff:91:4
 r fetch 0 1000 f 10100d63
 r fetch 0 1004 f 0
 after pending=d:0
ARPL [FFFFFFFFh], CX, past the last offset
 r fetch 0 1000 f ffff0d63
 r fetch 0 1004 f ffff
 after pending=d:0
";
