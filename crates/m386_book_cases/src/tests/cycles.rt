//! Verdicts on cycles: runs for each rule from 6 to 9, and the first failure where two stand.
use super::{cycle_of, empty_image, failure, judged, section};
use m386_base::ask::{Cycle, Role, Space};
use m386_base::fault::NoMemory;
use m386_base::list::List;
use m386_book::verdict::Verdict;
use m386_image::image::{Image, TableAt};
use std::alloc::Global;

/// An image with the GDT from 2005h to 2034h, which describes the TSSs 0018, 0020 and 0028 at 3000h, 3080h and 3101h, and
/// with the IDT at 3C00h.
fn image_with_tasks(alloc: Global) -> Result<Image, NoMemory> {
    let mut image = empty_image(alloc, 0x2005, 0x2f);
    image.idt = TableAt {
        base: 0x3c00,
        limit: 7,
    };
    let mut sections = Vec::new(alloc);
    sections.push(section(
        alloc,
        0x201d,
        &[
            0x67, 0, 0x00, 0x30, 0, 0x89, 0, 0, 0x67, 0, 0x80, 0x30, 0, 0x89, 0, 0, 0x67, 0, 0x01,
            0x31, 0, 0x89, 0, 0,
        ],
    )?)?;
    image.sections = List::of(sections);
    Ok(image)
}

/// The verdict on a run of that image.
fn verdict(alloc: Global, cycles: &[Cycle]) -> Result<Verdict, NoMemory> {
    let image = image_with_tasks(alloc)?;
    judged(alloc, &image, cycles)
}

/// A cycle in memory: the processor, whether it writes, its role, the group, the enabled bytes and the value.
type Made = (u8, bool, Role, u32, u8, u32);

/// A cycle that fails no rule and moves nothing.
const REST: Made = (0, false, Role::Fetch, 0x1000, 0xf, 0);

/// Processor 0 takes the task 0018 and calls 0020, whose link it writes.
const FIRST: Made = (0, true, Role::ClaimLtr, 0x2020, 4, 0);

const CALL: Made = (0, true, Role::ClaimCall, 0x2028, 4, 0);

const LINK: Made = (0, true, Role::Link, 0x3080, 3, 0x18);

/// It takes the task 0028.
const LTR: Made = (0, true, Role::ClaimLtr, 0x2030, 4, 0);

/// It reads flags with NT set.
const NESTED: Made = (0, false, Role::Flags, 0x1000, 0xf, 0x4002);

/// It stores to a TSS, and loads GDTR.
const STORE: Made = (0, true, Role::Operand, 0x3000, 1, 0);

const LOAD: Made = (0, false, Role::Lgdt, 0x1000, 3, 0);

/// What a run shows, its cycles, and the first failure: the rule, 0 for none, and the place of the cycle.
type Run = (&'static str, [Made; 5], u8, u64);

static RUNS: [Run; 19] = [
    ("NT and no task", [NESTED, REST, REST, REST, REST], 8, 0),
    ("NT and no link", [FIRST, NESTED, REST, REST, REST], 8, 1),
    (
        "NT before the link",
        [FIRST, CALL, NESTED, LINK, REST],
        8,
        2,
    ),
    (
        "NT and a live link",
        [FIRST, CALL, LINK, NESTED, REST],
        0,
        0,
    ),
    (
        "NT and the live link of another processor",
        [
            FIRST,
            CALL,
            LINK,
            (1, false, Role::Flags, 0x1000, 0xf, 0x4002),
            REST,
        ],
        8,
        3,
    ),
    (
        "NT after the release",
        [
            FIRST,
            CALL,
            LINK,
            (0, true, Role::RelRet, 0x2028, 4, 0),
            NESTED,
        ],
        8,
        4,
    ),
    ("LTR and no task", [LTR, REST, REST, REST, REST], 0, 0),
    ("LTR and no link", [FIRST, CALL, LTR, REST, REST], 0, 0),
    ("LTR and a live link", [FIRST, CALL, LINK, LTR, REST], 9, 3),
    (
        "LTR and the live link of another processor",
        [
            FIRST,
            CALL,
            LINK,
            (1, true, Role::ClaimLtr, 0x2030, 4, 0),
            REST,
        ],
        0,
        0,
    ),
    (
        "a read for LTR and a live link",
        [
            FIRST,
            CALL,
            LINK,
            (0, false, Role::ClaimLtr, 0x2030, 4, 0),
            REST,
        ],
        0,
        0,
    ),
    (
        "JMP and a live link",
        [
            FIRST,
            CALL,
            LINK,
            (0, true, Role::ClaimJmp, 0x2030, 4, 0),
            REST,
        ],
        0,
        0,
    ),
    (
        "CALL and a live link",
        [
            FIRST,
            CALL,
            LINK,
            (0, true, Role::ClaimCall, 0x2030, 4, 0),
            REST,
        ],
        0,
        0,
    ),
    (
        "a start and a live link",
        [
            FIRST,
            CALL,
            LINK,
            (0, true, Role::ClaimStart, 0x2030, 4, 0),
            REST,
        ],
        0,
        0,
    ),
    (
        "the first of two loads",
        [LOAD, LOAD, REST, REST, REST],
        6,
        0,
    ),
    ("a load, and a store", [LOAD, STORE, REST, REST, REST], 6, 0),
    (
        "a store, and a load",
        [FIRST, STORE, LOAD, REST, REST],
        7,
        1,
    ),
    ("NT, and a store", [NESTED, STORE, REST, REST, REST], 8, 0),
    ("a store, and NT", [STORE, NESTED, REST, REST, REST], 7, 0),
];

/// A cycle of a run.
fn cycle_from(made: Made) -> Cycle {
    let (cpu, write, role, addr, enables, value) = made;
    cycle_of(cpu, write, role, addr, enables, value)
}

#[test]
fn each_run_has_its_first_failure(rt: HostRuntime) {
    for (shows, run, rule, index) in RUNS.iter().copied() {
        let cycles = [
            cycle_from(run[0]),
            cycle_from(run[1]),
            cycle_from(run[2]),
            cycle_from(run[3]),
            cycle_from(run[4]),
        ];
        assert_eq!(rt;
            verdict(rt.alloc(), &cycles),
            failure(rule, index),
            "{shows}"
        );
    }
}

/// The verdict on this cycle behind one that fails no rule: the rule that it fails, if it fails one.
fn second(alloc: Global, cycle: Cycle) -> Result<Verdict, NoMemory> {
    verdict(alloc, &[cycle_from(REST), cycle])
}

/// A write in memory: its role, the group, the enabled bytes, and whether rule 7 fails.
static WRITES: [(Role, u32, u8, bool); 29] = [
    // The first and the last byte of the GDT, and those beside it.
    (Role::Operand, 0x2000, 0xf, false),
    (Role::Operand, 0x2004, 1, false),
    (Role::Operand, 0x2004, 3, true),
    (Role::Operand, 0x2004, 2, true),
    (Role::Push, 0x2034, 1, true),
    (Role::LdtAcc, 0x2034, 1, true),
    (Role::Operand, 0x2030, 8, true),
    (Role::Push, 0x2034, 0xe, false),
    (Role::Operand, 0x2038, 1, false),
    // The same of the TSSs, of which the third begins at an odd address.
    (Role::Operand, 0x2ffc, 8, false),
    (Role::Operand, 0x3000, 1, true),
    (Role::Operand, 0x3064, 8, true),
    (Role::Operand, 0x3064, 4, true),
    (Role::Operand, 0x3068, 1, false),
    (Role::Operand, 0x307c, 8, false),
    (Role::Operand, 0x3080, 1, true),
    (Role::Operand, 0x30e4, 8, true),
    (Role::Operand, 0x30e8, 1, false),
    (Role::Operand, 0x3100, 1, false),
    (Role::Operand, 0x3100, 3, true),
    (Role::Operand, 0x3168, 1, true),
    (Role::Operand, 0x3168, 2, false),
    (Role::Operand, 0x3168, 3, true),
    // The IDT may be written, and a switch writes to its tasks.
    (Role::Operand, 0x3c00, 0xf, false),
    (Role::Save, 0x3020, 0xf, false),
    (Role::Link, 0x3020, 0xf, false),
    (Role::GdtAcc, 0x3020, 0xf, false),
    (Role::ClaimCall, 0x3020, 0xf, false),
    (Role::RelJmp, 0x3020, 0xf, false),
];

#[test]
fn writes_touch_the_gdt_and_its_tasks(rt: HostRuntime) {
    for (role, addr, enables, fails) in WRITES.iter().copied() {
        let write = cycle_of(1, true, role, addr, enables, 0);
        assert_eq!(rt;
            second(rt.alloc(), write),
            failure(if fails { 7 } else { 0 }, 1),
            "{role:?} at {addr} enables {enables}"
        );
    }
}

/// Each role, with the rule that a write of it to the GDT fails, and the rule that a read with NT set fails, 0 for none.
static ROLES: [(Role, u8, u8); 25] = [
    (Role::Fetch, 0, 0),
    (Role::Operand, 7, 0),
    (Role::Push, 7, 0),
    (Role::Pop, 0, 0),
    (Role::Flags, 0, 8),
    (Role::Gdt, 0, 0),
    (Role::Ldt, 0, 0),
    (Role::Idt, 0, 0),
    (Role::GdtAcc, 0, 0),
    (Role::LdtAcc, 7, 0),
    (Role::Tss, 0, 0),
    (Role::ClaimJmp, 0, 0),
    (Role::ClaimCall, 0, 0),
    (Role::ClaimStart, 0, 0),
    (Role::ClaimLtr, 0, 0),
    (Role::Save, 0, 0),
    (Role::Link, 0, 0),
    (Role::Back, 0, 0),
    (Role::RelJmp, 0, 0),
    (Role::RelRet, 0, 0),
    (Role::Load, 0, 0),
    (Role::Inner, 0, 0),
    (Role::Map, 0, 0),
    (Role::Lgdt, 6, 6),
    (Role::Lidt, 0, 0),
];

/// Whose cycles are judged: a processor, whether the cycle is joined to the one before it, and where it goes.
static MANNERS: [(u8, bool, Space); 6] = [
    (0, false, Space::Memory),
    (0, true, Space::Memory),
    (1, false, Space::Memory),
    (7, false, Space::Memory),
    (7, true, Space::Memory),
    (0, false, Space::Port),
];

/// A read or a write of a role at the GDT, in one of these manners.
fn in_manner(write: bool, role: Role, manner: (u8, bool, Space)) -> Cycle {
    let mut cycle = cycle_of(manner.0, write, role, 0x2008, 0xf, 0x4002);
    cycle.ask.joined = manner.1;
    cycle.ask.space = manner.2;
    cycle
}

#[test]
fn each_role_fails_its_rule_alone(rt: HostRuntime) {
    let alloc = rt.alloc();
    for manner in MANNERS.iter().copied() {
        let in_memory = matches!(manner.2, Space::Memory);
        for (role, write, read) in ROLES.iter().copied() {
            let store = second(alloc, in_manner(true, role, manner));
            let stored = if write == 7 && !in_memory { 0 } else { write };
            assert_eq!(rt; store, failure(stored, 1), "a write of {role:?}");
            let load = second(alloc, in_manner(false, role, manner));
            assert_eq!(rt; load, failure(read, 1), "a read of {role:?}");
        }
    }
}

/// A read of flags: its part, the enabled bytes and the value, and whether rule 8 fails.
static FLAGS: [(u8, u8, u32, bool); 14] = [
    (0, 0xf, 0x0000_4000, true),
    (0, 0xf, 0xffff_bfff, false),
    (0, 3, 0x0000_4000, true),
    (0, 0xe, 0x0040_0000, true),
    (0, 6, 0x0040_0000, true),
    (0, 0xe, 0xffbf_ff00, false),
    (0, 0xc, 0x4000_0000, true),
    (0, 0xc, 0xbfff_0000, false),
    (0, 8, 0xff00_0000, false),
    (1, 7, 0x0000_0040, true),
    (1, 1, 0x0000_0040, true),
    (1, 7, 0x00ff_ffbf, false),
    (2, 3, 0x0000_ffff, false),
    (3, 1, 0x0000_00ff, false),
];

#[test]
fn nt_is_a_bit_of_the_second_byte(rt: HostRuntime) {
    for (part, enables, value, fails) in FLAGS.iter().copied() {
        let mut read = cycle_of(0, false, Role::Flags, 0x1000, enables, value);
        read.ask.part = part;
        assert_eq!(rt;
            second(rt.alloc(), read),
            failure(if fails { 8 } else { 0 }, 1),
            "part {part} enables {enables}"
        );
    }
}
