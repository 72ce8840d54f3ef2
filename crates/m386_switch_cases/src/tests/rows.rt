//! Each row of the check table, for each kind of switch that meets it.
use super::Change::{Access, Field, Limit, NoTask, Selector};
use super::{
    ALL, ALL_USABLE, CS_AT, Change, DS_AT, ES_AT, FS_AT, GS_AT, LDT_AT, NEW_TSS, SS_AT, WAYS, Way,
    World, changed, comes_to, entered, head, sound,
};
use m386_base::fault::Fault;
use m386_base::kind::SwitchKind;
use m386_checks::facts::{Context, Fail};
use m386_switch::outcome::Outcome;
use std::process::Abort;

/// How a switch fails: the row and its segment register, the vector for JMP and CALL and that for the other kinds, the selector that
/// the error code names, the cycles behind the last field, and the registers that can be used then.
#[derive(Clone, Copy)]
pub(super) struct End {
    pub(super) row: u8,
    pub(super) seg: u8,
    pub(super) jump: u8,
    pub(super) other: u8,
    pub(super) code: u16,
    pub(super) tail: &'static str,
    pub(super) usable: u8,
}

/// A name, what is changed, and the end that follows: row, segment register, two vectors, code, cycles and usable registers.
pub(super) type Case = (
    &'static str,
    Change,
    (u8, u8, u8, u8, u16),
    &'static str,
    u8,
);

/// Each row once, and rows 16 to 18 once for each segment register, in the order of the tests.
pub(super) static CASES: [Case; 28] = [
    ("no task", NoTask, (1, 0, 13, 13, 0), "", 0),
    (
        "a TSS outside the GDT",
        Selector(0x51),
        (2, 0, 13, 10, 0x50),
        "",
        0,
    ),
    (
        "a TSS of the 286",
        Access(NEW_TSS, 8),
        (3, 0, 13, 10, 0x10),
        "",
        0,
    ),
    (
        "a TSS of level 0",
        Access(NEW_TSS, 0x20),
        (4, 0, 13, 13, 0x10),
        "",
        0,
    ),
    (
        "the other state",
        Access(NEW_TSS, 2),
        (5, 0, 13, 10, 0x10),
        "",
        0,
    ),
    (
        "a TSS that isn't there",
        Access(NEW_TSS, 0x80),
        (6, 0, 11, 11, 0x10),
        "",
        0,
    ),
    (
        "a short TSS",
        Limit(NEW_TSS, 0x66),
        (7, 0, 10, 10, 0x10),
        "",
        0,
    ),
    (
        "a wrong LDT",
        Access(LDT_AT, 1),
        (8, 0, 10, 10, 0x18),
        "gh",
        0,
    ),
    (
        "an LDT that isn't there",
        Access(LDT_AT, 0x80),
        (9, 0, 10, 10, 0x18),
        "gh",
        0,
    ),
    (
        "data as CS",
        Access(CS_AT, 8),
        (10, 1, 10, 10, 0x20),
        "ghgh",
        0x40,
    ),
    (
        "CS of level 3",
        Access(CS_AT, 0x20),
        (11, 1, 10, 10, 0x20),
        "ghgh",
        0x40,
    ),
    (
        "no CS",
        Access(CS_AT, 0x80),
        (12, 1, 11, 11, 0x20),
        "ghgh",
        0x40,
    ),
    (
        "SS to read",
        Access(SS_AT, 2),
        (13, 2, 10, 10, 0x28),
        "ghghGgh",
        0x42,
    ),
    (
        "SS of level 3",
        Access(SS_AT, 0x20),
        (14, 2, 10, 10, 0x28),
        "ghghGgh",
        0x42,
    ),
    (
        "no SS",
        Access(SS_AT, 0x80),
        (15, 2, 12, 12, 0x28),
        "ghghGgh",
        0x42,
    ),
    (
        "DS to run",
        Access(DS_AT, 0xa),
        (16, 3, 10, 10, 0x30),
        "ghghGghGgh",
        0x46,
    ),
    (
        "DS of level 0",
        Access(DS_AT, 0x40),
        (17, 3, 10, 10, 0x30),
        "ghghGghGgh",
        0x46,
    ),
    (
        "no DS",
        Access(DS_AT, 0x80),
        (18, 3, 11, 11, 0x30),
        "ghghGghGgh",
        0x46,
    ),
    (
        "ES to run",
        Access(ES_AT, 2),
        (16, 0, 10, 10, 4),
        "ghghGghGghGlm",
        0x4e,
    ),
    (
        "ES of level 0",
        Access(ES_AT, 0x60),
        (17, 0, 10, 10, 4),
        "ghghGghGghGlm",
        0x4e,
    ),
    (
        "no ES",
        Access(ES_AT, 0x80),
        (18, 0, 11, 11, 4),
        "ghghGghGghGlm",
        0x4e,
    ),
    (
        "FS to run",
        Access(FS_AT, 2),
        (16, 4, 10, 10, 0x40),
        "ghghGghGghGlmLgh",
        0x4f,
    ),
    (
        "FS of level 0",
        Access(FS_AT, 4),
        (17, 4, 10, 10, 0x40),
        "ghghGghGghGlmLgh",
        0x4f,
    ),
    (
        "no FS",
        Access(FS_AT, 0x80),
        (18, 4, 11, 11, 0x40),
        "ghghGghGghGlmLgh",
        0x4f,
    ),
    (
        "GS to run",
        Access(GS_AT, 8),
        (16, 5, 10, 10, 0xc),
        "ghghGghGghGlmLghGlm",
        0x5f,
    ),
    (
        "GS of level 0",
        Access(GS_AT, 0x40),
        (17, 5, 10, 10, 0xc),
        "ghghGghGghGlmLghGlm",
        0x5f,
    ),
    (
        "no GS",
        Access(GS_AT, 0x80),
        (18, 5, 11, 11, 0xc),
        "ghghGghGghGlmLghGlm",
        0x5f,
    ),
    (
        "EIP behind CS",
        Field(8, 0x1_0000),
        (19, 0, 13, 13, 0),
        ALL,
        0x7f,
    ),
];

/// The end of a case.
pub(super) fn end_of(told: (u8, u8, u8, u8, u16), tail: &'static str, usable: u8) -> End {
    let (row, seg, jump, other, code) = told;
    End {
        row,
        seg,
        jump,
        other,
        code,
        tail,
        usable,
    }
}

/// Whether a switch of this way tests a row.
pub(super) fn meets(row: u8, way: Way) -> bool {
    match row {
        1 => way.kind != SwitchKind::Start,
        4 => way.direct && (way.kind == SwitchKind::Jmp || way.kind == SwitchKind::Call),
        _ => true,
    }
}

/// How a row is told. An error code that names nothing has no EXT.
fn told(e: &End, way: Way) -> Fail {
    let jumps = way.kind == SwitchKind::Jmp || way.kind == SwitchKind::Call;
    let names = e.row != 1 && e.row != 19;
    Fail {
        row: e.row,
        seg: e.seg,
        fault: Fault {
            vector: if jumps { e.jump } else { e.other },
            code: Some(if way.ext && names { e.code | 1 } else { e.code }),
        },
        context: if e.row < 8 {
            Context::Old
        } else {
            Context::New
        },
    }
}

/// The cycles up to the last field, as far as a row comes.
fn head_to(row: u8, kind: SwitchKind) -> &'static str {
    let back = kind == SwitchKind::Iret;
    match row {
        1 => "",
        2 => if back { "b" } else { "" },
        3..=7 => if back { "btu" } else { "tu" },
        _ => head(kind),
    }
}

/// A switch fails so: in the old task with nothing changed, or in the new one.
pub(super) fn fails(rt: &impl Abort, name: &str, w: &World, way: Way, e: &End) {
    let fail = told(e, way);
    let (outcome, after) = if e.row < 8 {
        (Outcome::Old(fail), w.before)
    } else {
        (Outcome::New(fail), entered(w, way.kind, e.usable))
    };
    let letters = (head_to(e.row, way.kind), e.tail);
    comes_to(rt, name, w, way, outcome, &after, letters);
}

/// A switch is whole, with these cycles behind the last field.
pub(super) fn passes(
    rt: &impl Abort,
    name: &str,
    w: &World,
    way: Way,
    tail: &'static str,
    usable: u8,
) {
    let after = entered(w, way.kind, usable);
    let letters = (head(way.kind), tail);
    comes_to(rt, name, w, way, Outcome::Done, &after, letters);
}

/// A case ends so where its row is met, and else the switch is whole.
pub(super) fn ends(rt: &impl Abort, name: &str, w: &World, way: Way, e: &End) {
    if meets(e.row, way) {
        fails(rt, name, w, way, e);
    } else {
        passes(rt, name, w, way, ALL, ALL_USABLE);
    }
}

#[test]
fn each_row_fails_alone_for_each_kind_that_meets_it(rt: HostRuntime) {
    for way in WAYS {
        for (name, change, told, tail, usable) in CASES.iter().copied() {
            let w = changed(&sound(way.kind), change);
            ends(&rt, name, &w, way, &end_of(told, tail, usable));
        }
    }
}
