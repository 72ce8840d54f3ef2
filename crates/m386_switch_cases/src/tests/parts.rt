//! The parts of each row's condition, and what no row forbids.
use super::Change::{Access, Field, Flags, GdtLimit, Limit, Nothing, OldLimit, Selector};
use super::rows::{end_of, ends, passes};
use super::{
    ALL, ALL_USABLE, CS_AT, Change, DS_AT, GS_AT, LDT_AT, NEW_TSS, SS_AT, WAYS, sound, with,
};

/// A name, up to three changes, and the end that follows, as in a `Case`.
type Variant = (
    &'static str,
    [Change; 3],
    (u8, u8, u8, u8, u16),
    &'static str,
    u8,
);

/// The other ways to fail a row.
static VARIANTS: [Variant; 36] = [
    (
        "null",
        [Selector(0), Nothing, Nothing],
        (2, 0, 13, 10, 0),
        "",
        0,
    ),
    (
        "null with RPL",
        [Selector(3), Nothing, Nothing],
        (2, 0, 13, 10, 0),
        "",
        0,
    ),
    (
        "of the LDT",
        [Selector(0x15), Nothing, Nothing],
        (2, 0, 13, 10, 0x14),
        "",
        0,
    ),
    (
        "of both",
        [Selector(0x57), Nothing, Nothing],
        (2, 0, 13, 10, 0x54),
        "",
        0,
    ),
    (
        "code",
        [Access(NEW_TSS, 0x10), Nothing, Nothing],
        (3, 0, 13, 10, 0x10),
        "",
        0,
    ),
    (
        "a task gate",
        [Access(NEW_TSS, 0xc), Nothing, Nothing],
        (3, 0, 13, 10, 0x10),
        "",
        0,
    ),
    (
        "an LDT",
        [Selector(0x1a), Nothing, Nothing],
        (3, 0, 13, 10, 0x18),
        "",
        0,
    ),
    (
        "RPL 2",
        [Selector(0x12), Nothing, Nothing],
        (4, 0, 13, 13, 0x10),
        "",
        0,
    ),
    (
        "no limit",
        [Limit(NEW_TSS, 0), Nothing, Nothing],
        (7, 0, 10, 10, 0x10),
        "",
        0,
    ),
    // The LDT.
    (
        "in an LDT",
        [Field(24, 0xe), Nothing, Nothing],
        (8, 0, 10, 10, 0xc),
        "",
        0,
    ),
    (
        "outside",
        [Field(24, 0x52), Nothing, Nothing],
        (8, 0, 10, 10, 0x50),
        "",
        0,
    ),
    (
        "a TSS",
        [Field(24, 0x12), Nothing, Nothing],
        (8, 0, 10, 10, 0x10),
        "gh",
        0,
    ),
    (
        "data",
        [Access(LDT_AT, 0x10), Nothing, Nothing],
        (8, 0, 10, 10, 0x18),
        "gh",
        0,
    ),
    // CS.
    (
        "null",
        [Field(19, 2), Nothing, Nothing],
        (10, 1, 10, 10, 0),
        "gh",
        0x40,
    ),
    (
        "outside",
        [Field(19, 0x52), Nothing, Nothing],
        (10, 1, 10, 10, 0x50),
        "gh",
        0x40,
    ),
    (
        "outside LDT",
        [Field(19, 0x16), Nothing, Nothing],
        (10, 1, 10, 10, 0x14),
        "gh",
        0x40,
    ),
    (
        "of 16 bits",
        [Flags(CS_AT, 0), Nothing, Nothing],
        (10, 1, 10, 10, 0x20),
        "ghgh",
        0x40,
    ),
    (
        "system",
        [Access(CS_AT, 0x10), Nothing, Nothing],
        (10, 1, 10, 10, 0x20),
        "ghgh",
        0x40,
    ),
    (
        "level 0",
        [Access(CS_AT, 0x40), Nothing, Nothing],
        (11, 1, 10, 10, 0x20),
        "ghgh",
        0x40,
    ),
    (
        "conforming",
        [Access(CS_AT, 0x24), Nothing, Nothing],
        (11, 1, 10, 10, 0x20),
        "ghgh",
        0x40,
    ),
    (
        "RPL 3",
        [Field(19, 0x23), Nothing, Nothing],
        (11, 1, 10, 10, 0x20),
        "ghgh",
        0x40,
    ),
    // SS.
    (
        "null",
        [Field(20, 2), Nothing, Nothing],
        (13, 2, 10, 10, 0),
        "ghghG",
        0x42,
    ),
    (
        "outside",
        [Field(20, 0x52), Nothing, Nothing],
        (13, 2, 10, 10, 0x50),
        "ghghG",
        0x42,
    ),
    (
        "code",
        [Access(SS_AT, 8), Nothing, Nothing],
        (13, 2, 10, 10, 0x28),
        "ghghGgh",
        0x42,
    ),
    (
        "RPL 3",
        [Field(20, 0x2b), Nothing, Nothing],
        (14, 2, 10, 10, 0x28),
        "ghghGgh",
        0x42,
    ),
    (
        "level 0",
        [Access(SS_AT, 0x40), Nothing, Nothing],
        (14, 2, 10, 10, 0x28),
        "ghghGgh",
        0x42,
    ),
    // The other registers.
    (
        "outside",
        [Field(21, 0x52), Nothing, Nothing],
        (16, 3, 10, 10, 0x50),
        "ghghGghG",
        0x46,
    ),
    (
        "system",
        [Access(DS_AT, 0x10), Nothing, Nothing],
        (16, 3, 10, 10, 0x30),
        "ghghGghGgh",
        0x46,
    ),
    (
        "outside",
        [Field(18, 0x16), Nothing, Nothing],
        (16, 0, 10, 10, 0x14),
        "ghghGghGghG",
        0x4e,
    ),
    (
        "no LDT",
        [Field(24, 3), Nothing, Nothing],
        (16, 0, 10, 10, 4),
        "ghGghGghG",
        0xe,
    ),
    (
        "a short LDT",
        [Limit(LDT_AT, 0xe), Nothing, Nothing],
        (16, 5, 10, 10, 0xc),
        "ghghGghGghGlmLghG",
        0x5f,
    ),
    (
        "RPL 3",
        [Field(21, 0x33), Nothing, Nothing],
        (17, 3, 10, 10, 0x30),
        "ghghGghGgh",
        0x46,
    ),
    (
        "RPL 3",
        [Field(23, 0xf), Nothing, Nothing],
        (17, 5, 10, 10, 0xc),
        "ghghGghGghGlmLghGlm",
        0x5f,
    ),
    // EIP.
    (
        "behind CS",
        [Limit(CS_AT, 0x43), Nothing, Nothing],
        (19, 0, 13, 13, 0),
        ALL,
        0x7f,
    ),
    (
        "at the end",
        [Field(8, 0xffff_ffff), Nothing, Nothing],
        (19, 0, 13, 13, 0),
        ALL,
        0x7f,
    ),
    (
        "null DS, and EIP behind CS",
        [Field(21, 1), Field(8, 0x1_0000), Nothing],
        (19, 0, 13, 13, 0),
        "ghghGghGlmLghGlmL",
        0x77,
    ),
];

/// What changes no row: a name, the changes, the cycles and the registers that can be used.
static PASSING: [(&str, [Change; 3], &str, u8); 14] = [
    ("nothing", [Nothing, Nothing, Nothing], ALL, ALL_USABLE),
    (
        "an old TSS without limit",
        [OldLimit(0), Nothing, Nothing],
        ALL,
        ALL_USABLE,
    ),
    (
        "a TSS of 4 KiB",
        [Limit(NEW_TSS, 0), Flags(NEW_TSS, 8), Nothing],
        ALL,
        ALL_USABLE,
    ),
    (
        "the last of the GDT",
        [GdtLimit(0x57), Selector(0x50), Nothing],
        ALL,
        ALL_USABLE,
    ),
    (
        "conforming CS of level 0",
        [Access(CS_AT, 0x44), Nothing, Nothing],
        ALL,
        ALL_USABLE,
    ),
    (
        "code that can't be read",
        [Access(CS_AT, 2), Nothing, Nothing],
        ALL,
        ALL_USABLE,
    ),
    (
        "SS that grows down",
        [Access(SS_AT, 4), Nothing, Nothing],
        ALL,
        ALL_USABLE,
    ),
    (
        "the last offset",
        [Field(8, 0xffff), Nothing, Nothing],
        ALL,
        ALL_USABLE,
    ),
    (
        "DS null",
        [Field(21, 3), Nothing, Nothing],
        "ghghGghGlmLghGlmL",
        0x77,
    ),
    (
        "others null",
        [Field(18, 1), Field(22, 2), Field(23, 0)],
        "ghghGghGghG",
        0x4e,
    ),
    (
        "LDT null",
        [Field(24, 3), Field(18, 0), Field(23, 0)],
        "ghGghGghGghG",
        0x1e,
    ),
    (
        "CS accessed",
        [Access(CS_AT, 1), Nothing, Nothing],
        "ghghghGghGlmLghGlmL",
        ALL_USABLE,
    ),
    (
        "SS accessed",
        [Access(SS_AT, 1), Nothing, Nothing],
        "ghghGghghGlmLghGlmL",
        ALL_USABLE,
    ),
    (
        "GS accessed",
        [Access(GS_AT, 1), Nothing, Nothing],
        "ghghGghGghGlmLghGlm",
        ALL_USABLE,
    ),
];

#[test]
fn each_part_of_a_row_counts(rt: HostRuntime) {
    for way in WAYS {
        for (name, changes, told, tail, usable) in VARIANTS.iter().copied() {
            let w = with(&sound(way.kind), changes);
            ends(&rt, name, &w, way, &end_of(told, tail, usable));
        }
    }
}

#[test]
fn what_no_row_forbids_passes(rt: HostRuntime) {
    for way in WAYS {
        for (name, changes, tail, usable) in PASSING.iter().copied() {
            passes(
                &rt,
                name,
                &with(&sound(way.kind), changes),
                way,
                tail,
                usable,
            );
        }
    }
}
