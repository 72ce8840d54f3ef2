//! Verdicts on images: one for each rule from 1 to 5, and the first failure where two stand.
use super::{cycle_of, empty_image, failure, judged, section};
use m386_base::ask::Role;
use m386_base::fault::NoMemory;
use m386_base::list::List;
use m386_book::verdict::Verdict;
use std::alloc::Global;

/// Base and limit of the GDT of an image of 16,384 bytes, whether a cycle loads GDTR, and whether rule 1 fails.
static TABLES: [(u32, u16, bool, bool); 17] = [
    (0, 0, false, false),
    (0, 14, false, false),
    (0, 15, false, false),
    (0, 0x3fff, false, false),
    (0, 0x4000, false, true),
    (0, 0xffff, false, true),
    (0x3ff1, 14, false, false),
    (0x3ff0, 15, false, false),
    (0x3ff2, 14, false, true),
    (0x3ff1, 15, false, true),
    (0x3fff, 0, false, false),
    (0x4000, 0, false, true),
    (0x3ffd, 3, false, true),
    (0xffff_ffff, 14, false, true),
    (0xffff_fff8, 7, false, true),
    (0xffff_fff0, 0x2f, false, true),
    // A rule of the image comes before that of a cycle.
    (0x4000, 0, true, true),
];

#[test]
fn a_table_lies_inside_memory(rt: HostRuntime) {
    for (base, limit, loads, fails) in TABLES.iter().copied() {
        let role = if loads { Role::Lgdt } else { Role::Fetch };
        let cycle = cycle_of(0, false, role, 0x1000, 3, 0);
        assert_eq!(rt;
            judged(rt.alloc(), &empty_image(rt.alloc(), base, limit), &[cycle]),
            failure(if fails { 1 } else { 0 }, 0),
            "base {base} limit {limit}"
        );
    }
}

/// A descriptor of an image: its number, its base and its access byte. The number 0 stands for none.
type Entry = (u8, u32, u8);

/// No descriptor.
const NONE: Entry = (0, 0, 0);

/// The first byte of the GDT, which has room for the descriptors 0 to 5.
const GDT: u32 = 0x2000;

/// An image with these descriptors in its GDT, and the static rule that it fails, 0 for none.
static IMAGES: [(&str, u16, [Entry; 2], u8); 41] = [
    ("no TSS", 0x2f, [NONE, NONE], 0),
    ("one inside memory", 0x2f, [(3, 0x3000, 0x89), NONE], 0),
    (
        "one that ends with memory",
        0x2f,
        [(3, 0x3f98, 0x89), NONE],
        0,
    ),
    (
        "one that ends a byte past memory",
        0x2f,
        [(3, 0x3f99, 0x89), NONE],
        2,
    ),
    ("one past memory", 0x2f, [(3, 0x4000, 0x89), NONE], 2),
    (
        "a base with its highest byte",
        0x2f,
        [(3, 0x0100_3000, 0x89), NONE],
        2,
    ),
    (
        "a base with its third byte",
        0x2f,
        [(3, 0x0001_3000, 0x89), NONE],
        2,
    ),
    ("the last address", 0x2f, [(3, 0xffff_ffff, 0x89), NONE], 2),
    (
        "one that goes round",
        0x2f,
        [(3, 0xffff_ff98, 0x89), NONE],
        2,
    ),
    (
        "the first descriptor behind the null descriptor",
        0x2f,
        [(1, 0x4000, 0x89), NONE],
        2,
    ),
    ("the last descriptor", 0x2f, [(5, 0x4000, 0x89), NONE], 2),
    (
        "a descriptor that isn't whole",
        0x2e,
        [(5, 0x4000, 0x89), NONE],
        0,
    ),
    (
        "the last whole one of a table with more bytes",
        0x2e,
        [(4, 0x4000, 0x89), NONE],
        2,
    ),
    ("any level", 0x2f, [(3, 0x4000, 0xe9), NONE], 2),
    ("one that is busy", 0x2f, [(3, 0x3000, 0x8b), NONE], 5),
    (
        "one that is busy, of any level",
        0x2f,
        [(3, 0x3000, 0xeb), NONE],
        5,
    ),
    ("not present", 0x2f, [(3, 0x4000, 0x09), NONE], 0),
    ("not present and busy", 0x2f, [(3, 0x3000, 0x0b), NONE], 0),
    ("a TSS of the 286", 0x2f, [(3, 0x4000, 0x81), NONE], 0),
    ("a busy TSS of the 286", 0x2f, [(3, 0x4000, 0x83), NONE], 0),
    ("an LDT", 0x2f, [(3, 0x4000, 0x82), NONE], 0),
    ("a task gate", 0x2f, [(3, 0x4000, 0x85), NONE], 0),
    ("a call gate", 0x2f, [(3, 0x4000, 0x8c), NONE], 0),
    (
        "types 8 and 13",
        0x2f,
        [(3, 0x4000, 0x88), (4, 0x4000, 0x8d)],
        0,
    ),
    (
        "types 10 and 15",
        0x2f,
        [(3, 0x4000, 0x8a), (4, 0x4000, 0x8f)],
        0,
    ),
    (
        "code that was accessed",
        0x2f,
        [(3, 0x4000, 0x99), (4, 0x4000, 0x9b)],
        0,
    ),
    (
        "one that ends before the GDT",
        0x2f,
        [(3, 0x1f98, 0x89), NONE],
        0,
    ),
    (
        "one that ends with a byte of the GDT",
        0x2f,
        [(3, 0x1f99, 0x89), NONE],
        3,
    ),
    ("one at the GDT", 0x2f, [(3, 0x2000, 0x89), NONE], 3),
    (
        "one that begins with the last byte of the GDT",
        0x2f,
        [(3, 0x202f, 0x89), NONE],
        3,
    ),
    (
        "one that begins behind the GDT",
        0x2f,
        [(3, 0x2030, 0x89), NONE],
        0,
    ),
    (
        "two that touch",
        0x2f,
        [(3, 0x3000, 0x89), (4, 0x3068, 0x89)],
        0,
    ),
    (
        "two that share a byte",
        0x2f,
        [(3, 0x3000, 0x89), (4, 0x3067, 0x89)],
        4,
    ),
    (
        "two that share a byte, the later one lower",
        0x2f,
        [(3, 0x3067, 0x89), (4, 0x3000, 0x89)],
        4,
    ),
    (
        "two that touch, the later one lower",
        0x2f,
        [(3, 0x3068, 0x89), (4, 0x3000, 0x89)],
        0,
    ),
    (
        "two names for one",
        0x2f,
        [(3, 0x3000, 0x89), (4, 0x3000, 0x89)],
        4,
    ),
    (
        "one of two that share isn't present",
        0x2f,
        [(3, 0x3000, 0x89), (4, 0x3000, 0x09)],
        0,
    ),
    (
        "outside, and at the GDT",
        0x2f,
        [(3, 0x2000, 0x89), (4, 0x4000, 0x89)],
        2,
    ),
    (
        "at the GDT, and shared",
        0x2f,
        [(3, 0x2000, 0x89), (4, 0x2001, 0x89)],
        3,
    ),
    (
        "shared, and busy",
        0x2f,
        [(3, 0x3000, 0x8b), (4, 0x3001, 0x89)],
        4,
    ),
    (
        "outside, and busy",
        0x2f,
        [(3, 0x3000, 0x8b), (4, 0x4000, 0x89)],
        2,
    ),
];

/// The bytes of a descriptor with a limit of 67h.
fn descriptor(base: u32, access: u8) -> [u8; 8] {
    let bytes = base.to_le_bytes();
    [0x67, 0, bytes[0], bytes[1], bytes[2], access, 0, bytes[3]]
}

/// The verdict on an image with these descriptors and no cycle. Each descriptor is a section of its own.
fn verdict(alloc: Global, limit: u16, entries: [Entry; 2]) -> Result<Verdict, NoMemory> {
    let mut image = empty_image(alloc, GDT, limit);
    let mut sections = Vec::new(alloc);
    for (number, base, access) in entries {
        if number != 0 {
            let place = GDT + u32::from(number) * 8;
            sections.push(section(alloc, place, &descriptor(base, access))?)?;
        }
    }
    image.sections = List::of(sections);
    judged(alloc, &image, &[])
}

#[test]
fn each_image_has_its_first_failure(rt: HostRuntime) {
    for (shows, limit, entries, rule) in IMAGES.iter().copied() {
        assert_eq!(rt;
            verdict(rt.alloc(), limit, entries),
            failure(rule, 0),
            "{shows}"
        );
    }
}

/// A TSS past memory by the descriptor 3.
const PAST: [u8; 8] = [0x67, 0, 0, 0x40, 0, 0x89, 0, 0];

#[test]
fn a_descriptor_stands_in_one_section_or_in_several(rt: HostRuntime) {
    let alloc = rt.alloc();
    // Where the sections are cut: bytes from 2014h on, of which four stand before the descriptor and four behind it.
    for cut in [0, 1, 4, 5, 8, 9, 11, 12, 13, 16] {
        let bytes = [
            0xff, 0xff, 0xff, 0xff, PAST[0], PAST[1], PAST[2], PAST[3], PAST[4], PAST[5], PAST[6],
            PAST[7], 0, 0, 0, 0,
        ];
        let mut image = empty_image(alloc, GDT, 0x1f);
        let mut sections = Vec::new(alloc);
        let Ok(first) = section(alloc, 0x2014, &bytes[..cut]) else {
            continue;
        };
        let Ok(second) = section(alloc, 0x2014 + cut as u32, &bytes[cut..]) else {
            continue;
        };
        let _ = sections.push(first);
        let _ = sections.push(second);
        image.sections = List::of(sections);
        assert_eq!(rt; judged(alloc, &image, &[]), failure(2, 0), "cut at {cut}");
    }
}

#[test]
fn sections_beside_the_table_describe_nothing(rt: HostRuntime) {
    let alloc = rt.alloc();
    // The address of a descriptor of a TSS past memory, and the rule that fails.
    for (place, rule) in [
        (0x1ff8, 0),
        (0x2000, 0),
        (0x2008, 2),
        (0x2010, 2),
        (0x2018, 0),
        (0x2009, 0),
    ] {
        let mut image = empty_image(alloc, GDT, 0x17);
        let mut sections = Vec::new(alloc);
        let Ok(only) = section(alloc, place, &PAST) else {
            continue;
        };
        let _ = sections.push(only);
        image.sections = List::of(sections);
        assert_eq!(rt; judged(alloc, &image, &[]), failure(rule, 0), "at {place}");
    }
}
