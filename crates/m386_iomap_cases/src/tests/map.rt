//! Which ports a map allows: where it may lie, which byte and which bits are those of an access, and up to which byte it is read.
use super::Made::{Base, Byte};
use super::{BASE, Call, End, Made, at, comes_to};
use m386_base::desc::Desc;
use m386_base::number::Width::{self, W8, W16, W32};
use m386_state::proc::Proc;

/// A name, the limit of the TSS at 200h, the first port, the width, the cycles, and whether the access is allowed.
type Case = (&'static str, u32, u16, Width, &'static [Made], bool);

macro_rules! cases {
    ($($name:literal, $limit:expr, $port:literal, $width:ident, [$($made:expr),*], $allowed:literal;)*) => {
        [$(($name, $limit, $port, $width, &[$($made),*], $allowed)),*]
    };
}

/// The limit of a map of one byte, and of one for all ports.
const SHORT: u32 = 0x68;

const WHOLE: u32 = 0x2067;

/// Where the segment ends.
static LIMITS: [Case; 16] = cases![
    "no segment", 0, 0, W8, [], false;
    "one byte of the base missing", 0x66, 0, W8, [], false;
    "the base and no map", 0x67, 0, W8, [BASE], false;
    "the base and no map, last port", 0x67, 0xffff, W32, [BASE], false;
    "a map of one byte, its first port", SHORT, 0, W8, [BASE, Byte(0x268, 1, 0xfe)], true;
    "a map of one byte, its last port", SHORT, 7, W8, [BASE, Byte(0x268, 1, 0x7f)], true;
    "a map of one byte, the port behind", SHORT, 8, W8, [BASE], false;
    "a map of one byte, its last two", SHORT, 6, W16, [BASE, Byte(0x268, 1, 0x3f)], true;
    "a map of one byte, one port more", SHORT, 7, W16, [BASE, Byte(0x268, 1, 0x7f)], false;
    "a map of one byte, three more", SHORT, 7, W32, [BASE, Byte(0x268, 1, 0x7f)], false;
    "a map of two bytes", 0x69, 15, W8, [BASE, Byte(0x268, 2, 0x7f00)], true;
    "a map of two bytes, the port behind", 0x69, 16, W8, [BASE], false;
    "a whole map, its last port", WHOLE, 0xffff, W8, [BASE, Byte(0x2264, 8, 0x7f00_0000)], true;
    "a whole map, its last four", WHOLE, 0xfffc, W32, [BASE, Byte(0x2264, 8, 0xf00_0000)], true;
    "all but a byte, the last port", 0x2066, 0xffff, W8, [BASE], false;
    "all but a byte, the last ports of it", 0x2066, 0xfff4, W32, [BASE, Byte(0x2264, 4, 0xf_0000)], true;
];

/// Which bits are those of an access in one byte.
static ONE_BYTE: [Case; 16] = cases![
    "port 0 alone", SHORT, 0, W8, [BASE, Byte(0x268, 1, 1)], false;
    "port 1 clear", SHORT, 1, W8, [BASE, Byte(0x268, 1, 0xfd)], true;
    "port 2 clear", SHORT, 2, W8, [BASE, Byte(0x268, 1, 0xfb)], true;
    "port 3 set", SHORT, 3, W8, [BASE, Byte(0x268, 1, 8)], false;
    "port 4 clear", SHORT, 4, W8, [BASE, Byte(0x268, 1, 0xef)], true;
    "port 5 set", SHORT, 5, W8, [BASE, Byte(0x268, 1, 0x20)], false;
    "port 6 clear", SHORT, 6, W8, [BASE, Byte(0x268, 1, 0xbf)], true;
    "port 7 set", SHORT, 7, W8, [BASE, Byte(0x268, 1, 0x80)], false;
    "two, all others set", SHORT, 3, W16, [BASE, Byte(0x268, 1, 0xe7)], true;
    "two, the first set", SHORT, 3, W16, [BASE, Byte(0x268, 1, 8)], false;
    "two, the second set", SHORT, 3, W16, [BASE, Byte(0x268, 1, 0x10)], false;
    "four, all others set", SHORT, 2, W32, [BASE, Byte(0x268, 1, 0xc3)], true;
    "four, the first set", SHORT, 2, W32, [BASE, Byte(0x268, 1, 4)], false;
    "four, the fourth set", SHORT, 2, W32, [BASE, Byte(0x268, 1, 0x20)], false;
    "the four of the upper half", SHORT, 4, W32, [BASE, Byte(0x268, 1, 0xf)], true;
    "port 29h is bit 1 of byte 5", WHOLE, 0x29, W8, [BASE, Byte(0x26c, 2, 0xfd00)], true;
];

/// An access over two bytes of the map.
static TWO_BYTES: [Case; 14] = cases![
    "7 and 8, all others set", WHOLE, 7, W16, [BASE, Byte(0x268, 1, 0x7f), Byte(0x268, 2, 0xfe00)], true;
    "7 and 8, the first set", WHOLE, 7, W16, [BASE, Byte(0x268, 1, 0x80)], false;
    "7 and 8, the second set", WHOLE, 7, W16, [BASE, Byte(0x268, 1, 0), Byte(0x268, 2, 0x100)], false;
    "5 to 8, all others set", WHOLE, 5, W32, [BASE, Byte(0x268, 1, 0x1f), Byte(0x268, 2, 0xfe00)], true;
    "6 to 9, all others set", WHOLE, 6, W32, [BASE, Byte(0x268, 1, 0x3f), Byte(0x268, 2, 0xfc00)], true;
    "7 to 10, all others set", WHOLE, 7, W32, [BASE, Byte(0x268, 1, 0x7f), Byte(0x268, 2, 0xf800)], true;
    "7 to 10, the fourth set", WHOLE, 7, W32, [BASE, Byte(0x268, 1, 0), Byte(0x268, 2, 0x400)], false;
    "5 to 8, the third set", WHOLE, 5, W32, [BASE, Byte(0x268, 1, 0x80)], false;
    "1Eh to 21h over two groups", WHOLE, 0x1e, W32, [BASE, Byte(0x268, 8, 0x3f00_0000), Byte(0x26c, 1, 0xfc)], true;
    "FFFFh and 0, all others set", WHOLE, 0xffff, W16, [BASE, Byte(0x268, 1, 0xfe), Byte(0x2264, 8, 0x7f00_0000)], true;
    "FFFFh and 0, port 0 set", WHOLE, 0xffff, W16, [BASE, Byte(0x268, 1, 1)], false;
    "FFFFh and 0, port FFFFh set", WHOLE, 0xffff, W16, [BASE, Byte(0x268, 1, 0), Byte(0x2264, 8, 0x8000_0000)], false;
    "FFFDh to 0, all others set", WHOLE, 0xfffd, W32, [BASE, Byte(0x268, 1, 0xfe), Byte(0x2264, 8, 0x1f00_0000)], true;
    "FFFFh to 2, the map all but a byte", 0x2066, 0xffff, W32, [BASE, Byte(0x268, 1, 0xf8)], false;
];

/// Where the map begins, by its base; that of the first is 0, over the fields of the task.
static BASES: [Case; 5] = cases![
    "at the head of the segment", WHOLE, 9, W8, [Base(0x264, 0xc, 0), Byte(0x200, 2, 0xfd00)], true;
    "at the last byte", WHOLE, 7, W8, [Base(0x264, 0xc, 0x2067_0000), Byte(0x2264, 8, 0x7f00_0000)], true;
    "behind the last byte", WHOLE, 0, W8, [Base(0x264, 0xc, 0x2068_0000)], false;
    "at FFFFh, which goes on at 10000h", 0x1_0000, 8, W8, [Base(0x264, 0xc, 0xffff_0000), Byte(0x1_0200, 1, 0xfe)], true;
    "at FFFFh, past the limit", 0xffff, 8, W8, [Base(0x264, 0xc, 0xffff_0000)], false;
];

#[test]
fn a_map_allows_the_ports_whose_bits_are_clear(rt: HostRuntime) {
    let cases = LIMITS
        .iter()
        .chain(&ONE_BYTE)
        .chain(&TWO_BYTES)
        .chain(&BASES);
    for (name, limit, port, width, made, allowed) in cases.copied() {
        let before = at(3, 0, 0, limit);
        comes_to(
            &rt,
            name,
            &before,
            Call::MayUse(port, width),
            made,
            End::Answer(allowed),
        );
    }
}

/// The state with this descriptor of its task.
fn with_task(p: &Proc, desc: Desc) -> Proc {
    let mut after = *p;
    after.tr.desc = desc;
    after
}

#[test]
fn a_segment_lies_anywhere(rt: HostRuntime) {
    let p = at(3, 0, 0, WHOLE);
    let mut without = p;
    without.tr.usable = false;
    // A segment of three pages, of which the last byte of the whole map is in the third.
    let pages = with_task(&p, Desc::new(0x200, 2, 0x8b, 8));
    // One at an odd address, whose base lies in two groups, and one whose base lies at the end of the addresses.
    let odd = with_task(&p, Desc::new(0x201, 0x68, 0x8b, 0));
    let high = with_task(&p, Desc::new(0xffff_ff98, 0x68, 0x8b, 0));
    let call = Call::MayUse(1, W8);
    comes_to(&rt, "no task", &without, call, &[], End::Answer(false));
    comes_to(
        &rt,
        "pages",
        &pages,
        Call::MayUse(0xffff, W8),
        &[BASE, Byte(0x2264, 8, 0x7f00_0000)],
        End::Answer(true),
    );
    comes_to(
        &rt,
        "odd",
        &odd,
        call,
        &[
            Base(0x264, 8, 0x6800_0000),
            Base(0x268, 1, 0),
            Byte(0x268, 2, 0xfd00),
        ],
        End::Answer(true),
    );
    comes_to(
        &rt,
        "high",
        &high,
        call,
        &[Base(0xffff_fffc, 0xc, 0x68_0000), Byte(0, 1, 0xfd)],
        End::Answer(true),
    );
}
