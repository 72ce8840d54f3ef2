//! Descriptors, gates and selectors with what the manual says of them.
use m386_base::desc::Desc;
use m386_desc::access::{big, code_32, dpl, kind, present};
use m386_desc::bytes::{desc_bytes, desc_of};
use m386_desc::gate::Gate4;
use m386_desc::kind::Kind;
use m386_desc::offsets::{allows, limit};
use m386_desc::selector::{error_code, in_ldt, in_table, is_null, rpl};

#[test]
fn numbers_in_their_bytes(rt: HostRuntime) {
    // The eight bytes of a descriptor, each with two digits of its own, and its base, limit, access byte and flags.
    for (bytes, base, raw_limit, access, flags) in [
        ([0xff, 0xff, 0, 0, 0, 0x9a, 0xcf, 0], 0, 0xf_ffff, 0x9a, 0xc),
        (
            [0x67, 0, 0x78, 0x56, 0x34, 0xe9, 0x40, 0x12],
            0x1234_5678,
            0x67,
            0xe9,
            4,
        ),
        (
            [0x21, 0x43, 0x65, 0x87, 0xa9, 0xcb, 0xed, 0x0f],
            0x0fa9_8765,
            0xd_4321,
            0xcb,
            0xe,
        ),
    ] {
        let [b0, b1, b2, b3, b4, b5, b6, b7] = bytes;
        assert!(rt; raw_limit < 0x10_0000 && flags < 16);
        let want = Desc::new(base, raw_limit, access, flags);
        let found = desc_of(
            u32::from_le_bytes([b0, b1, b2, b3]),
            u32::from_le_bytes([b4, b5, b6, b7]),
        );
        assert_eq!(rt; found, want, "base {base}");
        assert_eq!(rt; desc_bytes(&want), bytes, "base {base}");
    }
}

const READ_ONLY: Kind = Kind::DataSeg {
    down: false,
    writable: false,
};

const WRITABLE: Kind = Kind::DataSeg {
    down: false,
    writable: true,
};

const DOWN: Kind = Kind::DataSeg {
    down: true,
    writable: false,
};

const WRITABLE_DOWN: Kind = Kind::DataSeg {
    down: true,
    writable: true,
};

const EXECUTE: Kind = Kind::CodeSeg {
    conforming: false,
    readable: false,
};

const READABLE: Kind = Kind::CodeSeg {
    conforming: false,
    readable: true,
};

const CONFORMING: Kind = Kind::CodeSeg {
    conforming: true,
    readable: false,
};

const READABLE_CONFORMING: Kind = Kind::CodeSeg {
    conforming: true,
    readable: true,
};

/// What each S and type describes, by 16 * S + type, and whether it is conforming code, may be read, may be written, and is
/// code (PRM tables 5-1, 6-1 and figure 6-1).
static TYPES: [(Kind, bool, bool, bool, bool); 32] = [
    (Kind::Wrong, false, false, false, false),
    (Kind::Wrong, false, false, false, false),
    (Kind::Ldt, false, false, false, false),
    (Kind::Wrong, false, false, false, false),
    (Kind::Wrong, false, false, false, false),
    (Kind::TaskGate, false, false, false, false),
    (Kind::Wrong, false, false, false, false),
    (Kind::Wrong, false, false, false, false),
    (Kind::Wrong, false, false, false, false),
    (Kind::Tss { busy: false }, false, false, false, false),
    (Kind::Wrong, false, false, false, false),
    (Kind::Tss { busy: true }, false, false, false, false),
    (Kind::CallGate, false, false, false, false),
    (Kind::Wrong, false, false, false, false),
    (Kind::IntGate, false, false, false, false),
    (Kind::TrapGate, false, false, false, false),
    (READ_ONLY, false, true, false, false),
    (READ_ONLY, false, true, false, false),
    (WRITABLE, false, true, true, false),
    (WRITABLE, false, true, true, false),
    (DOWN, false, true, false, false),
    (DOWN, false, true, false, false),
    (WRITABLE_DOWN, false, true, true, false),
    (WRITABLE_DOWN, false, true, true, false),
    (EXECUTE, false, false, false, true),
    (EXECUTE, false, false, false, true),
    (READABLE, false, true, false, true),
    (READABLE, false, true, false, true),
    (CONFORMING, true, false, false, true),
    (CONFORMING, true, false, false, true),
    (READABLE_CONFORMING, true, true, false, true),
    (READABLE_CONFORMING, true, true, false, true),
];

/// The level in the upper three bits of an access byte, and whether P, the highest, is set (PRM 6.3.1.3, 5.1.1).
static LEVELS: [(u8, bool); 8] = [
    (0, false),
    (1, false),
    (2, false),
    (3, false),
    (0, true),
    (1, true),
    (2, true),
    (3, true),
];

#[test]
fn each_access_byte_says_what_the_manual_says(rt: HostRuntime) {
    for access in 0..=255u8 {
        let (what, conforming, readable, writable, is_code) = TYPES[(access & 31) as usize];
        let (level, there) = LEVELS[(access >> 5) as usize];
        let narrow = Desc::new(0, 0, access, 0xb);
        let wide = Desc::new(0, 0, access, 4);
        let found = kind(&wide);
        assert_eq!(rt; (found, kind(&narrow)), (what, what), "access {access}");
        assert_eq!(rt;
            (dpl(&wide), present(&wide)),
            (level, there),
            "access {access}"
        );
        assert_eq!(rt;
            (
                found.is_conforming(),
                found.is_readable(),
                found.is_writable()
            ),
            (conforming, readable, writable),
            "access {access}"
        );
        assert_eq!(rt;
            (big(&wide), big(&narrow)),
            (true, false),
            "access {access}"
        );
        assert_eq!(rt;
            (code_32(&wide), code_32(&narrow)),
            (is_code, false),
            "access {access}"
        );
    }
}

#[test]
fn limits_count_bytes_or_pages(rt: HostRuntime) {
    for (raw_limit, flags, want) in [
        (0, 0, 0),
        (0, 8, 0xfff),
        (0x67, 7, 0x67),
        (0x67, 8, 0x6_7fff),
        (0x1_2345, 4, 0x1_2345),
        (0x1_2345, 0xc, 0x1234_5fff),
        (0xf_ffff, 7, 0xf_ffff),
        (0xf_ffff, 0xf, 0xffff_ffff),
    ] {
        assert!(rt; raw_limit < 0x10_0000 && flags < 16);
        assert_eq!(rt;
            limit(&Desc::new(0, raw_limit, 0x92, flags)),
            want,
            "limit {raw_limit} flags {flags}"
        );
    }
}

/// The access byte, the limit, the flags, the first offset and the length, and whether all of them are the segment's.
static OFFSETS: [(u8, u32, u8, u32, u32, bool); 37] = [
    (0x92, 0x67, 0, 0, 0x68, true),
    (0x92, 0x67, 0, 0, 0x69, false),
    (0x92, 0x67, 0, 0x64, 4, true),
    (0x92, 0x67, 0, 0x65, 4, false),
    (0x92, 0x67, 0, 0x67, 1, true),
    (0x92, 0x67, 0, 0x68, 1, false),
    (0x92, 0, 0, 0, 1, true),
    (0x92, 0, 0, 1, 1, false),
    (0x92, 0xf_ffff, 0xc, 0xffff_ffff, 1, true),
    (0x92, 0xf_ffff, 0xc, 0xffff_ffff, 2, false),
    (0x92, 0xf_ffff, 0xc, 0xffff_fffc, 4, true),
    (0x92, 1, 8, 0x1fff, 1, true),
    (0x92, 1, 8, 0x2000, 1, false),
    // Downward: above the limit, up to FFFFh, or with B to FFFFFFFFh, whether it may be written or not.
    (0x96, 0xfff, 0, 0, 1, false),
    (0x96, 0xfff, 0, 0xfff, 1, false),
    (0x96, 0xfff, 0, 0xfff, 2, false),
    (0x96, 0xfff, 0, 0x1000, 1, true),
    (0x96, 0xfff, 0, 0x1000, 0xf000, true),
    (0x96, 0xfff, 0, 0xffff, 1, true),
    (0x96, 0xfff, 0, 0xffff, 2, false),
    (0x96, 0xfff, 0, 0x1_0000, 1, false),
    (0x96, 0xfff, 4, 0xfff, 1, false),
    (0x96, 0xfff, 4, 0xffff, 2, true),
    (0x96, 0xfff, 4, 0xffff_fffe, 2, true),
    (0x96, 0xfff, 4, 0xffff_fffe, 4, false),
    (0x96, 0xffff, 0, 0xffff, 1, false),
    (0x96, 0, 0xc, 0xfff, 1, false),
    (0x96, 0, 0xc, 0x1000, 1, true),
    (0x94, 0xfff, 0, 0x1000, 1, true),
    (0x94, 0xfff, 0, 0xfff, 1, false),
    // Bit 2 is another thing in code and in system descriptors.
    (0x9e, 0xfff, 4, 0xfff, 1, true),
    (0x9e, 0xfff, 4, 0x1000, 1, false),
    (0x9a, 0xfff, 4, 0xfff, 1, true),
    (0x82, 0x17, 0, 0x17, 1, true),
    (0x82, 0x17, 0, 0x18, 1, false),
    (0x8c, 0x17, 0, 0x17, 1, true),
    (0x85, 0x17, 0, 0x18, 1, false),
];

#[test]
fn offsets_in_a_segment(rt: HostRuntime) {
    for (access, raw_limit, flags, offset, len, want) in OFFSETS.iter().copied() {
        assert!(rt; raw_limit < 0x10_0000 && flags < 16 && len >= 1);
        let d = Desc::new(0, raw_limit, access, flags);
        assert_eq!(rt;
            allows(&d, offset, len),
            want,
            "access {access} offset {offset} len {len}"
        );
    }
}

#[test]
fn gates_lead_to_their_targets(rt: HostRuntime) {
    for (lo, hi, selector, offset, count) in [
        (0x0008_4200, 0x1234_8c7f, 8, 0x1234_4200, 0x1f),
        (0x8765_4321, 0xfedc_ba98, 0x8765, 0xfedc_4321, 0x18),
        (0, 0x0000_ffe0, 0, 0, 0),
    ] {
        let gate = Gate4::of(lo, hi);
        assert_eq!(rt;
            (gate.selector, gate.offset, gate.count),
            (selector, offset, count),
            "selector {selector}"
        );
    }
}

#[test]
fn selectors_have_three_parts(rt: HostRuntime) {
    // Whether it is null, whether it names the LDT, its RPL, its error codes without and with EXT, and the least limit of a
    // table that it lies in.
    for (selector, null, ldt, level, plain, external, least) in [
        (0x0000, true, false, 0, 0x0000, 0x0001, 0x0007),
        (0x0001, true, false, 1, 0x0000, 0x0001, 0x0007),
        (0x0002, true, false, 2, 0x0000, 0x0001, 0x0007),
        (0x0003, true, false, 3, 0x0000, 0x0001, 0x0007),
        (0x0004, false, true, 0, 0x0004, 0x0005, 0x0007),
        (0x0007, false, true, 3, 0x0004, 0x0005, 0x0007),
        (0x0008, false, false, 0, 0x0008, 0x0009, 0x000f),
        (0x001b, false, false, 3, 0x0018, 0x0019, 0x001f),
        (0x001e, false, true, 2, 0x001c, 0x001d, 0x001f),
        (0x8001, false, false, 1, 0x8000, 0x8001, 0x8007),
        (0xffff, false, true, 3, 0xfffc, 0xfffd, 0xffff),
    ] {
        assert_eq!(rt;
            (is_null(selector), in_ldt(selector), rpl(selector)),
            (null, ldt, level),
            "selector {selector}"
        );
        assert_eq!(rt;
            (error_code(selector, false), error_code(selector, true)),
            (plain, external),
            "selector {selector}"
        );
        assert_eq!(rt;
            (
                in_table(selector, least),
                in_table(selector, least.wrapping_sub(1)),
                in_table(selector, u32::MAX)
            ),
            (true, false, true),
            "selector {selector}"
        );
    }
}
