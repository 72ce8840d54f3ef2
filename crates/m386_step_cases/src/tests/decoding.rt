//! Where bytes are refused and fetched, and which spellings do the same.
use super::{
    Case, at, bare, fetch, in_mode, joined, loaded, pending, read, step_over_bytes,
    step_over_values, write,
};
use m386_base::desc::Desc;
use m386_state::proc::{Mode, Proc};
use m386_state::segment::Seg;
use std::process::Abort;

/// The state with a code segment of this base and limit, counted in bytes.
fn in_segment(p: &Proc, base: u32, limit: u16) -> Proc {
    let data = p.segs[0];
    let code = Seg {
        selector: 8,
        usable: true,
        desc: Desc::new(base, limit as u32, 0x9b, 4),
    };
    let mut after = *p;
    after.segs = [data, code, data, data, data, data];
    after
}

/// Steps, each over its bytes and over its values.
fn steps(rt: &impl Abort, cases: &[Case<'_>]) {
    for case in cases {
        step_over_bytes(rt, case);
        step_over_values(rt, case);
    }
}

#[test]
fn bytes_are_refused_at_the_first_that_no_spelling_has(rt: HostRuntime) {
    let p = bare();
    let cases = [
        Case {
            name: "LOCK MOV, at the opcode that ends a group",
            before: at(&p, 0x1002),
            code: &[0, 0, 0xf0, 0x89, 0x1d, 0x10, 0x10, 0, 0],
            cycles: &[fetch(0x1000, 0x89f0_0000)],
            after: pending(&at(&p, 0x1002), 6, None),
        },
        Case {
            name: "LOCK XCHG of registers, at its ModRM byte",
            before: at(&p, 0x1002),
            code: &[0, 0, 0xf0, 0x87, 0xc5],
            cycles: &[fetch(0x1000, 0x87f0_0000), fetch(0x1004, 0xc5)],
            after: pending(&at(&p, 0x1002), 6, None),
        },
        Case {
            name: "fourteen prefixes and an opcode of no row",
            before: p,
            code: &[
                0x66, 0x66, 0x66, 0x66, 0x66, 0x66, 0x66, 0x66, 0x66, 0x66, 0x66, 0x66, 0x66, 0x66,
                0x82,
            ],
            cycles: &[
                fetch(0x1000, 0x6666_6666),
                fetch(0x1004, 0x6666_6666),
                fetch(0x1008, 0x6666_6666),
                fetch(0x100c, 0x0082_6666),
            ],
            after: pending(&p, 6, None),
        },
        Case {
            name: "fifteen prefixes, with no fetch of a sixteenth byte",
            before: at(&p, 0x1001),
            code: &[
                0, 0x66, 0x66, 0x66, 0x66, 0x66, 0x66, 0x66, 0x66, 0x66, 0x66, 0x66, 0x66, 0x66,
                0x66, 0x66,
            ],
            cycles: &[
                fetch(0x1000, 0x6666_6600),
                fetch(0x1004, 0x6666_6666),
                fetch(0x1008, 0x6666_6666),
                fetch(0x100c, 0x6666_6666),
            ],
            after: pending(&at(&p, 0x1001), 13, Some(0)),
        },
        Case {
            name: "HLT of fifteen bytes",
            before: p,
            code: &[
                0x66, 0x66, 0x66, 0x66, 0x66, 0x66, 0x66, 0x66, 0x66, 0x66, 0x66, 0x66, 0x66, 0x66,
                0xf4,
            ],
            cycles: &[
                fetch(0x1000, 0x6666_6666),
                fetch(0x1004, 0x6666_6666),
                fetch(0x1008, 0x6666_6666),
                fetch(0x100c, 0x00f4_6666),
            ],
            after: in_mode(&at(&p, 0x100f), Mode::Halted),
        },
    ];
    steps(&rt, &cases);
}

#[test]
fn code_is_fetched_through_its_segment(rt: HostRuntime) {
    let p = bare();
    let short = in_segment(&p, 0, 0x1003);
    let less = in_segment(&p, 0, 0x1001);
    let whole = in_segment(&p, 0, 0x1004);
    let based = in_segment(&at(&p, 3), 0xffe, 0xffff);
    let move_number = &[0xb8, 0x78, 0x56, 0x34, 0x12];
    let cases = [
        Case {
            name: "a byte past the limit, the first needed of its group",
            before: short,
            code: move_number,
            cycles: &[fetch(0x1000, 0x3456_78b8)],
            after: pending(&short, 13, Some(0)),
        },
        Case {
            name: "a byte past the limit, in a group that was fetched",
            before: less,
            code: move_number,
            cycles: &[fetch(0x1000, 0x3456_78b8)],
            after: pending(&less, 13, Some(0)),
        },
        Case {
            name: "an instruction that ends at the limit",
            before: whole,
            code: move_number,
            cycles: &[fetch(0x1000, 0x3456_78b8), fetch(0x1004, 0x12)],
            after: loaded(&whole, 0x1005, 0, 0x1234_5678),
        },
        Case {
            name: "JMP 3 at base FFEh, whose group is that of its linear address",
            before: based,
            code: &[0, 0xeb, 0xfe],
            cycles: &[fetch(0x1000, 0x00fe_eb00)],
            after: based,
        },
    ];
    steps(&rt, &cases);
    let outside = at(&short, 0x1004);
    let first = Case {
        name: "EIP past the limit",
        before: outside,
        code: &[0xb8, 0x78, 0x56, 0x34, 0x12],
        cycles: &[],
        after: pending(&outside, 13, Some(0)),
    };
    step_over_bytes(&rt, &first);
    step_over_values(&rt, &first);
}

#[test]
fn spellings_of_one_operation_do_the_same(rt: HostRuntime) {
    let p = bare();
    let group = 0x4433_2211;
    let cases = [
        Case {
            name: "MOV ECX, 12345678h by C7 /0",
            before: p,
            code: &[0xc7, 0xc1, 0x78, 0x56, 0x34, 0x12],
            cycles: &[fetch(0x1000, 0x5678_c1c7), fetch(0x1004, 0x1234)],
            after: loaded(&p, 0x1006, 1, 0x1234_5678),
        },
        Case {
            name: "MOV EDI, [1010h] by 8B",
            before: p,
            code: &[0x8b, 0x3d, 0x10, 0x10, 0, 0],
            cycles: &[
                fetch(0x1000, 0x1010_3d8b),
                fetch(0x1004, 0),
                read(0, 0x1010, 15, group),
            ],
            after: loaded(&p, 0x1006, 7, group),
        },
        Case {
            name: "MOV [1010h], ECX by 89 and a SIB byte",
            before: p,
            code: &[0x89, 0x0c, 0x25, 0x10, 0x10, 0, 0],
            cycles: &[
                fetch(0x1000, 0x1025_0c89),
                fetch(0x1004, 0x10),
                write(0, 0x1010, 15, 0xc0c1_c2c3),
            ],
            after: at(&p, 0x1007),
        },
        Case {
            name: "LOCK XCHG [1010h], ECX",
            before: p,
            code: &[0xf0, 0x87, 0x0d, 0x10, 0x10, 0, 0],
            cycles: &[
                fetch(0x1000, 0x100d_87f0),
                fetch(0x1004, 0x10),
                read(0, 0x1010, 15, group),
                joined(write(0, 0x1010, 15, 0xc0c1_c2c3)),
            ],
            after: loaded(&p, 0x1007, 1, group),
        },
        Case {
            name: "JMP 1008h over the end of a group",
            before: at(&p, 0x1003),
            code: &[0, 0, 0, 0xeb, 3],
            cycles: &[fetch(0x1000, 0xeb00_0000), fetch(0x1004, 3)],
            after: at(&p, 0x1008),
        },
    ];
    steps(&rt, &cases);
}
