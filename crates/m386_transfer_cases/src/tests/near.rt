//! Near jumps: each condition both ways, counts, targets of both widths, and the limit of CS. Flags are numbers: CF 1, PF 4, ZF 40h,
//! SF 80h, OF 800h, and bit 1, which is always 1.
use super::{Case, at, bare, fetch, flagged, loaded, step_over_bytes, step_over_values};
use m386_base::desc::Desc;
use m386_state::proc::Proc;
use m386_state::segment::Seg;
use std::process::Abort;

/// The place of ECX.
const ECX: usize = 1;

/// A processor at this EIP with a code segment.
fn in_code(eip: u32, desc: Desc) -> Proc {
    let p = at(&bare(), eip);
    let data = p.segs[0];
    let code = Seg {
        selector: 8,
        usable: true,
        desc,
    };
    let mut after = p;
    after.segs = [data, code, data, data, data, data];
    after
}

/// A processor at 11000h, whose segment has it at 1000h.
fn high() -> Proc {
    in_code(0x1_1000, Desc::new(0xffff_0000, 0xf_ffff, 0x9b, 0xc))
}

/// An instruction of so many bytes, the first the lowest of a number, that goes from one state to another. It reads nothing but
/// its code.
fn goes(rt: &impl Abort, name: &str, code: u64, len: u32, before: Proc, after: Proc) {
    let cycles = [
        fetch(0x1000, (code % 0x1_0000_0000) as u32),
        fetch(0x1004, (code / 0x1_0000_0000) as u32),
    ];
    let groups = if len > 4 { 2 } else { 1 };
    let case = Case {
        name,
        before,
        code: &code.to_le_bytes(),
        cycles: &cycles[..groups],
        after,
    };
    step_over_bytes(rt, &case);
    step_over_values(rt, &case);
}

/// The even conditions by their numbers, flags, and whether these meet them. The odd condition behind each is its opposite.
static CONDITIONS: [(u8, u32, bool); 20] = [
    (0, 0x802, true),
    (0, 0x2, false),
    (2, 0x3, true),
    (2, 0x2, false),
    (4, 0x42, true),
    (4, 0x2, false),
    (6, 0x3, true),
    (6, 0x42, true),
    (6, 0x2, false),
    (8, 0x82, true),
    (8, 0x2, false),
    (10, 0x6, true),
    (10, 0x2, false),
    (12, 0x82, true),
    (12, 0x802, true),
    (12, 0x882, false),
    (14, 0x42, true),
    (14, 0x82, true),
    (14, 0x882, false),
    (14, 0x8c2, true),
];

#[test]
fn each_condition_is_met_by_its_flags(rt: HostRuntime) {
    for (number, flags, met) in CONDITIONS {
        for odd in [false, true] {
            let opcode = u64::from(number) + if odd { 0x71 } else { 0x70 };
            let p = flagged(&bare(), flags);
            let taken = met != odd;
            // A distance of 10h in one byte, and of 80001000h in four behind 0F 80 and on.
            let near = if taken { 0x1012 } else { 0x1002 };
            goes(&rt, "Jcc of a byte", opcode + 0x1000, 2, p, at(&p, near));
            let far = if taken { 0x8000_2006 } else { 0x1006 };
            let code = 0x8000_1000_0000 + (opcode + 0x10) * 0x100 + 0xf;
            goes(&rt, "Jcc of four bytes", code, 6, p, at(&p, far));
            // With 66h the target is taken modulo 65,536, and EIP stays whole where there is none.
            let q = flagged(&high(), flags);
            let low = if taken { 0x1013 } else { 0x1_1003 };
            goes(
                &rt,
                "Jcc of 16 bits",
                opcode * 0x100 + 0x10_0066,
                3,
                q,
                at(&q, low),
            );
        }
    }
}

/// A jump that counts: its code and how many bytes it has, the flags, ECX before it and behind it, and whether it is taken.
static COUNTS: [(u64, u32, u32, u32, u32, bool); 18] = [
    // LOOP.
    (0x10e2, 2, 2, 2, 1, true),
    (0x10e2, 2, 2, 1, 0, false),
    (0x10e2, 2, 2, 0, 0xffff_ffff, true),
    (0x10e2, 2, 0x42, 2, 1, true),
    // With 66h ECX counts, and not CX.
    (0x10_e266, 3, 2, 0x1_0001, 0x1_0000, true),
    (0x10_e266, 3, 2, 0x1_0000, 0xffff, true),
    (0x10_e266, 3, 2, 1, 0, false),
    // LOOPZ.
    (0x10e1, 2, 0x42, 2, 1, true),
    (0x10e1, 2, 2, 2, 1, false),
    (0x10e1, 2, 0x42, 1, 0, false),
    // LOOPNZ.
    (0x10e0, 2, 2, 2, 1, true),
    (0x10e0, 2, 0x42, 2, 1, false),
    (0x10e0, 2, 2, 1, 0, false),
    // JECXZ.
    (0x10e3, 2, 2, 0, 0, true),
    (0x10e3, 2, 2, 1, 1, false),
    (0x10e3, 2, 2, 0x1_0000, 0x1_0000, false),
    (0x10_e366, 3, 2, 0, 0, true),
    (0x10_e366, 3, 2, 0x1_0000, 0x1_0000, false),
];

#[test]
fn counts_are_those_of_ecx(rt: HostRuntime) {
    for (code, len, flags, count, left, taken) in COUNTS {
        let p = flagged(&loaded(&high(), 0x1_1000, ECX, count), flags);
        let wide = if len == 2 { 0x1_1012 } else { 0x1013 };
        let behind = if len == 2 { 0x1_1002 } else { 0x1_1003 };
        let eip = if taken { wide } else { behind };
        goes(&rt, "a count", code, len, p, loaded(&p, eip, ECX, left));
    }
}

/// Jumps with targets of both widths.
pub(crate) const WIDTHS: &str = "\
start cs=8:ffff0000:fffff:9b:c
JMP of a byte
 before eip=11000
 bytes eb fe 00 00 00 00 00 00
 r fetch 0 1000 f feeb
 after
JMP of four bytes
 before eip=11000
 bytes e9 fb ff ff 7f 00 00 00
 r fetch 0 1000 f fffffbe9
 r fetch 0 1004 f 7f
 after eip=80011000
JMP of a byte with 66h
 before eip=11000
 bytes 66 eb fd 00 00 00 00 00
 r fetch 0 1000 f fdeb66
 after eip=1000
JMP of two bytes
 before eip=11000
 bytes 66 e9 00 7f 00 00 00 00
 r fetch 0 1000 f 7f00e966
 after eip=8f04
JMP EBX
 before eip=11000
 bytes ff e3 00 00 00 00 00 00
 r fetch 0 1000 f e3ff
 after eip=b0b1b2b3
JMP BX
 before eip=11000
 bytes 66 ff e3 00 00 00 00 00
 r fetch 0 1000 f e3ff66
 after eip=b2b3
";

/// Jumps to a target in a register or in memory.
pub(crate) const MEMORY: &str = "\
JMP [1013h], split over two groups
 bytes ff 25 13 10 00 00 00 00
 r fetch 0 1000 f 101325ff
 r fetch 0 1004 f 0
 r data 0 1010 8 44000000
 r data 1 1014 7 776655
 after eip=77665544
JMP [1010h] of 16 bits
 bytes 66 ff 25 10 10 00 00 00
 r fetch 0 1000 f 1025ff66
 r fetch 0 1004 f 10
 r data 0 1010 3 2211
 after eip=2211
JMP [FFFFFFFDh], past the last offset
 bytes ff 25 fd ff ff ff 00 00
 r fetch 0 1000 f fffd25ff
 r fetch 0 1004 f ffff
 after pending=d:0
JMP [1010h] past the limit, behind its read
 before cs=8:0:1020:9b:4
 bytes ff 25 10 10 00 00 00 00
 r fetch 0 1000 f 101025ff
 r fetch 0 1004 f 0
 r data 0 1010 f 44332211
 after pending=d:0
";

/// Jumps at the limit of CS.
pub(crate) const LIMITS: &str = "\
start cs=8:0:1020:9b:4
JMP to the last offset
 bytes eb 1e 00 00 00 00 00 00
 r fetch 0 1000 f 1eeb
 after eip=1020
JMP one past the limit
 bytes eb 1f 00 00 00 00 00 00
 r fetch 0 1000 f 1feb
 after pending=d:0
JMP EBX past the limit
 bytes ff e3 00 00 00 00 00 00
 r fetch 0 1000 f e3ff
 after pending=d:0
JNO one past the limit
 bytes 71 1f 00 00 00 00 00 00
 r fetch 0 1000 f 1f71
 after pending=d:0
JO one past the limit, not taken
 bytes 70 1f 00 00 00 00 00 00
 r fetch 0 1000 f 1f70
 after eip=1002
LOOP one past the limit
 before ecx=2
 bytes e2 1f 00 00 00 00 00 00
 r fetch 0 1000 f 1fe2
 after pending=d:0
LOOP one past the limit, not taken
 before ecx=1
 bytes e2 1f 00 00 00 00 00 00
 r fetch 0 1000 f 1fe2
 after eip=1002 ecx=0
JECXZ one past the limit
 before ecx=0
 bytes e3 1f 00 00 00 00 00 00
 r fetch 0 1000 f 1fe3
 after pending=d:0
";
