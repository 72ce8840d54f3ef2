//! Operations on the processor itself, at the levels that decide, with the cycles of each part.
ghost use Rattle.std.specs.Prelude.{◌<◌};

use super::{
    Case, at, bare, fetch, flagged, in_mode, loaded, pending, step_over_bytes, step_over_values,
};
use m386_base::desc::Desc;
use m386_state::proc::{Mode, Proc};
use m386_state::segment::Seg;
use std::process::Abort;

/// Steps, each over its bytes and over its values.
pub(super) fn steps(rt: &impl Abort, cases: &[Case<'_>]) {
    for case in cases {
        step_over_bytes(rt, case);
        step_over_values(rt, case);
    }
}

/// The state at a level.
pub(super) fn at_level(p: &Proc, level: u16) -> Proc
    requires { level < 4 }
{
    let data = p.segs[0];
    let code = Seg {
        selector: 8 + level,
        usable: true,
        desc: Desc::new(0, 0xf_ffff, 0x9b, 0xc),
    };
    let mut after = *p;
    after.segs = [data, code, data, data, data, data];
    after
}

/// The state with another CR0.
fn controlled(p: &Proc, cr0: u32) -> Proc {
    let mut after = *p;
    after.cr0 = cr0;
    after
}

/// The state with another EAX.
pub(super) fn with_eax(p: &Proc, eax: u32) -> Proc {
    let mut after = *p;
    after.regs[0] = eax;
    after
}

/// The state with another LDTR.
pub(super) fn with_ldtr(p: &Proc, ldtr: Seg) -> Proc {
    let mut after = *p;
    after.ldtr = ldtr;
    after
}

/// The state in which requests are held back for a step.
fn in_shadow(p: &Proc) -> Proc {
    let mut after = *p;
    after.shadow = true;
    after
}

/// A privileged operation: its name, its bytes and the group that they are fetched by.
#[derive(Clone, Copy)]
struct Privileged {
    name: &'static str,
    code: [u8; 4],
    group: u32,
}

/// Operations that CPL 0 alone may do. Those with memory name it by EBX, whose offset is past the bytes of the bus.
const PRIVILEGED: [Privileged; 9] = [
    Privileged {
        name: "HLT",
        code: [0xf4, 0, 0, 0],
        group: 0xf4,
    },
    Privileged {
        name: "LGDT [EBX]",
        code: [0x0f, 0x01, 0x13, 0],
        group: 0x0013_010f,
    },
    Privileged {
        name: "LIDT [EBX]",
        code: [0x0f, 0x01, 0x1b, 0],
        group: 0x001b_010f,
    },
    Privileged {
        name: "LLDT [EBX]",
        code: [0x0f, 0, 0x13, 0],
        group: 0x0013_000f,
    },
    Privileged {
        name: "LLDT BX",
        code: [0x0f, 0, 0xd3, 0],
        group: 0x00d3_000f,
    },
    Privileged {
        name: "LMSW [EBX]",
        code: [0x0f, 0x01, 0x33, 0],
        group: 0x0033_010f,
    },
    Privileged {
        name: "CLTS",
        code: [0x0f, 0x06, 0, 0],
        group: 0x060f,
    },
    Privileged {
        name: "MOV EBX, CR0",
        code: [0x0f, 0x20, 0xc3, 0],
        group: 0x00c3_200f,
    },
    Privileged {
        name: "MOV CR0, EBX",
        code: [0x0f, 0x22, 0xc3, 0],
        group: 0x00c3_220f,
    },
];

#[test]
fn privileged_operations_are_refused_before_their_operand(rt: HostRuntime) {
    for level in 1..4 {
        let p = flagged(&at_level(&bare(), level), 0x3202);
        for row in &PRIVILEGED {
            let case = Case {
                name: row.name,
                before: p,
                code: &row.code,
                cycles: &[fetch(0x1000, row.group)],
                after: pending(&p, 13, Some(0)),
            };
            step_over_bytes(&rt, &case);
            step_over_values(&rt, &case);
        }
    }
}

/// SMSW, SLDT and STR.
pub(crate) const STORES: &str = "\
start cs=b:0:fffff:9b:c ldtr=5678:0:ff:82:0 tr=-1234:0:0:0:0 cr0=b
SLDT BX
 bytes 0f 00 c3
 r fetch 0 1000 f c3000f
 after eip=1003 ebx=b0b15678
SLDT BX, with the prefix of 16 bits
 bytes 66 0f 00 c3
 r fetch 0 1000 f c3000f66
 after eip=1004 ebx=b0b15678
SLDT [1012h]
 bytes 0f 00 05 12 10 00 00
 r fetch 0 1000 f 1205000f
 r fetch 0 1004 f 10
 w data 0 1010 c 56780000
 after eip=1007
STR BX
 bytes 0f 00 cb
 r fetch 0 1000 f cb000f
 after eip=1003 ebx=b0b11234
STR [1013h], split over two groups
 bytes 0f 00 0d 13 10 00 00
 r fetch 0 1000 f 130d000f
 r fetch 0 1004 f 10
 w data 0 1010 8 34000000
 w data 1 1014 1 12
 after eip=1007
SMSW BX
 bytes 0f 01 e3
 r fetch 0 1000 f e3010f
 after eip=1003 ebx=b0b1000b
SMSW [1010h]
 bytes 0f 01 25 10 10 00 00
 r fetch 0 1000 f 1025010f
 r fetch 0 1004 f 10
 w data 0 1010 3 b
 after eip=1007
SMSW [FFFFFFFFh], past the last offset
 bytes 0f 01 25 ff ff ff ff
 r fetch 0 1000 f ff25010f
 r fetch 0 1004 f ffffff
 after pending=d:0
";

/// LMSW from a register and from memory.
pub(crate) const LMSWS: &str = "\
LMSW AX with PE clear, which stays
 before eax=fffffffa cr0=5
 bytes 0f 01 f0
 r fetch 0 1000 f f0010f
 after eip=1003 cr0=b
LMSW AX that clears MP and TS
 before eax=4 cr0=f
 bytes 0f 01 f0
 r fetch 0 1000 f f0010f
 after eip=1003 cr0=5
LMSW [1012h], 4433h
 bytes 0f 01 35 12 10 00 00
 r fetch 0 1000 f 1235010f
 r fetch 0 1004 f 10
 r data 0 1010 c 44330000
 after eip=1007 cr0=3
CLTS
 before cr0=f
 bytes 0f 06
 r fetch 0 1000 f 60f
 after eip=1002 cr0=7
CLTS where TS is clear
 before cr0=3
 bytes 0f 06
 r fetch 0 1000 f 60f
 after eip=1002
";

/// MOV CR0, EAX: what EAX has, and what CR0 comes to, where it isn't #GP(0).
const CONTROL_LOADS: [(u32, Option<u32>); 8] = [
    (0x0000_0001, Some(1)),
    (0x0000_000f, Some(15)),
    (0x0000_0013, Some(3)),
    (0x7fff_fff1, Some(1)),
    (0x7fff_fff0, None),
    (0x0000_000e, None),
    (0x8000_0001, None),
    (0x8000_0000, None),
];

#[test]
fn cr0_keeps_its_four_bits(rt: HostRuntime) {
    for (eax, cr0) in CONTROL_LOADS {
        let p = controlled(&with_eax(&bare(), eax), 9);
        let case = Case {
            name: "MOV CR0, EAX",
            before: p,
            code: &[0x0f, 0x22, 0xc0],
            cycles: &[fetch(0x1000, 0x00c0_220f)],
            after: match cr0 {
                Some(cr0) => controlled(&at(&p, 0x1003), cr0),
                None => pending(&p, 13, Some(0)),
            },
        };
        step_over_bytes(&rt, &case);
        step_over_values(&rt, &case);
    }
    let p = controlled(&bare(), 13);
    let cases = [
        Case {
            name: "MOV EBX, CR0",
            before: p,
            code: &[0x0f, 0x20, 0xc3],
            cycles: &[fetch(0x1000, 0x00c3_200f)],
            after: loaded(&p, 0x1003, 3, 13),
        },
        Case {
            name: "MOV EBX, CR0 with the prefix of 16 bits",
            before: p,
            code: &[0x66, 0x0f, 0x20, 0xc3],
            cycles: &[fetch(0x1000, 0xc320_0f66)],
            after: loaded(&p, 0x1004, 3, 13),
        },
        Case {
            name: "MOV CR0, EBX with the prefix of 16 bits",
            before: p,
            code: &[0x66, 0x0f, 0x22, 0xc3],
            cycles: &[fetch(0x1000, 0xc322_0f66)],
            after: pending(&p, 13, Some(0)),
        },
    ];
    steps(&rt, &cases);
}

#[test]
fn if_is_changed_where_the_level_may(rt: HostRuntime) {
    for level in 0..4 {
        for iopl in 0..4 {
            let flags = 0x4002 + u32::from(iopl) * 0x1000;
            let clear = flagged(&at_level(&bare(), level), flags);
            let set = flagged(&clear, flags + 0x200);
            let may = level <= iopl;
            let cases = [
                Case {
                    name: "STI where IF is clear",
                    before: clear,
                    code: &[0xfb],
                    cycles: &[fetch(0x1000, 0xfb)],
                    after: if may {
                        in_shadow(&at(&set, 0x1001))
                    } else {
                        pending(&clear, 13, Some(0))
                    },
                },
                Case {
                    name: "STI where IF is set",
                    before: set,
                    code: &[0xfb],
                    cycles: &[fetch(0x1000, 0xfb)],
                    after: if may {
                        at(&set, 0x1001)
                    } else {
                        pending(&set, 13, Some(0))
                    },
                },
                Case {
                    name: "CLI where IF is set",
                    before: set,
                    code: &[0xfa],
                    cycles: &[fetch(0x1000, 0xfa)],
                    after: if may {
                        at(&clear, 0x1001)
                    } else {
                        pending(&set, 13, Some(0))
                    },
                },
                Case {
                    name: "CLI where IF is clear",
                    before: clear,
                    code: &[0xfa],
                    cycles: &[fetch(0x1000, 0xfa)],
                    after: if may {
                        at(&clear, 0x1001)
                    } else {
                        pending(&clear, 13, Some(0))
                    },
                },
            ];
            steps(&rt, &cases);
        }
    }
}

#[test]
fn there_is_no_coprocessor(rt: HostRuntime) {
    for cr0 in 0..16 {
        let p = controlled(&at_level(&bare(), 3), cr0);
        let wait = Case {
            name: "WAIT",
            before: p,
            code: &[0x9b],
            cycles: &[fetch(0x1000, 0x9b)],
            after: match cr0 {
                10 | 11 | 14 | 15 => pending(&p, 7, None),
                _ => at(&p, 0x1001),
            },
        };
        step_over_bytes(&rt, &wait);
        step_over_values(&rt, &wait);
    }
    let p = at_level(&bare(), 3);
    for opcode in 0xd8..0xe0 {
        let escape = Case {
            name: "an operation for a coprocessor, with no byte behind its opcode",
            before: p,
            code: &[opcode],
            cycles: &[fetch(0x1000, u32::from(opcode))],
            after: pending(&p, 7, None),
        };
        step_over_bytes(&rt, &escape);
        step_over_values(&rt, &escape);
    }
    let halt = Case {
        name: "HLT",
        before: bare(),
        code: &[0xf4],
        cycles: &[fetch(0x1000, 0xf4)],
        after: in_mode(&at(&bare(), 0x1001), Mode::Halted),
    };
    step_over_bytes(&rt, &halt);
}
