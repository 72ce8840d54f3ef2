//! Near calls and returns, and RETF: each rule of CS and of the outer SS, the pairs whose order a fault shows, the immediate, and
//! the segments that an outer return makes null. The stack stands at 800h.
use super::transfers::{at_level, cycle, push, refused, world};
use super::{bare, fetch, in_mode};
use m386_base::ask::{Ask, Cycle, Role};
use m386_memory::fixed::FixedBus;
use m386_state::proc::Mode;
use m386_step::run::run;

/// RETF.
const RETF: u64 = 0xcb;

/// A doubleword popped.
fn pop(addr: u32, value: u32) -> Ask {
    cycle(Role::Pop, false, 0, addr, 15, value)
}

/// A return that is refused: its name, CPL, CS, EIP, the high doubleword of descriptor 48, which is flat, the outer SS, the cycles,
/// the vector and the code.
static RETURNS: [(&str, u8, u32, u32, u32, u32, usize, u8, u16); 33] = [
    // CS.
    ("null", 0, 0, 0, 0, 0, 3, 13, 0),
    ("null with RPL 3", 0, 3, 0, 0, 0, 3, 13, 0),
    ("past the GDT", 0, 0x58, 0, 0, 0, 3, 13, 0x58),
    ("an inner level", 3, 0x8, 0, 0, 0, 5, 13, 0x8),
    ("RPL below CPL", 3, 0x3a, 0, 0, 0, 5, 13, 0x38),
    (
        "conforming, RPL below CPL",
        3,
        0x48,
        0,
        0xcf_9f00,
        0,
        5,
        13,
        0x48,
    ),
    ("data", 0, 0x10, 0, 0, 0, 5, 13, 0x10),
    ("code of 16 bits", 0, 0x48, 0, 0x8f_9b00, 0, 5, 13, 0x48),
    ("a call gate", 0, 0x48, 0, 0x8c00, 0, 5, 13, 0x48),
    ("DPL above RPL", 0, 0x3a, 0, 0, 0, 5, 13, 0x38),
    ("DPL below RPL", 0, 0xb, 0, 0, 0, 5, 13, 0x8),
    (
        "conforming, DPL above RPL",
        0,
        0x49,
        0,
        0xcf_df00,
        0,
        5,
        13,
        0x48,
    ),
    ("not present", 0, 0x48, 0, 0xcf_1b00, 0, 5, 11, 0x48),
    ("data, not present", 0, 0x48, 0, 0xcf_1300, 0, 5, 13, 0x48),
    (
        "DPL above RPL, not present",
        0,
        0x48,
        0,
        0xcf_7b00,
        0,
        5,
        13,
        0x48,
    ),
    (
        "an inner level, not present",
        3,
        0x48,
        0,
        0xcf_1b00,
        0,
        5,
        13,
        0x48,
    ),
    (
        "not present, past the limit",
        0,
        0x48,
        0x1_0000,
        0x40_1b00,
        0,
        5,
        11,
        0x48,
    ),
    ("past the limit", 0, 0x48, 0x1_0000, 0x40_9b00, 0, 5, 13, 0),
    (
        "past the limit, but marked",
        0,
        0x48,
        0x1_0000,
        0x40_9a00,
        0,
        6,
        13,
        0,
    ),
    // The outer SS.
    ("SS null", 0, 0x3b, 0, 0, 0, 7, 13, 0),
    ("SS null with RPL 3", 0, 0x3b, 0, 0, 3, 7, 13, 0),
    ("SS past the GDT", 0, 0x3b, 0, 0, 0x5b, 7, 13, 0x58),
    ("SS of RPL 0", 0, 0x3b, 0, 0, 0x40, 9, 13, 0x40),
    ("SS of RPL 2", 0, 0x3b, 0, 0, 0x42, 9, 13, 0x40),
    ("SS of the old level", 0, 0x3b, 0, 0, 0x10, 9, 13, 0x10),
    ("SS of DPL 2", 0, 0x3b, 0, 0, 0x33, 9, 13, 0x30),
    ("code in SS", 0, 0x3b, 0, 0, 0x3b, 9, 13, 0x38),
    (
        "SS that isn't writable",
        0,
        0x3b,
        0,
        0xcf_f100,
        0x4b,
        9,
        13,
        0x48,
    ),
    ("SS not present", 0, 0x3b, 0, 0xcf_7300, 0x4b, 9, 12, 0x48),
    (
        "SS not writable, not present",
        0,
        0x3b,
        0,
        0xcf_7100,
        0x4b,
        9,
        13,
        0x48,
    ),
    (
        "SS of DPL 2, not present",
        0,
        0x3b,
        0,
        0xcf_5300,
        0x4b,
        9,
        13,
        0x48,
    ),
    // CS before SS, and SS before EIP.
    (
        "CS not present, SS null",
        0,
        0x4b,
        0,
        0xcf_7b00,
        0,
        5,
        11,
        0x48,
    ),
    (
        "outer, past the limit",
        0,
        0x4b,
        0x1_0000,
        0x40_fb00,
        0x43,
        9,
        13,
        0,
    ),
];

#[test]
fn far_returns_are_refused_by_each_rule(rt: HostRuntime) {
    for (name, level, cs, eip, descriptor, ss, made, vector, code) in RETURNS {
        let words = [
            (0x448, 0xffff),
            (0x44c, descriptor),
            (0x800, eip),
            (0x804, cs),
            (0x808, 0x700),
            (0x80c, ss),
        ];
        let bus = world(&rt, RETF, &words);
        refused(&rt, name, &at_level(level), bus, made, (vector, code));
    }
    // SS null, though EIP lies past the limit too: the descriptor of SS isn't read.
    let words = [
        (0x448, 0xffff),
        (0x44c, 0x40_fb00),
        (0x800, 0x1_0000),
        (0x804, 0x4b),
        (0x80c, 0x5b),
    ];
    let bus = world(&rt, RETF, &words);
    refused(&rt, "SS before EIP", &at_level(0), bus, 7, (13, 0x58));
}

/// RETF to an outer level on a stack that ends amid what is popped.
pub(crate) const TESTED: &str = "\
a pop
 before es=10:0:fffff:93:c cs=8:0:fffff:9b:c ss=10:0:802:93:4 ds=10:0:fffff:93:c fs=10:0:fffff:93:c gs=10:0:fffff:93:c
 bytes cb 00 00 00 00 00 00 00
 memory 800 2000 3b 700 43
 makes 1
 after pending=c:0
a pop
 before es=10:0:fffff:93:c cs=8:0:fffff:9b:c ss=10:0:806:93:4 ds=10:0:fffff:93:c fs=10:0:fffff:93:c gs=10:0:fffff:93:c
 bytes cb 00 00 00 00 00 00 00
 memory 800 2000 3b 700 43
 makes 2
 after pending=c:0
a pop
 before es=10:0:fffff:93:c cs=8:0:fffff:9b:c ss=10:0:80a:93:4 ds=10:0:fffff:93:c fs=10:0:fffff:93:c gs=10:0:fffff:93:c
 bytes cb 00 00 00 00 00 00 00
 memory 800 2000 3b 700 43
 makes 5
 after pending=c:0
a pop
 before es=10:0:fffff:93:c cs=8:0:fffff:9b:c ss=10:0:80e:93:4 ds=10:0:fffff:93:c fs=10:0:fffff:93:c gs=10:0:fffff:93:c
 bytes cb 00 00 00 00 00 00 00
 memory 800 2000 3b 700 43
 makes 6
 after pending=c:0
";

/// RETF to level 3.
pub(crate) const SAME_LEVEL: &str = "\
RETF
 bytes cb 00 00 00 00 00 00 00
 memory 800 2000 3b
 r fetch 0 1000 f cb
 r pop 0 800 f 2000
 r pop 0 804 f 3b
 r gdt 0 438 f ffff
 r+ gdt 0 43c f cffb00
 after eip=2000 esp=808
RETF 8
 bytes ca 08 00 00 00 00 00 00
 memory 800 2000 3b
 r fetch 0 1000 f 8ca
 r pop 0 800 f 2000
 r pop 0 804 f 3b
 r gdt 0 438 f ffff
 r+ gdt 0 43c f cffb00
 after eip=2000 esp=810
# Each pop has two bytes.
RETF with 66h
 bytes 66 cb 00 00 00 00 00 00
 memory 800 3b2000
 r fetch 0 1000 f cb66
 r pop 0 800 3 2000
 r pop 0 800 c 3b0000
 r gdt 0 438 f ffff
 r+ gdt 0 43c f cffb00
 after eip=2000 esp=804
# A stack that is addressed by SP keeps the upper half of ESP.
by SP
 before esp=50800 ss=43:0:fffff:f3:8
 bytes ca 08 00 00 00 00 00 00
 memory 800 2000 3b
 makes 5
 after eip=2000 esp=50810
";

/// RETF to an outer level.
pub(crate) const OUTER_LEVEL: &str = "\
# ES conforms, DS has DPL 0, FS has DPL 3, and GS isn't usable.
RETF 8
 before es=b:0:fffff:9f:c cs=8:0:fffff:9b:c ss=10:0:fffff:93:c ds=10:0:fffff:93:c gs=-2:0:0:0:0
 bytes ca 08 00 00 00 00 00 00
 memory 800 2000 3b
 memory 810 700 ffff0043
 r fetch 0 1000 f 8ca
 r pop 0 800 f 2000
 r pop 0 804 f 3b
 r gdt 0 438 f ffff
 r+ gdt 0 43c f cffb00
 r pop 0 810 f 700
 r pop 0 814 f ffff0043
 r gdt 0 440 f ffff
 r+ gdt 0 444 f cff300
 after eip=2000 esp=708 cs=3b:0:fffff:fb:c ss=43:0:fffff:f3:c ds=-0:0:0:0:0 gs=-0:0:0:0:0
# Data of the new level stay.
RETF to level 2
 before es=2b:0:fffff:db:c cs=8:0:fffff:9b:c ss=10:0:fffff:93:c ds=32:0:fffff:d3:c fs=21:0:fffff:b3:c
 bytes cb 00 00 00 00 00 00 00
 memory 800 2000 2a 700 32
 makes 9
 after eip=2000 esp=700 cs=2a:0:fffff:db:c ss=32:0:fffff:d3:c fs=-0:0:0:0:0
# The popped SP is the new ESP, with zeros above.
RETF with 66h to level 2
 before es=2b:0:fffff:db:c cs=8:0:fffff:9b:c ss=10:0:fffff:93:c ds=32:0:fffff:d3:c fs=21:0:fffff:b3:c
 bytes 66 cb 00 00 00 00 00 00
 memory 800 2a2000 320700
 makes 9
 after eip=2000 esp=700 cs=2a:0:fffff:db:c ss=32:0:fffff:d3:c fs=-0:0:0:0:0
";

/// Near calls and returns.
pub(crate) const NEAR: &str = "\
CALL
 bytes e8 05 00 00 00 00 00 00
 r fetch 0 1000 f 5e8
 r fetch 0 1004 f 0
 w push 0 7fc f 1005
 after eip=100a esp=7fc
# Two bytes are pushed.
CALL with 66h
 bytes 66 e8 05 00 00 00 00 00
 r fetch 0 1000 f 5e866
 w push 0 7fc c 10040000
 after eip=1009 esp=7fe
CALL [500h]
 bytes ff 15 00 05 00 00 00 00
 memory 500 2000
 r fetch 0 1000 f 50015ff
 r fetch 0 1004 f 0
 r data 0 500 f 2000
 w push 0 7fc f 1006
 after eip=2000 esp=7fc
# The target is read before the push.
CALL ESP
 bytes ff d4 00 00 00 00 00 00
 makes 2
 after eip=800 esp=7fc
# A target past the limit, and a stack without room.
CALL one past the limit
 before cs=3b:0:1009:fb:4
 bytes e8 05 00 00 00 00 00 00
 makes 2
 after pending=d:0
CALL on a full stack
 before ss=10:0:700:93:4
 bytes e8 05 00 00 00 00 00 00
 makes 2
 after pending=c:0
# RET tests behind its pop.
RET one past the limit
 before cs=3b:0:1009:fb:4
 bytes c3 00 00 00 00 00 00 00
 memory 800 100a
 makes 2
 after pending=d:0
RET
 before cs=3b:0:1009:fb:4
 bytes c3 00 00 00 00 00 00 00
 memory 800 1009
 makes 2
 after eip=1009 esp=804
RET 8
 before cs=3b:0:1009:fb:4
 bytes c2 08 00 00 00 00 00 00
 memory 800 1009
 makes 2
 after eip=1009 esp=80c
RET with 66h
 before cs=3b:0:1009:fb:4
 bytes 66 c3 00 00 00 00 00 00
 memory 800 ffff1009
 makes 2
 after eip=1009 esp=802
RET on an empty stack
 before ss=10:0:802:93:4
 bytes c3 00 00 00 00 00 00 00
 memory 800 1009
 makes 1
 after pending=c:0
";

#[test]
fn a_call_comes_back(rt: HostRuntime) {
    // MOV ESP, 2000h; CALL 100Bh; HLT; and RET at 100Bh.
    let program = [0xbc, 0, 0x20, 0, 0, 0xe8, 1, 0, 0, 0, 0xf4, 0xc3];
    let mut bus = FixedBus::<0x2000>::new();
    for (i, byte) in program.iter().enumerate() {
        bus.poke(0x1000 + i as u32, *byte);
    }
    bus.clear();
    let mut p = bare();
    assert_eq!(rt; run(&mut p, &mut bus, 4), Ok(4));
    let cycles = [
        fetch(0x1000, 0x0020_00bc),
        fetch(0x1004, 0x0001_e800),
        fetch(0x1004, 0x0001_e800),
        fetch(0x1008, 0xc3f4_0000),
        push(0x1ffc, 0x100a),
        fetch(0x1008, 0xc3f4_0000),
        pop(0x1ffc, 0x100a),
        fetch(0x1008, 0xc3f4_0000),
    ];
    assert_eq!(rt; bus.cycles().len(), cycles.len());
    for (made, ask) in bus.cycles().iter().zip(cycles) {
        assert_eq!(rt; *made, Cycle { cpu: 0, ask });
    }
    let mut after = in_mode(&bare(), Mode::Halted);
    after.eip = 0x100b;
    after.regs[4] = 0x2000;
    assert_eq!(rt; p, after);
}
