//! Far JMP and CALL through a call gate, which is descriptor 48 and leads to descriptor 50 at 2000h: the rules of the gate and of its
//! target, and the cycles of those that keep the stack.
use super::transfers::{at_level, refused, world};

/// JMP to 4B:12345678, whose offset doesn't count.
const JUMP: u64 = 0x4b_1234_5678_ea;

/// CALL of the same.
pub(super) const CALL: u64 = 0x4b_1234_5678_9a;

/// A gate or its target that is refused: its name, CPL, whether a JMP and whether a CALL is so, the gate and the high doubleword
/// of the flat target, the cycles, the vector and the code.
static GATES: [(&str, u8, bool, bool, (u32, u32), u32, usize, u8, u16); 20] = [
    // The gate.
    (
        "DPL below CPL",
        3,
        true,
        true,
        (0x50_2000, 0xcc00),
        0xcf_fb00,
        4,
        13,
        0x48,
    ),
    (
        "DPL below RPL",
        0,
        true,
        true,
        (0x50_2000, 0x8c00),
        0xcf_9b00,
        4,
        13,
        0x48,
    ),
    (
        "not present",
        3,
        true,
        true,
        (0x50_2000, 0x6c00),
        0xcf_fb00,
        4,
        11,
        0x48,
    ),
    (
        "low and not present",
        3,
        true,
        true,
        (0x50_2000, 0x0c00),
        0xcf_fb00,
        4,
        13,
        0x48,
    ),
    (
        "not present, to null",
        3,
        true,
        true,
        (0x2000, 0x6c00),
        0xcf_fb00,
        4,
        11,
        0x48,
    ),
    // Its target.
    ("null", 3, true, true, (0x2000, 0xec00), 0xcf_fb00, 4, 13, 0),
    (
        "null with RPL 3",
        3,
        true,
        true,
        (0x3_2000, 0xec00),
        0xcf_fb00,
        4,
        13,
        0,
    ),
    (
        "past the GDT",
        3,
        true,
        true,
        (0x5a_2000, 0xec00),
        0xcf_fb00,
        4,
        13,
        0x58,
    ),
    (
        "data",
        3,
        true,
        true,
        (0x50_2000, 0xec00),
        0xcf_f300,
        6,
        13,
        0x50,
    ),
    (
        "code of 16 bits",
        3,
        true,
        true,
        (0x50_2000, 0xec00),
        0x8f_fb00,
        6,
        13,
        0x50,
    ),
    (
        "a gate",
        3,
        true,
        true,
        (0x50_2000, 0xec00),
        0xec00,
        6,
        13,
        0x50,
    ),
    (
        "an outer level",
        2,
        true,
        true,
        (0x50_2000, 0xec00),
        0xcf_fb00,
        6,
        13,
        0x50,
    ),
    (
        "outer and conforming",
        2,
        true,
        true,
        (0x50_2000, 0xec00),
        0xcf_ff00,
        6,
        13,
        0x50,
    ),
    (
        "an inner level",
        3,
        true,
        false,
        (0x50_2000, 0xec00),
        0xcf_9b00,
        6,
        13,
        0x50,
    ),
    (
        "target not present",
        3,
        true,
        true,
        (0x50_2000, 0xec00),
        0xcf_7b00,
        6,
        11,
        0x50,
    ),
    (
        "data, not present",
        3,
        true,
        true,
        (0x50_2000, 0xec00),
        0xcf_7300,
        6,
        13,
        0x50,
    ),
    (
        "outer, not present",
        2,
        true,
        true,
        (0x50_2000, 0xec00),
        0xcf_7b00,
        6,
        13,
        0x50,
    ),
    (
        "inner, not present",
        3,
        true,
        false,
        (0x50_2000, 0xec00),
        0xcf_1b00,
        6,
        13,
        0x50,
    ),
    (
        "past the limit",
        3,
        true,
        true,
        (0x50_0000, 0x1_ec00),
        0x40_fb00,
        6,
        13,
        0,
    ),
    (
        "past the limit, but marked",
        3,
        true,
        true,
        (0x50_0000, 0x1_ec00),
        0x40_fa00,
        7,
        13,
        0,
    ),
];

#[test]
fn gates_and_their_targets_are_refused_by_each_rule(rt: HostRuntime) {
    for (name, level, jump, call, gate, target, made, vector, code) in GATES {
        let words = [
            (0x448, gate.0),
            (0x44c, gate.1),
            (0x450, 0xffff),
            (0x454, target),
        ];
        if jump {
            let bus = world(&rt, JUMP, &words);
            refused(&rt, name, &at_level(level), bus, made, (vector, code));
        }
        if call {
            let bus = world(&rt, CALL, &words);
            refused(&rt, name, &at_level(level), bus, made, (vector, code));
        }
    }
}

/// A gate of a count to code 50, flat and with this high doubleword.
pub(super) fn gate(count: u8, target: u32) -> [(u32, u32); 4] {
    [
        (0x448, 0x50_2000),
        (0x44c, 0xec00 + u32::from(count)),
        (0x450, 0xffff),
        (0x454, target),
    ]
}

/// Gates to code that runs at level 3. The count 5 of the gate doesn't matter.
pub(crate) const SAME_LEVEL: &str = "\
JMP
 bytes ea 78 56 34 12 4b 00 00
 memory 448 502000 ec05 ffff cffb00
 r fetch 0 1000 f 345678ea
 r fetch 0 1004 f 4b12
 r gdt 0 448 f 502000
 r+ gdt 0 44c f ec05
 r gdt 0 450 f ffff
 r+ gdt 0 454 f cffb00
 after eip=2000 cs=53:0:fffff:fb:c
# The bytes are 66 9A 78 56 4B 00: its pushes have four bytes.
CALL with 66h
 bytes 66 9a 78 56 4b 00 00 00
 memory 448 502000 ec05 ffff cffb00
 r fetch 0 1000 f 56789a66
 r fetch 0 1004 f 4b
 r gdt 0 448 f 502000
 r+ gdt 0 44c f ec05
 r gdt 0 450 f ffff
 r+ gdt 0 454 f cffb00
 w push 0 7fc f 3b
 w push 0 7f8 f 1006
 after eip=2000 esp=7f8 cs=53:0:fffff:fb:c
# Conforming code of level 0 runs at level 3.
CALL of conforming code
 bytes 9a 78 56 34 12 4b 00 00
 memory 448 502000 ec05 ffff cf9f00
 r fetch 0 1000 f 3456789a
 r fetch 0 1004 f 4b12
 r gdt 0 448 f 502000
 r+ gdt 0 44c f ec05
 r gdt 0 450 f ffff
 r+ gdt 0 454 f cf9f00
 w push 0 7fc f 3b
 w push 0 7f8 f 1007
 after eip=2000 esp=7f8 cs=53:0:fffff:9f:c
";

/// A gate to code that isn't marked as accessed.
pub(crate) const MARKED: &str = "\
JMP
 bytes ea 78 56 34 12 4b 00 00
 memory 448 502000 ec00 ffff cffa00
 r fetch 0 1000 f 345678ea
 r fetch 0 1004 f 4b12
 r gdt 0 448 f 502000
 r+ gdt 0 44c f ec00
 r gdt 0 450 f ffff
 r+ gdt 0 454 f cffa00
 w+ gdtacc 0 454 2 fb00
 after eip=2000 cs=53:0:fffff:fa:c
";
