//! CALL through a call gate to an inner level: the rules of the TSS and of the new stack, what is pushed there, and what is copied to
//! it. The gate is that of `call_gates`.
use super::call_gates::{CALL, gate};
use super::fetch;
use super::transfers::{
    at_level, cycle, entered, flat, high, low, on_stack, push, refused, steps_to, world,
};
use m386_base::ask::{Ask, Role};
use m386_state::proc::Proc;

/// A new stack of level 0 that is refused: its name, the gate's high doubleword and its target's, SS0, the high doubleword of
/// the flat descriptor 30, the cycles, the vector and the code.
static STACKS: [(&str, u32, u32, u32, u32, usize, u8, u16); 12] = [
    ("null", 0xec00, 0xcf_9b00, 0, 0, 8, 10, 0),
    ("null with RPL 3", 0xec00, 0xcf_9b00, 3, 0, 8, 10, 0),
    ("past the GDT", 0xec00, 0xcf_9b00, 0x58, 0, 8, 10, 0x58),
    ("RPL 1", 0xec00, 0xcf_9b00, 0x31, 0xcf_9300, 10, 10, 0x30),
    (
        "the RPL of the old level",
        0xec00,
        0xcf_9b00,
        0x33,
        0xcf_f300,
        10,
        10,
        0x30,
    ),
    ("DPL 3", 0xec00, 0xcf_9b00, 0x30, 0xcf_f300, 10, 10, 0x30),
    (
        "data that isn't writable",
        0xec00,
        0xcf_9b00,
        0x30,
        0xcf_9100,
        10,
        10,
        0x30,
    ),
    ("code", 0xec00, 0xcf_9b00, 0x30, 0xcf_9b00, 10, 10, 0x30),
    (
        "not present",
        0xec00,
        0xcf_9b00,
        0x30,
        0xcf_1300,
        10,
        12,
        0x30,
    ),
    (
        "DPL 3, not present",
        0xec00,
        0xcf_9b00,
        0x30,
        0xcf_7300,
        10,
        10,
        0x30,
    ),
    // The offset is tested behind the stack.
    (
        "null, and an offset past the limit",
        0x1_ec00,
        0x40_9b00,
        0,
        0,
        8,
        10,
        0,
    ),
    (
        "an offset past the limit",
        0x1_ec00,
        0x40_9b00,
        0x30,
        0xcf_9300,
        10,
        13,
        0,
    ),
];

#[test]
fn new_stacks_are_refused_by_each_rule(rt: HostRuntime) {
    for (name, gate, target, selector, stack, made, vector, code) in STACKS {
        let words = [
            (0x448, 0x50_0000),
            (0x44c, gate),
            (0x450, 0xffff),
            (0x454, target),
            (0x308, selector),
            (0x434, stack),
        ];
        let bus = world(&rt, CALL, &words);
        refused(&rt, name, &at_level(3), bus, made, (vector, code));
    }
}

/// A TSS that ends at or before the end of a stack, which is 4 + 8n + 5 for the level n.
pub(crate) const TASKS: &str = "\
too small
 before tr=73:300:8:8b:0
 bytes 9a 78 56 34 12 4b 00 00
 memory 448 502000 ec00 ffff cf9b00
 makes 6
 after pending=a:70
too small
 before tr=73:300:10:8b:0
 bytes 9a 78 56 34 12 4b 00 00
 memory 448 502000 ec00 ffff cfbb00
 makes 6
 after pending=a:70
too small
 before tr=73:300:18:8b:0
 bytes 9a 78 56 34 12 4b 00 00
 memory 448 502000 ec00 ffff cfdb00
 makes 6
 after pending=a:70
level 0
 before tr=73:300:9:8b:0
 bytes 9a 78 56 34 12 4b 00 00
 memory 448 502000 ec00 ffff cf9b00
 makes e
 after eip=2000 esp=5f0 cs=50:0:fffff:9b:c ss=10:0:fffff:93:c
level 1
 before tr=73:300:11:8b:0
 bytes 9a 78 56 34 12 4b 00 00
 memory 448 502000 ec00 ffff cfbb00
 makes e
 after eip=2000 esp=670 cs=51:0:fffff:bb:c ss=21:0:fffff:b3:c
level 2
 before tr=73:300:19:8b:0
 bytes 9a 78 56 34 12 4b 00 00
 memory 448 502000 ec00 ffff cfdb00
 makes e
 after eip=2000 esp=6f0 cs=52:0:fffff:db:c ss=32:0:fffff:d3:c
no task
 before tr=-73:0:0:0:0
 bytes 9a 78 56 34 12 4b 00 00
 memory 448 502000 ec00 ffff cf9b00
 makes 6
 after pending=a:0
# The target is tested before.
no task and not present
 before tr=-73:0:0:0:0
 bytes 9a 78 56 34 12 4b 00 00
 memory 448 502000 ec00 ffff cf1b00
 makes 6
 after pending=b:50
";

/// The cycles of a CALL through a gate to level 0, up to what it pushes: its bytes, the gate, the target, and the new stack.
fn before_pushes(count: u8) -> [Ask; 10] {
    [
        fetch(0x1000, 0x3456_789a),
        fetch(0x1004, 0x4b12),
        low(0x448, 0x50_2000),
        high(0x44c, 0xec00 + u32::from(count)),
        low(0x450, 0xffff),
        high(0x454, 0xcf_9b00),
        cycle(Role::Inner, false, 1, 0x304, 15, 0x600),
        cycle(Role::Inner, false, 2, 0x308, 3, 0x10),
        low(0x410, 0xffff),
        high(0x414, 0xcf_9300),
    ]
}

/// A doubleword of the old stack, read.
fn parameter(addr: u32, value: u32) -> Ask {
    cycle(Role::Operand, false, 0, addr, 15, value)
}

/// The state behind a CALL through a gate to level 0.
fn inside(p: &Proc, esp: u32) -> Proc {
    on_stack(&entered(p, flat(0x50, 0x9b), 0x2000, esp), flat(0x10, 0x93))
}

/// Gates with a count of 0 and 1.
pub(crate) const COPIES: &str = "\
none
 bytes 9a 78 56 34 12 4b 00 00
 memory 448 502000 ec00 ffff cf9b00
 r fetch 0 1000 f 3456789a
 r fetch 0 1004 f 4b12
 r gdt 0 448 f 502000
 r+ gdt 0 44c f ec00
 r gdt 0 450 f ffff
 r+ gdt 0 454 f cf9b00
 r inner 1 304 f 600
 r inner 2 308 3 10
 r gdt 0 410 f ffff
 r+ gdt 0 414 f cf9300
 w push 0 5fc f 43
 w push 0 5f8 f 800
 w push 0 5f4 f 3b
 w push 0 5f0 f 1007
 after eip=2000 esp=5f0 cs=50:0:fffff:9b:c ss=10:0:fffff:93:c
one
 bytes 9a 78 56 34 12 4b 00 00
 memory 448 502000 ec01 ffff cf9b00
 r fetch 0 1000 f 3456789a
 r fetch 0 1004 f 4b12
 r gdt 0 448 f 502000
 r+ gdt 0 44c f ec01
 r gdt 0 450 f ffff
 r+ gdt 0 454 f cf9b00
 r inner 1 304 f 600
 r inner 2 308 3 10
 r gdt 0 410 f ffff
 r+ gdt 0 414 f cf9300
 w push 0 5fc f 43
 w push 0 5f8 f 800
 r data 0 800 f 11111111
 w push 0 5f4 f 11111111
 w push 0 5f0 f 3b
 w push 0 5ec f 1007
 after eip=2000 esp=5ec cs=50:0:fffff:9b:c ss=10:0:fffff:93:c
";

#[test]
fn up_to_31_parameters_are_copied(rt: HostRuntime) {
    let p = at_level(3);
    // They reach up to 87Bh.
    let start = before_pushes(31);
    let mut many = [push(0x5fc, 0x43); 76];
    for (k, ask) in start.iter().enumerate() {
        many[k] = *ask;
    }
    many[11] = push(0x5f8, 0x800);
    for k in 0..31 {
        let value = match k {
            29 => 0x2222_2222,
            30 => 0x1111_1111,
            _ => 0,
        };
        many[12 + 2 * k] = parameter(0x878 - 4 * k as u32, value);
        many[13 + 2 * k] = push(0x5f4 - 4 * k as u32, value);
    }
    many[74] = push(0x578, 0x3b);
    many[75] = push(0x574, 0x1007);
    let bus = world(&rt, CALL, &gate(31, 0xcf_9b00));
    steps_to(&rt, "31", &p, bus, &many, &inside(&p, 0x574));
}

/// The longest step: CALL FAR [B03h] of fifteen bytes, through a gate that copies 31 doublewords to a stack of level 0. Each of its parts
/// lies over as many aligned groups as it can: 5 for the bytes, 4 for the pointer, 4 for the gate, 5 for each of the descriptors of
/// code and stack with its mark, 4 for the new SS and ESP, 2 for each of four pushes, and 4 for each copy.
pub(crate) const LONGEST: &str = "\
159 cycles
 before eip=1003 esp=801 tr=70:303:67:8b:0 gdtr=402:57
 memory 1003 3e3e3e3e 3e3e3e3e 31dff3e b
 memory b03 0 4b
 memory 44a 502000 ec1f ffff cf9a00
 memory 412 ffff cf9200
 memory 307 602 10
 makes 9f
 after eip=2000 esp=576 cs=50:0:fffff:9a:c ss=10:0:fffff:92:c
";

/// Stacks that are addressed by SP.
pub(crate) const HALVES: &str = "\
# Its parameters come round at 64 KiB, and its ESP is pushed whole.
the old stack
 before esp=5fffc ss=43:0:fffff:f3:8
 bytes 9a 78 56 34 12 4b 00 00
 memory 0 33333333
 memory 448 502000 ec02 ffff cf9b00
 r fetch 0 1000 f 3456789a
 r fetch 0 1004 f 4b12
 r gdt 0 448 f 502000
 r+ gdt 0 44c f ec02
 r gdt 0 450 f ffff
 r+ gdt 0 454 f cf9b00
 r inner 1 304 f 600
 r inner 2 308 3 10
 r gdt 0 410 f ffff
 r+ gdt 0 414 f cf9300
 w push 0 5fc f 43
 w push 0 5f8 f 5fffc
 r data 0 0 f 33333333
 w push 0 5f4 f 33333333
 r data 0 fffc f ffffffff
 w push 0 5f0 f ffffffff
 w push 0 5ec f 3b
 w push 0 5e8 f 1007
 after eip=2000 esp=5e8 cs=50:0:fffff:9b:c ss=10:0:fffff:93:c
# The upper half of ESP0 stays.
the new stack
 bytes 9a 78 56 34 12 4b 00 00
 memory 448 502000 ec00 ffff cf9b00
 memory 304 10600
 memory 414 8f9300
 makes e
 after eip=2000 esp=105f0 cs=50:0:fffff:9b:c ss=10:0:fffff:93:8
";

/// Pushes on a new stack of 64 KiB, and copies from an old one that ends at 803h.
pub(crate) const TESTED: &str = "\
a push
 bytes 9a 78 56 34 12 4b 00 00
 memory 448 502000 ec00 ffff cf9b00
 memory 304 0
 memory 414 409300
 makes a
 after pending=c:0
a push
 bytes 9a 78 56 34 12 4b 00 00
 memory 448 502000 ec00 ffff cf9b00
 memory 304 4
 memory 414 409300
 makes b
 after pending=c:0
a push
 bytes 9a 78 56 34 12 4b 00 00
 memory 448 502000 ec00 ffff cf9b00
 memory 304 8
 memory 414 409300
 makes c
 after pending=c:0
a push
 bytes 9a 78 56 34 12 4b 00 00
 memory 448 502000 ec00 ffff cf9b00
 memory 304 c
 memory 414 409300
 makes d
 after pending=c:0
a push
 bytes 9a 78 56 34 12 4b 00 00
 memory 448 502000 ec01 ffff cf9b00
 memory 304 8
 memory 414 409300
 makes d
 after pending=c:0
a push
 bytes 9a 78 56 34 12 4b 00 00
 memory 448 502000 ec01 ffff cf9b00
 memory 304 c
 memory 414 409300
 makes e
 after pending=c:0
# The farther of two parameters fails before the nearer is read.
a copy
 before ss=43:0:803:f3:4
 bytes 9a 78 56 34 12 4b 00 00
 memory 448 502000 ec02 ffff cf9b00
 makes c
 after pending=c:0
the last one
 before ss=43:0:803:f3:4
 bytes 9a 78 56 34 12 4b 00 00
 memory 448 502000 ec01 ffff cf9b00
 makes 10
 after eip=2000 esp=5ec cs=50:0:fffff:9b:c ss=10:0:fffff:93:c
";
