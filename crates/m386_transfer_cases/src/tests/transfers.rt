//! Far JMP and CALL, direct and through call gates: the rules of each list one by one, each pair whose order a fault shows, and the
//! cycles. Code stands at 1000h, the GDT at 400h with the descriptors 08 to 50, the TSS at 300h, and the outer stack at 800h.
//! Numbers in tables are a descriptor's two doublewords: data and code are flat, and their access byte is in bits 8 to 15 of
//! the second.
ghost use Rattle.std.specs.Prelude.{◌≡◌, ◌<◌, [], false};

use super::{bare, bus_of, pending};
use m386_base::ask::{Ask, Cycle, Role};
use m386_base::bus::Bus;
use m386_base::desc::Desc;
use m386_memory::fixed::FixedBus;
use m386_state::proc::{Mode, Proc};
use m386_state::segment::{Seg, TableReg};
use m386_step::alone::step_alone;
use m386_worked::cases::put;
pub(super) use m386_worked::cycles::{cycle, high, low};
use m386_worked::texts::put_lines;
use std::process::Abort;

/// A processor of level 3 in a task, on the outer stack. In memory code and data of the levels 0 to 3 with the selectors 08, 10, 18, 20 and on
/// to 40; the stacks 0 to 2 of the TSS; and two doublewords on the outer stack.
pub(super) const OUTER: &str = "\
start esp=800 es=43:0:fffff:f3:c cs=3b:0:fffff:fb:c ss=43:0:fffff:f3:c ds=43:0:fffff:f3:c fs=43:0:fffff:f3:c gs=43:0:fffff:f3:c tr=70:300:67:8b:0 gdtr=400:57
memory 408 ffff cf9b00 ffff cf9300 ffff cfbb00 ffff cfb300 ffff cfdb00 ffff cfd300 ffff cffb00 ffff cff300
memory 304 600 10 680 21 700 32
memory 800 11111111 22222222
";

/// A bus with an instruction, the tables, and doublewords by their addresses.
pub(super) fn world(rt: &impl Abort, code: u64, words: &[(u32, u32)]) -> FixedBus<0x1018>
    ensures free { (⟦<FixedBus<0x1018> as Bus>⟧.view result).kept ≡ false }
    ensures none { (⟦<FixedBus<0x1018> as Bus>⟧.view result).cycles ≡ [] }
{
    let mut bus = bus_of(&code.to_le_bytes());
    assert!(rt; put_lines(&mut bus, OUTER).is_some());
    for (addr, value) in words {
        assert!(rt; put(&mut bus, *addr, *value).is_some());
    }
    bus.clear();
    bus
}

/// A flat segment with this access byte.
pub(super) fn flat(selector: u16, access: u8) -> Seg {
    Seg {
        selector,
        usable: true,
        desc: Desc::new(0, 0xf_ffff, access, 0xc),
    }
}

/// A processor at 1000h with these segments of code and data, on the outer stack, in a task.
fn with_segments(code: Seg, data: Seg) -> Proc {
    let mut p = bare();
    p.segs = [data, code, data, data, data, data];
    p.regs[4] = 0x800;
    p.gdtr = TableReg {
        base: 0x400,
        limit: 0x57,
    };
    p.tr = Seg {
        selector: 0x70,
        usable: true,
        desc: Desc::new(0x300, 0x67, 0x8b, 0),
    };
    p
}

/// The processor at a level.
pub(super) fn at_level(level: u8) -> Proc {
    match level {
        0 => with_segments(flat(0x8, 0x9b), flat(0x10, 0x93)),
        1 => with_segments(flat(0x19, 0xbb), flat(0x21, 0xb3)),
        2 => with_segments(flat(0x2a, 0xdb), flat(0x32, 0xd3)),
        _ => with_segments(flat(0x3b, 0xfb), flat(0x43, 0xf3)),
    }
}

/// The state with this code, at this EIP and ESP.
pub(super) fn entered(p: &Proc, code: Seg, eip: u32, esp: u32) -> Proc {
    let mut after = *p;
    after.segs = [p.segs[0], code, p.segs[2], p.segs[3], p.segs[4], p.segs[5]];
    after.eip = eip;
    after.regs[4] = esp;
    after
}

/// The state with this SS.
pub(super) fn on_stack(p: &Proc, stack: Seg) -> Proc {
    let mut after = *p;
    after.segs = [p.segs[0], p.segs[1], stack, p.segs[3], p.segs[4], p.segs[5]];
    after
}

/// A doubleword pushed.
pub(super) fn push(addr: u32, value: u32) -> Ask {
    cycle(Role::Push, true, 0, addr, 15, value)
}

/// A step from one state to another, with its cycles.
pub(super) fn steps_to(
    rt: &impl Abort,
    name: &str,
    before: &Proc,
    bus: FixedBus<0x1018>,
    cycles: &[Ask],
    after: &Proc,
)
    requires free { (⟦<FixedBus<0x1018> as Bus>⟧.view bus).kept ≡ false }
    requires none { (⟦<FixedBus<0x1018> as Bus>⟧.view bus).cycles ≡ [] }
{
    let mut p = *before;
    let mut bus = bus;
    assert!(rt; p.mode != Mode::Shutdown);
    step_alone(&mut p, &mut bus);
    assert_eq!(rt; p, *after, "{name}");
    for (made, ask) in bus.cycles().iter().zip(cycles) {
        assert_eq!(rt; *made, Cycle { cpu: 0, ask: *ask }, "{name}");
    }
    assert_eq!(rt; bus.cycles().len(), cycles.len(), "{name}");
}

/// A step from one state to another that makes so many cycles.
pub(super) fn comes_to(
    rt: &impl Abort,
    name: &str,
    before: &Proc,
    bus: FixedBus<0x1018>,
    made: usize,
    after: &Proc,
)
    requires free { (⟦<FixedBus<0x1018> as Bus>⟧.view bus).kept ≡ false }
    requires none { (⟦<FixedBus<0x1018> as Bus>⟧.view bus).cycles ≡ [] }
{
    let mut p = *before;
    let mut bus = bus;
    assert!(rt; p.mode != Mode::Shutdown);
    step_alone(&mut p, &mut bus);
    assert_eq!(rt; p, *after, "{name}");
    assert_eq!(rt; bus.cycles().len(), made, "{name}");
}

/// A step that leaves the state as it was, with an exception pending, and makes so many cycles.
pub(super) fn refused(
    rt: &impl Abort,
    name: &str,
    before: &Proc,
    bus: FixedBus<0x1018>,
    made: usize,
    fault: (u8, u16),
)
    requires free { (⟦<FixedBus<0x1018> as Bus>⟧.view bus).kept ≡ false }
    requires none { (⟦<FixedBus<0x1018> as Bus>⟧.view bus).cycles ≡ [] }
{
    let after = pending(before, fault.0, Some(fault.1));
    comes_to(rt, name, before, bus, made, &after);
}

/// JMP, EA, or CALL, 9A, to a far pointer. It has seven bytes.
fn far(opcode: u8, selector: u16, offset: u32) -> u64 {
    u64::from(opcode) + u64::from(offset) * 0x100 + u64::from(selector) * 0x100_0000_0000
}

/// A direct transfer that is refused: its name, CPL, the selector, the high doubleword of descriptor 48, which is flat, the
/// offset, the cycles, the vector and the code.
static DIRECT: [(&str, u8, u16, u32, u32, usize, u8, u16); 21] = [
    ("null", 3, 0, 0, 0, 2, 13, 0),
    ("null with RPL 3", 3, 3, 0, 0, 2, 13, 0),
    ("past the GDT", 3, 0x5b, 0, 0, 2, 13, 0x58),
    ("in an LDT that isn't there", 3, 0x4f, 0, 0, 2, 13, 0x4c),
    ("an empty descriptor", 3, 0x4b, 0, 0, 4, 13, 0x48),
    ("data", 3, 0x4b, 0xcf_f300, 0, 4, 13, 0x48),
    ("code of 16 bits", 3, 0x4b, 0x8f_fb00, 0, 4, 13, 0x48),
    ("an LDT", 3, 0x4b, 0xe200, 0, 4, 13, 0x48),
    ("an interrupt gate", 3, 0x4b, 0xee00, 0, 4, 13, 0x48),
    ("a trap gate", 3, 0x4b, 0xef00, 0, 4, 13, 0x48),
    (
        "data that isn't present",
        3,
        0x4b,
        0xcf_7300,
        0,
        4,
        13,
        0x48,
    ),
    ("an inner level", 3, 0x4b, 0xcf_9b00, 0, 4, 13, 0x48),
    ("an outer level", 0, 0x48, 0xcf_fb00, 0, 4, 13, 0x48),
    ("RPL above CPL", 2, 0x4b, 0xcf_db00, 0, 4, 13, 0x48),
    (
        "conforming, of an outer level",
        0,
        0x48,
        0xcf_bf00,
        0,
        4,
        13,
        0x48,
    ),
    (
        "an inner level that isn't present",
        3,
        0x4b,
        0xcf_1b00,
        0,
        4,
        13,
        0x48,
    ),
    ("not present", 3, 0x4b, 0xcf_7b00, 0, 4, 11, 0x48),
    (
        "conforming, not present",
        3,
        0x4b,
        0xcf_1f00,
        0,
        4,
        11,
        0x48,
    ),
    (
        "not present and past the limit",
        3,
        0x4b,
        0x40_7b00,
        0x1_0000,
        4,
        11,
        0x48,
    ),
    ("past the limit", 3, 0x4b, 0x40_fb00, 0x1_0000, 4, 13, 0),
    (
        "past the limit, but marked",
        3,
        0x4b,
        0x40_fa00,
        0x1_0000,
        5,
        13,
        0,
    ),
];

#[test]
fn direct_transfers_are_refused_by_each_rule(rt: HostRuntime) {
    for (name, level, selector, high, offset, made, vector, code) in DIRECT {
        for opcode in [0xea, 0x9a] {
            let words = [(0x448, 0xffff), (0x44c, high)];
            let bus = world(&rt, far(opcode, selector, offset), &words);
            refused(&rt, name, &at_level(level), bus, made, (vector, code));
        }
    }
}

/// Direct transfers to code that isn't marked as accessed.
pub(crate) const CYCLES: &str = "\
JMP
 bytes ea 00 20 00 00 4b 00 00
 memory 448 ffff cffa00
 r fetch 0 1000 f 2000ea
 r fetch 0 1004 f 4b00
 r gdt 0 448 f ffff
 r+ gdt 0 44c f cffa00
 w+ gdtacc 0 44c 2 fb00
 after eip=2000 cs=4b:0:fffff:fa:c
CALL with RPL 0
 bytes 9a 00 20 00 00 48 00 00
 memory 448 ffff cffa00
 r fetch 0 1000 f 20009a
 r fetch 0 1004 f 4800
 r gdt 0 448 f ffff
 r+ gdt 0 44c f cffa00
 w+ gdtacc 0 44c 2 fb00
 w push 0 7fc f 3b
 w push 0 7f8 f 1007
 after eip=2000 esp=7f8 cs=4b:0:fffff:fa:c
# The offset has two bytes, and so has each push.
CALL with 66h
 bytes 66 9a 00 20 4b 00 00 00
 memory 448 ffff cffa00
 r fetch 0 1000 f 20009a66
 r fetch 0 1004 f 4b
 r gdt 0 448 f ffff
 r+ gdt 0 44c f cffa00
 w+ gdtacc 0 44c 2 fb00
 w push 0 7fc c 3b0000
 w push 0 7fc 3 1006
 after eip=2000 esp=7fc cs=4b:0:fffff:fa:c
";

/// A stack of 64 KiB with room for so many doublewords: CS is pushed, and EIP isn't.
pub(crate) const PUSHES: &str = "\
CALL
 before esp=0 ss=43:0:ffff:f3:4
 bytes 9a 00 20 00 00 4b 00 00
 memory 448 ffff cffb00
 makes 4
 after pending=c:0
CALL
 before esp=4 ss=43:0:ffff:f3:4
 bytes 9a 00 20 00 00 4b 00 00
 memory 448 ffff cffb00
 makes 5
 after pending=c:0
";

/// Conforming code of level 0, reached from level 2 with RPL 3: RPL doesn't count.
pub(crate) const CONFORMING: &str = "\
JMP
 before es=32:0:fffff:d3:c cs=2a:0:fffff:db:c ss=32:0:fffff:d3:c ds=32:0:fffff:d3:c fs=32:0:fffff:d3:c gs=32:0:fffff:d3:c
 bytes ea 00 20 00 00 4b 00 00
 memory 448 ffff cf9f00
 r fetch 0 1000 f 2000ea
 r fetch 0 1004 f 4b00
 r gdt 0 448 f ffff
 r+ gdt 0 44c f cf9f00
 after eip=2000 cs=4a:0:fffff:9f:c
";

/// Far jumps through memory.
pub(crate) const POINTERS: &str = "\
# The offset 2000h at 502h over two groups, and the selector 3B behind it.
JMP [502h]
 bytes ff 2d 02 05 00 00 00 00
 memory 500 20000000 3b0000
 r fetch 0 1000 f 5022dff
 r fetch 0 1004 f 0
 r data 0 500 c 20000000
 r data 2 504 3 0
 r data 0 504 c 3b0000
 r gdt 0 438 f ffff
 r+ gdt 0 43c f cffb00
 after eip=2000
# The offset has two bytes, and the selector stands behind these.
JMP [502h] of 16 bits
 bytes 66 ff 2d 02 05 00 00 00
 memory 500 20000000 3b
 r fetch 0 1000 f 22dff66
 r fetch 0 1004 f 5
 r data 0 500 c 20000000
 r data 0 504 3 3b
 r gdt 0 438 f ffff
 r+ gdt 0 43c f cffb00
 after eip=2000
# Behind the last offset the selector is that at offset 0, which is null.
JMP [FFFFFFFCh]
 bytes ff 2d fc ff ff ff 00 00
 makes 4
 after pending=d:0
# The offset's read stands where the selector's is refused.
JMP [502h], whose selector is past the limit
 before ds=43:0:505:f3:4
 bytes ff 2d 02 05 00 00 00 00
 makes 4
 after pending=d:0
";
