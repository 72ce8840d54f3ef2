//! PUSHF and POPF. Flags are numbers: TF 100h, IF 200h, IOPL 3000h, NT 4000h, and bit 1, which is always 1.
ghost use Rattle.std.specs.Prelude.{◌≡◌, [], false};

use super::{behind, flat, image, one, push};
use crate::tests::{bare, fetch, flagged};
use m386_base::ask::Ask;
use m386_base::bus::Bus;
use m386_memory::fixed::FixedBus;
use m386_state::proc::{Mode, Proc};
use m386_step::alone::step_alone;
use std::process::Abort;

/// PUSHF.
pub(crate) const PUSHES: &str = "\
start esp=1018 flags=7fd7
PUSHF
 bytes 9c
 r fetch 0 1000 f 9c
 w push 0 1014 f 7fd7
 after eip=1001 esp=1014 pending=1
PUSHF of 16 bits
 bytes 66 9c
 r fetch 0 1000 f 9c66
 w push 0 1014 c 7fd70000
 after eip=1002 esp=1016 pending=1
PUSHF past the limit
 before ss=18:0:1016:93:4
 bytes 9c
 r fetch 0 1000 f 9c
 after pending=c:0
";

/// The state at a level, with these flags.
fn at_level(p: &Proc, level: u16, flags: u32) -> Proc {
    let mut after = flagged(p, flags);
    after.segs[1].selector = 8 | level;
    after
}

#[test]
fn popped_flags_go_by_level_and_iopl(rt: HostRuntime) {
    let ones = 0xffff_ffff;
    // The level, the flags before, the image, and the flags after.
    for (level, flags, found, after) in [
        // At level 0 all are changed, whatever IOPL is.
        (0, 2, ones, 0x7fd7),
        (0, 0x7ed7, 0, 2),
        (0, 2, 0xffff_8028, 2),
        (0, 0x3002, 0x1202, 0x1202),
        // IF where the level is at most IOPL, and never IOPL.
        (1, 2, ones, 0x4dd7),
        (1, 0x1002, ones, 0x5fd7),
        (1, 0x2002, ones, 0x6fd7),
        (2, 0x1002, ones, 0x5dd7),
        (2, 0x2002, ones, 0x6fd7),
        (3, 2, ones, 0x4dd7),
        (3, 0x2002, ones, 0x6dd7),
        (3, 0x3002, ones, 0x7fd7),
        (1, 0x4ed7, 0, 0x202),
        (1, 0x5ed7, 0, 0x1002),
        (2, 0x5ed7, 0, 0x1202),
        (3, 0x6ed7, 0, 0x2202),
        (3, 0x7ed7, 0, 0x3002),
        (3, 0x202, 0x3002, 0x202),
    ] {
        let before = at_level(&flat(0x1004), level, flags);
        let bytes = u32::to_le_bytes(found);
        one(
            &rt,
            "POPF",
            &before,
            &[0x9d, 0, 0, 0, bytes[0], bytes[1], bytes[2], bytes[3]],
            &[fetch(0x1000, 0x9d), image(0x1004, 15, found)],
            flagged(&behind(&before, 0x1001, 0x1008), after),
        );
        one(
            &rt,
            "POPF of 16 bits",
            &before,
            &[0x66, 0x9d, 0, 0, bytes[0], bytes[1], bytes[2], bytes[3]],
            &[fetch(0x1000, 0x9d66), image(0x1004, 3, found % 0x1_0000)],
            flagged(&behind(&before, 0x1002, 0x1006), after),
        );
    }
}

/// POPF with TF, on stacks of both widths, and past the limit.
pub(crate) const POPS: &str = "\
start esp=1004
POPF that sets TF, and isn't traced itself
 bytes 9d 00 00 00 02 01 00 00
 r fetch 0 1000 f 9d
 r flags 0 1004 f 102
 after eip=1001 esp=1008 flags=102
POPF that clears TF, and is traced
 before flags=102
 bytes 9d 00 00 00 02 02 00 00
 r fetch 0 1000 f 9d
 r flags 0 1004 f 202
 after eip=1001 esp=1008 flags=202 pending=1
POPF on a stack of 16 bits
 before esp=7fff1004 ss=18:0:ffff:93:0
 bytes 9d 00 00 00 03 00 00 00
 r fetch 0 1000 f 9d
 r flags 0 1004 f 3
 after eip=1001 esp=7fff1008 flags=3
POPF past the limit
 before ss=18:0:1006:93:4
 bytes 9d 00 00 00 03 00 00 00
 r fetch 0 1000 f 9d
 after pending=c:0
";

/// One step of a program: its cycles, and the state after it.
fn next(rt: &impl Abort, p: &mut Proc, bus: &mut FixedBus<0x2000>, cycles: &[Ask], after: Proc)
    requires free { (⟦<FixedBus<0x2000> as Bus>⟧.view bus.old).kept ≡ false }
    requires none { (⟦<FixedBus<0x2000> as Bus>⟧.view bus.old).cycles ≡ [] }
    ensures free { (⟦<FixedBus<0x2000> as Bus>⟧.view bus.new).kept ≡ false }
    ensures none { (⟦<FixedBus<0x2000> as Bus>⟧.view bus.new).cycles ≡ [] }
{
    assert!(rt; p.mode != Mode::Shutdown);
    step_alone(p, bus);
    assert_eq!(rt; *p, after);
    assert_eq!(rt; bus.cycles().len(), cycles.len());
    for (cycle, ask) in bus.cycles().iter().zip(cycles) {
        assert_eq!(rt; cycle.ask, *ask);
    }
    bus.clear();
}

#[test]
fn nt_comes_from_the_stack(rt: HostRuntime) {
    // MOV ESP, 2000h; PUSH 4002h; POPF.
    let code = [0xbc, 0, 0x20, 0, 0, 0x68, 2, 0x40, 0, 0, 0x9d];
    let mut bus = FixedBus::<0x2000>::new();
    for (i, byte) in code.iter().enumerate() {
        bus.poke(0x1000 + i as u32, *byte);
    }
    bus.clear();
    let mut p = bare();
    let begun = bare();
    next(
        &rt,
        &mut p,
        &mut bus,
        &[fetch(0x1000, 0x0020_00bc), fetch(0x1004, 0x4002_6800)],
        behind(&begun, 0x1005, 0x2000),
    );
    next(
        &rt,
        &mut p,
        &mut bus,
        &[
            fetch(0x1004, 0x4002_6800),
            fetch(0x1008, 0x009d_0000),
            push(0, 0x1ffc, 15, 0x4002),
        ],
        behind(&begun, 0x100a, 0x1ffc),
    );
    next(
        &rt,
        &mut p,
        &mut bus,
        &[fetch(0x1008, 0x009d_0000), image(0x1ffc, 15, 0x4002)],
        flagged(&behind(&begun, 0x100b, 0x2000), 0x4002),
    );
}
