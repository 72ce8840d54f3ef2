//! Which levels need the map: those above IOPL.
use super::Made::{Byte, Read, Write};
use super::{BASE, Call, End, Made, REFUSED, at, comes_to};
use std::process::Abort;

/// IOPL, CPL, and whether the ports may be used without the map.
const LEVELS: [(u8, u8, bool); 16] = [
    (0, 0, true),
    (0, 1, false),
    (0, 2, false),
    (0, 3, false),
    (1, 0, true),
    (1, 1, true),
    (1, 2, false),
    (1, 3, false),
    (2, 0, true),
    (2, 1, true),
    (2, 2, true),
    (2, 3, false),
    (3, 0, true),
    (3, 1, true),
    (3, 2, true),
    (3, 3, true),
];

/// The byte of the map for the ports 0 to 7, with each bit set but that of port 7, and with it alone.
const CLEAR: Made = Byte(0x268, 1, 0x7f);

const SET: Made = Byte(0x268, 1, 0x80);

/// At each level and IOPL: an instruction on port 7, the cycle that it makes there, and EAX behind it.
fn goes_by_the_level(rt: &impl Abort, name: &str, bytes: &[u8], port: Made, eax: u32) {
    let call = Call::Execute(bytes);
    for (iopl, level, free) in LEVELS {
        let before = at(level, iopl, 0, 0x68);
        let without_map = at(level, iopl, 0, 0x67);
        let mut after = before;
        after.regs[0] = eax;
        if free {
            comes_to(rt, name, &before, call, &[port], End::State(after));
            continue;
        }
        let made = [BASE, CLEAR, port];
        comes_to(rt, name, &before, call, &made, End::State(after));
        comes_to(rt, name, &before, call, &[BASE, SET], REFUSED);
        comes_to(rt, name, &without_map, call, &[BASE], REFUSED);
    }
}

#[test]
fn the_map_decides_above_iopl_alone(rt: HostRuntime) {
    let input = Read(0, 4, 8, 0x5e00_0000);
    goes_by_the_level(&rt, "in al, 7", &[0xe4, 7], input, 0xa1b2_c35e);
    let output = Write(0, 4, 8, 0xd400_0000);
    goes_by_the_level(&rt, "out 7, al", &[0xe6, 7], output, 0xa1b2_c3d4);
}
