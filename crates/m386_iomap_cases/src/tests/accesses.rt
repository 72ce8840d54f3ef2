//! IN and OUT above IOPL: the map is asked for the ports of the width, and where it refuses one no port is reached.
use super::Made::{Byte, Read, Write};
use super::{BASE, Call, End, Made, REFUSED, at, comes_to};

/// A name, EDX, the bytes of the instruction, its cycles, and EAX behind it, or `None` where it is #GP(0).
type Case = (
    &'static str,
    u32,
    &'static [u8],
    &'static [Made],
    Option<u32>,
);

macro_rules! cases {
    ($($name:literal, $edx:literal, [$($byte:literal),*], [$($made:expr),*], $eax:expr;)*) => {
        [$(($name, $edx, &[$($byte),*], &[$($made),*], $eax)),*]
    };
}

static CASES: [Case; 16] = cases![
    // The last port of a map of one byte, and the first one behind it.
    "out 7, al", 0, [0xe6, 7], [BASE, Byte(0x268, 1, 0), Write(0, 4, 8, 0xd400_0000)], Some(0xa1b2_c3d4);
    "out 8, al", 0, [0xe6, 8], [BASE], None;
    "in al, 7", 0, [0xe4, 7], [BASE, Byte(0x268, 1, 0x7f), Read(0, 4, 8, 0x100_0000)], Some(0xa1b2_c301);
    "in al, 7, set", 0, [0xe4, 7], [BASE, Byte(0x268, 1, 0x80)], None;
    "in al, 8", 0, [0xe4, 8], [BASE], None;
    // As many bits as the width has ports.
    "in al, 3", 0, [0xe4, 3], [BASE, Byte(0x268, 1, 0xf7), Read(0, 0, 8, 0)], Some(0xa1b2_c300);
    "in ax, 3", 0, [0x66, 0xe5, 3], [BASE, Byte(0x268, 1, 0xe7), Read(0, 0, 8, 0x1100_0000), Read(1, 4, 1, 0x22)], Some(0xa1b2_2211);
    "in ax, 3, port 4 set", 0, [0x66, 0xe5, 3], [BASE, Byte(0x268, 1, 0x10)], None;
    "out dx, ax, port 5 clear", 0x5555_0004, [0x66, 0xef], [BASE, Byte(0x268, 1, 0xcf), Write(0, 4, 3, 0xc3d4)], Some(0xa1b2_c3d4);
    "out dx, eax", 4, [0xef], [BASE, Byte(0x268, 1, 0xf), Write(0, 4, 0xf, 0xa1b2_c3d4)], Some(0xa1b2_c3d4);
    "out dx, eax, port 7 set", 4, [0xef], [BASE, Byte(0x268, 1, 0x80)], None;
    "in eax, dx", 0x5555_0000, [0xed], [BASE, Byte(0x268, 1, 0xf0), Read(0, 0, 0xf, 0x4433_2211)], Some(0x4433_2211);
    "out dx, al", 0x5555_0001, [0xee], [BASE, Byte(0x268, 1, 0xfd), Write(0, 0, 2, 0xd400)], Some(0xa1b2_c3d4);
    "in al, dx, set", 0x5555_0001, [0xec], [BASE, Byte(0x268, 1, 2)], None;
    // A port past the map.
    "out 7, ax", 0, [0x66, 0xe7, 7], [BASE, Byte(0x268, 1, 0)], None;
    "in eax, 5", 0, [0xe5, 5], [BASE, Byte(0x268, 1, 0x1f)], None;
];

#[test]
fn an_access_is_tested_before_a_port_is_reached(rt: HostRuntime) {
    for (name, edx, bytes, made, eax) in CASES.iter().copied() {
        let before = at(3, 0, edx, 0x68);
        let end = match eax {
            Some(eax) => {
                let mut after = before;
                after.regs[0] = eax;
                End::State(after)
            }
            None => REFUSED,
        };
        comes_to(&rt, name, &before, Call::Execute(bytes), made, end);
    }
}
