//! IN and OUT in each spelling and width, where the level needs no map: the ports are those of the number or of DX, of whose register 16
//! bits count, and behind FFFFh comes port 0.
use super::Made::{Read, Write};
use super::{Call, End, Made, at, comes_to};

/// A name, EDX, the bytes of the instruction, its cycles, and EAX behind it. Before it EAX is A1B2C3D4h.
type Case = (&'static str, u32, &'static [u8], &'static [Made], u32);

macro_rules! cases {
    ($($name:literal, $edx:literal, [$($byte:literal),*], [$($made:expr),*], $eax:expr;)*) => {
        [$(($name, $edx, &[$($byte),*], &[$($made),*], $eax)),*]
    };
}

static INPUTS: [Case; 14] = cases![
    "al, 7", 0, [0xe4, 7], [Read(0, 4, 8, 0x5e00_0000)], 0xa1b2_c35e;
    "al, FFh", 0, [0xe4, 0xff], [Read(0, 0xfc, 8, 0x100_0000)], 0xa1b2_c301;
    "ax, 6", 0, [0x66, 0xe5, 6], [Read(0, 4, 0xc, 0xbeef_0000)], 0xa1b2_beef;
    "eax, 4", 0, [0xe5, 4], [Read(0, 4, 0xf, 0x102_0304)], 0x102_0304;
    "eax, FFh", 0, [0xe5, 0xff], [Read(0, 0xfc, 8, 0x1100_0000), Read(1, 0x100, 7, 0x44_3322)], 0x4433_2211;
    "al, dx", 0x5555_0009, [0xec], [Read(0, 8, 2, 0x6600)], 0xa1b2_c366;
    "ax, dx", 0x5555_0008, [0x66, 0xed], [Read(0, 8, 3, 0x7766)], 0xa1b2_7766;
    "ax over two groups", 3, [0x66, 0xed], [Read(0, 0, 8, 0x1100_0000), Read(1, 4, 1, 0x22)], 0xa1b2_2211;
    "eax over two groups", 0x5555_0102, [0xed], [Read(0, 0x100, 0xc, 0x2211_0000), Read(2, 0x104, 3, 0x4433)], 0x4433_2211;
    "al, the last port", 0xffff, [0xec], [Read(0, 0xfffc, 8, 0x8000_0000)], 0xa1b2_c380;
    "ax round the last port", 0xffff, [0x66, 0xed], [Read(0, 0xfffc, 8, 0x1100_0000), Read(1, 0, 1, 0x22)], 0xa1b2_2211;
    "eax round the last port", 0xffff, [0xed], [Read(0, 0xfffc, 8, 0x1100_0000), Read(1, 0, 7, 0x44_3322)], 0x4433_2211;
    "eax, its fourth port 0", 0xfffd, [0xed], [Read(0, 0xfffc, 0xe, 0x3322_1100), Read(3, 0, 1, 0x44)], 0x4433_2211;
    "eax, the last four", 0xfffc, [0xed], [Read(0, 0xfffc, 0xf, 0x4433_2211)], 0x4433_2211;
];

static OUTPUTS: [Case; 13] = cases![
    "7, al", 0, [0xe6, 7], [Write(0, 4, 8, 0xd400_0000)], 0xa1b2_c3d4;
    "FFh, al", 0, [0xe6, 0xff], [Write(0, 0xfc, 8, 0xd400_0000)], 0xa1b2_c3d4;
    "6, ax", 0, [0x66, 0xe7, 6], [Write(0, 4, 0xc, 0xc3d4_0000)], 0xa1b2_c3d4;
    "4, eax", 0, [0xe7, 4], [Write(0, 4, 0xf, 0xa1b2_c3d4)], 0xa1b2_c3d4;
    "FFh, eax", 0, [0xe7, 0xff], [Write(0, 0xfc, 8, 0xd400_0000), Write(1, 0x100, 7, 0xa1_b2c3)], 0xa1b2_c3d4;
    "dx, al", 0x5555_0009, [0xee], [Write(0, 8, 2, 0xd400)], 0xa1b2_c3d4;
    "dx, ax", 0x5555_0008, [0x66, 0xef], [Write(0, 8, 3, 0xc3d4)], 0xa1b2_c3d4;
    "ax over two groups", 3, [0x66, 0xef], [Write(0, 0, 8, 0xd400_0000), Write(1, 4, 1, 0xc3)], 0xa1b2_c3d4;
    "eax over two groups", 0x5555_0102, [0xef], [Write(0, 0x100, 0xc, 0xc3d4_0000), Write(2, 0x104, 3, 0xa1b2)], 0xa1b2_c3d4;
    "al to the last port", 0xffff, [0xee], [Write(0, 0xfffc, 8, 0xd400_0000)], 0xa1b2_c3d4;
    "ax round the last port", 0xffff, [0x66, 0xef], [Write(0, 0xfffc, 8, 0xd400_0000), Write(1, 0, 1, 0xc3)], 0xa1b2_c3d4;
    "eax round the last port", 0xffff, [0xef], [Write(0, 0xfffc, 8, 0xd400_0000), Write(1, 0, 7, 0xa1_b2c3)], 0xa1b2_c3d4;
    "eax, its fourth port 0", 0xfffd, [0xef], [Write(0, 0xfffc, 0xe, 0xb2c3_d400), Write(3, 0, 1, 0xa1)], 0xa1b2_c3d4;
];

#[test]
fn each_spelling_moves_its_width(rt: HostRuntime) {
    for (name, edx, bytes, made, eax) in INPUTS.iter().chain(&OUTPUTS).copied() {
        let before = at(0, 0, edx, 0);
        let mut after = before;
        after.regs[0] = eax;
        comes_to(
            &rt,
            name,
            &before,
            Call::Execute(bytes),
            made,
            End::State(after),
        );
    }
}
