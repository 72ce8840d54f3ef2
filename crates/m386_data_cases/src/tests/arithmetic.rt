//! Arithmetic, products and quotients.
use super::{
    at, bare, behind, comes_to, flagged, in_segment, interrupt, joined, loaded, locked, read,
    words, write,
};
use m386_base::exception::{Exception, general_protection};
use m386_base::number::Width::{W8, W16, W32};
use m386_opmap::name::Name;
use m386_opmap::op::Arg::{Imm, Reg};

#[test]
fn two_operands(rt: HostRuntime) {
    let p = bare();
    let with_carry = flagged(&p, 3);
    // A3h + B3h = 156h, and -5Dh - 4Dh is below -80h.
    let sum = flagged(&loaded(&p, 0, 0xa0a1_a256), 0x807);
    comes_to(
        &rt,
        words(Name::Add, W8, &[Reg(0), Reg(3)]),
        &p,
        &[],
        Ok(sum),
    );
    // 2211h - C2C3h is below 0 without a sign, and 2211h + 3D3Dh with one.
    let cycles = [read(0, 0x10, 3, 0x2211), write(0, 0x10, 3, 0x5f4e)];
    comes_to(
        &rt,
        words(Name::Sub, W16, &[at(0x10), Reg(1)]),
        &p,
        &cycles,
        Ok(flagged(&p, 0x17)),
    );
    // 66554433h + A0A1A2A3h = 106F6E6D6h, over two groups.
    let cycles = [
        read(0, 0x10, 0xc, 0x4433_0000),
        joined(read(2, 0x14, 3, 0x6655)),
        joined(write(0, 0x10, 0xc, 0xe6d6_0000)),
        joined(write(2, 0x14, 3, 0x06f6)),
    ];
    comes_to(
        &rt,
        locked(Name::Add, W32, &[at(0x12), Reg(0)]),
        &p,
        &cycles,
        Ok(flagged(&p, 3)),
    );
    // A number plus FFFFFFFFh plus CF is the number.
    comes_to(
        &rt,
        words(Name::Adc, W32, &[Reg(0), Imm(0xffff_ffff)]),
        &with_carry,
        &[],
        Ok(flagged(&p, 0x97)),
    );
    // A2h - 22h = 80h, from AH and memory; the result isn't stored.
    let cycles = [read(0, 0x10, 2, 0x2200)];
    comes_to(
        &rt,
        words(Name::Cmp, W8, &[Reg(4), at(0x11)]),
        &p,
        &cycles,
        Ok(flagged(&p, 0x82)),
    );
    comes_to(
        &rt,
        words(Name::Test, W16, &[Reg(3), Imm(0x8000)]),
        &p,
        &[],
        Ok(flagged(&p, 0x86)),
    );
    comes_to(
        &rt,
        words(Name::Xor, W32, &[Reg(2), Reg(2)]),
        &with_carry,
        &[],
        Ok(flagged(&loaded(&p, 2, 0), 0x46)),
    );
}

#[test]
fn one_operand(rt: HostRuntime) {
    let p = bare();
    let cycles = [read(0, 0x10, 3, 0x2211), write(0, 0x10, 3, 0x2212)];
    comes_to(
        &rt,
        words(Name::Inc, W16, &[at(0x10)]),
        &flagged(&p, 3),
        &cycles,
        Ok(flagged(&p, 7)),
    );
    comes_to(
        &rt,
        words(Name::Dec, W8, &[Reg(2)]),
        &p,
        &[],
        Ok(flagged(&loaded(&p, 2, 0xd0d1_d2d2), 0x86)),
    );
    comes_to(
        &rt,
        words(Name::Not, W8, &[Reg(5)]),
        &flagged(&p, 0x8d7),
        &[],
        Ok(flagged(&loaded(&p, 1, 0xc0c1_3dc3), 0x8d7)),
    );
    comes_to(
        &rt,
        words(Name::Neg, W32, &[Reg(2)]),
        &p,
        &[],
        Ok(flagged(&loaded(&p, 2, 0x2f2e_2d2d), 0x17)),
    );
}

#[test]
fn products(rt: HostRuntime) {
    let p = bare();
    // A3h * B3h = 71F9h.
    comes_to(
        &rt,
        words(Name::Mul, W8, &[Reg(3)]),
        &p,
        &[],
        Ok(flagged(&loaded(&p, 0, 0xa0a1_71f9), 0x803)),
    );
    // -5D5Dh * -3D3Dh = 16556829h.
    let product = loaded(&loaded(&p, 0, 0xa0a1_6829), 2, 0xd0d1_1655);
    comes_to(
        &rt,
        words(Name::Imul, W16, &[Reg(1)]),
        &p,
        &[],
        Ok(flagged(&product, 0x803)),
    );
    // -4F4E4D4Dh * 3 is below -80000000h.
    comes_to(
        &rt,
        words(Name::Imul, W32, &[Reg(6), Reg(3), Imm(3)]),
        &p,
        &[],
        Ok(flagged(&loaded(&p, 6, 0x1215_1819), 0x803)),
    );
    // -2D2Dh * 2211h = -602F9FDh.
    let cycles = [read(0, 0x10, 3, 0x2211)];
    comes_to(
        &rt,
        words(Name::Imul, W16, &[Reg(2), at(0x10)]),
        &p,
        &cycles,
        Ok(flagged(&loaded(&p, 2, 0xd0d1_0603), 0x803)),
    );
    // -1 * 11h = -11h fits.
    let short = loaded(&p, 0, 0xff);
    let cycles = [read(0, 0x10, 1, 0x11)];
    comes_to(
        &rt,
        words(Name::Imul, W8, &[at(0x10)]),
        &flagged(&short, 0x803),
        &cycles,
        Ok(flagged(&loaded(&p, 0, 0xffef), 2)),
    );
}

#[test]
fn quotients(rt: HostRuntime) {
    let p = bare();
    // 3A0A1A2A3h = 4 * C0C1C2C3h + 9D9A9797h.
    let quotient = loaded(&loaded(&p, 0, 4), 2, 0x9d9a_9797);
    comes_to(
        &rt,
        words(Name::Div, W32, &[Reg(1)]),
        &loaded(&p, 2, 3),
        &[],
        Ok(quotient),
    );
    // A2A3h = D5h * C3h + 64h.
    comes_to(
        &rt,
        words(Name::Div, W8, &[Reg(1)]),
        &p,
        &[],
        Ok(loaded(&p, 0, 0xa0a1_64d5)),
    );
    // -B5D5Dh = -55h * 2211h - DB8h.
    let quotient = loaded(&loaded(&p, 0, 0xa0a1_ffab), 2, 0xd0d1_f248);
    let cycles = [read(0, 0x10, 3, 0x2211)];
    comes_to(
        &rt,
        words(Name::Idiv, W16, &[at(0x10)]),
        &loaded(&p, 2, 0xd0d1_fff4),
        &cycles,
        Ok(quotient),
    );
    // -100h / 2 = -80h fits, and 100h / 2 doesn't.
    let least = loaded(&loaded(&p, 0, 0xff00), 3, 2);
    comes_to(
        &rt,
        words(Name::Idiv, W8, &[Reg(3)]),
        &least,
        &[],
        Ok(loaded(&least, 0, 0x80)),
    );
    let more = loaded(&least, 0, 0x100);
    comes_to(
        &rt,
        words(Name::Idiv, W8, &[Reg(3)]),
        &more,
        &[],
        interrupt(Exception::DivideError),
    );
    let cycles = [read(0, 0x18, 1, 0)];
    comes_to(
        &rt,
        words(Name::Div, W8, &[at(0x18)]),
        &p,
        &cycles,
        interrupt(Exception::DivideError),
    );
}

#[test]
fn accesses_are_tested(rt: HostRuntime) {
    let p = bare();
    // Read-only data: what only reads passes.
    let read_only = in_segment(&p, 0x91, 0x1f);
    comes_to(
        &rt,
        words(Name::Add, W8, &[at(0x10), Reg(0)]),
        &read_only,
        &[],
        Err(general_protection()),
    );
    let cycles = [read(0, 0x10, 1, 0x11)];
    comes_to(
        &rt,
        words(Name::Cmp, W8, &[at(0x10), Imm(0x11)]),
        &read_only,
        &cycles,
        Ok(flagged(&read_only, 0x46)),
    );
    // The last byte lies past the limit.
    let short = in_segment(&p, 0x93, 0x12);
    comes_to(
        &rt,
        words(Name::Mov, W32, &[Reg(0), at(0x10)]),
        &short,
        &[],
        Err(general_protection()),
    );
    comes_to(
        &rt,
        locked(Name::Inc, W32, &[at(0x10)]),
        &short,
        &[],
        Err(general_protection()),
    );
    let cycles = [read(0, 0x10, 3, 0x2211)];
    comes_to(
        &rt,
        words(Name::Mov, W16, &[Reg(0), at(0x10)]),
        &short,
        &cycles,
        Ok(loaded(&short, 0, 0xa0a1_2211)),
    );
    // EBP leads through SS, whose limit is that of all memory, and EBX through DS.
    let pointed = loaded(&loaded(&short, 5, 0x14), 3, 0x14);
    let cycles = [read(0, 0x14, 1, 0x55)];
    comes_to(
        &rt,
        words(Name::Mov, W8, &[Reg(0), behind(5)]),
        &pointed,
        &cycles,
        Ok(loaded(&pointed, 0, 0xa0a1_a255)),
    );
    comes_to(
        &rt,
        words(Name::Mov, W8, &[Reg(0), behind(3)]),
        &pointed,
        &[],
        Err(general_protection()),
    );
    let last = loaded(&p, 4, 0xffff_ffff);
    comes_to(
        &rt,
        words(Name::Mov, W16, &[Reg(0), behind(4)]),
        &last,
        &[],
        Err(Exception::StackFault.coded_fault(0)),
    );
    // Data that expands downward begins behind its limit and ends at its top.
    let down = in_segment(&p, 0x97, 0x13);
    comes_to(
        &rt,
        words(Name::Mov, W8, &[Reg(0), at(0x13)]),
        &down,
        &[],
        Err(general_protection()),
    );
    let cycles = [read(0, 0x14, 1, 0x55)];
    comes_to(
        &rt,
        words(Name::Mov, W8, &[Reg(0), at(0x14)]),
        &down,
        &cycles,
        Ok(loaded(&down, 0, 0xa0a1_a255)),
    );
    let cycles = [write(0, 0xffff_fffc, 8, 0xa300_0000)];
    comes_to(
        &rt,
        words(Name::Mov, W8, &[at(0xffff_ffff), Reg(0)]),
        &down,
        &cycles,
        Ok(down),
    );
    comes_to(
        &rt,
        words(Name::Mov, W16, &[at(0xffff_ffff), Reg(0)]),
        &down,
        &[],
        Err(general_protection()),
    );
}
