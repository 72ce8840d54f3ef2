//! Shifts, rotates, tests of bits and searches.
use super::{at, bare, comes_to, flagged, joined, loaded, locked, read, words, write};
use m386_base::number::Width::{W8, W16, W32};
use m386_opmap::name::Name;
use m386_opmap::op::Arg::{Imm, Reg};

#[test]
fn shifts_and_rotates(rt: HostRuntime) {
    let p = bare();
    let with_carry = flagged(&p, 3);
    // A3h to the left: a 1 goes out, and the sign changes.
    comes_to(
        &rt,
        words(Name::Shl, W8, &[Reg(0), Imm(1)]),
        &p,
        &[],
        Ok(flagged(&loaded(&p, 0, 0xa0a1_a246), 0x803)),
    );
    // By CL, C3h, which is 3.
    let cycles = [read(0, 0x10, 3, 0x2211), write(0, 0x10, 3, 0x0442)];
    comes_to(
        &rt,
        words(Name::Sar, W16, &[at(0x10), Reg(1)]),
        &p,
        &cycles,
        Ok(flagged(&p, 6)),
    );
    // Once round is the same number, and is written.
    let cycles = [read(0, 0x10, 2, 0x2200), write(0, 0x10, 2, 0x2200)];
    comes_to(
        &rt,
        words(Name::Rol, W8, &[at(0x11), Imm(8)]),
        &with_carry,
        &cycles,
        Ok(p),
    );
    // A count of 32 is one of 0: flags stay, and memory is read and written.
    let cycles = [read(0, 0x10, 1, 0x11), write(0, 0x10, 1, 0x11)];
    comes_to(
        &rt,
        words(Name::Shr, W8, &[at(0x10), Imm(32)]),
        &with_carry,
        &cycles,
        Ok(with_carry),
    );
    comes_to(
        &rt,
        words(Name::Rcr, W32, &[Reg(0), Imm(1)]),
        &with_carry,
        &[],
        Ok(flagged(&loaded(&p, 0, 0xd050_d151), 3)),
    );
    comes_to(
        &rt,
        words(Name::Rcl, W8, &[Reg(4), Imm(1)]),
        &with_carry,
        &[],
        Ok(flagged(&loaded(&p, 0, 0xa0a1_45a3), 0x803)),
    );
    comes_to(
        &rt,
        words(Name::Ror, W16, &[Reg(3), Imm(4)]),
        &p,
        &[],
        Ok(flagged(&loaded(&p, 3, 0xb0b1_3b2b), 2)),
    );
    // Bits of the second operand come in.
    comes_to(
        &rt,
        words(Name::Shld, W32, &[Reg(6), Reg(7), Imm(4)]),
        &p,
        &[],
        Ok(flagged(&loaded(&p, 6, 0x0616_2637), 2)),
    );
    let cycles = [
        read(0, 0x14, 0xf, 0x8877_6655),
        write(0, 0x14, 0xf, 0x710e_ecca),
    ];
    comes_to(
        &rt,
        words(Name::Shrd, W32, &[at(0x14), Reg(3), Reg(1)]),
        &p,
        &cycles,
        Ok(flagged(&p, 7)),
    );
}

#[test]
fn tests_of_bits(rt: HostRuntime) {
    let p = bare();
    // Bit -1 is bit 31 of the doubleword below.
    let minus_1 = loaded(&p, 5, 0xffff_ffff);
    let cycles = [
        read(0, 0x10, 0xf, 0x4433_2211),
        write(0, 0x10, 0xf, 0xc433_2211),
    ];
    comes_to(
        &rt,
        words(Name::Bts, W32, &[at(0x14), Reg(5)]),
        &minus_1,
        &cycles,
        Ok(minus_1),
    );
    // Bit -32 is bit 0 of that doubleword.
    let minus_32 = loaded(&p, 5, 0xffff_ffe0);
    let cycles = [read(0, 0x10, 0xf, 0x4433_2211)];
    comes_to(
        &rt,
        words(Name::Bt, W32, &[at(0x14), Reg(5)]),
        &minus_32,
        &cycles,
        Ok(flagged(&minus_32, 3)),
    );
    // Bit -17 is bit 15 of the word two words below.
    let minus_17 = loaded(&p, 3, 0x1234_ffef);
    let cycles = [
        read(0, 0x10, 0xc, 0x4433_0000),
        write(0, 0x10, 0xc, 0xc433_0000),
    ];
    comes_to(
        &rt,
        words(Name::Btc, W16, &[at(0x16), Reg(3)]),
        &minus_17,
        &cycles,
        Ok(minus_17),
    );
    // Bit 38 is bit 6 of the doubleword above, and a number stays within its own.
    let plus_38 = loaded(&p, 2, 38);
    let cycles = [read(0, 0x14, 0xf, 0x8877_6655)];
    comes_to(
        &rt,
        words(Name::Bt, W32, &[at(0x10), Reg(2)]),
        &plus_38,
        &cycles,
        Ok(flagged(&plus_38, 3)),
    );
    let cycles = [read(0, 0x10, 0xf, 0x4433_2211)];
    comes_to(
        &rt,
        words(Name::Bt, W32, &[at(0x10), Imm(38)]),
        &p,
        &cycles,
        Ok(p),
    );
    // Over two groups, with LOCK.
    let cycles = [
        read(0, 0x10, 8, 0x4400_0000),
        joined(read(1, 0x14, 7, 0x0077_6655)),
        joined(write(0, 0x10, 8, 0x4000_0000)),
        joined(write(1, 0x14, 7, 0x0077_6655)),
    ];
    comes_to(
        &rt,
        locked(Name::Btr, W32, &[at(0x13), Imm(2)]),
        &p,
        &cycles,
        Ok(flagged(&p, 3)),
    );
    let cycles = [
        read(0, 0x10, 8, 0x4400_0000),
        joined(read(1, 0x14, 7, 0x0077_6655)),
    ];
    comes_to(
        &rt,
        locked(Name::Bt, W32, &[at(0x13), Imm(2)]),
        &p,
        &cycles,
        Ok(flagged(&p, 3)),
    );
    comes_to(
        &rt,
        words(Name::Btr, W32, &[Reg(1), Imm(33)]),
        &p,
        &[],
        Ok(flagged(&loaded(&p, 1, 0xc0c1_c2c1), 3)),
    );
    comes_to(
        &rt,
        words(Name::Bt, W16, &[Reg(1), Imm(2)]),
        &flagged(&p, 3),
        &[],
        Ok(p),
    );
}

#[test]
fn searches_for_a_bit(rt: HostRuntime) {
    let p = bare();
    let empty = loaded(&p, 6, 0x1234_0000);
    let cycles = [read(0, 0x10, 0xc, 0x4433_0000)];
    comes_to(
        &rt,
        words(Name::Bsr, W16, &[Reg(0), at(0x12)]),
        &flagged(&p, 0x42),
        &cycles,
        Ok(loaded(&p, 0, 0xa0a1_000e)),
    );
    comes_to(
        &rt,
        words(Name::Bsf, W32, &[Reg(0), Reg(6)]),
        &empty,
        &[],
        Ok(loaded(&empty, 0, 18)),
    );
    comes_to(
        &rt,
        words(Name::Bsf, W16, &[Reg(0), Reg(6)]),
        &empty,
        &[],
        Ok(flagged(&empty, 0x42)),
    );
}
