//! Moves, exchanges, addresses and bounds.
use super::{
    at, bare, behind, comes_to, flagged, in_segment, interrupt, joined, loaded, read, words, write,
};
use m386_base::exception::{Exception, general_protection};
use m386_base::number::Width::{W8, W16, W32};
use m386_opmap::name::Name;
use m386_opmap::op::Arg::{Imm, Mem, Reg};
use m386_opmap::op::{Addr, Arg};

#[test]
fn moves(rt: HostRuntime) {
    let p = bare();
    comes_to(
        &rt,
        words(Name::Mov, W8, &[Reg(4), Reg(7)]),
        &p,
        &[],
        Ok(loaded(&p, 0, 0xa0a1_b2a3)),
    );
    let cycles = [read(0, 0x10, 2, 0x2200)];
    comes_to(
        &rt,
        words(Name::Mov, W8, &[Reg(7), at(0x11)]),
        &p,
        &cycles,
        Ok(loaded(&p, 3, 0xb0b1_22b3)),
    );
    let cycles = [write(0, 0x1c, 0xc, 0x1234_0000)];
    comes_to(
        &rt,
        words(Name::Mov, W16, &[at(0x1e), Imm(0x1234)]),
        &p,
        &cycles,
        Ok(p),
    );
    let cycles = [
        write(0, 0x10, 8, 0xc300_0000),
        write(1, 0x14, 7, 0x00c0_c1c2),
    ];
    comes_to(
        &rt,
        words(Name::Mov, W32, &[at(0x13), Reg(1)]),
        &p,
        &cycles,
        Ok(p),
    );
    // From AH, the register of 8 bits with the number of ESP.
    comes_to(
        &rt,
        words(Name::Movsx8, W32, &[Reg(0), Reg(4)]),
        &p,
        &[],
        Ok(loaded(&p, 0, 0xffff_ffa2)),
    );
    let cycles = [read(0, 0x10, 8, 0x4400_0000)];
    comes_to(
        &rt,
        words(Name::Movsx8, W16, &[Reg(0), at(0x13)]),
        &p,
        &cycles,
        Ok(loaded(&p, 0, 0xa0a1_0044)),
    );
    comes_to(
        &rt,
        words(Name::Movsx16, W32, &[Reg(7), Reg(3)]),
        &p,
        &[],
        Ok(loaded(&p, 7, 0xffff_b2b3)),
    );
    comes_to(
        &rt,
        words(Name::Movzx8, W32, &[Reg(7), Reg(3)]),
        &p,
        &[],
        Ok(loaded(&p, 7, 0xb3)),
    );
    let cycles = [read(0, 0x14, 0xc, 0x8877_0000)];
    comes_to(
        &rt,
        words(Name::Movzx16, W32, &[Reg(6), at(0x16)]),
        &p,
        &cycles,
        Ok(loaded(&p, 6, 0x8877)),
    );
}

#[test]
fn exchanges(rt: HostRuntime) {
    let p = bare();
    let swapped = loaded(&loaded(&p, 0, 0xa0a1_b2a3), 3, 0xb0b1_a2b3);
    comes_to(
        &rt,
        words(Name::Xchg, W8, &[Reg(4), Reg(7)]),
        &p,
        &[],
        Ok(swapped),
    );
    let swapped = loaded(&loaded(&p, 0, 0xc0c1_c2c3), 1, 0xa0a1_a2a3);
    comes_to(
        &rt,
        words(Name::Xchg, W32, &[Reg(0), Reg(1)]),
        &p,
        &[],
        Ok(swapped),
    );
    let cycles = [read(0, 0x10, 1, 0x11), joined(write(0, 0x10, 1, 0xa3))];
    comes_to(
        &rt,
        words(Name::Xchg, W8, &[at(0x10), Reg(0)]),
        &p,
        &cycles,
        Ok(loaded(&p, 0, 0xa0a1_a211)),
    );
    let cycles = [
        read(0, 0x10, 8, 0x4400_0000),
        joined(read(1, 0x14, 1, 0x55)),
        joined(write(0, 0x10, 8, 0xd300_0000)),
        joined(write(1, 0x14, 1, 0xd2)),
    ];
    comes_to(
        &rt,
        words(Name::Xchg, W16, &[at(0x13), Reg(2)]),
        &p,
        &cycles,
        Ok(loaded(&p, 2, 0xd0d1_5544)),
    );
}

/// Memory four bytes before the offset in EBX, with a segment prefix or without.
fn before_ebx(seg: Option<u8>) -> Arg {
    Mem(Addr {
        seg,
        base: Some(3),
        index: None,
        scale: 1,
        disp: 0xffff_fffc,
    })
}

#[test]
fn addresses(rt: HostRuntime) {
    let p = bare();
    // A0A1A2A3h + C0C1C2C3h * scale + 5, modulo 2^32.
    for (scale, sum) in [
        (1, 0x6163_656b_u32),
        (2, 0x2225_282e),
        (4, 0xa3a8_adb4),
        (8, 0xa6af_b8c0),
    ] {
        let address = Mem(Addr {
            seg: None,
            base: Some(0),
            index: Some(1),
            scale,
            disp: 5,
        });
        let args = [Reg(7), address];
        comes_to(
            &rt,
            words(Name::Lea, W32, &args),
            &p,
            &[],
            Ok(loaded(&p, 7, sum)),
        );
        let after = loaded(&p, 7, 0x7071_0000 + sum % 65536);
        comes_to(&rt, words(Name::Lea, W16, &args), &p, &[], Ok(after));
    }
    // 14h + FFFFFFFCh goes round to 10h, past a limit of Fh in DS, and is reached through SS.
    let pointed = in_segment(&loaded(&p, 3, 0x14), 0x93, 0xf);
    comes_to(
        &rt,
        words(Name::Mov, W8, &[Reg(0), before_ebx(None)]),
        &pointed,
        &[],
        Err(general_protection()),
    );
    let cycles = [read(0, 0x10, 1, 0x11)];
    comes_to(
        &rt,
        words(Name::Mov, W8, &[Reg(0), before_ebx(Some(2))]),
        &pointed,
        &cycles,
        Ok(loaded(&pointed, 0, 0xa0a1_a211)),
    );
    // FFFFFF6Dh + A3h goes round to 10h.
    let table = loaded(&p, 3, 0xffff_ff6d);
    let cycles = [read(0, 0x10, 1, 0x11)];
    comes_to(
        &rt,
        words(Name::Xlat, W8, &[behind(3)]),
        &table,
        &cycles,
        Ok(loaded(&table, 0, 0xa0a1_a211)),
    );
}

#[test]
fn bounds(rt: HostRuntime) {
    let p = bare();
    // -7789h to 0.
    let cycles = [read(0, 0x14, 0xc, 0x8877_0000), read(0, 0x18, 3, 0)];
    for (index, inside) in [
        (0xffff_u32, true),
        (0x8877, true),
        (0, true),
        (0x8876, false),
        (1, false),
    ] {
        let before = loaded(&p, 6, 0x1234_0000 + index);
        let end = if inside {
            Ok(before)
        } else {
            interrupt(Exception::BoundsCheck)
        };
        comes_to(
            &rt,
            words(Name::Bound, W16, &[Reg(6), at(0x16)]),
            &before,
            &cycles,
            end,
        );
    }
    // The upper bound lies at 0. Bytes past memory are FFh.
    let cycles = [read(0, 0xffff_fffc, 0xf, 0xffff_ffff), read(0, 0, 0xf, 0)];
    let before = loaded(&p, 6, 0);
    comes_to(
        &rt,
        words(Name::Bound, W32, &[Reg(6), at(0xffff_fffc)]),
        &before,
        &cycles,
        Ok(before),
    );
}

#[test]
fn bytes_on_a_condition(rt: HostRuntime) {
    let p = bare();
    let less = flagged(&p, 0x82);
    let cycles = [write(0, 0x10, 4, 0x0001_0000)];
    comes_to(
        &rt,
        words(Name::Setb, W8, &[at(0x12)]),
        &flagged(&p, 3),
        &cycles,
        Ok(flagged(&p, 3)),
    );
    let cycles = [write(0, 0x10, 4, 0)];
    comes_to(
        &rt,
        words(Name::Setae, W8, &[at(0x12)]),
        &flagged(&p, 3),
        &cycles,
        Ok(flagged(&p, 3)),
    );
    // SF without OF, and no ZF: DH is 0 or 1 afterwards.
    for (name, edx) in [
        (Name::Seto, 0xd0d1_00d3_u32),
        (Name::Setno, 0xd0d1_01d3),
        (Name::Setb, 0xd0d1_00d3),
        (Name::Setae, 0xd0d1_01d3),
        (Name::Sete, 0xd0d1_00d3),
        (Name::Setne, 0xd0d1_01d3),
        (Name::Setbe, 0xd0d1_00d3),
        (Name::Seta, 0xd0d1_01d3),
        (Name::Sets, 0xd0d1_01d3),
        (Name::Setns, 0xd0d1_00d3),
        (Name::Setp, 0xd0d1_00d3),
        (Name::Setnp, 0xd0d1_01d3),
        (Name::Setl, 0xd0d1_01d3),
        (Name::Setge, 0xd0d1_00d3),
        (Name::Setle, 0xd0d1_01d3),
        (Name::Setg, 0xd0d1_00d3),
    ] {
        let after = loaded(&less, 2, edx);
        comes_to(&rt, words(name, W8, &[Reg(6)]), &less, &[], Ok(after));
    }
}
