//! Worked cases, with their flags as numbers: CF 1, PF 4, AF 10h, ZF 40h, SF 80h, OF 800h.
use m386_alu::arithmetic::{AluOp, alu};
use m386_alu::bit_tests::{BitOp, bits};
use m386_alu::division::div;
use m386_alu::double_shifts::double_shift;
use m386_alu::products::mul;
use m386_alu::shifts::{ShiftOp, shift};
use m386_base::number::{Flags, Width};

const NONE: Flags = Flags(2);

const ALL: Flags = Flags(0x8d7);

#[test]
fn sums_and_logic(rt: HostRuntime) {
    let overflow = alu(AluOp::Add, Width::W8, 0x7f, 1, NONE);
    assert_eq!(rt;
        overflow,
        (0x80, Flags(0x892)),
        "past the greatest signed byte"
    );
    let carry = alu(AluOp::Adc, Width::W16, 0xffff, 0, ALL);
    assert_eq!(rt; carry, (0, Flags(0x57)), "a carry that goes through");
    let borrow = alu(AluOp::Sub, Width::W32, 0, 1, NONE);
    assert_eq!(rt; borrow, (0xffff_ffff, Flags(0x97)), "below 0");
    let equal = alu(AluOp::Cmp, Width::W8, 5, 5, ALL);
    assert_eq!(rt; equal, (0, Flags(0x46)), "equal");
    let logic = alu(AluOp::And, Width::W8, 0xf0, 0x8f, ALL);
    assert_eq!(rt; logic, (0x80, Flags(0x82)), "AF is 0 after AND");
}

#[test]
fn shifts_and_rotates(rt: HostRuntime) {
    let out = shift(ShiftOp::Shl, Width::W8, 0x01, 8, NONE);
    assert_eq!(rt; out, (0, Flags(0x47)), "the last bit out goes to CF");
    let none = shift(ShiftOp::Shr, Width::W8, 0x81, 32, ALL);
    assert_eq!(rt; none, (0x81, ALL), "a count of 32 is one of 0");
    let sign = shift(ShiftOp::Sar, Width::W16, 0x8000, 31, NONE);
    assert_eq!(rt; sign, (0xffff, Flags(0x87)), "the sign comes in");
    let round = shift(ShiftOp::Rcl, Width::W8, 0x81, 9, Flags(3));
    assert_eq!(rt; round, (0x81, Flags(3)), "nine places through the carry");
    let turned = shift(ShiftOp::Ror, Width::W32, 1, 1, NONE);
    assert_eq!(rt; turned, (0x8000_0000, Flags(0x803)), "the sign changed");
}

#[test]
fn double_shifts_and_bit_tests(rt: HostRuntime) {
    let whole = double_shift(true, Width::W16, 0x1234, 0x5678, 16, NONE);
    assert_eq!(rt; whole, (0x5678, Flags(6)), "by the width");
    let more = double_shift(false, Width::W16, 0x1234, 0x5678, 17, ALL);
    assert_eq!(rt; more, (0x1234, ALL), "by more than the width");
    let single = double_shift(false, Width::W32, 2, 1, 1, NONE);
    assert_eq!(rt; single, (0x8000_0001, Flags(0x882)), "the sign changed");
    let flipped = bits(BitOp::Complement, Width::W32, 0x8000_0000, 31, NONE);
    assert_eq!(rt; flipped, (0, Flags(3)), "the bit as it was is in CF");
}

#[test]
fn products_and_quotients(rt: HostRuntime) {
    let unsigned = mul(false, Width::W8, 0xff, 0xff, NONE);
    assert_eq!(rt; unsigned, (0xfe, 0x01, Flags(0x803)), "255 times 255");
    let signed = mul(true, Width::W8, 0xff, 0xff, ALL);
    assert_eq!(rt; signed, (0, 1, Flags(0xd6)), "-1 times -1");
    assert_eq!(rt;
        div(true, Width::W8, 0xff, 0x80, 1),
        Some((0x80, 0)),
        "the least quotient"
    );
    assert_eq!(rt;
        div(true, Width::W8, 0xff, 0xf9, 2),
        Some((0xfd, 0xff)),
        "-7 by 2, toward zero"
    );
    assert_eq!(rt; div(false, Width::W32, 1, 0, 1), None, "no room");
    assert_eq!(rt; div(false, Width::W16, 0, 1, 0), None, "by 0");
}
