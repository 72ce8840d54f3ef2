//! Cases of arithmetic: what the operations of `m386_alu` give for some operands.
ghost use Rattle.std.specs.Prelude.{◌<◌, ◌^◌};
ghost use Rattle.m386_alu.specs.Width.{bits};

use m386_alu::arithmetic::{AluOp, alu};
use m386_alu::bit_tests::{BitOp, bits};
use m386_alu::division::div;
use m386_alu::double_shifts::double_shift;
use m386_alu::products::mul;
use m386_alu::shifts::{ShiftOp, shift};
use m386_alu::width::{bits_of, max_of};
use m386_base::number::{Flags, Width};
use std::alloc::{AllocError, Global};

/// The operands of a case: `c` is the count or the bit, or the third operand of a division.
#[derive(Clone, Copy)]
struct Case {
    width: Width,
    a: u32,
    b: u32,
    c: u32,
    flags: Flags,
    ghost a_fits: { a < 2 ^ bits width },
    ghost b_fits: { b < 2 ^ bits width },
}

/// Two results, of which the second is 0 where there is one, and the flags.
type Found = (u32, u32, Flags);

/// The operation on two operands that has this name.
fn two_of(name: &str) -> Option<AluOp> {
    match name {
        "add" => Some(AluOp::Add),
        "or" => Some(AluOp::Or),
        "adc" => Some(AluOp::Adc),
        "sbb" => Some(AluOp::Sbb),
        "and" => Some(AluOp::And),
        "sub" => Some(AluOp::Sub),
        "xor" => Some(AluOp::Xor),
        "cmp" => Some(AluOp::Cmp),
        _ => None,
    }
}

/// The shift or rotate that has this name.
fn shift_of(name: &str) -> Option<ShiftOp> {
    match name {
        "rol" => Some(ShiftOp::Rol),
        "ror" => Some(ShiftOp::Ror),
        "rcl" => Some(ShiftOp::Rcl),
        "rcr" => Some(ShiftOp::Rcr),
        "shl" => Some(ShiftOp::Shl),
        "shr" => Some(ShiftOp::Shr),
        "sar" => Some(ShiftOp::Sar),
        _ => None,
    }
}

/// The bit test that has this name.
fn bit_of(name: &str) -> Option<BitOp> {
    match name {
        "bt" => Some(BitOp::Test),
        "bts" => Some(BitOp::Set),
        "btr" => Some(BitOp::Reset),
        "btc" => Some(BitOp::Complement),
        _ => None,
    }
}

/// A bit test, of a bit that the width has.
fn tested(op: BitOp, case: &Case) -> Option<Found> {
    let bit = (case.c & 0xff) as u8;
    if bit as u32 >= bits_of(case.width) {
        return None;
    }
    let (value, flags) = bits(op, case.width, case.a, bit, case.flags);
    Some((value, 0, flags))
}

/// A division, which changes no flag.
fn divided(signed: bool, case: &Case) -> Option<Found> {
    if case.c > max_of(case.width) {
        return None;
    }
    let (quotient, rest) = div(signed, case.width, case.a, case.b, case.c)?;
    Some((quotient, rest, case.flags))
}

/// What an operation gives that has a name of its own.
fn others(name: &str, case: &Case) -> Option<Found> {
    let count = (case.c & 0xff) as u8;
    let signed = name == "imul" || name == "idiv";
    match name {
        "shld" | "shrd" => {
            let left = name == "shld";
            let (value, flags) = double_shift(left, case.width, case.a, case.b, count, case.flags);
            Some((value, 0, flags))
        }
        "mul" | "imul" => Some(mul(signed, case.width, case.a, case.b, case.flags)),
        "div" | "idiv" => divided(signed, case),
        _ => None,
    }
}

/// What the operation of a name gives.
fn given(name: &str, case: &Case) -> Option<Found> {
    if let Some(op) = two_of(name) {
        let (value, flags) = alu(op, case.width, case.a, case.b, case.flags);
        return Some((value, 0, flags));
    }
    if let Some(op) = shift_of(name) {
        let count = (case.c & 0xff) as u8;
        let (value, flags) = shift(op, case.width, case.a, count, case.flags);
        return Some((value, 0, flags));
    }
    if let Some(op) = bit_of(name) {
        return tested(op, case);
    }
    others(name, case)
}

/// The width of so many bits.
fn width_of(bits: u32) -> Option<Width> {
    match bits {
        8 => Some(Width::W8),
        16 => Some(Width::W16),
        32 => Some(Width::W32),
        _ => None,
    }
}

/// A number in decimal.
fn number(word: &str) -> Option<u32> {
    word.parse::<u32>().ok()
}

/// The case of these words.
fn case_of(words: &[&str]) -> Option<Case> {
    let [width, a, b, c, flags] = words else {
        return None;
    };
    let width = width_of(number(width)?)?;
    let a = number(a)?;
    let b = number(b)?;
    if a > max_of(width) || b > max_of(width) {
        return None;
    }
    Some(Case {
        width,
        a,
        b,
        c: number(c)?,
        flags: Flags(number(flags)?),
    })
}

/// The answer to `WIDTH A B C FLAGS`: `FIRST SECOND FLAGS`, or `none` where there is no quotient.
pub fn answer(alloc: Global, name: &str, question: &str) -> Result<String, AllocError> {
    let words: Vec<&str> = question.split_whitespace().collect(alloc)?;
    let found = match case_of(words.as_slice()) {
        Some(case) => given(name, &case),
        None => return "no case".to_string(alloc),
    };
    match found {
        Some((first, second, flags)) => format!(in alloc; "{first} {second} {}", flags.0),
        None => "none".to_string(alloc),
    }
}
