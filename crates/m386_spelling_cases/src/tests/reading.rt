//! Readings compared with what an assembler makes of each row, with each form of a memory operand, and with refusals.

mod cases;

use super::bytes_of;
use m386_opmap::op::{Addr, Arg, Op, Rep};
use m386_opmap::outcome::Reading;
use m386_opmap::reading::{reading, reading_sure};
use std::alloc::{AllocError, Global};
use std::process::Abort;
use std::test::Fail;

/// A memory operand as the tables have it.
fn address_text(alloc: Global, address: &Addr) -> Result<String, AllocError> {
    let seg = match address.seg {
        Some(seg) => format!(in alloc; "s{seg}:")?,
        None => String::new(alloc),
    };
    let base = match address.base {
        Some(base) => format!(in alloc; "r{base}")?,
        None => String::new(alloc),
    };
    let index = match address.index {
        Some(index) => format!(in alloc; "+r{index}*{}", address.scale)?,
        None => String::new(alloc),
    };
    format!(in alloc; "[{seg}{base}{index}+{:x}]", address.disp)
}

/// An operand as the tables have it.
fn operand_text(alloc: Global, arg: &Arg) -> Result<String, AllocError> {
    match arg {
        Arg::Reg(register) => format!(in alloc; " r{register}"),
        Arg::Seg(register) => format!(in alloc; " s{register}"),
        Arg::Cr0 => String::from_str(alloc, " cr0"),
        Arg::Imm(value) => format!(in alloc; " i{value:x}"),
        Arg::Mem(address) => {
            let text = address_text(alloc, address)?;
            format!(in alloc; " {text}")
        }
        Arg::Rel(distance) => format!(in alloc; " j{distance:x}"),
        Arg::Far { selector, offset } => format!(in alloc; " f{selector:x}:{offset:x}"),
    }
}

/// An operation as the tables have it.
fn operation_text(alloc: Global, op: &Op) -> Result<String, AllocError> {
    let mut text = format!(in alloc; "{:?} {:?}", op.name, op.width)?;
    for arg in op.args.as_slice() {
        let operand = operand_text(alloc, arg)?;
        text.push_str(operand.as_str())?;
    }
    if op.lock {
        text.push_str(" lock")?;
    }
    if op.rep != Rep::Once {
        let rep = format!(in alloc; " {:?}", op.rep)?;
        text.push_str(rep.as_str())?;
    }
    Ok(text)
}

/// The operation that all of the bytes spell, while each front of them but the whole reads as More.
fn spelled(rt: &impl Abort, bytes: &[u8]) -> Op {
    for end in 0..bytes.len() {
        assert_eq!(rt; reading(&bytes[..end]), Reading::More, "{bytes:?} to {end}");
    }
    match reading(bytes) {
        Reading::Spelled { op, len } if len == bytes.len() => op,
        _ => panic!(rt; "{bytes:?}"),
    }
}

/// The bytes of each line spell its operation, and no front of them does.
fn are_spelled(rt: &impl Abort, alloc: Global, lines: &str) -> Result<(), Fail> {
    for line in lines.lines() {
        let (spelling, wanted) = line.split_once(" = ").ok_or("no operation")?;
        let bytes = bytes_of(alloc, spelling)?;
        let op = spelled(rt, bytes.as_slice());
        let text = operation_text(alloc, &op)?;
        assert_eq!(rt; text.as_str(), wanted, "{line}");
    }
    Ok(())
}

#[test]
fn each_row_is_read(rt: HostRuntime) -> Result<(), Fail> {
    assert_eq!(rt; cases::ROWS.lines().count(), 327);
    are_spelled(&rt, rt.alloc(), cases::ROWS)
}

#[test]
fn each_form_is_read(rt: HostRuntime) -> Result<(), Fail> {
    are_spelled(&rt, rt.alloc(), cases::FORMS)
}

#[test]
fn bytes_are_refused_at_the_first_that_spells_nothing(rt: HostRuntime) -> Result<(), Fail> {
    for line in cases::REFUSALS.lines() {
        let (bytes, place) = line.split_once(" @ ").ok_or("no place")?;
        let bytes = bytes_of(rt.alloc(), bytes)?;
        let at = place.parse::<usize>()?;
        assert_eq!(rt;
            reading(bytes.as_slice()),
            Reading::Refused { at },
            "{line}"
        );
    }
    Ok(())
}

#[test]
fn bytes_that_are_surely_wanted_are_counted(rt: HostRuntime) -> Result<(), Fail> {
    for line in cases::WANTING.lines() {
        let (bytes, count) = line.split_once("& ").ok_or("no count")?;
        let bytes = bytes_of(rt.alloc(), bytes)?;
        let mut lack = 0;
        assert_eq!(rt;
            reading_sure(bytes.as_slice(), &mut lack),
            Reading::More,
            "{line}"
        );
        assert_eq!(rt; lack, count.parse::<usize>()?, "{line}");
    }
    Ok(())
}
