//! BOUND.
ghost use Rattle.std.specs.Prelude.{◌≡◌, ◌<◌, ◌^◌, false};
ghost use Rattle.m386_alu.specs.Width.{bits};
ghost use Rattle.m386_base.specs.Phrase.{Performs, it};
ghost use Rattle.m386_data.specs.Bound.{is_less_signed, is_outside, bounds_phrase, check_bounds_phrase, bound_phrase};

use crate::change::low;
use m386_access::access::read;
use m386_access::address::address;
use m386_access::after::{len_of, register_at};
use m386_access::operands::{Manner, Operands, Place};
use m386_alu::width::has_sign;
use m386_base::ask::Role;
use m386_base::bus::Bus;
use m386_base::exception::{Exception, undefined_opcode};
use m386_base::fault::Break;
use m386_base::number::Width;
use m386_state::proc::Proc;

/// Less, of two numbers of a width that are read with a sign.
#[tactic(auto, unfolding(m386_alu::specs::Width::signed))]
fn is_less_signed(width: Width, a: u32, b: u32) -> bool
    requires a_fits { a < 2 ^ bits width }
    requires b_fits { b < 2 ^ bits width }
    ensures { result ≡ is_less_signed width a b }
{
    match (has_sign(width, a), has_sign(width, b)) {
        (true, false) => true,
        (false, true) => false,
        (false, false) | (true, true) => a < b,
    }
}

/// Whether an index is below the lower bound or above the upper one.
#[tactic(auto, unfolding(crate::specs::Bound::is_outside))]
fn is_outside(width: Width, index: u32, lower: u32, upper: u32) -> bool
    requires index_fits { index < 2 ^ bits width }
    requires lower_fits { lower < 2 ^ bits width }
    requires upper_fits { upper < 2 ^ bits width }
    ensures { result ≡ is_outside width index lower upper }
{
    is_less_signed(width, index, lower) || is_less_signed(width, upper, index)
}

/// Reads both bounds, the lower one first.
#[tactic(auto, using(m386_base::proofs::Phrases::calls), unfolding(crate::specs::Bound::bounds_phrase))]
fn bounds<B: Bus>(
    width: Width,
    p: &Proc,
    seg: u8,
    offset: u32,
    bus: &mut B,
) -> Result<(u32, u32), Break>
    requires free { (B.view bus.old).kept ≡ false }
    ensures cycles { Performs (bounds_phrase width p.now seg offset) (B.view bus.old) (B.view bus.new) it result }
    ensures free { (B.view bus.new).kept ≡ false }
{
    let len = len_of(width);
    let lower = read(p, bus, Role::Operand, seg, offset, len)?;
    let upper = read(
        p,
        bus,
        Role::Operand,
        seg,
        offset.wrapping_add(u32::from(len)),
        len,
    )?;
    Ok((lower, upper))
}

/// Reads both bounds, and tests a register against them.
#[tactic(auto, using(m386_base::proofs::Phrases::calls), unfolding(crate::specs::Bound::check_bounds_phrase))]
fn check_bounds<B: Bus>(
    width: Width,
    p: &Proc,
    register: u8,
    seg: u8,
    offset: u32,
    bus: &mut B,
) -> Result<Proc, Break>
    requires free { (B.view bus.old).kept ≡ false }
    ensures cycles { Performs (check_bounds_phrase width p.now register seg offset) (B.view bus.old) (B.view bus.new) it result }
    ensures free { (B.view bus.new).kept ≡ false }
{
    let (lower, upper) = bounds(width, p, seg, offset, bus)?;
    let index = low(width, register_at(width, p, register));
    if is_outside(width, index, low(width, lower), low(width, upper)) {
        return Err(Break::Fault(Exception::BoundsCheck.fault()));
    }
    Ok(*p)
}

/// BOUND: interrupt 5 where a register is outside its bounds.
#[tactic(auto, using(m386_base::proofs::Phrases::calls), unfolding(crate::specs::Bound::bound_phrase))]
pub(crate) fn bound<B: Bus>(
    manner: Manner,
    operands: Operands,
    p: &Proc,
    bus: &mut B,
) -> Result<Proc, Break>
    requires free { (B.view bus.old).kept ≡ false }
    ensures cycles { Performs (bound_phrase manner operands p.now) (B.view bus.old) (B.view bus.new) it result }
    ensures free { (B.view bus.new).kept ≡ false }
{
    match operands {
        Operands::Two(Place::Register(register), Place::Memory(a)) => {
            let (seg, offset) = address(p, &a);
            check_bounds(manner.width, p, register, seg, offset, bus)
        }
        _ => Err(Break::Fault(undefined_opcode())),
    }
}
