//! ARPL (PRM 6.3.6.2).
ghost use Rattle.std.specs.Prelude.{◌≡◌, ◌^◌, ◌<◌, false};
ghost use Rattle.m386_base.specs.Phrase.{Performs, it};
ghost use Rattle.m386_segments.specs.Adjust.{with_adjusted, store_raised_phrase, adjust_memory_phrase, adjust_in_phrase, adjust_place_phrase, adjust_phrase};

use crate::zero::with_zero;
use m386_access::access::{read_groups, write_groups};
use m386_access::address::{access_fault, address, linear, may_write, segment};
use m386_access::after::{register_at, with_register_at};
use m386_access::operands::{Operands, Place};
use m386_base::ask::Role;
use m386_base::bus::Bus;
use m386_base::exception::undefined_opcode;
use m386_base::fault::Break;
use m386_base::number::Width;
use m386_opmap::op::Addr;
use m386_segload::arpl::arpl;
use m386_state::proc::Proc;

/// The state with a register adjusted to a selector.
fn with_adjusted(p: &Proc, register: u8, source: u16) -> Proc
    ensures { result ≡ with_adjusted p.now register source }
{
    let (selector, raised) = arpl(
        (register_at(Width::W16, p, register) % 0x1_0000) as u16,
        source,
    );
    if raised {
        with_register_at(
            Width::W16,
            &with_zero(p, true),
            register,
            u32::from(selector),
        )
    } else {
        with_zero(p, false)
    }
}

/// Memory written at a linear address where its selector was raised.
#[tactic(auto, using(m386_base::proofs::Phrases::calls), unfolding(crate::specs::Adjust::store_raised_phrase))]
fn store_raised<B: Bus>(
    p: &Proc,
    bus: &mut B,
    at: u32,
    selector: u16,
    raised: bool,
) -> Result<Proc, Break>
    requires free { (B.view bus.old).kept ≡ false }
    ensures cycles { Performs (store_raised_phrase p.now at selector raised) (B.view bus.old) (B.view bus.new) it result }
    ensures free { (B.view bus.new).kept ≡ false }
{
    if raised {
        write_groups(bus, Role::Operand, at, 2, u32::from(selector))?;
        return Ok(with_zero(p, true));
    }
    Ok(with_zero(p, false))
}

/// The selector at a linear address, adjusted to another.
#[tactic(auto, using(m386_base::proofs::Phrases::calls), unfolding(crate::specs::Adjust::adjust_memory_phrase))]
fn adjust_memory<B: Bus>(p: &Proc, bus: &mut B, at: u32, source: u16) -> Result<Proc, Break>
    requires free { (B.view bus.old).kept ≡ false }
    ensures cycles { Performs (adjust_memory_phrase p.now at source) (B.view bus.old) (B.view bus.new) it result }
    ensures free { (B.view bus.new).kept ≡ false }
{
    let found = read_groups(bus, Role::Operand, at, 2)?;
    let (selector, raised) = arpl((found % 0x1_0000) as u16, source);
    store_raised(p, bus, at, selector, raised)
}

/// ARPL on memory: tested as a write before its first cycle, and written only where the selector is raised.
#[tactic(auto, using(m386_base::proofs::Phrases::calls), unfolding(crate::specs::Adjust::adjust_in_phrase))]
fn adjust_in<B: Bus>(p: &Proc, bus: &mut B, a: &Addr, source: u16) -> Result<Proc, Break>
    requires free { (B.view bus.old).kept ≡ false }
    ensures cycles { Performs (adjust_in_phrase p.now a.now source) (B.view bus.old) (B.view bus.new) it result }
    ensures free { (B.view bus.new).kept ≡ false }
{
    let (seg, offset) = address(p, a);
    let s = segment(p, seg);
    if !may_write(&s, offset, 2) {
        return Err(Break::Fault(access_fault(seg)));
    }
    adjust_memory(p, bus, linear(&s, offset), source)
}

/// ARPL on a register or on memory.
#[tactic(auto, using(m386_base::proofs::Phrases::calls))]
fn adjust_place<B: Bus>(
    p: &Proc,
    bus: &mut B,
    destination: Place,
    source: u16,
) -> Result<Proc, Break>
    requires free { (B.view bus.old).kept ≡ false }
    ensures cycles { Performs (adjust_place_phrase p.now destination source) (B.view bus.old) (B.view bus.new) it result }
    ensures free { (B.view bus.new).kept ≡ false }
{
    match destination {
        Place::Register(register) => Ok(with_adjusted(p, register, source)),
        Place::Memory(a) => adjust_in(p, bus, &a, source),
        Place::Number(_) | Place::Other => Err(Break::Fault(undefined_opcode())),
    }
}

/// ARPL.
#[tactic(auto, using(m386_base::proofs::Phrases::calls))]
pub(crate) fn adjust<B: Bus>(operands: Operands, p: &Proc, bus: &mut B) -> Result<Proc, Break>
    requires free { (B.view bus.old).kept ≡ false }
    ensures cycles { Performs (adjust_phrase operands p.now) (B.view bus.old) (B.view bus.new) it result }
    ensures free { (B.view bus.new).kept ≡ false }
{
    match operands {
        Operands::Two(destination, Place::Register(register)) => {
            let source = (register_at(Width::W16, p, register) % 0x1_0000) as u16;
            adjust_place(p, bus, destination, source)
        }
        _ => Err(Break::Fault(undefined_opcode())),
    }
}
