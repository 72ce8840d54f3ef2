//! Near calls and returns (PRM 17.2.2.11, CALL, RET).
ghost use Rattle.std.specs.Prelude.{◌≡◌, false};
ghost use Rattle.m386_base.specs.Phrase.{Performs, it};
ghost use Rattle.m386_gates.specs.Calls.{released_of, enter_phrase, call_phrase, return_near_phrase, return_phrase};

use crate::near::{is_in_code, land, near_target, target};
use m386_access::after::at_eip;
use m386_base::ask::Role;
use m386_base::bus::Bus;
use m386_base::exception::{general_protection, undefined_opcode};
use m386_base::fault::Break;
use m386_base::number::Width;
use m386_opmap::op::{Arg, Op};
use m386_stack::names::size_of;
use m386_stack::stack::{moved, own_stack, pop, push, with_pointer};
use m386_state::proc::Proc;

/// How many bytes of parameters a return releases: its immediate, or none.
pub(crate) fn released_of(args: &[Arg]) -> Option<u16>
    ensures { result ≡ released_of args.now }
{
    match args {
        [] => Some(0),
        [Arg::Imm(bytes)] => Some((*bytes % 0x1_0000) as u16),
        _ => None,
    }
}

/// The return address is pushed, and the state is at the target. #GP(0), with no push, where it lies outside the limit of CS.
#[tactic(auto, using(m386_base::proofs::Phrases::calls), unfolding(crate::specs::Calls::enter_phrase))]
fn enter<B: Bus>(p: &Proc, bus: &mut B, width: Width, target: u32) -> Result<Proc, Break>
    requires free { (B.view bus.old).kept ≡ false }
    ensures cycles { Performs (enter_phrase p.now width target) (B.view bus.old) (B.view bus.new) it result }
    ensures free { (B.view bus.new).kept ≡ false }
{
    if !is_in_code(p, target) {
        return Err(Break::Fault(general_protection()));
    }
    let link = near_target(width, p.eip);
    let stack = push(bus, &own_stack(p), size_of(width), link)?;
    Ok(at_eip(&with_pointer(p, &stack), target))
}

/// CALL.
#[tactic(auto, using(m386_base::proofs::Phrases::calls), unfolding(crate::specs::Calls::call_phrase))]
pub(crate) fn call<B: Bus>(p: &Proc, bus: &mut B, op: &Op) -> Result<Proc, Break>
    requires free { (B.view bus.old).kept ≡ false }
    ensures cycles { Performs (call_phrase p.now op.now) (B.view bus.old) (B.view bus.new) it result }
    ensures free { (B.view bus.new).kept ≡ false }
{
    let target = target(p, bus, op)?;
    enter(p, bus, op.width, target)
}

/// The return address is popped, and the state is there, with so many bytes released.
#[tactic(auto, using(m386_base::proofs::Phrases::calls), unfolding(crate::specs::Calls::return_near_phrase))]
fn return_near<B: Bus>(p: &Proc, bus: &mut B, width: Width, released: u16) -> Result<Proc, Break>
    requires free { (B.view bus.old).kept ≡ false }
    ensures cycles { Performs (return_near_phrase p.now width released) (B.view bus.old) (B.view bus.new) it result }
    ensures free { (B.view bus.new).kept ≡ false }
{
    let stack = own_stack(p);
    let size = size_of(width);
    let offset = pop(bus, Role::Pop, &stack, size)?;
    let behind = moved(&moved(&stack, u32::from(size)), u32::from(released));
    land(&with_pointer(p, &behind), bus, offset)
}

/// RET.
#[tactic(auto, using(m386_base::proofs::Phrases::calls), unfolding(crate::specs::Calls::return_phrase))]
pub(crate) fn return_to_caller<B: Bus>(p: &Proc, bus: &mut B, op: &Op) -> Result<Proc, Break>
    requires free { (B.view bus.old).kept ≡ false }
    ensures cycles { Performs (return_phrase p.now op.now) (B.view bus.old) (B.view bus.new) it result }
    ensures free { (B.view bus.new).kept ≡ false }
{
    match released_of(op.args.as_slice()) {
        Some(released) => return_near(p, bus, op.width, released),
        None => Err(Break::Fault(undefined_opcode())),
    }
}
