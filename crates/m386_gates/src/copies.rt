//! What a CALL through a gate carries to an inner stack: SS and ESP of the old one, and its parameters (PRM 6.3.4.1).
ghost use Rattle.std.specs.Prelude.{◌≡◌, false};
ghost use Rattle.m386_base.specs.Phrase.{Performs, it};
ghost use Rattle.m386_gates.specs.Copies.{copy_phrase, copies_phrase, carry_phrase, carried_phrase};

use m386_access::address::segment;
use m386_access::after::register_of;
use m386_access::registers::ESP;
use m386_base::ask::Role;
use m386_base::bus::Bus;
use m386_base::fault::Break;
use m386_base::segments::SS;
use m386_stack::stack::{Stack, moved, own_stack, pop, push, push_all};
use m386_state::proc::Proc;

/// A doubleword of the old stack, by its place from the top, pushed on the new one.
#[tactic(auto, using(m386_base::proofs::Phrases::calls), unfolding(crate::specs::Copies::copy_phrase))]
fn copy<B: Bus>(p: &Proc, bus: &mut B, place: u8, stack: &Stack) -> Result<Stack, Break>
    requires free { (B.view bus.old).kept ≡ false }
    ensures cycles { Performs (copy_phrase p.now place stack.now) (B.view bus.old) (B.view bus.new) it result }
    ensures free { (B.view bus.new).kept ≡ false }
{
    let at = moved(&own_stack(p), 4 * u32::from(place));
    let value = pop(bus, Role::Operand, &at, 4)?;
    push(bus, stack, 4, value)
}

/// So many doublewords of the old stack, the farthest first.
#[tactic(auto, using(m386_base::proofs::Phrases::calls, crate::proofs::Loops::copy_steps))]
fn copies<B: Bus>(p: &Proc, bus: &mut B, count: u8, first: &Stack) -> Result<Stack, Break>
    requires free { (B.view bus.old).kept ≡ false }
    ensures cycles { Performs (copies_phrase p.now count first.now) (B.view bus.old) (B.view bus.new) it result }
    ensures free { (B.view bus.new).kept ≡ false }
{
    let mut stack = *first;
    let mut left = count;
    while left > 0 {
        left -= 1;
        stack = copy(p, bus, left, &stack)?;
    }
    Ok(stack)
}

/// SS and ESP of the old stack, and so many of its doublewords.
#[tactic(auto, using(m386_base::proofs::Phrases::calls), unfolding(crate::specs::Copies::carry_phrase))]
fn carry<B: Bus>(p: &Proc, bus: &mut B, count: u8, stack: &Stack) -> Result<Stack, Break>
    requires free { (B.view bus.old).kept ≡ false }
    ensures cycles { Performs (carry_phrase p.now count stack.now) (B.view bus.old) (B.view bus.new) it result }
    ensures free { (B.view bus.new).kept ≡ false }
{
    let values = [u32::from(segment(p, SS).selector), register_of(p, ESP)];
    let below = push_all(bus, stack, 4, &values)?;
    copies(p, bus, count, &below)
}

/// The stack with what a change to this level carries to it: nothing, where the level isn't below CPL.
#[tactic(auto, using(m386_base::proofs::Phrases::calls), unfolding(crate::specs::Copies::carried_phrase))]
pub(crate) fn carried<B: Bus>(
    p: &Proc,
    bus: &mut B,
    level: u8,
    count: u8,
    stack: &Stack,
) -> Result<Stack, Break>
    requires free { (B.view bus.old).kept ≡ false }
    ensures cycles { Performs (carried_phrase p.now level count stack.now) (B.view bus.old) (B.view bus.new) it result }
    ensures free { (B.view bus.new).kept ≡ false }
{
    if level < p.cpl() {
        return carry(p, bus, count, stack);
    }
    Ok(*stack)
}
