//! LEAVE.
ghost use Rattle.std.specs.Prelude.{◌≡◌, false};
ghost use Rattle.m386_base.specs.Phrase.{Performs, it};
ghost use Rattle.m386_stack.specs.Frame.{frame_stack, behind_leave, leave_phrase};

use crate::names::size_of;
use crate::stack::{Stack, at_pointer, moved, own_stack, pop, with_pointer};
use m386_access::after::{register_of, with_register_at};
use m386_access::registers::EBP;
use m386_base::ask::Role;
use m386_base::bus::Bus;
use m386_base::fault::Break;
use m386_base::number::Width;
use m386_state::proc::Proc;

/// The stack with its top at the frame: ESP from EBP, or SP from BP where SS has B = 0.
fn frame_stack(p: &Proc) -> Stack
    ensures { result ≡ frame_stack p.now }
{
    at_pointer(&own_stack(p), register_of(p, EBP))
}

/// The state behind LEAVE.
fn behind_leave(p: &Proc, width: Width, value: u32) -> Proc
    ensures { result ≡ behind_leave p.now width value }
{
    let stack = moved(&frame_stack(p), u32::from(size_of(width)));
    with_register_at(width, &with_pointer(p, &stack), EBP, value)
}

/// LEAVE (PRM 17.2.2.11).
#[tactic(auto, using(m386_base::proofs::Phrases::calls), unfolding(crate::specs::Frame::leave_phrase))]
pub(crate) fn leave_frame<B: Bus>(p: &Proc, bus: &mut B, width: Width) -> Result<Proc, Break>
    requires free { (B.view bus.old).kept ≡ false }
    ensures cycles { Performs (leave_phrase p.now width) (B.view bus.old) (B.view bus.new) it result }
    ensures free { (B.view bus.new).kept ≡ false }
{
    let found = pop(bus, Role::Pop, &frame_stack(p), size_of(width))?;
    Ok(behind_leave(p, width, found))
}
