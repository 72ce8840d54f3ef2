//! RETF (PRM 17.2.2.11, RET).
ghost use Rattle.std.specs.Prelude.{◌≡◌, false};
ghost use Rattle.m386_base.specs.Phrase.{Performs, it};
ghost use Rattle.m386_gates.specs.Returns.{return_far_phrase, far_return_phrase};

use crate::calls::released_of;
use m386_base::ask::Role;
use m386_base::bus::Bus;
use m386_base::exception::undefined_opcode;
use m386_base::fault::Break;
use m386_base::number::Width;
use m386_opmap::op::Op;
use m386_stack::names::size_of;
use m386_stack::stack::{moved, own_stack, pop};
use m386_state::proc::Proc;
use m386_transfer::returns::return_to;

/// EIP and CS are popped, and the return is made.
#[tactic(auto, using(m386_base::proofs::Phrases::calls), unfolding(crate::specs::Returns::return_far_phrase))]
fn return_far<B: Bus>(p: &Proc, bus: &mut B, width: Width, released: u16) -> Result<Proc, Break>
    requires free { (B.view bus.old).kept ≡ false }
    ensures cycles { Performs (return_far_phrase p.now width released) (B.view bus.old) (B.view bus.new) it result }
    ensures free { (B.view bus.new).kept ≡ false }
{
    let size = size_of(width);
    let first = own_stack(p);
    let second = moved(&first, u32::from(size));
    let behind = moved(&second, u32::from(size));
    let eip = pop(bus, Role::Pop, &first, size)?;
    let selector = pop(bus, Role::Pop, &second, size)?;
    let cs = (selector % 0x1_0000) as u16;
    return_to(p, bus, cs, eip, &behind, size, released)
}

/// RETF. A fault comes exactly by the first rule that is broken.
#[tactic(auto, using(m386_base::proofs::Phrases::calls), unfolding(crate::specs::Returns::far_return_phrase))]
pub(crate) fn far_return<B: Bus>(p: &Proc, bus: &mut B, op: &Op) -> Result<Proc, Break>
    requires free { (B.view bus.old).kept ≡ false }
    ensures cycles { Performs (far_return_phrase p.now op.now) (B.view bus.old) (B.view bus.new) it result }
    ensures free { (B.view bus.new).kept ≡ false }
{
    match released_of(op.args.as_slice()) {
        Some(released) => return_far(p, bus, op.width, released),
        None => Err(Break::Fault(undefined_opcode())),
    }
}
