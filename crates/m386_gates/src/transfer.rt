//! The transfers of this crate by their names.
ghost use Rattle.std.specs.Prelude.{◌≡◌, false};
ghost use Rattle.m386_base.specs.Phrase.{Performs, it};
ghost use Rattle.m386_gates.specs.Transfer.{transfer_of, transfer_named, transfer_phrase};

use crate::calls::{call, return_to_caller};
use crate::far::{Far, transfer_far};
use crate::near::{Near, near_of, transfer_near};
use crate::returns::far_return;
use m386_base::bus::Bus;
use m386_base::fault::Break;
use m386_opmap::name::Name;
use m386_opmap::op::Op;
use m386_state::proc::Proc;
use m386_transfer::executed::{Executed, ran_to};

/// A transfer.
#[derive(Clone, Copy)]
pub enum Transfer {
    /// A near jump.
    Near(Near),
    /// A near CALL.
    Call,
    /// RET.
    Return,
    /// A far JMP or CALL.
    Far(Far),
    /// RETF.
    FarReturn,
}

/// A transfer that is no near jump.
fn transfer_named(name: Name) -> Option<Transfer>
    ensures { result ≡ transfer_named name }
{
    match name {
        Name::Call => Some(Transfer::Call),
        Name::Ret => Some(Transfer::Return),
        Name::Jmpf => Some(Transfer::Far(Far::Jump)),
        Name::Callf => Some(Transfer::Far(Far::Call)),
        Name::Retf => Some(Transfer::FarReturn),
        _ => None,
    }
}

/// What the operation of a name does, where it is a transfer.
#[tactic(auto, unfolding(crate::specs::Transfer::transfer_of))]
pub fn transfer_of(name: Name) -> Option<Transfer>
    ensures { result ≡ transfer_of name }
{
    match near_of(name) {
        Some(near) => Some(Transfer::Near(near)),
        None => transfer_named(name),
    }
}

/// A transfer.
#[tactic(auto, using(m386_base::proofs::Phrases::calls), unfolding(m386_transfer::specs::Executed::simply))]
pub(crate) fn do_transfer<B: Bus>(
    p: &Proc,
    bus: &mut B,
    transfer: Transfer,
    op: &Op,
) -> Result<Executed, Break>
    requires free { (B.view bus.old).kept ≡ false }
    ensures cycles { Performs (transfer_phrase transfer op.now p.now) (B.view bus.old) (B.view bus.new) it result }
    ensures free { (B.view bus.new).kept ≡ false }
{
    match transfer {
        Transfer::Near(near) => Ok(ran_to(transfer_near(p, bus, near, op)?)),
        Transfer::Call => Ok(ran_to(call(p, bus, op)?)),
        Transfer::Return => Ok(ran_to(return_to_caller(p, bus, op)?)),
        Transfer::Far(far) => transfer_far(p, bus, far, op),
        Transfer::FarReturn => Ok(ran_to(far_return(p, bus, op)?)),
    }
}
