//! The operations of this crate.
ghost use Rattle.std.specs.Prelude.{◌≡◌, false};
ghost use Rattle.m386_access.specs.Ran.{ran};
ghost use Rattle.m386_base.specs.Phrase.{Performs, PerformsOrStops, PerformsRan, it};
ghost use Rattle.m386_gates.specs.Exec.{takes, exec_phrase, action_phrase};
ghost use Rattle.m386_transfer.specs.Executed.{told};

use crate::transfer::{Transfer, do_transfer, transfer_of};
use m386_access::ran::Ran;
use m386_base::bus::Bus;
use m386_base::exception::undefined_opcode;
use m386_base::fault::{Break, Stop};
use m386_opmap::op::Op;
use m386_state::proc::Proc;
use m386_transfer::executed::{Executed, as_ran};

/// Whether an operation is one of this crate's.
#[tactic(auto, unfolding(crate::specs::Exec::takes))]
pub fn takes(op: &Op) -> bool
    ensures { result ≡ takes op.now }
{
    transfer_of(op.name).is_some()
}

/// An operation by its transfer, where it is one.
#[tactic(auto, using(m386_base::proofs::Phrases::calls))]
fn act<B: Bus>(
    p: &Proc,
    bus: &mut B,
    transfer: Option<Transfer>,
    op: &Op,
) -> Result<Executed, Break>
    requires free { (B.view bus.old).kept ≡ false }
    ensures cycles { Performs (action_phrase transfer op.now p.now) (B.view bus.old) (B.view bus.new) it result }
    ensures free { (B.view bus.new).kept ≡ false }
{
    match transfer {
        Some(transfer) => do_transfer(p, bus, transfer, op),
        None => Err(Break::Fault(undefined_opcode())),
    }
}

/// An operation of this crate, from a state with EIP behind it. A far JMP or CALL to a task comes to a switch, and answers what that
/// came to; a fault is one of the others, and is seen in the state before the instruction.
#[tactic(auto, using(m386_base::proofs::Phrases::calls), unfolding(crate::specs::Exec::exec_phrase))]
pub fn attempt<B: Bus>(p: &Proc, op: &Op, bus: &mut B) -> Result<Executed, Break>
    requires free { (B.view bus.old).kept ≡ false }
    ensures cycles { Performs (exec_phrase op.now p.now) (B.view bus.old) (B.view bus.new) it result }
    ensures free { (B.view bus.new).kept ≡ false }
{
    act(p, bus, transfer_of(op.name), op)
}

/// The state that an operation left, or the one before it, and the fault that is seen in it.
#[tactic(auto, using(m386_base::proofs::Phrases::caught), unfolding(m386_transfer::specs::Executed::told))]
fn ended<B: Bus>(p: &Proc, op: &Op, bus: &mut B) -> Result<Ran, Stop>
    requires free { (B.view bus.old).kept ≡ false }
    ensures cycles { PerformsOrStops (told p.now (exec_phrase op.now p.now)) (B.view bus.old) (B.view bus.new) it result }
    ensures free { (B.view bus.new).kept ≡ false }
{
    match attempt(p, op, bus) {
        Ok(executed) => Ok(as_ran(&executed)),
        Err(Break::Fault(fault)) => Ok(Ran {
            after: *p,
            fault: Some(fault),
        }),
        Err(Break::Stop(stop)) => Err(stop),
    }
}

/// Executes an operation of this crate, with EIP behind it, where it makes no difference in which state a fault is seen. At a fault the
/// state is the one that it is seen in, and at `Err(Stop)` it is as before.
pub fn exec<B: Bus>(p: &mut Proc, op: &Op, bus: &mut B) -> Result<(), Break>
    requires free { (B.view bus.old).kept ≡ false }
    ensures cycles { PerformsRan (told p.old (exec_phrase op.now p.old)) (B.view bus.old) (B.view bus.new) ran p.old p.new result }
    ensures free { (B.view bus.new).kept ≡ false }
{
    let ran = ended(p, op, bus)?;
    *p = ran.after;
    match ran.fault {
        Some(fault) => Err(Break::Fault(fault)),
        None => Ok(()),
    }
}
