//! TR, loaded by an operand (PRM 7.3).
ghost use Rattle.std.specs.Prelude.{◌≡◌, false};
ghost use Rattle.m386_base.specs.Phrase.{Performs, it};
ghost use Rattle.m386_switch.specs.Ltr.{ltr_phrase};
ghost use Rattle.m386_system.specs.Task.{task_operand_phrase, load_task_phrase};

use m386_access::operands::{Operands, Place, value};
use m386_base::bus::Bus;
use m386_base::exception::undefined_opcode;
use m386_base::fault::Break;
use m386_base::number::Width;
use m386_state::proc::Proc;
use m386_switch::ltr::ltr;

/// The state with TR loaded, whose task was claimed.
#[tactic(auto, using(m386_base::proofs::Phrases::calls))]
fn with_task<B: Bus>(p: &Proc, bus: &mut B, selector: u16) -> Result<Proc, Break>
    requires free { (B.view bus.old).kept ≡ false }
    ensures cycles { Performs (ltr_phrase p.now selector) (B.view bus.old) (B.view bus.new) it result }
    ensures free { (B.view bus.new).kept ≡ false }
{
    let mut after = *p;
    ltr(&mut after, bus, selector)?;
    Ok(after)
}

/// The selector, and the claim of its task.
#[tactic(auto, using(m386_base::proofs::Phrases::calls), unfolding(crate::specs::Task::task_operand_phrase))]
fn load_task_operand<B: Bus>(p: &Proc, bus: &mut B, operand: Place) -> Result<Proc, Break>
    requires free { (B.view bus.old).kept ≡ false }
    ensures cycles { Performs (task_operand_phrase p.now operand) (B.view bus.old) (B.view bus.new) it result }
    ensures free { (B.view bus.new).kept ≡ false }
{
    let selector = value(Width::W16, p, operand, bus)?;
    with_task(p, bus, (selector % 0x1_0000) as u16)
}

/// LTR.
#[tactic(auto, using(m386_base::proofs::Phrases::calls), unfolding(crate::specs::Task::load_task_phrase))]
pub(crate) fn load_task<B: Bus>(p: &Proc, bus: &mut B, operands: Operands) -> Result<Proc, Break>
    requires free { (B.view bus.old).kept ≡ false }
    ensures cycles { Performs (load_task_phrase p.now operands) (B.view bus.old) (B.view bus.new) it result }
    ensures free { (B.view bus.new).kept ≡ false }
{
    match operands {
        Operands::One(operand) => load_task_operand(p, bus, operand),
        _ => Err(Break::Fault(undefined_opcode())),
    }
}
