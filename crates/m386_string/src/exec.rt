//! The operations of this crate.
ghost use Rattle.std.specs.Prelude.{◌≡◌, false, OnErr};
ghost use Rattle.m386_base.specs.Phrase.{Performs, it};
ghost use Rattle.m386_string.specs.Exec.{takes, exec_phrase};

use crate::element::element_of;
use crate::repetition::do_string;
use m386_access::operands::operands_of;
use m386_base::bus::Bus;
use m386_base::exception::undefined_opcode;
use m386_base::fault::Break;
use m386_opmap::op::Op;
use m386_state::proc::Proc;

/// Whether an operation is one of this crate's.
#[tactic(auto, unfolding(crate::specs::Exec::takes))]
pub fn takes(op: &Op) -> bool
    ensures { result ≡ takes op.now }
{
    element_of(op.name).is_some()
}

/// Executes an operation of this crate, with EIP behind it: one element, or one turn of a repetition. EIP stays there, and
/// `behind_turn` puts it back where a further turn follows. At `Err` the state is as before.
#[tactic(auto, using(m386_base::proofs::Phrases::calls), unfolding(crate::specs::Exec::exec_phrase))]
pub fn exec<B: Bus>(p: &mut Proc, op: &Op, bus: &mut B) -> Result<(), Break>
    requires free { (B.view bus.old).kept ≡ false }
    ensures cycles { Performs (exec_phrase op.now p.old) (B.view bus.old) (B.view bus.new) (λ _. p.new) result }
    ensures free { (B.view bus.new).kept ≡ false }
    ensures before { OnErr result (p.new ≡ p.old) }
{
    let Some(element) = element_of(op.name) else {
        return Err(Break::Fault(undefined_opcode()));
    };
    *p = do_string(element, op.rep, op.width, operands_of(op), p, bus)?;
    Ok(())
}
