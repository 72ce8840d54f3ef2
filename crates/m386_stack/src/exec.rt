//! The operations of this crate.
ghost use Rattle.std.specs.Prelude.{◌≡◌, false, OnErr};
ghost use Rattle.m386_base.specs.Phrase.{Performs, it};
ghost use Rattle.m386_stack.specs.Exec.{takes, exec_phrase, stack_op_phrase};

use crate::all::{pop_registers, push_registers};
use crate::flags::pop_flags;
use crate::frame::leave_frame;
use crate::names::{StackOp, stack_op_of};
use crate::single::{item_of, pop_item, push_item, push_value};
use m386_base::bus::Bus;
use m386_base::exception::undefined_opcode;
use m386_base::fault::Break;
use m386_opmap::op::Op;
use m386_state::proc::Proc;

/// Whether an operation is one of this crate's.
#[tactic(auto, unfolding(crate::specs::Exec::takes))]
pub fn takes(op: &Op) -> bool
    ensures { result ≡ takes op.now }
{
    stack_op_of(op.name, op.width).is_some()
}

/// One case for each kind of operation.
#[tactic(auto, using(m386_base::proofs::Phrases::calls))]
fn perform<B: Bus>(what: Option<StackOp>, op: &Op, p: &Proc, bus: &mut B) -> Result<Proc, Break>
    requires free { (B.view bus.old).kept ≡ false }
    ensures cycles { Performs (stack_op_phrase what op.now p.now) (B.view bus.old) (B.view bus.new) it result }
    ensures free { (B.view bus.new).kept ≡ false }
{
    match what {
        Some(StackOp::Push) => push_item(p, bus, op.width, item_of(op.args.as_slice())),
        Some(StackOp::Pop) => pop_item(p, bus, op.width, item_of(op.args.as_slice())),
        Some(StackOp::PushAll) => push_registers(p, bus, op.width),
        Some(StackOp::PopAll) => pop_registers(p, bus, op.width),
        Some(StackOp::PushFlags) => push_value(p, bus, op.width, p.eflags.0),
        Some(StackOp::PopFlags) => pop_flags(p, bus, op.width),
        Some(StackOp::Leave) => leave_frame(p, bus, op.width),
        None => Err(Break::Fault(undefined_opcode())),
    }
}

/// Executes an operation of this crate, with EIP behind it. At `Err` the state is as before, though what was pushed before a
/// fault stays written.
#[tactic(auto, using(m386_base::proofs::Phrases::calls), unfolding(crate::specs::Exec::exec_phrase))]
pub fn exec<B: Bus>(p: &mut Proc, op: &Op, bus: &mut B) -> Result<(), Break>
    requires free { (B.view bus.old).kept ≡ false }
    ensures cycles { Performs (exec_phrase op.now p.old) (B.view bus.old) (B.view bus.new) (λ _. p.new) result }
    ensures free { (B.view bus.new).kept ≡ false }
    ensures before { OnErr result (p.new ≡ p.old) }
{
    *p = perform(stack_op_of(op.name, op.width), op, p, bus)?;
    Ok(())
}
