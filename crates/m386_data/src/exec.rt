//! The operations of this crate, by groups.
ghost use Rattle.std.specs.Prelude.{◌≡◌, false, OnErr};
ghost use Rattle.m386_base.specs.Phrase.{Performs, it};
ghost use Rattle.m386_data.specs.Exec.{takes, action_phrase, exec_phrase};

use crate::action::{Action, action_of};
use crate::alone::done_alone;
use crate::bit_strings::bit_test;
use crate::compare::perform_comparison;
use crate::moves::perform_moves;
use crate::products::perform_products;
use crate::update::perform_update;
use m386_access::operands::{Manner, Operands, are_general, manner_of, operands_of};
use m386_base::bus::Bus;
use m386_base::exception::undefined_opcode;
use m386_base::fault::Break;
use m386_opmap::op::Op;
use m386_state::proc::Proc;

/// Whether an operation is one of this crate's: by its name, and with no operands but general registers, numbers and memory.
#[tactic(auto, unfolding(crate::specs::Exec::takes))]
pub fn takes(op: &Op) -> bool
    ensures { result ≡ takes op.now }
{
    action_of(op.name).is_some() && are_general(operands_of(op))
}

/// One case for each group.
#[tactic(auto, using(m386_base::proofs::Phrases::calls))]
fn perform<B: Bus>(
    action: Action,
    manner: Manner,
    operands: Operands,
    p: &Proc,
    bus: &mut B,
) -> Result<Proc, Break>
    requires free { (B.view bus.old).kept ≡ false }
    ensures cycles { Performs (action_phrase action manner operands p.now) (B.view bus.old) (B.view bus.new) it result }
    ensures free { (B.view bus.new).kept ≡ false }
{
    match action {
        Action::Update(update) => perform_update(update, manner, operands, p, bus),
        Action::Comparison(comparison) => perform_comparison(comparison, manner, operands, p, bus),
        Action::Products(products) => perform_products(products, manner, operands, p, bus),
        Action::BitTest(op) => bit_test(op, manner, operands, p, bus),
        Action::Moves(moves) => perform_moves(moves, manner, operands, p, bus),
        Action::Alone(alone) => Ok(done_alone(alone, manner.width, p)),
    }
}

/// Executes an operation of this crate, with EIP behind it. At `Err` the state is as before. One whose operands aren't built
/// is #UD.
#[tactic(auto, using(m386_base::proofs::Phrases::calls), unfolding(crate::specs::Exec::exec_phrase))]
pub fn exec<B: Bus>(p: &mut Proc, op: &Op, bus: &mut B) -> Result<(), Break>
    requires free { (B.view bus.old).kept ≡ false }
    ensures cycles { Performs (exec_phrase op.now p.old) (B.view bus.old) (B.view bus.new) (λ _. p.new) result }
    ensures free { (B.view bus.new).kept ≡ false }
    ensures before { OnErr result (p.new ≡ p.old) }
{
    let Some(action) = action_of(op.name) else {
        return Err(Break::Fault(undefined_opcode()));
    };
    *p = perform(action, manner_of(op), operands_of(op), p, bus)?;
    Ok(())
}
