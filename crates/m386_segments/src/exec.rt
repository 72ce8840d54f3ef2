//! The operations of this crate.
ghost use Rattle.std.specs.Prelude.{◌≡◌, false, OnErr};
ghost use Rattle.m386_base.specs.Phrase.{Performs, it};
ghost use Rattle.m386_segments.specs.Exec.{takes, work_phrase, named_phrase, exec_phrase};

use crate::adjust::adjust;
use crate::found::{show, verify};
use crate::names::{SegmentWork, is_own, segment_move_of, segment_work_of};
use crate::pointers::pointer;
use crate::registers::move_segment;
use m386_access::operands::operands_of;
use m386_base::bus::Bus;
use m386_base::exception::undefined_opcode;
use m386_base::fault::Break;
use m386_opmap::op::Op;
use m386_state::proc::Proc;

/// Whether an operation is one of this crate's: by its name, and a MOV only where an operand is a segment register.
#[tactic(auto, unfolding(crate::specs::Exec::takes))]
pub fn takes(op: &Op) -> bool
    ensures { result ≡ takes op.now }
{
    is_own(segment_work_of(op.name), op.args.as_slice())
}

/// One case for each kind of work.
#[tactic(auto, using(m386_base::proofs::Phrases::calls))]
fn work<B: Bus>(work: SegmentWork, op: &Op, p: &Proc, bus: &mut B) -> Result<Proc, Break>
    requires free { (B.view bus.old).kept ≡ false }
    ensures cycles { Performs (work_phrase work op.now p.now) (B.view bus.old) (B.view bus.new) it result }
    ensures free { (B.view bus.new).kept ≡ false }
{
    match work {
        SegmentWork::Move => move_segment(segment_move_of(op.args.as_slice()), p, bus),
        SegmentWork::Pointer(seg) => pointer(seg, op.width, operands_of(op), p, bus),
        SegmentWork::Show(what) => show(what, op.width, operands_of(op), p, bus),
        SegmentWork::Verify(what) => verify(what, operands_of(op), p, bus),
        SegmentWork::Adjust => adjust(operands_of(op), p, bus),
    }
}

/// The work of a name that may not be one of this crate's.
#[tactic(auto, using(m386_base::proofs::Phrases::calls))]
fn perform<B: Bus>(
    named: Option<SegmentWork>,
    op: &Op,
    p: &Proc,
    bus: &mut B,
) -> Result<Proc, Break>
    requires free { (B.view bus.old).kept ≡ false }
    ensures cycles { Performs (named_phrase named op.now p.now) (B.view bus.old) (B.view bus.new) it result }
    ensures free { (B.view bus.new).kept ≡ false }
{
    match named {
        Some(found) => work(found, op, p, bus),
        None => Err(Break::Fault(undefined_opcode())),
    }
}

/// Executes an operation of this crate, with EIP behind it. At `Err` the state is as before. One whose operands aren't built
/// is #UD.
#[tactic(auto, using(m386_base::proofs::Phrases::calls), unfolding(crate::specs::Exec::exec_phrase))]
pub fn exec<B: Bus>(p: &mut Proc, op: &Op, bus: &mut B) -> Result<(), Break>
    requires free { (B.view bus.old).kept ≡ false }
    ensures cycles { Performs (exec_phrase op.now p.old) (B.view bus.old) (B.view bus.new) (λ _. p.new) result }
    ensures free { (B.view bus.new).kept ≡ false }
    ensures before { OnErr result (p.new ≡ p.old) }
{
    *p = perform(segment_work_of(op.name), op, p, bus)?;
    Ok(())
}
