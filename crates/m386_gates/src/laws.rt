//! The law that the operations of this crate owe.
ghost use Rattle.m386_opmap.specs.declared.op.Op.{Op as OpRecord};
ghost use Rattle.m386_state.specs.declared.proc.Proc.{Proc as ProcRecord};
ghost use Rattle.m386_gates.specs.Exec.{exec_phrase};
ghost use Rattle.m386_transfer.specs.Tried.{TriedFrom};

/// Each operation is an ordinary one of at most 154 cycles, as many as a far CALL makes through a pointer in memory and a gate with 31
/// doublewords to copy; or it makes reads alone, and then comes to a task switch from the state that it began in.
#[tactic(auto, using(crate::proofs::Plain::exec_tried))]
pub fn transfers_are_plain()
    ensures { (op : OpRecord) (p : ProcRecord) → TriedFrom 154 p (exec_phrase op p) }
{}
