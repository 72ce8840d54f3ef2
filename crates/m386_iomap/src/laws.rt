//! The law that the operations of this crate owe.
ghost use Rattle.m386_access.specs.Ordinary.{PlainFrom};
ghost use Rattle.m386_iomap.specs.Exec.{exec_phrase};
ghost use Rattle.m386_opmap.specs.declared.op.Op.{Op as OpRecord};
ghost use Rattle.m386_state.specs.declared.proc.Proc.{Proc as ProcRecord};

/// Each operation is an ordinary one of at most six cycles.
#[tactic(auto, using(crate::proofs::Plain::exec_plain))]
pub fn port_operations_are_plain()
    ensures { (op : OpRecord) (p : ProcRecord) → PlainFrom 6 p (exec_phrase op p) }
{}
