//! The laws that the operations of this crate owe.
ghost use Rattle.std.specs.Prelude.{◌≡◌, false, []};
ghost use Rattle.m386_access.specs.Ordinary.{PlainFrom};
ghost use Rattle.m386_base.specs.Plain.{Plain};
ghost use Rattle.m386_opmap.specs.declared.op.Op.{Op as OpRecord};
ghost use Rattle.m386_state.specs.declared.proc.Proc.{Proc as ProcRecord};
ghost use Rattle.m386_system.specs.Claims.{is_task_load, MayClaim, KeepsButClaimed};
ghost use Rattle.m386_system.specs.Exec.{exec_phrase};

/// Each operation but LTR is an ordinary one of at most six cycles.
#[tactic(auto, using(crate::proofs::Plain::exec_plain))]
pub fn system_operations_are_plain()
    ensures { (op : OpRecord) (p : ProcRecord) → is_task_load op ≡ false → PlainFrom 6 p (exec_phrase op p) }
{}

/// Each operation makes at most seven cycles. What is none of an ordinary operation is the write by which LTR claims a task, and
/// behind it alone TR may be another.
#[tactic(auto, using(crate::proofs::Claims::exec_claims))]
pub fn tr_is_loaded_by_a_claim()
    ensures { (op : OpRecord) (p : ProcRecord) → Plain 7 (MayClaim p.gdtr) (KeepsButClaimed p) [] (exec_phrase op p) }
{}
