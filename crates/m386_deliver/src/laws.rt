//! The laws that deliveries and returns from handlers owe.
ghost use Rattle.std.specs.Prelude.{List, Option, ℕ};
ghost use Rattle.m386_access.proofs.Phrases.{Anything};
ghost use Rattle.m386_access.specs.Ordinary.{Ordinary};
ghost use Rattle.m386_base.specs.declared.ask.Ask.{Ask as AskRecord};
ghost use Rattle.m386_base.specs.declared.number.Width.{Width as WidthName};
ghost use Rattle.m386_base.specs.Plain.{Plain};
ghost use Rattle.m386_deliver.specs.Deliver.{entered_phrase, behind_gate_phrase};
ghost use Rattle.m386_deliver.specs.Exec.{exec_phrase};
ghost use Rattle.m386_deliver.specs.Iret.{returned_phrase};
ghost use Rattle.m386_opmap.specs.declared.op.Op.{Op as OpRecord};
ghost use Rattle.m386_state.specs.declared.event.Event.{Event as EventRecord};
ghost use Rattle.m386_state.specs.declared.proc.Proc.{Proc as ProcRecord};
ghost use Rattle.m386_state.specs.declared.segment.TableReg.{TableReg as TableRegRecord};
ghost use Rattle.m386_transfer.specs.declared.executed.Executed.{Executed as ExecutedRecord};
ghost use Rattle.m386_transfer.specs.Tried.{TriedFrom};

/// An event through its gate makes at most 117 cycles: four for the gate; and for a handler five for the code and its accessed byte, nine
/// for an inner stack and twelve for the frame, each one that an ordinary operation may make, with TR, the GDT register and NT
/// as before or NT clear; or the switch of a task gate, behind reads alone. The error code in a new task takes at most two more, pushes
/// that an ordinary operation may make.
#[tactic(auto, using(crate::proofs::Plain::tried_entered, crate::proofs::Plain::plain_behind_gate))]
pub fn deliveries_are_plain()
    ensures gate { (p : ProcRecord) (e : EventRecord) → TriedFrom 117 p (entered_phrase p e) }
    ensures code { (gdt : TableRegRecord) (ts : List AskRecord) (code : Option ℕ) (x : ExecutedRecord) → Plain 2 (Ordinary gdt) Anything ts (behind_gate_phrase code x) }
{}

/// IRET is an ordinary operation, or it comes to a task switch before any other cycle, from the state that it began in; at most 113
/// cycles, the switch's among them.
#[tactic(auto, using(crate::proofs::Plain::tried_returned))]
pub fn returns_from_handlers_are_plain()
    ensures { (p : ProcRecord) (w : WidthName) → TriedFrom 113 p (returned_phrase p w) }
{}

/// Each operation is an ordinary one, or comes to a task switch behind reads alone; at most 117 cycles, the switch's among them.
#[tactic(auto, using(crate::proofs::Plain::exec_tried))]
pub fn handler_operations_are_plain()
    ensures { (op : OpRecord) (p : ProcRecord) → TriedFrom 117 p (exec_phrase op p) }
{}
