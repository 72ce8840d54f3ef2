//! The law that loads owe.
ghost use Rattle.std.specs.Prelude.{ℕ, List, Bool};
ghost use Rattle.m386_base.specs.declared.ask.Ask.{Ask as AskRecord};
ghost use Rattle.m386_base.specs.Plain.{Plain};
ghost use Rattle.m386_access.specs.Ordinary.{Ordinary};
ghost use Rattle.m386_access.proofs.Phrases.{Anything};
ghost use Rattle.m386_state.specs.declared.proc.Proc.{Proc as ProcRecord};
ghost use Rattle.m386_segload.specs.Segments.{segment_phrase};

/// A load of a segment register makes at most five cycles, whatever went before. Each is one that an ordinary operation may make:
/// the accessed byte that it writes is byte 5 of a descriptor of a code or data segment, in the locked group in which it was read.
#[tactic(auto, using(crate::proofs::Loads::plain_segment))]
pub fn segment_loads_are_plain()
    ensures { (p : ProcRecord) (ts : List AskRecord) (seg selector : ℕ) → Plain 5 (Ordinary p.gdtr) Anything ts (segment_phrase p seg selector) }
{}
