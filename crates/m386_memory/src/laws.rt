//! What is a history, and what is none.
ghost use Rattle.std.specs.Prelude.{ℕ};
ghost use Rattle.m386_base.specs.declared.ask.Cycle.{Cycle};
ghost use Rattle.m386_base.specs.declared.ask.Space.{Space};
ghost use Rattle.m386_memory.specs.Contents.{Contents};
ghost use Rattle.m386_memory.specs.NoHistory.{IsSplit, IsOtherRead, IsLastRead};

/// No history has a cycle of one processor and then a joined one of another, and none a read of memory or of a port that gives
/// another byte than was written last; and what gives that byte is one. The function does nothing; its clauses are the laws.
#[tactic(auto, using(crate::proofs::NoHistory::split_by_another, crate::proofs::NoHistory::other_read))]
pub fn history_laws()
    ensures split { (first : Contents) (x y : Cycle) → IsSplit first x y }
    ensures read { (first : Contents) (s : Space) (p q : ℕ) → IsOtherRead first s p q }
    ensures last { (first : Contents) (s : Space) (p q : ℕ) → IsLastRead first s p q }
{}
