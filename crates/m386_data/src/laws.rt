//! The law that the operations of this crate owe, and what a search finds.
ghost use Rattle.std.specs.Prelude.{ℕ, ◌<◌, ◌^◌};
ghost use Rattle.m386_access.specs.Ordinary.{PlainFrom};
ghost use Rattle.m386_opmap.specs.declared.op.Op.{Op as OpRecord};
ghost use Rattle.m386_state.specs.declared.proc.Proc.{Proc as ProcRecord};
ghost use Rattle.m386_data.specs.Compare.{IsLowestOne, IsHighestOne, place_of_one};
ghost use Rattle.m386_data.specs.declared.compare.Scan.TheVariants.{Forward, Reverse};
ghost use Rattle.m386_data.specs.Exec.{exec_phrase};

/// A search finds the lowest or the highest bit that is 1.
pub fn searches_find_their_bit()
    ensures forward { (n : ℕ) → 0 < n → n < 2 ^ 32 → IsLowestOne n (place_of_one Forward n) }
    ensures reverse { (n : ℕ) → 0 < n → n < 2 ^ 32 → IsHighestOne n (place_of_one Reverse n) }
{}

/// Each operation is an ordinary one of at most 8 cycles.
#[tactic(auto, using(crate::proofs::Plain::exec_plain))]
pub fn data_operations_are_plain()
    ensures { (op : OpRecord) (p : ProcRecord) → PlainFrom 8 p (exec_phrase op p) }
{}
