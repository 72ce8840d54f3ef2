//! What is proved of the report beside the calls' own clauses.
ghost use Rattle.std.specs.Prelude.{List};
ghost use Rattle.m386_base.specs.declared.ask.Cycle.{Cycle};
ghost use Rattle.m386_trace.specs.Told.{TellsCycles};

/// A report tells its cycles: two runs with one report have the same. The function does nothing; its clause is the law.
#[tactic(auto, using(crate::proofs::Told::tells_cycles))]
pub fn report_laws()
    ensures { (history other : List Cycle) → TellsCycles history other }
{}
