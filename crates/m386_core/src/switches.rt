//! How task switches in a run end.
ghost use Rattle.std.specs.Prelude.{◌≡◌, ◌<◌, ℕ, List, length, true};
ghost use Rattle.std.specs.List.{Contains};
ghost use Rattle.m386_base.specs.declared.ask.Ask.{Ask};
ghost use Rattle.m386_base.specs.declared.ask.Cycle.{Cycle};
ghost use Rattle.m386_image.specs.declared.image.Image.{Image};
ghost use Rattle.m386_memory.specs.History.{cycles_of};
ghost use Rattle.m386_memory.specs.declared.ended.ProcEnd.{ProcEnd};
ghost use Rattle.m386_state.specs.declared.proc.Proc.{Proc};
ghost use Rattle.m386_switch.specs.Attempts.{is_of_a_switch};
ghost use Rattle.m386_step.specs.Run.{Run};
ghost use Rattle.m386_core.specs.Switches.{Made, AreStepsOf, SwitchesEnd, StandsInAttempt};

/// Each attempt at a task switch in a run ends whole, or at the first row of the check table that fails. The steps in which attempts
/// are looked for are those of the history: as many whole steps of a processor are cut out of it in one way. And each cycle that
/// only a switch or a start makes, as a claim, a save, a link, a release or a load, stands in an attempt that is found so. The
/// function does nothing; its clauses are the laws.
#[tactic(auto, using(crate::proofs::Attempts::one_way, crate::proofs::Attempts::stands_in_attempt))]
pub fn switch_laws()
    ensures ends { (I : Image) (c n : ℕ) (H : List Cycle) (E : List (ProcEnd Proc)) → Run I c n H E → SwitchesEnd I c H }
    ensures one_way { (I : Image) (H : List Cycle) (p : ℕ) (xs ys : List Made) → AreStepsOf I H p xs → AreStepsOf I H p ys
        → length xs ≡ length ys → xs ≡ ys }
    ensures all_stand { (I : Image) (c : ℕ) (H : List Cycle) (p : ℕ) (t : Ask) → SwitchesEnd I c H → p < c
        → Contains (cycles_of p H) t → is_of_a_switch t.role ≡ true → StandsInAttempt I H p t }
{}
