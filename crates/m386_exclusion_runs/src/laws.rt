//! What is proved of the machine's steps and runs. Each function does nothing; its clause is the law.
ghost use Rattle.std.specs.Prelude.{◌≡◌, ◌++◌, ℕ, List, [], length};
ghost use Rattle.m386_base.specs.Phrase.{Whole};
ghost use Rattle.m386_base.specs.declared.ask.Ask.{Ask};
ghost use Rattle.m386_base.specs.declared.ask.Cycle.{Cycle};
ghost use Rattle.m386_book.specs.Verdict.{IsFirstFailure};
ghost use Rattle.m386_book.specs.declared.verdict.Verdict.{Verdict};
ghost use Rattle.m386_image.specs.Format.{IsValid};
ghost use Rattle.m386_image.specs.declared.image.Image.{Image};
ghost use Rattle.m386_memory.specs.declared.ended.ProcEnd.{ProcEnd};
ghost use Rattle.m386_state.specs.declared.proc.Proc.{Proc};
ghost use Rattle.m386_step.specs.Run.{Run};
ghost use Rattle.m386_stages.specs.Stages.{Path, Stage, begins};
ghost use Rattle.m386_step.specs.Step.{Follow, step_phrase};
ghost use Rattle.m386_exclusion.specs.Histories.{Stands, StepLaw};
ghost use Rattle.m386_exclusion_runs.specs.Runs.{ExcludesAfter, ExcludesWhileClean, IsBeforeFailure};

/// Each cycle of a step, whatever is answered, is a turn from one stage to another, and the step ends in a state that its stage says:
/// of instructions and their operations, LTR among them, of deliveries, of starts, and of the task switches in these.
#[tactic(auto, using(crate::proofs::Steps::step_keeps))]
pub fn each_step_keeps_the_law()
    ensures { StepLaw step_phrase }
{}

/// The cycles of a whole step are such turns, one after another.
#[tactic(auto, using(crate::proofs::Steps::step_path))]
pub fn cycles_of_a_step_are_turns()
    ensures { (p after : Proc) (ts : List Ask) → Follow p ts ≡ Whole after [] → (g : Stage) × Path p.gdtr (begins p) ts g × Stands p g after }
{}

/// In a run no two processors hold one task as long as it is clean: after each front of its history that keeps the nine rules no task is
/// held by two processors, none is both held and waiting, none waits twice, and each of these is busy in memory; and a processor
/// between steps holds the task that its TR names, or none. So it is in the midst of any number of switches.
pub fn no_two_processors_hold_one_task_in_a_run()
    ensures { (image : Image) (c n : ℕ) (H : List Cycle) (E : List (ProcEnd Proc)) → IsValid image → (run : Run image c n H E)
        → ExcludesWhileClean image run.first c H }
{}

/// What the verdict of a run says: where it is clean, each front of the history excludes, and where a cycle fails a rule, each front that
/// ends before that cycle.
pub fn a_run_excludes_before_its_first_failure()
    ensures { (image : Image) (c n : ℕ) (H : List Cycle) (E : List (ProcEnd Proc)) (verdict : Verdict) → IsValid image → (run : Run image c n H E)
        → IsFirstFailure image H verdict → (G K : List Cycle) → H ≡ G ++ K → IsBeforeFailure verdict (length G) → ExcludesAfter image run.first c G }
{}
