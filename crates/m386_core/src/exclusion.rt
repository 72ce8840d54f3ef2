//! That no two processors hold one task in a clean run.
ghost use Rattle.std.specs.Prelude.{ℕ, List};
ghost use Rattle.m386_base.specs.declared.ask.Cycle.{Cycle};
ghost use Rattle.m386_image.specs.Format.{IsValid};
ghost use Rattle.m386_image.specs.declared.image.Image.{Image};
ghost use Rattle.m386_memory.specs.declared.ended.ProcEnd.{ProcEnd};
ghost use Rattle.m386_state.specs.declared.proc.Proc.{Proc};
ghost use Rattle.m386_step.specs.Run.{Run};
ghost use Rattle.m386_exclusion_runs.specs.Runs.{ExcludesWhileClean};

/// In a run of a valid image no task is held by two processors, none is both held and waiting, and none waits twice, after each front of
/// its history that keeps the nine rules, in the midst of any number of switches. The function does nothing; its clause is the
/// law.
pub fn exclusion_laws()
    ensures { (I : Image) (c n : ℕ) (H : List Cycle) (E : List (ProcEnd Proc)) → IsValid I → (run : Run I c n H E) → ExcludesWhileClean I run.first c H }
{}
