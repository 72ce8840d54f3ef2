//! What is proved of exclusion. Each function does nothing; its clause is the law.
ghost use Rattle.std.specs.Prelude.{◌≡◌, ℕ, List, ◌∷◌};
ghost use Rattle.m386_base.specs.declared.ask.Cycle.{Cycle};
ghost use Rattle.m386_base.specs.declared.ask.Role.TheVariants.{RelRet};
ghost use Rattle.m386_memory.specs.Contents.{Contents};
ghost use Rattle.m386_memory.specs.History.{Consistent, Unsplit};
ghost use Rattle.m386_state.specs.declared.segment.TableReg.{TableReg};
ghost use Rattle.m386_stages.specs.Stages.{Stage, Turn};
ghost use Rattle.m386_exclusion.specs.Histories.{Exclusion, ExclusionOfFronts};
ghost use Rattle.m386_exclusion.specs.Table.{AreSound, IsTidyTable, KeepsOff, at_cpu};

/// Each kind of cycle but the release of IRET keeps, of all processors at once, that the GDT is the image's but for busy and
/// accessed bits, that each has read what stands there, and that the tasks of its stage are present TSSs of the image.
pub fn the_table_stays_sound()
    ensures { (first : Contents) (gdt : TableReg) (x : Cycle) (at : ℕ → Stage) (g2 : Stage) (older : List Cycle) → IsTidyTable first gdt → Consistent first (x ∷ older) → Unsplit (x ∷ older) → KeepsOff gdt x.ask → (x.ask.role ≡ RelRet → ⊥) → Turn gdt (at x.cpu) x.ask g2 → AreSound first gdt at older → AreSound first gdt (at_cpu at x.cpu g2) (x ∷ older) }
{}

/// In a clean history of a machine whose steps keep the law of a step no two processors hold one task, none waits twice, each
/// that is held or waits is busy, and between steps a processor holds the task that its TR names. The law stands for each
/// front of the history that is clean, in the midst of any number of switches.
pub fn no_two_processors_hold_one_task()
    ensures histories { Exclusion }
    ensures fronts { ExclusionOfFronts }
{}
