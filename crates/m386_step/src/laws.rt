//! Laws of the step's definition.
ghost use Rattle.std.specs.List.{AllByRecursion};
ghost use Rattle.std.specs.Prelude.{false, ◌≡◌, ◌↔◌, ◌⊎◌, ℕ, suc, ◌≤◌, [], ◌∷◌, ◌++◌, List, length, slice_get, Some, Ok, Err};
ghost use Rattle.m386_base.specs.declared.ask.Ask.{Ask as AskRecord};
ghost use Rattle.m386_base.specs.declared.ask.Cycle.{Cycle as CycleRecord};
ghost use Rattle.m386_base.specs.declared.fault.Break.TheVariants as breaks;
ghost use Rattle.m386_base.specs.declared.fault.Fault.{Fault as FaultRecord};
ghost use Rattle.m386_base.specs.Bus.{BusView};
ghost use Rattle.m386_base.specs.Laws.{AtMost, attempts};
ghost use Rattle.m386_base.specs.Plain.{behind};
ghost use Rattle.m386_step.specs.Keeping.{KeepsTask};
ghost use Rattle.m386_step.specs.StepEnds.{StepEnds, IsBehindReads};
ghost use Rattle.m386_switch.specs.Attempts.{EachEnds, is_of_a_switch};
ghost use Rattle.m386_base.specs.Phrase.{Attempt as AttemptRecord, Phrase, Done, Asks, Performs, it, Whole, Faulted, Wants, follow};
ghost use Rattle.m386_base.specs.Replay.{Found, Lacks, replay};
ghost use Rattle.m386_image.specs.declared.image.Image.{Image as ImageRecord};
ghost use Rattle.m386_memory.specs.Contents.{Contents};
ghost use Rattle.m386_memory.specs.declared.ended.ProcEnd.{ProcEnd};
ghost use Rattle.m386_state.specs.declared.proc.Mode.TheVariants as modes;
ghost use Rattle.m386_state.specs.declared.proc.Proc.{Proc as ProcRecord};
ghost use Rattle.m386_decode.specs.declared.decoded.Decoded.{Decoded as DecodedRecord};
ghost use Rattle.m386_step.specs.declared.fetch.Reader.{Reader as ReaderRecord};
ghost use Rattle.m386_step.specs.Code.{decode_phrase};
ghost use Rattle.m386_step.specs.Fetched.{DecodesTo, WantsByte};
ghost use Rattle.m386_step.specs.Judged.{AreJudged};
ghost use Rattle.m386_step.specs.Once.{FetchesOnce, FetchesDiffer};
ghost use Rattle.m386_step.specs.Run.{Run, BeginsWith, start_of};
ghost use Rattle.m386_step.specs.Step.{step_phrase, Follow};
ghost use Rattle.m386_step.specs.Steps.{Plan as PlanList, Steps, requested};

/// A step asks for at most 192 cycles, whatever is answered.
pub fn step_is_short()
    ensures asks { (p : ProcRecord) → AtMost 192 (step_phrase p) }
    ensures cycles { (p after : ProcRecord) (ts : List AskRecord) → Follow p ts ≡ Whole after [] → length ts ≤ 192 }
{}

/// No aligned group is fetched twice in a step, whatever is answered: not in a whole step, and not in a proper front of one with the
/// ask that it wants next.
pub fn no_aligned_group_is_fetched_twice()
    ensures asks { (p : ProcRecord) → FetchesOnce [] (step_phrase p) }
    ensures whole { (p after : ProcRecord) (ts : List AskRecord) → Follow p ts ≡ Whole after [] → FetchesDiffer ts }
    ensures wants { (p : ProcRecord) (wanted : AskRecord) (ts : List AskRecord) → Follow p ts ≡ Wants wanted → FetchesDiffer (ts ++ wanted ∷ []) }
{}

/// No step ends in a fault: an instruction's fault stands as the pending event of the state after it.
pub fn step_ends_in_no_fault()
    ensures { (p : ProcRecord) (fault : FaultRecord) (ts rest : List AskRecord) → Follow p ts ≡ Faulted fault rest → ⊥ }
{}

/// What a step comes to over listed values is how the cycles are judged that were answered them: it is whole exactly where
/// these cycles are, with the state after it and as many values as cycles, and it lacks exactly the ask that they want.
pub fn values_are_judged_as_cycles()
    ensures whole { (p after : ProcRecord) (values : List ℕ) (used : ℕ)
        → (replay (step_phrase p) values ≡ Found after used) ↔ AreJudged p values used (Whole after []) }
    ensures wants { (p : ProcRecord) (wanted : AskRecord) (values : List ℕ)
        → (replay (step_phrase p) values ≡ Lacks wanted) ↔ AreJudged p values (length values) (Wants wanted) }
{}

/// What a step decodes is what the decoder answers for the bytes that were fetched: the operation exactly where they spell
/// it; a fault exactly where it is the decoder's own behind them, or that of the next byte which they want; and a further
/// cycle exactly where the next byte wants it.
pub fn decoding_is_the_decoders()
    ensures done { (r : ReaderRecord) (d : DecodedRecord) (ts rest : List AskRecord)
        → (follow (decode_phrase r) ts ≡ Whole d rest) ↔ DecodesTo r ts rest (Ok d) }
    ensures faults { (r : ReaderRecord) (fault : FaultRecord) (ts rest : List AskRecord)
        → (follow (decode_phrase r) ts ≡ Faulted fault rest) ↔ (DecodesTo r ts rest (Err (breaks.Fault fault)) ⊎ WantsByte r ts (Faulted fault rest)) }
    ensures wants { (r : ReaderRecord) (wanted : AskRecord) (ts : List AskRecord)
        → (follow (decode_phrase r) ts ≡ Wants wanted) ↔ WantsByte r ts (Wants wanted) }
{}

/// A whole step in which no attempt at a task switch is made keeps TR but for the claim of LTR, and the GDT register but for a cycle of
/// LGDT; and it sets NT only behind a flags cycle that read it set.
#[tactic(auto, using(crate::proofs::Keeping::keeps_step))]
pub fn step_keeps_the_task()
    ensures { (p after : ProcRecord) (ts : List AskRecord) → Follow p ts ≡ Whole after [] → attempts (step_phrase p) ts ≡ [] → KeepsTask p (behind [] ts) after }
{}

/// Each attempt at a task switch of a step ends whole or at the first row of the check table that fails, by its own cycles, and the
/// step leaves what that makes of the state before: a row of the old task is pending there, one of the new task in the new state, and
/// a start that fails before its task is entered shuts the processor down. Of an event it leaves what the delivery makes of that row, or
/// of the switch and the push of the error code behind it.
pub fn each_attempt_of_a_step_ends()
    ensures each { (p : ProcRecord) → EachEnds (StepEnds p) (step_phrase p) }
    ensures whole { (p after : ProcRecord) (ts : List AskRecord) → Follow p ts ≡ Whole after []
        → AllByRecursion (λ (x : AttemptRecord × List AskRecord). StepEnds p x.0 x.1 after) (attempts (step_phrase p) ts) }
{}

/// An attempt at a task switch has the last cycles of its step. Those before it are reads, and none of them is a cycle of a switch;
/// and a step in which no attempt is made has no such cycle.
pub fn cycles_of_a_switch_stand_in_attempts()
    ensures behind { (p after : ProcRecord) (ts : List AskRecord) → Follow p ts ≡ Whole after []
        → AllByRecursion (λ (x : AttemptRecord × List AskRecord). IsBehindReads ts x.1) (attempts (step_phrase p) ts) }
    ensures none { (p after : ProcRecord) (ts : List AskRecord) → Follow p ts ≡ Whole after [] → attempts (step_phrase p) ts ≡ []
        → AllByRecursion (λ (t : AskRecord). is_of_a_switch t.role ≡ false) ts }
{}

/// What the definitions of a run and of what a call performs allow, and what they don't. Where no step may be made the empty
/// history is a run, with each processor as it begins, and no history with a cycle is one. What is found without a cycle is
/// performed with none, and what asks for one isn't. The function does nothing; its clauses are the laws.
pub fn run_laws()
    ensures empty { (I : ImageRecord) (c : ℕ) (first : Contents) (E : List (ProcEnd ProcRecord)) → BeginsWith I first → length E ≡ c
        → ((p : ℕ) (e : ProcEnd ProcRecord) → slice_get E p ≡ Some e → (e.after ≡ start_of I p) × (e.steps ≡ 0))
        → Run I c 0 [] E }
    ensures no_run { (I : ImageRecord) (c : ℕ) (x : CycleRecord) (H : List CycleRecord) (E : List (ProcEnd ProcRecord)) → Run I c 0 (x ∷ H) E → ⊥ }
    ensures none { (v : BusView) (a : ℕ) → Performs (Done a) v v it (Ok a) }
    ensures some { (q : AskRecord) (k : ℕ → Phrase ℕ) (v : BusView) (a : ℕ) → Performs (Asks q k) v v it (Ok a) → ⊥ }
{}

/// What the definition of whole steps allows, and what it doesn't. A whole step of a processor that isn't in shutdown is one, and
/// a proper front of a step isn't; in shutdown no step is made; and as many steps of the same cycles lead to one state. The
/// function does nothing; its clauses are the laws.
pub fn steps_laws()
    ensures whole { (s s2 : ProcRecord) (ts : List AskRecord) → ¬ (s.mode ≡ modes.Shutdown) → Follow s ts ≡ Whole s2 []
        → Steps 1 [] 0 s ts s2 }
    ensures front { (q : PlanList) (j : ℕ) (s s2 : ProcRecord) (wanted : AskRecord) (ts : List AskRecord)
        → Follow (requested q j s) ts ≡ Wants wanted → ¬ Steps 1 q j s ts s2 }
    ensures shutdown { (k : ℕ) (q : PlanList) (j : ℕ) (s s2 : ProcRecord) (ts : List AskRecord) → s.mode ≡ modes.Shutdown
        → ¬ Steps (suc k) q j s ts s2 }
    ensures one_end { (k : ℕ) (q : PlanList) (j : ℕ) (s a b : ProcRecord) (ts : List AskRecord)
        → Steps k q j s ts a → Steps k q j s ts b → a ≡ b }
{}
