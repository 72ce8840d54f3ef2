//! What follows of every change of the stack and of every switch from its phrase alone.
ghost use Rattle.std.specs.Prelude.{◌≡◌, ℕ, List, [], Bool, false};
ghost use Rattle.m386_base.specs.declared.ask.Ask.{Ask as AskRecord};
ghost use Rattle.m386_base.specs.Plain.{Plain};
ghost use Rattle.m386_access.specs.Ordinary.{Ordinary};
ghost use Rattle.m386_access.proofs.Phrases.{Anything};
ghost use Rattle.m386_state.specs.declared.proc.Proc.{Proc as ProcRecord};
ghost use Rattle.m386_base.specs.Phrase.{Phrase, follow, Whole};
ghost use Rattle.m386_base.specs.declared.kind.SwitchKind.{SwitchKind as Kind};
ghost use Rattle.m386_switch.specs.declared.outcome.Switched.{Switched as SwitchedRecord};
ghost use Rattle.std.specs.List.{AllByRecursion};
ghost use Rattle.m386_base.specs.Laws.{attempts};
ghost use Rattle.m386_switch.specs.Attempts.{EachEnds, Outside, is_of_a_switch};
ghost use Rattle.m386_switch.specs.Ends.{SwitchEnds};
ghost use Rattle.m386_switch.specs.Inner.{inner_phrase};
ghost use Rattle.m386_switch.specs.Switch.{attempt_of, switch_phrase};

/// A change to an inner stack makes at most nine cycles, whatever went before: two for each of the two fields, four for the
/// descriptor and one for its accessed byte. Each is one that an ordinary operation may make.
#[tactic(auto, using(crate::proofs::Plain::plain_inner))]
pub fn stack_changes_are_plain()
    ensures { (p : ProcRecord) (ts : List AskRecord) (level : ℕ) (ext : Bool) → Plain 9 (Ordinary p.gdtr) Anything ts (inner_phrase p level ext) }
{}

/// The cycles of a whole switch end whole, or at the first row that fails of what they read.
#[tactic(auto, using(crate::proofs::Law::switch_ends))]
pub fn switches_end_at_their_first_failing_row()
    ensures { (p : ProcRecord) (kind : Kind) (selector : ℕ) (direct ext : Bool) (ts : List AskRecord) (r : SwitchedRecord) → follow (switch_phrase p kind selector direct ext) ts ≡ Whole r [] → SwitchEnds (attempt_of p kind selector direct ext) ts p r }
{}

/// Where a switch stands in a longer phrase, each attempt in it ends so, and none begins in its midst.
#[tactic(auto, using(crate::proofs::Attempts::each_switch_ends))]
pub fn each_attempt_of_a_switch_ends()
    ensures { (p : ProcRecord) (kind : Kind) (selector : ℕ) (direct ext : Bool) → EachEnds (λ m ts r. SwitchEnds m ts p r) (switch_phrase p kind selector direct ext) }
{}

/// Where no attempt begins in a whole phrase that makes no cycle of a switch before one, no cycle is one of a switch.
#[tactic(auto, using(crate::proofs::Attempts::no_cycle_outside))]
pub fn cycles_of_a_switch_stand_in_attempts()
    ensures { (t : Phrase ProcRecord) (ts : List AskRecord) (after : ProcRecord)
        → Outside t → follow t ts ≡ Whole after [] → attempts t ts ≡ [] → AllByRecursion (λ (x : AskRecord). is_of_a_switch x.role ≡ false) ts }
{}
