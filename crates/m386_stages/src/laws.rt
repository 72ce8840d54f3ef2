//! What each task switch keeps to, by its phrase alone.
ghost use Rattle.std.specs.Prelude.{◌≡◌, ℕ, Bool, List, []};
ghost use Rattle.m386_base.specs.declared.ask.Ask.{Ask};
ghost use Rattle.m386_base.specs.declared.kind.SwitchKind.{SwitchKind};
ghost use Rattle.m386_base.specs.Phrase.{follow, Whole};
ghost use Rattle.m386_state.specs.declared.proc.Proc.{Proc};
ghost use Rattle.m386_switch.specs.declared.outcome.Switched.{Switched};
ghost use Rattle.m386_switch.specs.Switch.{switch_phrase};
ghost use Rattle.m386_stages.specs.Stages.{Stage, Allowed, Keeps, Left, Path, begins};

/// Each ask of a switch, whatever is answered, is a turn from one stage to another, and the state at its end is the one that its
/// stage says.
#[tactic(auto, using(crate::proofs::Law::switch_keeps))]
pub fn a_switch_keeps_to_its_stages()
    ensures { (p : Proc) (kind : SwitchKind) (selector : ℕ) (direct ext : Bool) → Allowed p kind → Keeps p.gdtr (Left p) (begins p) (switch_phrase p kind selector direct ext) }
{}

/// The cycles of a whole switch lead from the stage where it begins to one that its state stands in.
#[tactic(auto, using(crate::proofs::Whole::switch_path))]
pub fn cycles_of_a_switch_are_turns()
    ensures { (p : Proc) (kind : SwitchKind) (selector : ℕ) (direct ext : Bool) (ts : List Ask) (r : Switched) → Allowed p kind → follow (switch_phrase p kind selector direct ext) ts ≡ Whole r [] → (g : Stage) × Path p.gdtr (begins p) ts g × Left p g r }
{}
