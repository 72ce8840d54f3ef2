//! The laws of what transfers share.
ghost use Rattle.std.specs.Prelude.{◌≡◌, Bool, ℕ, List, ◌<◌, ◌^◌};
ghost use Rattle.m386_base.specs.declared.ask.Ask.{Ask as AskRecord};
ghost use Rattle.m386_base.specs.declared.kind.SwitchKind.{SwitchKind as SwitchKindName};
ghost use Rattle.m386_base.specs.Laws.{AtMost};
ghost use Rattle.m386_base.specs.Plain.{Plain};
ghost use Rattle.m386_desc.specs.Bytes.{descriptor_in, two_doublewords};
ghost use Rattle.m386_desc.specs.Gate.{gate_in};
ghost use Rattle.m386_access.specs.Ordinary.{Ordinary, Keeps};
ghost use Rattle.m386_state.specs.declared.proc.Proc.{Proc as ProcRecord};
ghost use Rattle.m386_stack.specs.declared.stack.Stack.{Stack as StackRecord};
ghost use Rattle.m386_transfer.specs.Gate.{gate_of};
ghost use Rattle.m386_transfer.specs.Return.{return_phrase};
ghost use Rattle.m386_switch.specs.Switch.{work_phrase};
ghost use Rattle.m386_transfer.specs.Tried.{switch_bound};

/// A return makes at most fourteen cycles, whatever went before: five for CS and its accessed byte, two for each of ESP and SS, and
/// five for the new SS and its accessed byte. Each is one that an ordinary operation may make. TR, the GDT register and NT stay.
#[tactic(auto, using(crate::proofs::Plain::return_plain))]
pub fn returns_are_plain()
    ensures { (p : ProcRecord) (ts : List AskRecord) (selector eip : ℕ) (st : StackRecord) (len released : ℕ) → Plain 14 (Ordinary p.gdtr) (Keeps p) ts (return_phrase p selector eip st len released) }
{}

/// The work of a switch makes at most 113 cycles, whatever is answered: two for the back link, five for the descriptor of the new TSS and
/// its claim, 32 for the save, two each for the new link and the release, 36 for the load, and 34 for the descriptors of the new task
/// and their accessed bytes.
#[tactic(auto, using(crate::proofs::Work::work_short))]
pub fn switches_are_short()
    ensures { (p : ProcRecord) (kind : SwitchKindName) (selector : ℕ) (direct ext : Bool) → AtMost switch_bound (work_phrase p kind selector direct ext) }
{}

/// A gate whose eight bytes were read as a descriptor is the gate of these bytes.
#[tactic(auto, using(crate::proofs::Gates::gate_read))]
pub fn gates_are_read_as_descriptors()
    ensures { (lo hi : ℕ) → lo < 2 ^ 32 → hi < 2 ^ 32 → gate_of (descriptor_in (two_doublewords lo hi)) ≡ gate_in (two_doublewords lo hi) }
{}
