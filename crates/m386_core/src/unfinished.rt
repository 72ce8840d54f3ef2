//! What a machine keeps of one processor between two cycles: its unfinished step, run ahead to its end.
ghost use Rattle.std.specs.Prelude.{◌≡◌, ◌≢◌, ◌+◌, ◌<◌, ◌≤◌, ◌++◌, ◌∷◌, [], true, false, List, length, ℕ, Some, None, if◌then◌else◌};
ghost use Rattle.std.specs.Option.{ForSome};
ghost use Rattle.m386_base.specs.declared.ask.Ask.{Ask as AskRecord};
ghost use Rattle.m386_base.specs.Bus.{IsEnabled, cycle_of};
ghost use Rattle.m386_state.specs.declared.proc.Proc.{Proc as ProcRecord};
ghost use Rattle.m386_step.specs.Steps.{Plan, requested};
ghost use Rattle.m386_core.specs.Ahead.{asked_of};
ghost use Rattle.m386_core.specs.Plans.{entries_left};
ghost use Rattle.m386_core.specs.Unfinished.{StepsLeaving, Foresees, HearsOn, Waits, EndsOrWaits, is_joined};

use crate::ahead::AheadBus;
use crate::plans::PlanLeft;
use arrayvec::ArrayVec;
use m386_base::ask::Ask;
use m386_memory::ended::ProcEnd;
use m386_memory::store::Store;
use m386_state::proc::{Mode, Proc};
use m386_step::step::step;

/// The unfinished step of a processor: what it was answered so far, that step run to its end, and what it asks for next.
#[derive(Drop)]
pub struct Unfinished<'a> {
    /// What is left of the processor's plan before the step.
    pub plan: PlanLeft<'a>,
    /// The values that the cycles made so far were answered, 0 for a write.
    pub answers: ArrayVec<u32, 192>,
    /// The cycles of the whole step: those that were made, and then the foreseen ones.
    pub cycles: ArrayVec<Ask, 192>,
    /// The state after the whole step, as it is foreseen.
    pub after: Proc,
    /// The cycle that the processor asks for next, and `None` where it has finished.
    pub next: Option<Ask>,
}

/// A cycle as it is asked for.
fn asked(cycle: Ask) -> Ask
    ensures { result ≡ asked_of cycle }
{
    if cycle.write {
        cycle
    } else {
        Ask { value: 0, ..cycle }
    }
}

impl<'a> Unfinished<'a> {
    /// The first step of a processor in this state, of which nothing was run ahead yet.
    pub fn new(plan: PlanLeft<'a>, p: &Proc) -> Unfinished<'a>
        ensures plan { result.plan ≡ plan.entry }
        ensures answers { result.answers.items ≡ [] }
    {
        Unfinished {
            plan,
            answers: ArrayVec::new(),
            cycles: ArrayVec::new(),
            after: *p,
            next: None,
        }
    }

    /// Runs the step from this state to its end, over what it was answered so far and then what the bytes hold now.
    fn foresee(&mut self, begun: &Proc, store: &Store)
        requires lives { begun.now.mode ≢ Mode.Shutdown }
        ensures foresees { Foresees begun.now self.new.answers.items self.new.cycles.items self.new.after }
        ensures answers { self.new.answers.items ≡ self.old.answers.items }
        ensures plan { self.new.plan ≡ self.old.plan }
    {
        self.after = *begun;
        let mut bus = AheadBus::new(store, self.answers.as_slice(), &mut self.cycles);
        if step(&mut self.after, &mut bus).is_err() {
            unreachable!("a step asks for at most 192 cycles");
        }
    }

    /// Takes what the next ask was answered. The step is run ahead again where what was read isn't what was foreseen.
    fn take(&mut self, end: &ProcEnd<Proc>, value: u32, store: &Store)
        requires room { length self.old.answers.items < 192 }
        requires ahead { length self.old.answers.items < length self.old.cycles.items }
        requires lives { end.now.after.mode ≢ Mode.Shutdown }
        ensures hears { (n : ℕ) (q : Plan) (s : ProcRecord) (ts : List AskRecord) (cpu : ℕ) (ask : AskRecord)
            → (w : Waits n q s ts end.now self.old (entries_left cpu self.old.plan) ask)
            → IsEnabled ask.enables value → (ask.write ≡ true → value ≡ 0)
            → HearsOn (requested (entries_left cpu self.old.plan) end.now.steps end.now.after) (w.front ++ cycle_of ask value ∷ []) self.new.answers.items self.new.cycles.items self.new.after }
        ensures answers { self.new.answers.items ≡ self.old.answers.items ++ value ∷ [] }
        ensures plan { self.new.plan ≡ self.old.plan }
    {
        let foreseen = self.cycles[self.answers.len()];
        self.answers.push(value);
        if foreseen.write || foreseen.value == value {
            return;
        }
        let begun = self.plan.begun(end.steps, &end.after);
        self.foresee(&begun, store);
    }

    /// Takes the whole steps that make no cycle, up to the budget, and finds the first ask of the step behind them, which
    /// isn't joined; none where the processor has finished.
    #[tactic(auto, using(crate::proofs::Places::leaving_steps))]
    pub fn settle(&mut self, end: &mut ProcEnd<Proc>, cpu: u8, budget: u32, store: &Store)
        requires within { end.old.steps ≤ budget }
        requires none { self.old.answers.items ≡ [] }
        ensures stands { (q : Plan) (s : ProcRecord) (ts : List AskRecord)
            → StepsLeaving end.old.steps q 0 s ts end.old.after (entries_left cpu self.old.plan)
            → EndsOrWaits budget q s ts end.new self.new (entries_left cpu self.new.plan) self.new.next }
        ensures opens { ForSome self.new.next (λ a. a.joined ≡ false) }
    {
        while end.steps < budget && end.after.mode != Mode::Shutdown {
            let begun = self.plan.begun(end.steps, &end.after);
            self.foresee(&begun, store);
            if 0 < self.cycles.len() {
                self.next = Some(asked(self.cycles[0]));
                return;
            }
            self.plan = self.plan.after(cpu, end.steps, &end.after);
            end.after = self.after;
            end.steps += 1;
        }
        self.next = None;
    }

    /// Takes what the next ask was answered, and finds the ask behind it: the step is run ahead again where what was read
    /// isn't what was foreseen. Where that ends the step, the whole steps that follow and make no cycle are taken too.
    pub fn hear(&mut self, end: &mut ProcEnd<Proc>, cpu: u8, budget: u32, value: u32, store: &Store)
        requires room { length self.old.answers.items < 192 }
        requires ahead { length self.old.answers.items < length self.old.cycles.items }
        requires fewer { end.old.steps < budget }
        requires lives { end.old.after.mode ≢ Mode.Shutdown }
        ensures { (q : Plan) (s : ProcRecord) (ts : List AskRecord) (ask : AskRecord)
            → Waits budget q s ts end.old self.old (entries_left cpu self.old.plan) ask
            → IsEnabled ask.enables value → (ask.write ≡ true → value ≡ 0)
            → EndsOrWaits budget q s (ts ++ cycle_of ask value ∷ []) end.new self.new (entries_left cpu self.new.plan) self.new.next }
    {
        self.take(end, value, store);
        let made = self.answers.len();
        if made < self.cycles.len() {
            self.next = Some(asked(self.cycles[made]));
            return;
        }
        self.plan = self.plan.after(cpu, end.steps, &end.after);
        end.after = self.after;
        end.steps += 1;
        self.answers.clear();
        self.settle(end, cpu, budget, store);
    }

    /// The number of its processor, where that is amid a locked group: its next ask is joined to the cycle before it.
    pub fn midgroup(&self, cpu: u8) -> Option<u8>
        ensures { result ≡ (if is_joined self.now.next then Some cpu else None) }
    {
        match &self.next {
            Some(ask) if ask.joined => Some(cpu),
            _ => None,
        }
    }
}
