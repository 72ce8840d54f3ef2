//! What is left of a processor's plan of interrupts.
ghost use Rattle.std.specs.Prelude.{◌≡◌, ℕ};
ghost use Rattle.m386_step.specs.Steps.{requested, planned, is_requested};
ghost use Rattle.m386_core.specs.Plans.{entries_of, entries_left};

use m386_image::image::Planned;
use m386_state::proc::Proc;

/// What is left of the plan of one processor: its front entry, and the entries behind it, with those of others among them.
#[derive(Clone, Copy)]
pub struct PlanLeft<'a> {
    /// The entry that becomes the processor's request next, and `None` where none is left.
    pub front: Option<Planned>,
    /// The entries of all processors behind it.
    pub behind: &'a [Planned],
}

impl<'a> PlanLeft<'a> {
    /// The plan of a processor, out of these entries of all processors.
    pub fn of(entries: &'a [Planned], cpu: u8) -> PlanLeft<'a>
        ensures { entries_left cpu result ≡ entries_of cpu entries.now }
    {
        let mut behind = entries;
        while let Some((first, rest)) = behind.split_first() {
            behind = rest;
            if first.cpu == cpu {
                return PlanLeft {
                    front: Some(*first),
                    behind,
                };
            }
        }
        PlanLeft {
            front: None,
            behind,
        }
    }

    /// Whether the front entry becomes the request of a processor in this state, after so many completed steps: its step
    /// has come, and no request stands.
    fn has_come(&self, steps: u32, p: &Proc) -> bool
        ensures { (cpu : ℕ) → result ≡ is_requested (entries_left cpu self.now) steps p.now }
    {
        match &self.front {
            Some(entry) => p.request.is_none() && entry.step <= steps,
            None => false,
        }
    }

    /// The state in which the step begins that follows so many completed ones.
    pub fn begun(&self, steps: u32, p: &Proc) -> Proc
        ensures begun { (cpu : ℕ) → result ≡ requested (entries_left cpu self.now) steps p.now }
        ensures mode { result.mode ≡ p.now.mode }
    {
        let mut begun = *p;
        if self.has_come(steps, p)
            && let Some(entry) = &self.front
        {
            begun.request = Some(entry.vector);
        }
        begun
    }

    /// What is left once that step has begun in this state.
    pub fn after(self, cpu: u8, steps: u32, p: &Proc) -> PlanLeft<'a>
        ensures { entries_left cpu result ≡ planned (entries_left cpu self.entry) steps p.now }
    {
        if self.has_come(steps, p) {
            PlanLeft::of(self.behind, cpu)
        } else {
            self
        }
    }
}
