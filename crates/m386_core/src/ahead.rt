//! A bus on which a step is run ahead.
ghost use Rattle.std.specs.Prelude.{◌≡◌, ◌∷◌, ◌<◌, ◌≤◌, ◌↔◌, true, false, length, [], None, bit_and, slice_index_or, if◌then◌else◌};
ghost use Rattle.std.specs.List.{AllByRecursion, AllByRecursion-prop};
ghost use Rattle.m386_base.specs.Bus.{IsAsk, IsAsk-prop, IsEnabled, mask};
ghost use Rattle.m386_core.specs.Ahead.{agrees, first_joined};

use arrayvec::ArrayVec;
use m386_base::ask::{Ask, answered};
use m386_base::bus::Bus;
use m386_base::fault::Stop;
use m386_base::split::mask_of;
use m386_memory::store::Store;

/// A bus that answers the first cycles these values, and each further read what the bytes hold now, with what the further
/// cycles wrote. It keeps its cycles in a list of another's, and pauses where that is full.
#[derive(Drop)]
pub struct AheadBus<'a> {
    store: &'a Store,
    reads: &'a [u32],
    cycles: &'a mut ArrayVec<Ask, 192>,
    kept: bool,
    stops: u64,
    last: Option<Ask>,
    ghost told: { agrees cycles.now.items reads.now ≡ true },
    ghost full: { 0 < stops → length cycles.now.items ≡ 192 },
    ghost lawful: { AllByRecursion IsAsk cycles.now.items } by { AllByRecursion-prop IsAsk IsAsk-prop cycles.now.items },
    ghost opens: { first_joined cycles.now.items ≡ false },
    ghost unkept: { length cycles.now.items ≡ 0 → kept ≡ false },
}

/// What a read is answered by these bytes, with what these cycles wrote since.
#[tactic(auto, using(m386_base::proofs::Masks::and_twice))]
fn foreseen(store: &Store, since: &[Ask], ask: Ask) -> u32
    requires { ask.enables < 16 }
    ensures { IsEnabled ask.enables result }
{
    let mut value = store.read(ask.space, ask.addr, ask.enables);
    for cycle in since {
        if cycle.write && cycle.addr == ask.addr && cycle.space == ask.space {
            let mask = mask_of(cycle.enables % 16);
            value = value & !mask | cycle.value & mask;
        }
    }
    value & mask_of(ask.enables)
}

impl<'a> AheadBus<'a> {
    /// A free bus that will answer these values first. The list is cleared.
    #[tactic(auto, unfolding(crate::specs::Ahead::agrees, crate::specs::Ahead::first_joined))]
    pub fn new(
        store: &'a Store,
        reads: &'a [u32],
        cycles: &'a mut ArrayVec<Ask, 192>,
    ) -> AheadBus<'a>
        ensures same_reference { result.cycles.ghost_name ≡ cycles.entry.ghost_name }
        ensures fresh { result.cycles.now.items ≡ [] }
        ensures reads { result.reads.now ≡ reads.now }
        ensures free { result.kept ≡ false }
        ensures stops { result.stops ≡ 0 }
    {
        cycles.clear();
        AheadBus {
            store,
            reads,
            cycles,
            kept: false,
            stops: 0,
            last: None,
        }
    }

    /// What an ask is answered: the value in its place where there is one, else what is foreseen.
    #[tactic(auto, using(m386_base::proofs::Masks::and_twice))]
    fn answer(&self, ask: Ask) -> u32
        requires { ask.enables < 16 }
        ensures none { ask.write ≡ true → result ≡ 0 }
        ensures enabled { IsEnabled ask.enables result }
        ensures told { length self.now.cycles.now.items < length self.now.reads.now
            → result ≡ (if ask.write then 0 else bit_and (slice_index_or self.now.reads.now (length self.now.cycles.now.items) 0) (mask ask.enables)) }
    {
        if ask.write {
            return 0;
        }
        let made = self.cycles.len();
        if made < self.reads.len() {
            return self.reads[made] & mask_of(ask.enables);
        }
        foreseen(self.store, &self.cycles[self.reads.len()..], ask)
    }
}

impl<'a> Bus for AheadBus<'a> {
    ghost use Rattle.std.specs.Prelude.{◌≡◌, ◌∷◌, ◌↔◌, true, false, length, Some, IsErr};
    ghost use Rattle.m386_base.specs.Bus.{Answers, IsAsk};

    ghost view = { λ b. record { cycles = b.cycles.now.items; kept = b.kept; stops = b.stops; pauses = true; origin = b.cycles.ghost_name ∷ b.reads.now; wanted = b.last } };

    /// Makes one cycle. It pauses exactly where its list is full.
    #[tactic(auto, using(crate::proofs::Foreseeing::foreseeing, m386_base::proofs::Masks::and_twice))]
    fn cycle(&mut self, ask: Ask, keep: bool) -> Result<u32, Stop> {
        if self.cycles.is_full() {
            self.kept = false;
            self.stops = self.stops.saturating_add(1);
            self.last = Some(ask);
            return Err(Stop::Paused);
        }
        let value = self.answer(ask);
        self.cycles.push(answered(ask, value));
        self.kept = keep;
        Ok(value)
    }

    fn leave(&mut self) {
        self.kept = false;
    }
}
