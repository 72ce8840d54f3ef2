//! A bus that answers listed values.
ghost use Rattle.std.specs.Prelude.{◌≡◌, ◌<◌, ◌≤◌, ◌↔◌, true, false, length, ℕ, [], None, IsSome};
ghost use Rattle.std.specs.Option.{ForSome};
ghost use Rattle.m386_base.specs.Bus.{IsAsk, IsAsk-prop};
ghost use Rattle.m386_base.specs.Replay.{are_told};

use crate::ask::{Ask, answered};
use crate::bus::Bus;
use crate::fault::Stop;
use crate::split::mask_of;
use arrayvec::ArrayVec;

/// A bus that answers the listed values one after another, and then pauses. Of a listed value only the enabled bytes
/// count, and a write is answered 0. It takes no memory.
#[derive(Drop)]
pub struct ProbeBus<'a> {
    reads: &'a [u32],
    asks: ArrayVec<Ask, 192>,
    kept: bool,
    stops: u64,
    first: Option<Ask>,
    last: Option<Ask>,
    ghost few: { length reads.now ≤ 192 },
    ghost told: { are_told asks.items reads.now ≡ true },
    ghost within: { length asks.items ≤ length reads.now },
    ghost used: { 0 < stops → length asks.items ≡ length reads.now },
    ghost none: { stops ≡ 0 → first ≡ None },
    ghost lawful: { ForSome last IsAsk } by { Prim.hlevel IsAsk-prop },
    ghost opens: { length reads.now ≡ 0 → ForSome last (λ q. q.joined ≡ false) },
    ghost unkept: { length asks.items ≡ 0 → kept ≡ false },
    ghost refused: { 0 < stops → IsSome first },
}

impl<'a> ProbeBus<'a> {
    /// A bus that will answer these values, at most 192.
    #[tactic(auto, unfolding(crate::specs::Replay::are_told))]
    pub fn new(reads: &'a [u32]) -> ProbeBus<'a>
        requires { length reads.now ≤ 192 }
        ensures first { result.first ≡ None }
        ensures free { result.kept ≡ false }
        ensures fresh { result.asks.items ≡ [] }
        ensures reads { result.reads.now ≡ reads.now }
        ensures stops { result.stops ≡ 0 }
    {
        ProbeBus {
            reads,
            asks: ArrayVec::new(),
            kept: false,
            stops: 0,
            first: None,
            last: None,
        }
    }

    /// The first ask that it refused, and `None` exactly where it refused none.
    pub fn wanted(&self) -> Option<Ask>
        ensures first { result ≡ self.now.first }
        ensures none { result ≡ None ↔ (self.now.stops ≡ 0) }
    {
        self.first
    }

    /// The ask that it refused last.
    pub fn wanted_last(&self) -> Option<Ask>
        ensures { result ≡ self.now.last }
    {
        self.last
    }

    /// How many cycles it made, at most 192.
    pub fn made(&self) -> usize
        ensures made { result ≡ length self.now.asks.items }
        ensures few { result ≤ 192 }
    {
        self.asks.len()
    }
}

impl<'a> Bus for ProbeBus<'a> {
    ghost use Rattle.std.specs.Prelude.{◌≡◌, ◌↔◌, true, false, length, Some, IsErr, is_ok, if◌then◌else◌};
    ghost use Rattle.std.specs.Option.{option_or};
    ghost use Rattle.m386_base.specs.Bus.{Answers, IsAsk};

    ghost view = { λ b. record { cycles = b.asks.items; kept = b.kept; stops = b.stops; pauses = true; origin = b.reads.now; wanted = b.last } };

    /// Makes one cycle. It pauses exactly where the listed values are used up, and keeps the first ask that it refused.
    #[tactic(auto, using(crate::proofs::Replays::probing, crate::proofs::Masks::and_twice))]
    fn cycle(&mut self, ask: Ask, keep: bool) -> Result<u32, Stop>
        requires lawful { IsAsk ask }
        requires joined { ask.joined ≡ (⟦<ProbeBus<'a> as Bus>⟧.view self.old).kept }
        ensures answers { Answers ask keep (⟦<ProbeBus<'a> as Bus>⟧.view self.old) (⟦<ProbeBus<'a> as Bus>⟧.view self.new) result }
        ensures paused { IsErr result ↔ (length self.old.asks.items ≡ length self.old.reads.now) }
        ensures first { self.new.first ≡ (if is_ok result then self.old.first else option_or self.old.first (Some ask)) }
    {
        let made = self.asks.len();
        if made == self.reads.len() {
            self.kept = false;
            self.stops = self.stops.saturating_add(1);
            if self.first.is_none() {
                self.first = Some(ask);
            }
            self.last = Some(ask);
            return Err(Stop::Paused);
        }
        let value = if ask.write {
            0
        } else {
            self.reads[made] & mask_of(ask.enables)
        };
        self.asks.push(answered(ask, value));
        self.kept = keep;
        Ok(value)
    }

    fn leave(&mut self)
        ensures freed { ⟦<ProbeBus<'a> as Bus>⟧.view self.new ≡ record (⟦<ProbeBus<'a> as Bus>⟧.view self.old) { kept = false } }
        ensures first { self.new.first ≡ self.old.first }
    {
        self.kept = false;
    }
}
