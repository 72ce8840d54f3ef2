//! A bus over a few bytes, for one processor and a step or two.
ghost use Rattle.std.specs.Prelude.{◌≡◌, ◌<◌, [], None, true, false, is_some, length, slice_set};
ghost use Rattle.m386_base.specs.Bus.{IsEnabled, empty_view};
ghost use Rattle.m386_memory.specs.Contents.{zeros, group_in};
ghost use Rattle.m386_memory.specs.Fixed.{few, few_after, asks_in, by_zero};

use crate::group;
use arrayvec::ArrayVec;
use m386_base::ask::{Ask, Cycle, Space, answered};
use m386_base::bus::Bus;
use m386_base::fault::Stop;

/// A bus over `N` bytes of memory that keeps up to 192 cycles, as many as a step makes at most, and then pauses. It
/// takes no memory. A byte at or past `N` reads as FF and a port byte as 0; what is written there is lost.
#[derive(Drop)]
pub struct FixedBus<const N: usize> {
    bytes: [u8; N],
    cycles: ArrayVec<Cycle, 192>,
    kept: bool,
    stops: u64,
    wanted: Option<Ask>,
    ghost named: { cycles.items ≡ by_zero (asks_in cycles.items) },
    ghost refused: { is_some wanted ≡ true → length cycles.items ≡ 192 },
}

/// Makes an ask on the bytes and gives what it is answered.
fn reach(bytes: &mut [u8], ask: Ask) -> u32
    ensures none { ask.write ≡ true → result ≡ 0 }
    ensures enabled { IsEnabled ask.enables result }
    ensures read { ask.write ≡ false → result ≡ group_in (few bytes.old) ask.space ask.addr ask.enables }
    ensures bytes { bytes.new ≡ few_after bytes.old ask }
{
    match (ask.space, ask.write) {
        (Space::Port, _) => 0,
        (Space::Memory, false) => group::read(bytes, 0xff, ask.addr, ask.enables),
        (Space::Memory, true) => {
            group::write(bytes, ask.addr, ask.enables, ask.value);
            0
        }
    }
}

impl<const N: usize> FixedBus<N> {
    /// A free bus with no cycle, and every byte 0.
    #[tactic(auto, unfolding(crate::specs::Contents::zeros))]
    pub fn new() -> FixedBus<N>
        ensures view { ⟦<FixedBus<N> as Bus>⟧.view result ≡ empty_view }
        ensures bytes { result.bytes ≡ zeros N }
    {
        FixedBus {
            bytes: [0; N],
            cycles: ArrayVec::new(),
            kept: false,
            stops: 0,
            wanted: None,
        }
    }

    /// Drops the cycles and frees the bus, and forgets what it refused. The bytes stay.
    pub fn clear(&mut self)
        ensures view { ⟦<FixedBus<N> as Bus>⟧.view self.new
            ≡ record (⟦<FixedBus<N> as Bus>⟧.view self.old) { cycles = []; kept = false; wanted = None } }
        ensures bytes { self.new.bytes ≡ self.old.bytes }
    {
        self.cycles.clear();
        self.kept = false;
        self.wanted = None;
    }

    /// The cycles made since the bus was made or cleared, in their order, as those of processor 0.
    pub fn cycles(&self) -> &[Cycle]
        ensures { result.now ≡ by_zero (⟦<FixedBus<N> as Bus>⟧.view self.now).cycles }
    {
        self.cycles.as_slice()
    }

    /// Puts one byte into memory. It makes no cycle.
    pub fn poke(&mut self, addr: u32, byte: u8)
        requires { addr < N }
        ensures view { ⟦<FixedBus<N> as Bus>⟧.view self.new ≡ ⟦<FixedBus<N> as Bus>⟧.view self.old }
        ensures bytes { self.new.bytes ≡ slice_set self.old.bytes addr byte }
    {
        self.bytes[addr as usize] = byte;
    }
}

impl<const N: usize> Bus for FixedBus<N> {
    ghost use Rattle.std.specs.Prelude.{◌≡◌, ◌↔◌, true, false, [], length, IfOk, IsErr, is_ok, if◌then◌else◌};
    ghost use Rattle.m386_base.specs.Bus.{Answers};
    ghost use Rattle.m386_memory.specs.Contents.{group_in};
    ghost use Rattle.m386_memory.specs.Fixed.{asks_in, few, few_after};

    ghost view = { λ b. record { cycles = asks_in b.cycles.items; kept = b.kept; stops = b.stops; pauses = true; origin = []; wanted = b.wanted } };

    /// Makes one cycle. It pauses exactly where 192 cycles are kept, and then no byte changes.
    fn cycle(&mut self, ask: Ask, keep: bool) -> Result<u32, Stop>
        ensures answers { Answers ask keep (⟦<FixedBus<N> as Bus>⟧.view self.old) (⟦<FixedBus<N> as Bus>⟧.view self.new) result }
        ensures paused { IsErr result ↔ (length self.old.cycles.items ≡ 192) }
        ensures read { IfOk result (λ v. ask.write ≡ false → v ≡ group_in (few self.old.bytes) ask.space ask.addr ask.enables) }
        ensures bytes { self.new.bytes ≡ (if is_ok result then few_after self.old.bytes ask else self.old.bytes) }
    {
        if self.cycles.is_full() {
            self.kept = false;
            self.stops = self.stops.saturating_add(1);
            self.wanted = Some(ask);
            return Err(Stop::Paused);
        }
        let value = reach(&mut self.bytes, ask);
        self.cycles.push(Cycle {
            cpu: 0,
            ask: answered(ask, value),
        });
        self.kept = keep;
        Ok(value)
    }

    fn leave(&mut self)
        ensures freed { ⟦<FixedBus<N> as Bus>⟧.view self.new ≡ record (⟦<FixedBus<N> as Bus>⟧.view self.old) { kept = false } }
        ensures bytes { self.new.bytes ≡ self.old.bytes }
    {
        self.kept = false;
    }
}
