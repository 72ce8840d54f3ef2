//! Several processors that take turns, each turn one cycle or one whole locked group.
ghost use Rattle.std.specs.Prelude.{◌≡◌, ◌<◌, ◌↔◌, ℕ, true};
ghost use Rattle.m386_turns.specs.Turns.{IsLawful, Stays, TakesTurn};

use m386_base::fault::NoMemory;

/// What came of a processor's turn.
#[derive(Clone, Copy, Debug, PartialEq, Eq)]
pub enum Turn {
    /// Cycles of it were made.
    Made,
    /// It has finished, or another is amid a locked group. Nothing changed.
    PassedOver,
}

/// Several processors, of which one at a time makes cycles, a locked group in one turn.
pub trait Turns {
    /// How many processors there are.
    ghost count: { Self → ℕ };

    /// Which processors have finished.
    ghost done: { Self → ℕ → Type 0 };

    /// Which processor is amid a locked group: its next ask is joined to its last cycle.
    ghost amid: { Self → ℕ → Type 0 };

    /// How many cycles each processor has made.
    ghost made: { Self → ℕ → ℕ };

    /// How many processors there are.
    fn count(&self) -> u8
        ensures count { result ≡ count self.now }
        ensures lawful { IsLawful (count self.now) (done self.now) (amid self.now) };

    /// Makes the next cycle of a processor, and those joined to it that follow. It is passed over exactly where it has finished
    /// or another is amid a locked group. Where there is no memory to keep a cycle, the cycles that this call made before stay,
    /// and their locked group may stand open.
    fn group(&mut self, cpu: u8) -> Result<Turn, NoMemory>
        requires { cpu < count self.old }
        ensures stays { Stays count done made self.old self.new }
        ensures turn { TakesTurn done amid made cpu self.old self.new result };

    /// Whether a processor has finished.
    fn finished(&self, cpu: u8) -> bool
        requires { cpu < count self.now }
        ensures { (result ≡ true) ↔ done self.now cpu };

    /// How many cycles a processor has made.
    fn made(&self, cpu: u8) -> u32
        requires { cpu < count self.now }
        ensures { result ≡ made self.now cpu };
}
