//! The bus of one processor, and the three things that a call does on it.
ghost use Rattle.std.specs.Prelude.{◌≡◌, false, if◌then◌else◌, is_ok};
ghost use Rattle.m386_base.specs.Bus.{BusView, IsAsk, Answers};
ghost use Rattle.m386_base.specs.Phrase.{Performs, PerformsOrStops, Frees, one, it};

use crate::ask::Ask;
use crate::fault::{Break, Stop};

/// What one processor makes its cycles on. Whatever is shared lies behind it.
pub trait Bus {
    /// What a contract sees of a bus: its cycles so far, whether it is kept, how often it stopped, whether it pauses,
    /// what it was made with, and the ask that it refused last.
    ghost view: { Self → BusView };

    /// Makes one cycle and answers the bytes read, 0 for a write. The bus is kept for the next cycle exactly where
    /// `keep` says so. A `Stop` makes no cycle, frees the bus and is counted.
    fn cycle(&mut self, ask: Ask, keep: bool) -> Result<u32, Stop>
        requires lawful { IsAsk ask }
        requires joined { ask.joined ≡ (view self.old).kept }
        ensures { Answers ask keep (view self.old) (view self.new) result };

    /// Frees the bus. It makes no cycle.
    fn leave(&mut self)
        ensures { view self.new ≡ record (view self.old) { kept = false } };
}

/// One cycle of a call that may also find a fault.
pub fn cycle_or_fault<B: Bus>(bus: &mut B, ask: Ask, keep: bool) -> Result<u32, Break>
    requires lawful { IsAsk ask }
    requires joined { ask.joined ≡ (B.view bus.old).kept }
    ensures cycles { Performs (one ask) (B.view bus.old) (B.view bus.new) it result }
    ensures kept { (B.view bus.new).kept ≡ (if is_ok result then keep else false) }
{
    Ok(bus.cycle(ask, keep)?)
}

/// One cycle of a call that finds no fault.
pub fn cycle<B: Bus>(bus: &mut B, ask: Ask, keep: bool) -> Result<u32, Stop>
    requires lawful { IsAsk ask }
    requires joined { ask.joined ≡ (B.view bus.old).kept }
    ensures cycles { PerformsOrStops (one ask) (B.view bus.old) (B.view bus.new) it result }
    ensures kept { (B.view bus.new).kept ≡ (if is_ok result then keep else false) }
{
    bus.cycle(ask, keep)
}

/// Frees a kept bus in the midst of a call.
pub fn leave<B: Bus>(bus: &mut B)
    ensures { Frees (B.view bus.old) (B.view bus.new) }
{
    bus.leave();
}
