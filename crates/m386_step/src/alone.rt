//! One step over a bus over a few bytes.
ghost use Rattle.std.specs.Prelude.{◌≡◌, ◌≢◌, false, []};
ghost use Rattle.m386_base.specs.Phrase.{IsJudged, Whole, SameBus};
ghost use Rattle.m386_step.specs.Step.{step_phrase};

use crate::step::step;
use m386_base::bus::Bus;
use m386_memory::fixed::FixedBus;
use m386_state::proc::{Mode, Proc};

/// One step over a bus over a few bytes that keeps no cycle. It is always whole: such a bus has room for as many cycles as
/// a step asks for at most.
pub fn step_alone<const N: usize>(p: &mut Proc, bus: &mut FixedBus<N>)
    requires free { (⟦<FixedBus<N> as Bus>⟧.view bus.old).kept ≡ false }
    requires none { (⟦<FixedBus<N> as Bus>⟧.view bus.old).cycles ≡ [] }
    requires lives { p.old.mode ≢ Mode.Shutdown }
    ensures whole { IsJudged (step_phrase p.old) (⟦<FixedBus<N> as Bus>⟧.view bus.old) (⟦<FixedBus<N> as Bus>⟧.view bus.new) (Whole p.new []) }
    ensures bus { SameBus (⟦<FixedBus<N> as Bus>⟧.view bus.old) (⟦<FixedBus<N> as Bus>⟧.view bus.new) }
    ensures free { (⟦<FixedBus<N> as Bus>⟧.view bus.new).kept ≡ false }
{
    if step(p, bus).is_err() {
        unreachable!("a step asks for at most 192 cycles");
    }
}
