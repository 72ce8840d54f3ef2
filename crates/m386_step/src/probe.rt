//! A step over listed values.
ghost use Rattle.std.specs.Prelude.{◌≡◌, ◌≢◌, ◌≤◌, length, false};
ghost use Rattle.m386_base.specs.Bus.{IsAsk};
ghost use Rattle.m386_base.specs.Replay.{replay};
ghost use Rattle.m386_step.specs.Probes.{Probes, IfWants};
ghost use Rattle.m386_step.specs.Step.{step_phrase};

use crate::answer::Probe;
use crate::step::advance;
use m386_base::probe::ProbeBus;
use m386_state::proc::{Mode, Proc};

/// What a step from this state comes to where its cycles are answered these values, at most 192: one for each cycle, 0 for
/// a write. It wants a further cycle exactly where the step's definition asks for one: one that may be made, and the first
/// of a step isn't joined. It takes no memory.
#[tactic(auto, using(m386_base::proofs::Probing::probe_whole, m386_base::proofs::Probing::probe_wants))]
pub fn probe(p: &Proc, reads: &[u32]) -> Probe
    requires few { length reads.now ≤ 192 }
    requires lives { p.now.mode ≢ Mode.Shutdown }
    ensures replayed { Probes (replay (step_phrase p.now) reads.now) result }
    ensures lawful { IfWants result IsAsk }
    ensures opens { length reads.now ≡ 0 → IfWants result (λ q. q.joined ≡ false) }
{
    let mut after = *p;
    let mut bus = ProbeBus::new(reads);
    match advance(&mut after, &mut bus) {
        Ok(()) => Probe::Whole {
            after,
            used: bus.made() as u8,
        },
        Err(_) => match bus.wanted_last() {
            Some(ask) => Probe::Wants(ask),
            None => unreachable!(),
        },
    }
}
