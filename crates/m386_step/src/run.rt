//! Whole steps of one processor, one after another.
ghost use Rattle.std.specs.Prelude.{◌≡◌, false, [], IfOk, OnErr, MatchResult};
ghost use Rattle.m386_base.specs.Phrase.{SameBus, Stopped};
ghost use Rattle.m386_step.specs.Steps.{RunsOn, StopsAmid};

use crate::step::step;
use m386_base::bus::Bus;
use m386_base::fault::Stop;
use m386_state::proc::{Mode, Proc};

/// Makes whole steps until `steps` of them are made or the processor is shut down, and answers how many it made. Where the
/// bus stops, the cycles added are whole steps and a proper front of one, `p` is the state after the whole ones, and the bus
/// is free and refused the ask that comes next. A stop comes only where the bus answered it in this call.
#[tactic(auto, using(crate::proofs::StepLists::so_far_none, crate::proofs::StepLists::so_far_more, crate::proofs::StepLists::runs_out, crate::proofs::StepLists::runs_down, crate::proofs::StepLists::stops_amid, crate::proofs::StepLists::stopped_then))]
pub fn run<B: Bus>(p: &mut Proc, bus: &mut B, steps: u32) -> Result<u32, Stop>
    requires free { (B.view bus.old).kept ≡ false }
    ensures ran { IfOk result (λ made. RunsOn [] steps p.old (B.view bus.old) (B.view bus.new) p.new made) }
    ensures stopped { OnErr result (StopsAmid [] steps p.old (B.view bus.old) (B.view bus.new) p.new) }
    ensures bus { MatchResult result (λ _. SameBus (B.view bus.old) (B.view bus.new)) (Stopped (B.view bus.old) (B.view bus.new)) }
    ensures free { (B.view bus.new).kept ≡ false }
{
    for made in 0..steps {
        if p.mode == Mode::Shutdown {
            return Ok(made);
        }
        step(p, bus)?;
    }
    Ok(steps)
}
