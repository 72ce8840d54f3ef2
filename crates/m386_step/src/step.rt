//! One step of one processor.
ghost use Rattle.std.specs.Prelude.{◌≡◌, ◌≢◌, ◌+◌, ◌<◌, ◌≤◌, false, [], length, OnOk, OnErr, MatchResult};
ghost use Rattle.m386_base.specs.declared.ask.Ask.{Ask as AskRecord};
ghost use Rattle.m386_base.specs.Phrase.{PerformsOrStops, IsJudged, Whole, Wants, SameBus, Stopped, it};
ghost use Rattle.m386_step.specs.Step.{step_phrase, running_phrase, start_phrase, without_start};

use crate::events::{at_delivery, deliver_event, due};
use crate::instruction::instruction;
use crate::settled::{behind_start, with_fault};
use m386_base::bus::Bus;
use m386_base::fault::{Break, Stop};
use m386_base::kind::SwitchKind;
use m386_state::proc::{Mode, Proc};
use m386_switch::switch::switch;
use m386_transfer::executed::came;

/// The state that owes no start any more.
fn without_start(p: &Proc) -> Proc
    ensures { result ≡ without_start p.now }
{
    let mut after = *p;
    after.start = None;
    after
}

/// The start of a processor in its first task: a switch that leaves no task. Where one of rows 1 to 7 fails the processor shuts down, and
/// a row of the new task is pending there.
#[tactic(auto, using(m386_base::proofs::Phrases::calls), unfolding(crate::specs::Step::start_phrase))]
fn start<B: Bus>(p: &Proc, bus: &mut B, selector: u16) -> Result<Proc, Stop>
    requires free { (B.view bus.old).kept ≡ false }
    ensures cycles { PerformsOrStops (start_phrase p.now selector) (B.view bus.old) (B.view bus.new) it result }
    ensures free { (B.view bus.new).kept ≡ false }
{
    let begun = without_start(p);
    let mut after = begun;
    let outcome = switch(&mut after, bus, SwitchKind::Start, selector, false, false)?;
    Ok(behind_start(&begun, &came(after, outcome)))
}

/// One instruction, with its fault pending afterwards. The registers are then as at the step's start.
#[tactic(auto, using(m386_base::proofs::Phrases::caught), unfolding(crate::specs::Step::running_phrase))]
fn run<B: Bus>(p: &Proc, bus: &mut B) -> Result<Proc, Stop>
    requires free { (B.view bus.old).kept ≡ false }
    ensures cycles { PerformsOrStops (running_phrase p.now) (B.view bus.old) (B.view bus.new) it result }
    ensures free { (B.view bus.new).kept ≡ false }
{
    match instruction(p, bus) {
        Ok(after) => Ok(after),
        Err(Break::Fault(fault)) => Ok(with_fault(p, fault)),
        Err(Break::Stop(stop)) => Err(stop),
    }
}

/// One step: the start or the event that is due, else a turn of a halted processor, else one instruction.
#[tactic(auto, using(m386_base::proofs::Phrases::calls), unfolding(crate::specs::Step::step_phrase))]
pub fn advance<B: Bus>(p: &mut Proc, bus: &mut B) -> Result<(), Stop>
    requires free { (B.view bus.old).kept ≡ false }
    requires lives { p.old.mode ≢ Mode.Shutdown }
    ensures cycles { PerformsOrStops (step_phrase p.old) (B.view bus.old) (B.view bus.new) (λ _. p.new) result }
    ensures free { (B.view bus.new).kept ≡ false }
    ensures stopped { OnErr result (p.new ≡ p.old) }
{
    if let Some(selector) = p.start {
        *p = start(p, bus, selector)?;
        return Ok(());
    }
    if let Some(event) = due(p) {
        *p = deliver_event(&at_delivery(p), &event, bus)?;
        return Ok(());
    }
    let mut begun = *p;
    begun.shadow = false;
    if begun.mode == Mode::Halted {
        *p = begun;
        return Ok(());
    }
    *p = run(&begun, bus)?;
    Ok(())
}

/// One step. `Ok`: the cycles that it added to the bus are one whole step from the old state, at most 192, and `p` is the
/// state after it. `Stop`: they are a proper front of one, `p` is as before, the bus is free, and it refused the ask that
/// the step wants next. A stop comes only where the bus answered it in this call.
#[tactic(auto, using(m386_base::proofs::Phrases::completes_judged, m386_base::proofs::Phrases::breaks_judged, crate::proofs::Few::whole_adds_few, crate::proofs::Few::front_adds_fewer))]
pub fn step<B: Bus>(p: &mut Proc, bus: &mut B) -> Result<(), Stop>
    requires free { (B.view bus.old).kept ≡ false }
    requires lives { p.old.mode ≢ Mode.Shutdown }
    ensures whole { OnOk result (IsJudged (step_phrase p.old) (B.view bus.old) (B.view bus.new) (Whole p.new [])) }
    ensures bus { MatchResult result (λ _. SameBus (B.view bus.old) (B.view bus.new)) (Stopped (B.view bus.old) (B.view bus.new)) }
    ensures wants { OnErr result ((q : AskRecord) × IsJudged (step_phrase p.old) (B.view bus.old) (B.view bus.new) (Wants q) × ((B.view bus.new).wanted ≡ Some q)) }
    ensures few { OnOk result (length (B.view bus.new).cycles ≤ length (B.view bus.old).cycles + 192) }
    ensures fewer { OnErr result (length (B.view bus.new).cycles < length (B.view bus.old).cycles + 192) }
    ensures free { (B.view bus.new).kept ≡ false }
    ensures stopped { OnErr result (p.new ≡ p.old) }
{
    advance(p, bus)
}
