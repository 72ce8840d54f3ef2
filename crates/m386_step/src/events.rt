//! Events: what is delivered next, and what its delivery comes to.
ghost use Rattle.std.specs.Prelude.{◌≡◌, false};
ghost use Rattle.m386_base.specs.Phrase.{PerformsOrStops, it};
ghost use Rattle.m386_step.specs.Events.{due, at_delivery, behind_second, behind_delivery, delivery_phrase};

use m386_access::ran::Ran;
use m386_base::bus::Bus;
use m386_base::fault::Stop;
use m386_base::flags::{Flag, has_flag};
use m386_deliver::deliver::delivered;
use m386_deliver::second::second;
use m386_state::event::{Cause, Event};
use m386_state::proc::{Mode, Proc};

/// What is delivered next: the pending event, before a request, which is taken with IF set and no shadow (PRM 9.2, 9.3).
pub fn due(p: &Proc) -> Option<Event>
    ensures { result ≡ due p.now }
{
    match (p.pending, p.request) {
        (Some(event), _) => Some(event),
        (None, Some(vector)) if has_flag(Flag::Interrupt, p.eflags) && !p.shadow => Some(Event {
            vector,
            code: None,
            cause: Cause::External,
        }),
        _ => None,
    }
}

/// The state in which an event is delivered: what is delivered waits no more, and the processor runs, also where it was halted.
pub fn at_delivery(p: &Proc) -> Proc
    ensures { result ≡ at_delivery p.now }
{
    let mut after = *p;
    match p.pending {
        Some(_) => after.pending = None,
        None => after.request = None,
    }
    after.mode = Mode::Running;
    after.shadow = false;
    after
}

/// The state behind a fault that was met on the way: it takes the place of what is pending there.
fn behind_second(p: &Proc, event: Option<Event>) -> Proc
    ensures { result ≡ behind_second p.now event }
{
    let mut after = *p;
    after.pending = event;
    if event.is_none() {
        after.mode = Mode::Shutdown;
    }
    after
}

/// The state behind a delivery. A fault that was met on the way is pending where it is seen, or the processor shuts down there
/// (PRM 9.8.8).
fn behind_delivery(event: &Event, ran: &Ran) -> Proc
    ensures { result ≡ behind_delivery event.now ran.now }
{
    match ran.fault {
        Some(fault) => behind_second(&ran.after, second(event, fault)),
        None => ran.after,
    }
}

/// Delivers an event (PRM 9.6).
#[tactic(auto, using(m386_base::proofs::Phrases::calls), unfolding(crate::specs::Events::delivery_phrase))]
pub fn deliver_event<B: Bus>(p: &Proc, event: &Event, bus: &mut B) -> Result<Proc, Stop>
    requires free { (B.view bus.old).kept ≡ false }
    ensures cycles { PerformsOrStops (delivery_phrase p.now event.now) (B.view bus.old) (B.view bus.new) it result }
    ensures free { (B.view bus.new).kept ≡ false }
{
    let ran = delivered(p, bus, event)?;
    Ok(behind_delivery(event, &ran))
}
