//! The gate of an event, which stands in the IDT (PRM 9.4, 9.5).
ghost use Rattle.std.specs.Prelude.{◌≡◌, false, is_some};
ghost use Rattle.m386_base.specs.Phrase.{Performs, PerformsOrStops, it};
ghost use Rattle.m386_deliver.specs.Gate.{is_from_outside, entry_code, gate_level, gate_candidate, entry_phrase, gate_or_fault, gate_phrase};

use m386_base::ask::Role;
use m386_base::bus::{Bus, leave};
use m386_base::desc::Desc;
use m386_base::fault::{Break, Fault, Stop};
use m386_desc::selector::in_table;
use m386_segload::descriptor::read_descriptor;
use m386_segload::load::candidate_for;
use m386_segload::requirements::first_broken;
use m386_segload::rules::{Candidate, EVENT_GATE_RULES};
use m386_segload::segment::or_zeros;
use m386_state::event::{Cause, Event};
use m386_state::proc::Proc;

/// EXT: whether the event is none that the program itself asks for (PRM 9.7).
pub(crate) fn is_from_outside(cause: Cause) -> bool
    ensures { result ≡ is_from_outside cause }
{
    match cause {
        Cause::Soft => false,
        Cause::Exception | Cause::External => true,
    }
}

/// The error code of a fault that names the entry of a vector (PRM 9.7).
fn entry_code(vector: u8, ext: bool) -> u16
    ensures { result ≡ entry_code vector ext }
{
    u16::from(vector) * 8 + 2 + if ext { 1 } else { 0 }
}

/// The level that the gate's DPL must not be below: CPL for what the program itself asks for, and else 0, which always passes.
fn gate_level(p: &Proc, cause: Cause) -> u8
    ensures { result ≡ gate_level p.now cause }
{
    match cause {
        Cause::Soft => p.cpl(),
        Cause::Exception | Cause::External => 0,
    }
}

/// What the rules of a gate are read over.
fn gate_candidate(p: &Proc, event: &Event, found: Option<Desc>) -> Candidate
    ensures { result ≡ gate_candidate p.now event.now found }
{
    let code = entry_code(event.vector, is_from_outside(event.cause));
    candidate_for(
        gate_level(p, event.cause),
        code,
        u16::from(event.vector) * 8,
        found,
    )
}

/// The entry of a vector, read as one locked group, where it lies inside the limit; `None`, with no cycle, where it doesn't.
#[tactic(auto, using(m386_base::proofs::Phrases::held), unfolding(crate::specs::Gate::entry_phrase))]
fn entry<B: Bus>(p: &Proc, bus: &mut B, vector: u8) -> Result<Option<Desc>, Stop>
    requires free { (B.view bus.old).kept ≡ false }
    ensures cycles { PerformsOrStops (entry_phrase p.now vector) (B.view bus.old) (B.view bus.new) it result }
    ensures free { (B.view bus.new).kept ≡ false }
{
    if in_table(u16::from(vector) * 8, u32::from(p.idtr.limit)) {
        let address = p.idtr.base.wrapping_add(u32::from(vector) * 8);
        let desc = read_descriptor(bus, Role::Idt, address)?;
        leave(bus);
        return Ok(Some(desc));
    }
    Ok(None)
}

/// A gate where no rule is broken.
#[tactic(auto, using(m386_base::proofs::Phrases::calls))]
fn gate_or_fault<B: Bus>(
    bus: &mut B,
    first: Option<Fault>,
    found: Option<Desc>,
) -> Result<Desc, Break>
    requires free { (B.view bus.old).kept ≡ false }
    ensures cycles { Performs (gate_or_fault first found) (B.view bus.old) (B.view bus.new) it result }
    ensures free { (B.view bus.new).kept ≡ false }
{
    match first {
        Some(fault) => Err(Break::Fault(fault)),
        None => Ok(or_zeros(found)),
    }
}

/// The gate of an event, as a descriptor. A fault comes exactly by the first rule that is broken: past the limit of the IDT, no
/// task, interrupt or trap gate, or below CPL where the program itself asks for the event, each #GP(IDT); not present, #NP(IDT).
#[tactic(auto, using(m386_base::proofs::Phrases::calls), unfolding(crate::specs::Gate::gate_phrase))]
pub(crate) fn gate_for<B: Bus>(p: &Proc, bus: &mut B, event: &Event) -> Result<Desc, Break>
    requires free { (B.view bus.old).kept ≡ false }
    ensures cycles { Performs (gate_phrase p.now event.now) (B.view bus.old) (B.view bus.new) it result }
    ensures free { (B.view bus.new).kept ≡ false }
{
    let found = entry(p, bus, event.vector)?;
    let c = gate_candidate(p, event, found);
    gate_or_fault(bus, first_broken(&EVENT_GATE_RULES, &c), found)
}
