//! What LAR, LSL, VERR and VERW find (PRM 6.3.6.1).
ghost use Rattle.std.specs.Prelude.{◌≡◌, false};
ghost use Rattle.m386_base.specs.Phrase.{PerformsOrStops, it};
ghost use Rattle.m386_segload.specs.Look.{is_visible, shown, shown_of, looked, look_phrase};

use crate::load::{candidate_for, load_desc};
use crate::requirements::is_met;
use crate::rules::{Candidate, Requirement};
use crate::tables::table_role;
use crate::wanted::{Look, type_wanted};
use m386_base::bus::{Bus, leave};
use m386_base::desc::Desc;
use m386_base::fault::Stop;
use m386_desc::offsets::limit;
use m386_state::proc::Proc;

/// Whether it may be looked at.
fn is_visible(what: Look, c: &Candidate) -> bool
    ensures { result ≡ is_visible what c.now }
{
    is_met(Requirement::InTable, c)
        && (is_met(type_wanted(what), c) && is_met(Requirement::MayBeData, c))
}

/// What is found in a descriptor.
fn shown(what: Look, desc: &Desc) -> u32
    ensures { result ≡ shown what desc.now }
{
    match what {
        Look::Lar => u32::from(desc.flags) * 0x10_0000 + u32::from(desc.access) * 0x100,
        Look::Lsl => limit(desc),
        Look::Verr | Look::Verw => 0,
    }
}

/// What is found where a descriptor was read.
pub(crate) fn looked(what: Look, c: &Candidate) -> Option<u32>
    ensures { result ≡ looked what c.now }
{
    if !is_visible(what, c) {
        return None;
    }
    match c.desc {
        Some(desc) => Some(shown(what, &desc)),
        None => Some(0),
    }
}

/// What was found. The bus is freed.
#[tactic(auto, using(m386_base::proofs::Phrases::held), unfolding(crate::specs::Look::look_phrase))]
pub fn look<B: Bus>(p: &Proc, bus: &mut B, what: Look, selector: u16) -> Result<Option<u32>, Stop>
    requires free { (B.view bus.old).kept ≡ false }
    ensures cycles { PerformsOrStops (look_phrase p.now what selector) (B.view bus.old) (B.view bus.new) it result }
    ensures free { (B.view bus.new).kept ≡ false }
{
    let found = load_desc(p, bus, selector, table_role(selector))?;
    leave(bus);
    Ok(looked(what, &candidate_for(p.cpl(), 0, selector, found)))
}
