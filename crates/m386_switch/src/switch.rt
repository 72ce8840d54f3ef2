//! The task switch (PRM 7.5).
ghost use Rattle.std.specs.Prelude.{◌≡◌, false, IfOk, OnErr};
ghost use Rattle.m386_base.specs.Phrase.{PerformsOrStops, it};
ghost use Rattle.m386_switch.specs.Ends.{EndsOn};
ghost use Rattle.m386_switch.specs.Switch.{attempt_of, may_begin, is_named, leave_phrase, arrive_phrase, enter_phrase, claimed_phrase, named_phrase, work_phrase, switch_phrase, outcome_of, fail_in, switched};

use crate::entered::{arrived, facts_at_first, stayed, with_fields};
use crate::later::later;
use crate::outcome::{Outcome, Switched, outcome_of};
use crate::parts::{claim, is_admitted, link, load, release, relink, save, with_tss};
use m386_base::bus::Bus;
use m386_base::desc::Desc;
use m386_base::fault::Stop;
use m386_base::kind::SwitchKind;
use m386_checks::facts::Facts;
use m386_desc::selector::{in_ldt, is_null};
use m386_segload::tables::place_in;
use m386_state::proc::Proc;

/// Whether row 1 holds.
fn may_begin(p: &Proc, kind: SwitchKind) -> bool
    ensures { result ≡ may_begin p.now kind }
{
    matches!(kind, SwitchKind::Start) || p.tr.usable
}

/// Whether row 2 holds.
fn is_named(facts: &Facts) -> bool
    ensures { result ≡ is_named facts.now }
{
    !is_null(facts.selector) && !in_ldt(facts.selector) && facts.in_gdt
}

/// The old task is left: it is saved, named as the back link, and released.
#[tactic(auto, using(m386_base::proofs::Phrases::calls), unfolding(crate::specs::Switch::leave_phrase))]
fn leave_task<B: Bus>(p: &Proc, bus: &mut B, kind: SwitchKind, base: u32) -> Result<(), Stop>
    requires free { (B.view bus.old).kept ≡ false }
    ensures cycles { PerformsOrStops (leave_phrase p.now kind base) (B.view bus.old) (B.view bus.new) it result }
    ensures free { (B.view bus.new).kept ≡ false }
{
    save(p, bus, kind)?;
    relink(bus, kind, base, p.tr.selector)?;
    release(bus, kind, place_in(p.gdtr.base, p.tr.selector))
}

/// The new task's descriptors are read, and the switch is judged.
#[tactic(auto, using(m386_base::proofs::Phrases::calls), unfolding(crate::specs::Switch::arrive_phrase))]
fn arrive<B: Bus>(
    p: &Proc,
    bus: &mut B,
    desc: Desc,
    loaded: &[u32; 18],
    facts: &Facts,
) -> Result<Switched, Stop>
    requires free { (B.view bus.old).kept ≡ false }
    ensures cycles { PerformsOrStops (arrive_phrase p.now desc loaded.now facts.now) (B.view bus.old) (B.view bus.new) it result }
    ensures free { (B.view bus.new).kept ≡ false }
{
    let finished = later(bus, p.gdtr, facts)?;
    Ok(arrived(p, desc, loaded, &finished))
}

/// The new task is entered.
#[tactic(auto, using(m386_base::proofs::Phrases::calls), unfolding(crate::specs::Switch::enter_phrase))]
fn enter_task<B: Bus>(p: &Proc, bus: &mut B, desc: Desc, facts: &Facts) -> Result<Switched, Stop>
    requires free { (B.view bus.old).kept ≡ false }
    ensures cycles { PerformsOrStops (enter_phrase p.now desc facts.now) (B.view bus.old) (B.view bus.new) it result }
    ensures free { (B.view bus.new).kept ≡ false }
{
    let loaded = load(bus, desc.base)?;
    arrive(p, bus, desc, &loaded, &with_fields(facts, &loaded))
}

/// What follows the claim.
#[tactic(auto, using(m386_base::proofs::Phrases::calls), unfolding(crate::specs::Switch::claimed_phrase))]
fn claimed<B: Bus>(p: &Proc, bus: &mut B, facts: &Facts, desc: Desc) -> Result<Switched, Stop>
    requires free { (B.view bus.old).kept ≡ false }
    ensures cycles { PerformsOrStops (claimed_phrase p.now facts.now desc) (B.view bus.old) (B.view bus.new) it result }
    ensures free { (B.view bus.new).kept ≡ false }
{
    let with = with_tss(facts, desc);
    if is_admitted(&with) {
        leave_task(p, bus, facts.kind, desc.base)?;
        return enter_task(p, bus, desc, &with);
    }
    Ok(stayed(p, &with))
}

/// What follows from the selector of the new TSS.
#[tactic(auto, using(m386_base::proofs::Phrases::calls), unfolding(crate::specs::Switch::named_phrase))]
fn named<B: Bus>(p: &Proc, bus: &mut B, facts: &Facts) -> Result<Switched, Stop>
    requires free { (B.view bus.old).kept ≡ false }
    ensures cycles { PerformsOrStops (named_phrase p.now facts.now) (B.view bus.old) (B.view bus.new) it result }
    ensures free { (B.view bus.new).kept ≡ false }
{
    if is_named(facts) {
        let desc = claim(bus, place_in(p.gdtr.base, facts.selector), facts)?;
        return claimed(p, bus, facts, desc);
    }
    Ok(stayed(p, facts))
}

/// The work of a switch.
#[tactic(auto, using(m386_base::proofs::Phrases::calls), unfolding(crate::specs::Switch::work_phrase))]
fn work<B: Bus>(
    p: &Proc,
    bus: &mut B,
    kind: SwitchKind,
    selector: u16,
    direct: bool,
    ext: bool,
) -> Result<Switched, Stop>
    requires free { (B.view bus.old).kept ≡ false }
    ensures cycles { PerformsOrStops (work_phrase p.now kind selector direct ext) (B.view bus.old) (B.view bus.new) it result }
    ensures free { (B.view bus.new).kept ≡ false }
{
    if may_begin(p, kind) {
        let new = link(bus, kind, p.tr.desc.base, selector)?;
        return named(p, bus, &facts_at_first(p, kind, new, direct, ext));
    }
    Ok(stayed(p, &facts_at_first(p, kind, selector, direct, ext)))
}

/// A task switch, as its phrase has it.
#[tactic(auto, using(m386_base::proofs::Phrases::begun), unfolding(crate::specs::Switch::switch_phrase))]
fn attempt<B: Bus>(
    p: &Proc,
    bus: &mut B,
    kind: SwitchKind,
    selector: u16,
    direct: bool,
    ext: bool,
) -> Result<Switched, Stop>
    requires free { (B.view bus.old).kept ≡ false }
    ensures cycles { PerformsOrStops (switch_phrase p.now kind selector direct ext) (B.view bus.old) (B.view bus.new) it result }
    ensures free { (B.view bus.new).kept ≡ false }
{
    work(p, bus, kind, selector, direct, ext)
}

/// A task switch whose state is put in place.
#[tactic(auto, using(crate::proofs::Outcomes::found))]
fn settle<B: Bus>(
    p: &mut Proc,
    bus: &mut B,
    kind: SwitchKind,
    selector: u16,
    direct: bool,
    ext: bool,
) -> Result<Outcome, Stop>
    requires free { (B.view bus.old).kept ≡ false }
    ensures cycles { PerformsOrStops (switch_phrase p.old kind selector direct ext) (B.view bus.old) (B.view bus.new) (switched p.new) result }
    ensures told { IfOk result (λ o. o ≡ outcome_of (fail_in o)) }
    ensures before { OnErr result (p.new ≡ p.old) }
    ensures free { (B.view bus.new).kept ≡ false }
{
    let came = attempt(p, bus, kind, selector, direct, ext)?;
    *p = came.after;
    Ok(outcome_of(came.fail))
}

/// A task switch to the TSS of this selector; IRET takes the back link in its place. `direct` says that no gate was used, and `ext`
/// is the EXT bit of the error codes. It answers by the first row of the check table that fails on the values that its cycles read.
/// `Old`: rows 1 to 7, no cycle was a write, and the state is as before. `New`: rows 8 to 19, and the state is the new task's. At
/// `Err` the state is as before.
#[tactic(auto, using(crate::proofs::Law::performed_ends))]
pub fn switch<B: Bus>(
    p: &mut Proc,
    bus: &mut B,
    kind: SwitchKind,
    selector: u16,
    direct: bool,
    ext: bool,
) -> Result<Outcome, Stop>
    requires free { (B.view bus.old).kept ≡ false }
    ensures cycles { PerformsOrStops (switch_phrase p.old kind selector direct ext) (B.view bus.old) (B.view bus.new) (switched p.new) result }
    ensures told { IfOk result (λ o. o ≡ outcome_of (fail_in o)) }
    ensures ends { IfOk result (λ o. EndsOn (attempt_of p.old kind selector direct ext) (B.view bus.old) (B.view bus.new) p.old (switched p.new o)) }
    ensures before { OnErr result (p.new ≡ p.old) }
    ensures free { (B.view bus.new).kept ≡ false }
{
    settle(p, bus, kind, selector, direct, ext)
}
