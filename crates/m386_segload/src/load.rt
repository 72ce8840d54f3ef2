//! Descriptors read by their selectors, tested by a table, and taken.
ghost use Rattle.std.specs.Prelude.{◌≡◌, false, true, IfOk, OnErr, is_some};
ghost use Rattle.m386_base.specs.Phrase.{Performs, PerformsOrStops, it};
ghost use Rattle.m386_segload.specs.Load.{load_desc_phrase, load_global_phrase, candidate_for, mark_phrase, mark_found, mark_or_fault, judge_phrase, take_phrase};

use crate::descriptor::{read_descriptor, write_access};
use crate::requirements::first_broken;
use crate::rules::{Candidate, Rule};
use crate::tables::{accessed_role, is_in_gdt, is_there, place_for, table_role};
use m386_base::ask::Role;
use m386_base::bus::{Bus, leave};
use m386_base::desc::Desc;
use m386_base::fault::{Break, Fault, Stop};
use m386_desc::selector::error_code;
use m386_state::proc::Proc;

/// The descriptor of a selector, which begins a locked group: the bus stays kept after `Some`. `None`, with no cycle, exactly where
/// the selector is null or lies outside its table (PRM 5.1.3).
#[tactic(auto, using(m386_base::proofs::Phrases::calls), unfolding(crate::specs::Load::load_desc_phrase))]
pub fn load_desc<B: Bus>(
    p: &Proc,
    bus: &mut B,
    selector: u16,
    role: Role,
) -> Result<Option<Desc>, Stop>
    requires free { (B.view bus.old).kept ≡ false }
    ensures cycles { PerformsOrStops (load_desc_phrase p.now selector role) (B.view bus.old) (B.view bus.new) it result }
    ensures kept { IfOk result (λ found. (B.view bus.new).kept ≡ is_some found) }
    ensures err { OnErr result ((B.view bus.new).kept ≡ false) }
{
    if is_there(p, selector) {
        let desc = read_descriptor(bus, role, place_for(p, selector))?;
        return Ok(Some(desc));
    }
    Ok(None)
}

/// The same where the GDT alone serves: `None`, with no cycle, also for a place in the LDT.
#[tactic(auto, using(m386_base::proofs::Phrases::calls), unfolding(crate::specs::Load::load_global_phrase))]
pub fn load_global<B: Bus>(
    p: &Proc,
    bus: &mut B,
    selector: u16,
    role: Role,
) -> Result<Option<Desc>, Stop>
    requires free { (B.view bus.old).kept ≡ false }
    ensures cycles { PerformsOrStops (load_global_phrase p.now selector role) (B.view bus.old) (B.view bus.new) it result }
    ensures kept { IfOk result (λ found. (B.view bus.new).kept ≡ is_some found) }
    ensures err { OnErr result ((B.view bus.new).kept ≡ false) }
{
    if is_in_gdt(p, selector) {
        let desc = read_descriptor(bus, role, place_for(p, selector))?;
        return Ok(Some(desc));
    }
    Ok(None)
}

/// What a table is read over.
pub fn candidate_for(level: u8, code: u16, selector: u16, found: Option<Desc>) -> Candidate
    ensures { result ≡ candidate_for level code selector found }
{
    Candidate {
        selector,
        desc: found,
        level,
        code,
        offset: 0,
    }
}

/// The accessed bit, where it is clear; else the bus is freed.
#[tactic(auto, using(m386_base::proofs::Phrases::held), unfolding(crate::specs::Load::mark_phrase))]
fn mark<B: Bus>(bus: &mut B, address: u32, selector: u16, desc: Desc) -> Result<Desc, Break>
    requires kept { (B.view bus.old).kept ≡ true }
    ensures cycles { Performs (mark_phrase address selector desc) (B.view bus.old) (B.view bus.new) it result }
    ensures free { (B.view bus.new).kept ≡ false }
{
    if desc.access & 1 == 0 {
        write_access(bus, accessed_role(selector), address, desc.access | 1)?;
        return Ok(desc);
    }
    leave(bus);
    Ok(desc)
}

/// The accessed bit of a descriptor that was read.
#[tactic(auto, using(m386_base::proofs::Phrases::held))]
fn mark_found<B: Bus>(
    bus: &mut B,
    address: u32,
    selector: u16,
    found: Option<Desc>,
) -> Result<Desc, Break>
    requires kept { (B.view bus.old).kept ≡ is_some found }
    ensures cycles { Performs (mark_found address selector found) (B.view bus.old) (B.view bus.new) it result }
    ensures free { (B.view bus.new).kept ≡ false }
{
    match found {
        Some(desc) => mark(bus, address, selector, desc),
        None => Ok(Desc::new(0, 0, 0, 0)),
    }
}

/// The accessed bit where no rule is broken; else the bus is freed.
#[tactic(auto, using(m386_base::proofs::Phrases::held))]
fn mark_or_fault<B: Bus>(
    bus: &mut B,
    first: Option<Fault>,
    address: u32,
    c: &Candidate,
) -> Result<Desc, Break>
    requires kept { (B.view bus.old).kept ≡ is_some c.now.desc }
    ensures cycles { Performs (mark_or_fault first address c.now) (B.view bus.old) (B.view bus.new) it result }
    ensures free { (B.view bus.new).kept ≡ false }
{
    match first {
        Some(fault) => {
            leave(bus);
            Err(Break::Fault(fault))
        }
        None => mark_found(bus, address, c.selector, c.desc),
    }
}

/// The rules of a table, and then the accessed bit. A fault comes exactly by the first rule that is broken, and then nothing is
/// written.
#[tactic(auto, using(m386_base::proofs::Phrases::calls), unfolding(crate::specs::Load::judge_phrase))]
pub fn judge<B: Bus>(
    bus: &mut B,
    rules: &[Rule],
    address: u32,
    c: &Candidate,
) -> Result<Desc, Break>
    requires kept { (B.view bus.old).kept ≡ is_some c.now.desc }
    ensures cycles { Performs (judge_phrase rules.now address c.now) (B.view bus.old) (B.view bus.new) it result }
    ensures free { (B.view bus.new).kept ≡ false }
{
    mark_or_fault(bus, first_broken(rules, c), address, c)
}

/// The segment of a selector, tested by a table for a level and marked as accessed, as one locked group. `ext` is the EXT bit of
/// the error codes. A fault comes exactly by the first rule that is broken, and then nothing is written.
#[tactic(auto, using(m386_base::proofs::Phrases::calls), unfolding(crate::specs::Load::take_phrase))]
pub fn take<B: Bus>(
    p: &Proc,
    bus: &mut B,
    rules: &[Rule],
    level: u8,
    ext: bool,
    selector: u16,
) -> Result<Desc, Break>
    requires free { (B.view bus.old).kept ≡ false }
    ensures cycles { Performs (take_phrase rules.now p.now level ext selector) (B.view bus.old) (B.view bus.new) it result }
    ensures free { (B.view bus.new).kept ≡ false }
{
    let found = load_desc(p, bus, selector, table_role(selector))?;
    let c = candidate_for(level, error_code(selector, ext), selector, found);
    judge(bus, rules, place_for(p, selector), &c)
}
