//! Loads of segment registers and of LDTR.
ghost use Rattle.std.specs.Prelude.{◌≡◌, ◌<◌, ◌≢◌, false, is_some, OnErr};
ghost use Rattle.m386_base.specs.Phrase.{Performs, it};
ghost use Rattle.m386_base.specs.Segments.{cs};
ghost use Rattle.m386_segload.specs.Rules.{stack_rules, data_rules, local_table_rules, need};
ghost use Rattle.m386_segload.specs.Segments.{usable_seg, changed_at, with_segment, stack_segment_phrase, data_segment_phrase, segment_phrase, load_segment_phrase, or_zeros, local_table_phrase};
ghost use Rattle.m386_base.specs.Phrase.{Done};

use crate::load::{candidate_for, load_global, take};
use crate::requirements::first_broken;
use crate::rules::{DATA_RULES, LOCAL_TABLE_RULES, STACK_RULES};
use m386_access::address::segment;
use m386_base::ask::Role;
use m386_base::bus::{Bus, leave};
use m386_base::desc::Desc;
use m386_base::fault::{Break, Fault};
use m386_base::segments::{CS, DS, ES, FS, GS, SS};
use m386_desc::selector::{error_code, is_null};
use m386_state::proc::{Proc, unusable};
use m386_state::segment::Seg;

/// A segment register that may be used.
pub fn usable(selector: u16, desc: Desc) -> Seg
    ensures { result ≡ usable_seg selector desc }
{
    Seg {
        selector,
        usable: true,
        desc,
    }
}

/// A segment register where one is changed.
fn changed_at(p: &Proc, seg: u8, value: Seg, number: u8) -> Seg
    ensures { result ≡ changed_at p.now seg value number }
{
    if number == seg {
        value
    } else {
        segment(p, number)
    }
}

/// The state with a segment register changed, by its number.
#[tactic(auto, unfolding(crate::specs::Segments::with_segment))]
pub fn with_segment(p: &Proc, seg: u8, value: Seg) -> Proc
    ensures { result ≡ with_segment p.now seg value }
{
    let mut after = *p;
    after.segs = [
        changed_at(p, seg, value, ES),
        changed_at(p, seg, value, CS),
        changed_at(p, seg, value, SS),
        changed_at(p, seg, value, DS),
        changed_at(p, seg, value, FS),
        changed_at(p, seg, value, GS),
    ];
    after
}

/// What SS comes to for a level.
#[tactic(auto, using(m386_base::proofs::Phrases::calls), unfolding(crate::specs::Segments::stack_segment_phrase))]
pub fn stack_segment<B: Bus>(p: &Proc, bus: &mut B, level: u8, selector: u16) -> Result<Seg, Break>
    requires free { (B.view bus.old).kept ≡ false }
    ensures cycles { Performs (stack_segment_phrase p.now level selector) (B.view bus.old) (B.view bus.new) it result }
    ensures free { (B.view bus.new).kept ≡ false }
{
    let desc = take(p, bus, &STACK_RULES, level, false, selector)?;
    Ok(usable(selector, desc))
}

/// What DS, ES, FS or GS comes to.
#[tactic(auto, using(m386_base::proofs::Phrases::calls), unfolding(crate::specs::Segments::data_segment_phrase))]
fn data_segment<B: Bus>(p: &Proc, bus: &mut B, selector: u16) -> Result<Seg, Break>
    requires free { (B.view bus.old).kept ≡ false }
    ensures cycles { Performs (data_segment_phrase p.now selector) (B.view bus.old) (B.view bus.new) it result }
    ensures free { (B.view bus.new).kept ≡ false }
{
    if is_null(selector) {
        return Ok(unusable(selector));
    }
    let desc = take(p, bus, &DATA_RULES, p.cpl(), false, selector)?;
    Ok(usable(selector, desc))
}

/// What a segment register but CS comes to, by its number. A fault comes exactly by the first rule that is broken.
#[tactic(auto, using(m386_base::proofs::Phrases::calls), unfolding(crate::specs::Segments::segment_phrase))]
pub fn segment_for<B: Bus>(p: &Proc, bus: &mut B, seg: u8, selector: u16) -> Result<Seg, Break>
    requires free { (B.view bus.old).kept ≡ false }
    ensures cycles { Performs (segment_phrase p.now seg selector) (B.view bus.old) (B.view bus.new) it result }
    ensures free { (B.view bus.new).kept ≡ false }
{
    if seg == SS {
        return stack_segment(p, bus, p.cpl(), selector);
    }
    data_segment(p, bus, selector)
}

/// Loads a segment register but CS, by its number. A fault comes exactly by the first rule that is broken. At `Err` the state is as
/// before.
#[tactic(auto, using(m386_base::proofs::Phrases::calls), unfolding(crate::specs::Segments::load_segment_phrase))]
pub fn load_segment<B: Bus>(p: &mut Proc, bus: &mut B, seg: u8, selector: u16) -> Result<(), Break>
    requires free { (B.view bus.old).kept ≡ false }
    requires seg { seg < 6 }
    requires code { seg ≢ cs }
    ensures cycles { Performs (load_segment_phrase p.old seg selector) (B.view bus.old) (B.view bus.new) (λ _. p.new) result }
    ensures free { (B.view bus.new).kept ≡ false }
    ensures before { OnErr result (p.new ≡ p.old) }
{
    let value = segment_for(p, bus, seg, selector)?;
    *p = with_segment(p, seg, value);
    Ok(())
}

/// A descriptor that may not be there, as zeros where it isn't.
pub fn or_zeros(found: Option<Desc>) -> Desc
    ensures { result ≡ or_zeros found }
{
    match found {
        Some(desc) => desc,
        None => Desc::new(0, 0, 0, 0),
    }
}

/// A register with a descriptor that was read, where no rule is broken. The bus is freed.
#[tactic(auto, using(m386_base::proofs::Phrases::held))]
fn usable_unless<B: Bus>(
    bus: &mut B,
    first: Option<Fault>,
    selector: u16,
    found: Option<Desc>,
) -> Result<Seg, Break>
    requires kept { (B.view bus.old).kept ≡ is_some found }
    ensures cycles { Performs (need first (Done (usable_seg selector (or_zeros found)))) (B.view bus.old) (B.view bus.new) it result }
    ensures free { (B.view bus.new).kept ≡ false }
{
    leave(bus);
    match first {
        Some(fault) => Err(Break::Fault(fault)),
        None => Ok(usable(selector, or_zeros(found))),
    }
}

/// What LDTR comes to (PRM 17.2.2.11, LLDT). A fault comes exactly by the first rule that is broken.
#[tactic(auto, using(m386_base::proofs::Phrases::calls), unfolding(crate::specs::Segments::local_table_phrase))]
pub fn local_table<B: Bus>(p: &Proc, bus: &mut B, selector: u16) -> Result<Seg, Break>
    requires free { (B.view bus.old).kept ≡ false }
    ensures cycles { Performs (local_table_phrase p.now selector) (B.view bus.old) (B.view bus.new) it result }
    ensures free { (B.view bus.new).kept ≡ false }
{
    if is_null(selector) {
        return Ok(unusable(selector));
    }
    let found = load_global(p, bus, selector, Role::Gdt)?;
    let c = candidate_for(0, error_code(selector, false), selector, found);
    usable_unless(bus, first_broken(&LOCAL_TABLE_RULES, &c), selector, found)
}
