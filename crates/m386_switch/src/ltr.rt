//! LTR (PRM 7.3).
ghost use Rattle.std.specs.Prelude.{◌≡◌, false, is_some, OnErr};
ghost use Rattle.m386_base.specs.Phrase.{Performs, it};
ghost use Rattle.m386_switch.specs.Ltr.{claim_found, claim_or_fault, task_fault_of, claim_task_phrase, with_task, ltr_phrase};

use m386_base::ask::Role;
use m386_base::bus::{Bus, leave};
use m386_base::desc::Desc;
use m386_base::fault::{Break, Fault};
use m386_desc::selector::error_code;
use m386_segload::descriptor::write_access;
use m386_segload::load::{candidate_for, load_global};
use m386_segload::requirements::first_broken;
use m386_segload::rules::TASK_RULES;
use m386_segload::segment::usable;
use m386_segload::tables::place_for;
use m386_state::proc::Proc;

/// The busy bit of a descriptor that was read, set.
#[tactic(auto, using(m386_base::proofs::Phrases::held))]
fn claim_found<B: Bus>(bus: &mut B, address: u32, found: Option<Desc>) -> Result<Desc, Break>
    requires kept { (B.view bus.old).kept ≡ is_some found }
    ensures cycles { Performs (claim_found address found) (B.view bus.old) (B.view bus.new) it result }
    ensures free { (B.view bus.new).kept ≡ false }
{
    match found {
        Some(desc) => {
            write_access(bus, Role::ClaimLtr, address, desc.access | 2)?;
            Ok(desc)
        }
        None => Ok(Desc::new(0, 0, 0, 0)),
    }
}

/// The busy bit where no rule is broken; else the bus is freed.
#[tactic(auto, using(m386_base::proofs::Phrases::held))]
fn claim_or_fault<B: Bus>(
    bus: &mut B,
    first: Option<Fault>,
    address: u32,
    found: Option<Desc>,
) -> Result<Desc, Break>
    requires kept { (B.view bus.old).kept ≡ is_some found }
    ensures cycles { Performs (claim_or_fault first address found) (B.view bus.old) (B.view bus.new) it result }
    ensures free { (B.view bus.new).kept ≡ false }
{
    match first {
        Some(fault) => {
            leave(bus);
            Err(Break::Fault(fault))
        }
        None => claim_found(bus, address, found),
    }
}

/// The first rule that is broken.
fn task_fault(selector: u16, found: Option<Desc>) -> Option<Fault>
    ensures { result ≡ task_fault_of selector found }
{
    let c = candidate_for(0, error_code(selector, false), selector, found);
    first_broken(&TASK_RULES, &c)
}

/// The descriptor of a TSS that isn't busy, read, tested and claimed, as one locked group.
#[tactic(auto, using(m386_base::proofs::Phrases::calls), unfolding(crate::specs::Ltr::claim_task_phrase))]
fn claim_task<B: Bus>(p: &Proc, bus: &mut B, selector: u16) -> Result<Desc, Break>
    requires free { (B.view bus.old).kept ≡ false }
    ensures cycles { Performs (claim_task_phrase p.now selector) (B.view bus.old) (B.view bus.new) it result }
    ensures free { (B.view bus.new).kept ≡ false }
{
    let found = load_global(p, bus, selector, Role::Gdt)?;
    let first = task_fault(selector, found);
    claim_or_fault(bus, first, place_for(p, selector), found)
}

/// The state with TR changed.
fn with_task(p: &Proc, selector: u16, desc: Desc) -> Proc
    ensures { result ≡ with_task p.now selector desc }
{
    let mut after = *p;
    after.tr = usable(selector, desc);
    after
}

/// LTR with its selector, at CPL 0. A fault comes exactly by the first rule that is broken; then, and where the bus stops, nothing
/// was written and the state is as before. Else the task's busy bit was set in one locked group with the read of its descriptor,
/// and TR holds that descriptor as it was read.
#[tactic(auto, using(m386_base::proofs::Phrases::calls), unfolding(crate::specs::Ltr::ltr_phrase))]
pub fn ltr<B: Bus>(p: &mut Proc, bus: &mut B, selector: u16) -> Result<(), Break>
    requires free { (B.view bus.old).kept ≡ false }
    ensures cycles { Performs (ltr_phrase p.old selector) (B.view bus.old) (B.view bus.new) (λ _. p.new) result }
    ensures before { OnErr result (p.new ≡ p.old) }
    ensures free { (B.view bus.new).kept ≡ false }
{
    let desc = claim_task(p, bus, selector)?;
    *p = with_task(p, selector, desc);
    Ok(())
}
