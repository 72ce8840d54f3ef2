//! The change to the stack of an inner level (PRM 6.3.4.1).
ghost use Rattle.std.specs.Prelude.{◌≡◌, false, ◌<◌};
ghost use Rattle.m386_base.specs.Phrase.{Performs, it};
ghost use Rattle.m386_segload.specs.Rules.{first_broken, task_stack_rules, inner_stack_rules};
ghost use Rattle.m386_switch.specs.Inner.{task_candidate, named_inner_phrase, inner_fields_phrase, inner_phrase};

use crate::fields::read_field;
use m386_base::ask::Role;
use m386_base::bus::Bus;
use m386_base::fault::{Break, Fault};
use m386_desc::selector::error_code;
use m386_segload::load::{candidate_for, take};
use m386_segload::requirements::first_broken;
use m386_segload::rules::{INNER_STACK_RULES, TASK_STACK_RULES};
use m386_segload::segment::usable;
use m386_segload::tables::held;
use m386_state::proc::Proc;
use m386_state::segment::Seg;
use m386_tss::fields::{ESP0, SS0};

/// The stack of an inner level.
#[derive(Clone, Copy, Debug, PartialEq, Eq)]
pub struct InnerStack {
    /// ESP of the level, whole.
    pub esp: u32,
    /// SS of the level, which may be used.
    pub ss: Seg,
}

/// The first rule of the task state segment that is broken.
fn task_fault(p: &Proc, level: u8, ext: bool) -> Option<Fault>
    requires { level < 3 }
    ensures { result ≡ first_broken task_stack_rules (task_candidate p.now level ext) }
{
    let code = error_code(p.tr.selector, ext);
    let c = candidate_for(level, code, p.tr.selector, held(&p.tr));
    first_broken(&TASK_STACK_RULES, &c)
}

/// The stack that was named, tested for the level and marked as accessed.
#[tactic(auto, using(m386_base::proofs::Phrases::calls), unfolding(crate::specs::Inner::named_inner_phrase))]
fn named_inner<B: Bus>(
    p: &Proc,
    bus: &mut B,
    level: u8,
    ext: bool,
    esp: u32,
    ss: u16,
) -> Result<InnerStack, Break>
    requires free { (B.view bus.old).kept ≡ false }
    ensures cycles { Performs (named_inner_phrase p.now level ext esp ss) (B.view bus.old) (B.view bus.new) it result }
    ensures free { (B.view bus.new).kept ≡ false }
{
    let desc = take(p, bus, &INNER_STACK_RULES, level, ext, ss)?;
    Ok(InnerStack {
        esp,
        ss: usable(ss, desc),
    })
}

/// ESP and SS of the level in the task state segment, and the stack that they name.
#[tactic(auto, using(m386_base::proofs::Phrases::calls), unfolding(crate::specs::Inner::inner_fields_phrase))]
fn inner_fields<B: Bus>(p: &Proc, bus: &mut B, level: u8, ext: bool) -> Result<InnerStack, Break>
    requires free { (B.view bus.old).kept ≡ false }
    requires level { level < 3 }
    ensures cycles { Performs (inner_fields_phrase p.now level ext) (B.view bus.old) (B.view bus.new) it result }
    ensures free { (B.view bus.new).kept ≡ false }
{
    let esp = read_field(bus, Role::Inner, p.tr.desc.base, ESP0 + 2 * level)?;
    let ss = read_field(bus, Role::Inner, p.tr.desc.base, SS0 + 2 * level)?;
    named_inner(p, bus, level, ext, esp, (ss % 0x1_0000) as u16)
}

/// The stack of a level from 0 to 2, which TR's task state segment names. `ext` is the EXT bit of the error codes. A fault comes
/// exactly by the first rule that is broken: first those of the TSS, #TS(0) where TR isn't usable and #TS(TR) where ESP and SS of
/// the level lie past its limit, with no cycle; then those of the new SS, #TS(0), #TS(SS) or, where it isn't present, #SS(SS).
#[tactic(auto, using(m386_base::proofs::Phrases::calls), unfolding(crate::specs::Inner::inner_phrase))]
pub fn inner<B: Bus>(p: &Proc, bus: &mut B, level: u8, ext: bool) -> Result<InnerStack, Break>
    requires free { (B.view bus.old).kept ≡ false }
    requires level { level < 3 }
    ensures cycles { Performs (inner_phrase p.now level ext) (B.view bus.old) (B.view bus.new) it result }
    ensures free { (B.view bus.new).kept ≡ false }
{
    match task_fault(p, level, ext) {
        Some(fault) => Err(Break::Fault(fault)),
        None => inner_fields(p, bus, level, ext),
    }
}
