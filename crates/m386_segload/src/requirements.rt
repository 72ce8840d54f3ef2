//! Whether a requirement is met, and the first rule of a table that is broken.
ghost use Rattle.std.specs.Prelude.{◌≡◌, Some, None};
ghost use Rattle.m386_checks.specs.Descriptor.{given};
ghost use Rattle.m386_segload.specs.Requirements.{is_met, conforms_or_has_level, is_reached_directly, is_event_gate, holds_stack, has_dpl_to, has_dpl_from, has_rights, has_limit, shows_rights, shows_limit};
ghost use Rattle.m386_segload.specs.Rules.{broken, first_broken};

use crate::rules::{Candidate, Requirement, Rule};
use m386_base::desc::Desc;
use m386_base::fault::Fault;
use m386_checks::descriptor::{
    code, inside, is_there, marked, of_level, reached, readable, runs, table, usable, writable,
};
use m386_desc::access::{dpl, kind};
use m386_desc::kind::Kind;
use m386_desc::offsets::limit;
use m386_desc::selector::{is_null, rpl};

/// Whether DPL is at most the level.
fn of_level_or_inner(desc: Option<Desc>, level: u8) -> bool
    ensures { result ≡ given desc (has_dpl_to level) }
{
    match desc {
        Some(d) => dpl(&d) <= level,
        None => false,
    }
}

/// Whether DPL is at least the level.
fn of_level_or_outer(desc: Option<Desc>, level: u8) -> bool
    ensures { result ≡ given desc (has_dpl_from level) }
{
    match desc {
        Some(d) => level <= dpl(&d),
        None => false,
    }
}

/// Whether it is conforming code, or of the level.
fn conforming_or_of_level(desc: Option<Desc>, level: u8) -> bool
    ensures { result ≡ given desc (conforms_or_has_level level) }
{
    match desc {
        Some(d) => kind(&d).is_conforming() || dpl(&d) == level,
        None => false,
    }
}

/// Whether a far JMP or CALL may go there without a gate.
fn reached_directly(desc: Option<Desc>, level: u8, rpl: u8) -> bool
    ensures { result ≡ given desc (is_reached_directly level rpl) }
{
    match desc {
        Some(d) => if kind(&d).is_conforming() {
            dpl(&d) <= level
        } else {
            rpl <= level && dpl(&d) == level
        },
        None => false,
    }
}

/// Whether it is a gate that stands in the IDT: a task gate, an interrupt gate or a trap gate (PRM 9.5).
fn event_gate(desc: Option<Desc>) -> bool
    ensures { result ≡ given desc is_event_gate }
{
    match desc {
        Some(d) => matches!(kind(&d), Kind::TaskGate | Kind::IntGate | Kind::TrapGate),
        None => false,
    }
}

/// Whether ESP and SS of the level lie in the TSS.
fn holds_stack(desc: Option<Desc>, level: u8) -> bool
    ensures { result ≡ given desc (holds_stack level) }
{
    match desc {
        Some(d) => 8 * u32::from(level) + 9 <= limit(&d),
        None => false,
    }
}

/// Whether LAR knows it.
fn with_rights(desc: Option<Desc>) -> bool
    ensures { result ≡ given desc shows_rights }
{
    match desc {
        Some(d) => match kind(&d) {
            Kind::DataSeg { .. } | Kind::CodeSeg { .. } | Kind::Tss { .. } => true,
            Kind::Ldt | Kind::TaskGate | Kind::CallGate => true,
            Kind::IntGate | Kind::TrapGate | Kind::Wrong => false,
        },
        None => false,
    }
}

/// Whether LSL knows it.
fn with_limit(desc: Option<Desc>) -> bool
    ensures { result ≡ given desc shows_limit }
{
    match desc {
        Some(d) => match kind(&d) {
            Kind::DataSeg { .. } | Kind::CodeSeg { .. } | Kind::Tss { .. } | Kind::Ldt => true,
            Kind::TaskGate | Kind::CallGate | Kind::IntGate | Kind::TrapGate | Kind::Wrong => false,
        },
        None => false,
    }
}

/// Whether a requirement is met.
#[tactic(auto, unfolding(crate::specs::Requirements::is_met))]
pub fn is_met(requirement: Requirement, c: &Candidate) -> bool
    ensures { result ≡ is_met requirement c.now }
{
    match requirement {
        Requirement::NotNull => !is_null(c.selector),
        Requirement::InTable => c.desc.is_some(),
        Requirement::RplIsLevel => rpl(c.selector) == c.level,
        Requirement::RplAtLeastLevel => c.level <= rpl(c.selector),
        Requirement::Writable => writable(c.desc),
        Requirement::Readable => readable(c.desc),
        Requirement::Code => code(c.desc),
        Requirement::LocalTable => table(c.desc),
        Requirement::AvailableTss => marked(c.desc, false),
        Requirement::EventGate => event_gate(c.desc),
        Requirement::WithRights => with_rights(c.desc),
        Requirement::WithLimit => with_limit(c.desc),
        Requirement::DplIsLevel => of_level(c.desc, c.level),
        Requirement::DplAtMostLevel => of_level_or_inner(c.desc, c.level),
        Requirement::DplAtLeastLevel => of_level_or_outer(c.desc, c.level),
        Requirement::ConformingOrLevel => conforming_or_of_level(c.desc, c.level),
        Requirement::MayBeData => usable(c.desc, c.level, rpl(c.selector)),
        Requirement::ReachedDirectly => reached_directly(c.desc, c.level, rpl(c.selector)),
        Requirement::RunsAtRpl => runs(c.desc, rpl(c.selector)),
        Requirement::ReachedFrom => reached(c.desc, c.level, rpl(c.selector)),
        Requirement::HoldsStack => holds_stack(c.desc, c.level),
        Requirement::HoldsOffset => inside(c.desc, c.offset),
        Requirement::Present => is_there(c.desc),
    }
}

/// How a rule is broken.
fn broken(rule: Rule, c: &Candidate) -> Fault
    ensures { result ≡ broken rule c.now }
{
    rule.exception
        .coded_fault(if rule.named { c.code } else { 0 })
}

/// The first rule that is broken, as its fault.
#[tactic(auto, using(crate::proofs::Order::rule_steps))]
pub fn first_broken(rules: &[Rule], c: &Candidate) -> Option<Fault>
    ensures { result ≡ first_broken rules.now c.now }
{
    for rule in rules {
        if !is_met(rule.requirement, c) {
            return Some(broken(*rule, c));
        }
    }
    None
}
