//! Where a transfer leads, on which stack, and the state there (PRM 6.3.3, 6.3.4).
ghost use Rattle.std.specs.Prelude.{◌≡◌, false, ◌<◌};
ghost use Rattle.m386_base.specs.Phrase.{Performs, it};
ghost use Rattle.m386_transfer.specs.Place.{level_of, target_fault, stack_of_level_phrase, stack_for_phrase, placed};

use m386_access::after::at_eip;
use m386_base::bus::Bus;
use m386_base::desc::Desc;
use m386_base::fault::{Break, Fault};
use m386_base::segments::CS;
use m386_desc::access::{dpl, kind};
use m386_segload::requirements::first_broken;
use m386_segload::rules::{Candidate, OFFSET_RULES};
use m386_segload::segment::{usable, with_segment};
use m386_stack::stack::{Stack, own_stack, with_stack};
use m386_state::proc::Proc;
use m386_switch::inner::inner;

/// Where a transfer leads: an offset in code that was tested and marked, and the level that it runs at there.
#[derive(Clone, Copy, Debug, PartialEq, Eq)]
pub struct Target {
    /// The selector of the code, whose RPL doesn't count.
    pub selector: u16,
    /// Its descriptor.
    pub desc: Desc,
    /// The new CPL, 0 to 3.
    pub level: u8,
    /// The new EIP.
    pub offset: u32,
}

/// The level that code runs at where a call or an event leads to it: CPL where the code is conforming, and else its DPL (PRM 6.3.3).
pub fn level_of(p: &Proc, desc: &Desc) -> u8
    ensures exact { result ≡ level_of p.now desc.now }
    ensures small { result < 4 }
{
    if kind(desc).is_conforming() {
        p.cpl()
    } else {
        dpl(desc)
    }
}

/// #GP(0), where the offset lies outside the limit of the code (PRM 6.3.1.2).
pub fn target_fault(target: &Target) -> Option<Fault>
    ensures { result ≡ target_fault target.now }
{
    first_broken(
        &OFFSET_RULES,
        &Candidate {
            selector: target.selector,
            desc: Some(target.desc),
            level: target.level,
            code: 0,
            offset: target.offset,
        },
    )
}

/// The stack that TR's task state segment names for a level.
#[tactic(auto, using(m386_base::proofs::Phrases::calls), unfolding(crate::specs::Place::stack_of_level_phrase))]
fn stack_of_level<B: Bus>(p: &Proc, bus: &mut B, level: u8, ext: bool) -> Result<Stack, Break>
    requires free { (B.view bus.old).kept ≡ false }
    requires level { level < 3 }
    ensures cycles { Performs (stack_of_level_phrase p.now level ext) (B.view bus.old) (B.view bus.new) it result }
    ensures free { (B.view bus.new).kept ≡ false }
{
    let found = inner(p, bus, level, ext)?;
    Ok(Stack {
        ss: found.ss,
        esp: found.esp,
    })
}

/// The stack of code that runs at a level: that of the level where it is below CPL, and else the processor's own (PRM 6.3.4.1).
/// `ext` is the EXT bit of the error codes. Faults are those of `m386_switch::inner::inner`.
#[tactic(auto, using(m386_base::proofs::Phrases::calls), unfolding(crate::specs::Place::stack_for_phrase))]
pub fn stack_for<B: Bus>(p: &Proc, bus: &mut B, level: u8, ext: bool) -> Result<Stack, Break>
    requires free { (B.view bus.old).kept ≡ false }
    ensures cycles { Performs (stack_for_phrase p.now level ext) (B.view bus.old) (B.view bus.new) it result }
    ensures free { (B.view bus.new).kept ≡ false }
{
    if level < p.cpl() {
        return stack_of_level(p, bus, level, ext);
    }
    Ok(own_stack(p))
}

/// The state at a target on a stack. CS has the new CPL as its RPL.
#[tactic(auto, unfolding(crate::specs::Place::placed))]
pub fn placed(p: &Proc, target: &Target, stack: &Stack) -> Proc
    requires { target.now.level < 4 }
    ensures { result ≡ placed p.now target.now stack.now }
{
    let selector = target.selector / 4 * 4 + u16::from(target.level);
    let entered = with_segment(p, CS, usable(selector, target.desc));
    at_eip(&with_stack(&entered, stack), target.offset)
}
