//! A return to the same or an outer level, from the popped EIP and CS on (PRM 6.3.4.2). RETF and IRET share it.
ghost use Rattle.std.specs.Prelude.{◌≡◌, false, ◌⊎◌, ◌<◌};
ghost use Rattle.m386_base.specs.Phrase.{Performs, it};
ghost use Rattle.m386_transfer.specs.Return.{is_kept_at, kept_at, outer_segments, back_phrase, outer_stack_phrase, outer_phrase, return_phrase};

use crate::place::{Target, placed, target_fault};
use m386_access::address::segment;
use m386_base::ask::Role;
use m386_base::bus::Bus;
use m386_base::fault::Break;
use m386_base::segments::{CS, DS, ES, FS, GS, SS};
use m386_desc::access::{dpl, kind};
use m386_desc::selector::rpl;
use m386_segload::load::take;
use m386_segload::rules::RETURN_RULES;
use m386_segload::segment::stack_segment;
use m386_stack::stack::{Stack, moved, pop};
use m386_state::proc::{Proc, unusable};
use m386_state::segment::Seg;

/// A segment register as a level may keep it: null where it is data or code that doesn't conform, with a DPL below the level.
fn kept_at(level: u8, seg: Seg) -> Seg
    ensures { result ≡ kept_at level seg }
{
    if kind(&seg.desc).is_conforming() || level <= dpl(&seg.desc) {
        seg
    } else {
        unusable(0)
    }
}

/// The state with ES, DS, FS and GS as an outer level may keep them.
#[tactic(auto, unfolding(crate::specs::Return::outer_segments))]
fn outer_segments(p: &Proc, level: u8) -> Proc
    ensures { result ≡ outer_segments p.now level }
{
    let mut after = *p;
    after.segs = [
        kept_at(level, segment(p, ES)),
        segment(p, CS),
        segment(p, SS),
        kept_at(level, segment(p, DS)),
        kept_at(level, segment(p, FS)),
        kept_at(level, segment(p, GS)),
    ];
    after
}

/// The popped EIP is tested, and the return is made.
#[tactic(auto, using(m386_base::proofs::Phrases::calls))]
fn back<B: Bus>(p: &Proc, bus: &mut B, target: &Target, stack: &Stack) -> Result<Proc, Break>
    requires free { (B.view bus.old).kept ≡ false }
    requires level { target.now.level < 4 }
    ensures cycles { Performs (back_phrase p.now target.now stack.now) (B.view bus.old) (B.view bus.new) it result }
    ensures free { (B.view bus.new).kept ≡ false }
{
    match target_fault(target) {
        Some(fault) => Err(Break::Fault(fault)),
        None => Ok(placed(p, target, stack)),
    }
}

/// ESP and SS of an outer level, popped and tested.
#[tactic(auto, using(m386_base::proofs::Phrases::calls), unfolding(crate::specs::Return::outer_stack_phrase))]
fn outer_stack<B: Bus>(
    p: &Proc,
    bus: &mut B,
    level: u8,
    stack: &Stack,
    len: u8,
) -> Result<Stack, Break>
    requires free { (B.view bus.old).kept ≡ false }
    requires len { (len ≡ 2) ⊎ (len ≡ 4) }
    ensures cycles { Performs (outer_stack_phrase p.now level stack.now len) (B.view bus.old) (B.view bus.new) it result }
    ensures free { (B.view bus.new).kept ≡ false }
{
    let esp = pop(bus, Role::Pop, stack, len)?;
    let selector = pop(bus, Role::Pop, &moved(stack, u32::from(len)), len)?;
    let ss = stack_segment(p, bus, level, (selector % 0x1_0000) as u16)?;
    Ok(Stack { ss, esp })
}

/// A return to an outer level. The bytes released are skipped on both stacks.
#[tactic(auto, using(m386_base::proofs::Phrases::calls), unfolding(crate::specs::Return::outer_phrase))]
fn return_outer<B: Bus>(
    p: &Proc,
    bus: &mut B,
    target: &Target,
    stack: &Stack,
    len: u8,
    released: u16,
) -> Result<Proc, Break>
    requires free { (B.view bus.old).kept ≡ false }
    requires len { (len ≡ 2) ⊎ (len ≡ 4) }
    requires level { target.now.level < 4 }
    ensures cycles { Performs (outer_phrase p.now target.now stack.now len released) (B.view bus.old) (B.view bus.new) it result }
    ensures free { (B.view bus.new).kept ≡ false }
{
    let skipped = moved(stack, u32::from(released));
    let outer = outer_stack(p, bus, target.level, &skipped, len)?;
    let kept = outer_segments(p, target.level);
    back(&kept, bus, target, &moved(&outer, u32::from(released)))
}

/// A return to the code at CS:EIP, which were popped with so many bytes each, 2 or 4, from the stack. `released` is the number of
/// bytes of the caller's parameters. To an outer level, that of the RPL of CS, ESP and SS are popped too, and ES, DS, FS and GS
/// are null where that level may not have them. A fault comes exactly by the first rule that is broken, of CS, of the new SS, and
/// of EIP (PRM 6.3.4.2).
#[tactic(auto, using(m386_base::proofs::Phrases::calls), unfolding(crate::specs::Return::return_phrase))]
pub fn return_to<B: Bus>(
    p: &Proc,
    bus: &mut B,
    cs: u16,
    eip: u32,
    stack: &Stack,
    len: u8,
    released: u16,
) -> Result<Proc, Break>
    requires free { (B.view bus.old).kept ≡ false }
    requires len { (len ≡ 2) ⊎ (len ≡ 4) }
    ensures cycles { Performs (return_phrase p.now cs eip stack.now len released) (B.view bus.old) (B.view bus.new) it result }
    ensures free { (B.view bus.new).kept ≡ false }
{
    let desc = take(p, bus, &RETURN_RULES, p.cpl(), false, cs)?;
    let target = Target {
        selector: cs,
        desc,
        level: rpl(cs),
        offset: eip,
    };
    if p.cpl() < rpl(cs) {
        return return_outer(p, bus, &target, stack, len, released);
    }
    back(p, bus, &target, &moved(stack, u32::from(released)))
}
