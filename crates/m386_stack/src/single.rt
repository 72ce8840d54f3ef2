//! PUSH and POP.
ghost use Rattle.std.specs.Prelude.{◌≡◌, ◌%◌, ◌^◌, false};
ghost use Rattle.m386_base.specs.Phrase.{Performs, it};
ghost use Rattle.m386_stack.specs.Single.{item_of, push_value_phrase, push_general_phrase, push_item_phrase, behind_pop, pop_general_phrase, behind_load, pop_segment_phrase, pop_place_phrase, pop_item_phrase};

use crate::names::size_of;
use crate::stack::{moved, own_stack, pop, push, with_pointer};
use m386_access::address::segment;
use m386_access::operands::{Place, put, value};
use m386_base::ask::Role;
use m386_base::bus::Bus;
use m386_base::exception::undefined_opcode;
use m386_base::fault::Break;
use m386_base::number::Width;
use m386_base::segments::{CS, SS};
use m386_opmap::op::Arg;
use m386_segload::segment::{segment_for, with_segment};
use m386_state::proc::Proc;
use m386_state::segment::Seg;

/// What is pushed or popped.
#[derive(Clone, Copy)]
pub enum Item {
    /// A segment register, by its number.
    Segment(u8),
    /// Any other operand.
    General(Place),
}

/// What is pushed or popped, by the operands.
pub(crate) fn item_of(args: &[Arg]) -> Item
    ensures { result ≡ item_of args.now }
{
    match args {
        [Arg::Seg(seg)] => Item::Segment(*seg),
        [Arg::Reg(register)] => Item::General(Place::Register(*register)),
        [Arg::Imm(number)] => Item::General(Place::Number(*number)),
        [Arg::Mem(address)] => Item::General(Place::Memory(*address)),
        _ => Item::General(Place::Other),
    }
}

/// Pushes a value on the processor's stack.
#[tactic(auto, using(m386_base::proofs::Phrases::calls), unfolding(crate::specs::Single::push_value_phrase))]
pub(crate) fn push_value<B: Bus>(
    p: &Proc,
    bus: &mut B,
    width: Width,
    value: u32,
) -> Result<Proc, Break>
    requires free { (B.view bus.old).kept ≡ false }
    ensures cycles { Performs (push_value_phrase p.now width value) (B.view bus.old) (B.view bus.new) it result }
    ensures free { (B.view bus.new).kept ≡ false }
{
    let stack = push(bus, &own_stack(p), size_of(width), value)?;
    Ok(with_pointer(p, &stack))
}

/// PUSH of a general register, a number or memory, which is read before the push.
#[tactic(auto, using(m386_base::proofs::Phrases::calls), unfolding(crate::specs::Single::push_general_phrase))]
fn push_general<B: Bus>(p: &Proc, bus: &mut B, width: Width, operand: Place) -> Result<Proc, Break>
    requires free { (B.view bus.old).kept ≡ false }
    ensures cycles { Performs (push_general_phrase p.now width operand) (B.view bus.old) (B.view bus.new) it result }
    ensures free { (B.view bus.new).kept ≡ false }
{
    let found = value(width, p, operand, bus)?;
    push_value(p, bus, width, found)
}

/// PUSH (PRM 17.2.2.11). A segment register is pushed with zeros above it. At `Err` nothing but cycles has happened.
#[tactic(auto, using(m386_base::proofs::Phrases::calls))]
pub(crate) fn push_item<B: Bus>(
    p: &Proc,
    bus: &mut B,
    width: Width,
    item: Item,
) -> Result<Proc, Break>
    requires free { (B.view bus.old).kept ≡ false }
    ensures cycles { Performs (push_item_phrase p.now width item) (B.view bus.old) (B.view bus.new) it result }
    ensures free { (B.view bus.new).kept ≡ false }
{
    match item {
        Item::Segment(seg) => push_value(p, bus, width, u32::from(segment(p, seg).selector)),
        Item::General(operand) => push_general(p, bus, width, operand),
    }
}

/// The state behind a pop, with the pointer moved.
pub(crate) fn behind_pop(p: &Proc, width: Width) -> Proc
    ensures { result ≡ behind_pop p.now width }
{
    with_pointer(p, &moved(&own_stack(p), u32::from(size_of(width))))
}

/// POP to a general register or memory. The pointer is moved before the value is put.
#[tactic(auto, using(m386_base::proofs::Phrases::calls), unfolding(crate::specs::Single::pop_general_phrase))]
fn pop_general<B: Bus>(p: &Proc, bus: &mut B, width: Width, operand: Place) -> Result<Proc, Break>
    requires free { (B.view bus.old).kept ≡ false }
    ensures cycles { Performs (pop_general_phrase p.now width operand) (B.view bus.old) (B.view bus.new) it result }
    ensures free { (B.view bus.new).kept ≡ false }
{
    let found = pop(bus, Role::Pop, &own_stack(p), size_of(width))?;
    put(width, &behind_pop(p, width), operand, found, bus)
}

/// The state behind a segment register that was popped. A load of SS holds interrupts back for a step (PRM 9.2.4).
fn behind_load(p: &Proc, width: Width, seg: u8, value: Seg) -> Proc
    ensures { result ≡ behind_load p.now width seg value }
{
    let stack = moved(&own_stack(p), u32::from(size_of(width)));
    let mut after = with_pointer(&with_segment(p, seg, value), &stack);
    after.shadow = seg == SS || p.shadow;
    after
}

/// The selector in the low half of a value.
fn selector_in(value: u32) -> u16
    ensures { result ≡ value % 2 ^ 16 }
{
    (value % 0x1_0000) as u16
}

/// POP to a segment register but CS.
#[tactic(auto, using(m386_base::proofs::Phrases::calls), unfolding(crate::specs::Single::pop_segment_phrase))]
fn pop_segment<B: Bus>(p: &Proc, bus: &mut B, width: Width, seg: u8) -> Result<Proc, Break>
    requires free { (B.view bus.old).kept ≡ false }
    ensures cycles { Performs (pop_segment_phrase p.now width seg) (B.view bus.old) (B.view bus.new) it result }
    ensures free { (B.view bus.new).kept ≡ false }
{
    let found = pop(bus, Role::Pop, &own_stack(p), size_of(width))?;
    let value = segment_for(p, bus, seg, selector_in(found))?;
    Ok(behind_load(p, width, seg, value))
}

/// POP to a place that can be put.
#[tactic(auto, using(m386_base::proofs::Phrases::calls))]
fn pop_place<B: Bus>(p: &Proc, bus: &mut B, width: Width, operand: Place) -> Result<Proc, Break>
    requires free { (B.view bus.old).kept ≡ false }
    ensures cycles { Performs (pop_place_phrase p.now width operand) (B.view bus.old) (B.view bus.new) it result }
    ensures free { (B.view bus.new).kept ≡ false }
{
    match operand {
        Place::Register(_) | Place::Memory(_) => pop_general(p, bus, width, operand),
        Place::Number(_) | Place::Other => Err(Break::Fault(undefined_opcode())),
    }
}

/// POP (PRM 17.2.2.11). At `Err` nothing but cycles has happened.
#[tactic(auto, using(m386_base::proofs::Phrases::calls))]
pub(crate) fn pop_item<B: Bus>(
    p: &Proc,
    bus: &mut B,
    width: Width,
    item: Item,
) -> Result<Proc, Break>
    requires free { (B.view bus.old).kept ≡ false }
    ensures cycles { Performs (pop_item_phrase p.now width item) (B.view bus.old) (B.view bus.new) it result }
    ensures free { (B.view bus.new).kept ≡ false }
{
    match item {
        Item::Segment(CS) => Err(Break::Fault(undefined_opcode())),
        Item::Segment(seg) => pop_segment(p, bus, width, seg),
        Item::General(operand) => pop_place(p, bus, width, operand),
    }
}
