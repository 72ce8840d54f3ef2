//! What string operations do with one element (PRM 3.6).
ghost use Rattle.std.specs.Prelude.{◌≡◌, ◌%◌, ◌<◌, ◌^◌, false};
ghost use Rattle.m386_alu.specs.Width.{bits};
ghost use Rattle.m386_base.specs.Phrase.{Performs, it};
ghost use Rattle.m386_string.specs.Element.{element_of, past_element, compared, move_element_phrase, compare_elements_phrase, store_element_phrase, load_element_phrase, scan_element_phrase, element_phrase};

use m386_access::access::{read, read_at, write};
use m386_access::after::{
    len_of, register_at, register_of, with_flags, with_register, with_register_at,
};
use m386_access::operands::{Operands, Place};
use m386_access::registers::{EAX, EDI, ESI};
use m386_alu::arithmetic::{AluOp, alu};
use m386_base::ask::Role;
use m386_base::bus::Bus;
use m386_base::exception::undefined_opcode;
use m386_base::fault::Break;
use m386_base::flags::{Flag, has_flag};
use m386_base::number::Width;
use m386_base::segments::ES;
use m386_opmap::name::Name;
use m386_opmap::op::Addr;
use m386_state::proc::Proc;

/// What a string operation does with an element.
#[derive(Clone, Copy, Debug, PartialEq, Eq)]
pub enum Element {
    /// MOVS: moves it from the source to ES:EDI.
    Move,
    /// CMPS: compares it with that at ES:EDI.
    Compare,
    /// STOS: stores AL, AX or EAX at ES:EDI.
    Store,
    /// LODS: loads it into AL, AX or EAX.
    Load,
    /// SCAS: compares AL, AX or EAX with that at ES:EDI.
    Scan,
}

/// What the operation of a name does with an element, where it is a string operation.
pub fn element_of(name: Name) -> Option<Element>
    ensures { result ≡ element_of name }
{
    match name {
        Name::Movs => Some(Element::Move),
        Name::Cmps => Some(Element::Compare),
        Name::Stos => Some(Element::Store),
        Name::Lods => Some(Element::Load),
        Name::Scas => Some(Element::Scan),
        _ => None,
    }
}

/// The state with an index register past its element, modulo 2^32.
fn past_element(width: Width, index: u8, p: &Proc) -> Proc
    ensures { result ≡ past_element width index p.now }
{
    let offset = register_of(p, index);
    let len = u32::from(len_of(width));
    if has_flag(Flag::Direction, p.eflags) {
        with_register(p, index, offset.wrapping_sub(len))
    } else {
        with_register(p, index, offset.wrapping_add(len))
    }
}

/// So many low bits of an element.
fn low(width: Width, element: u32) -> u32
    ensures exact { result ≡ element % 2 ^ bits width }
    ensures fits { result < 2 ^ bits width }
{
    match width {
        Width::W8 => element % 256,
        Width::W16 => element % 65536,
        Width::W32 => element,
    }
}

/// The state with the flags of a difference of two elements.
fn compared(width: Width, a: u32, b: u32, p: &Proc) -> Proc
    ensures { result ≡ compared width a b p.now }
{
    let difference = alu(AluOp::Cmp, width, low(width, a), low(width, b), p.eflags);
    with_flags(p, difference.1)
}

/// MOVS: the element at the source, stored at ES:EDI.
#[tactic(auto, using(m386_base::proofs::Phrases::calls), unfolding(crate::specs::Element::move_element_phrase))]
fn move_element<B: Bus>(width: Width, source: &Addr, p: &Proc, bus: &mut B) -> Result<Proc, Break>
    requires free { (B.view bus.old).kept ≡ false }
    ensures cycles { Performs (move_element_phrase width source.now p.now) (B.view bus.old) (B.view bus.new) it result }
    ensures free { (B.view bus.new).kept ≡ false }
{
    let len = len_of(width);
    let element = read_at(p, source, len, bus)?;
    write(p, bus, Role::Operand, ES, register_of(p, EDI), len, element)?;
    Ok(past_element(width, EDI, &past_element(width, ESI, p)))
}

/// CMPS: the element at the source less that at ES:EDI, for the flags.
#[tactic(auto, using(m386_base::proofs::Phrases::calls), unfolding(crate::specs::Element::compare_elements_phrase))]
fn compare_elements<B: Bus>(
    width: Width,
    source: &Addr,
    p: &Proc,
    bus: &mut B,
) -> Result<Proc, Break>
    requires free { (B.view bus.old).kept ≡ false }
    ensures cycles { Performs (compare_elements_phrase width source.now p.now) (B.view bus.old) (B.view bus.new) it result }
    ensures free { (B.view bus.new).kept ≡ false }
{
    let len = len_of(width);
    let first = read_at(p, source, len, bus)?;
    let second = read(p, bus, Role::Operand, ES, register_of(p, EDI), len)?;
    Ok(compared(
        width,
        first,
        second,
        &past_element(width, EDI, &past_element(width, ESI, p)),
    ))
}

/// STOS: AL, AX or EAX, stored at ES:EDI.
#[tactic(auto, using(m386_base::proofs::Phrases::calls), unfolding(crate::specs::Element::store_element_phrase))]
fn store_element<B: Bus>(width: Width, p: &Proc, bus: &mut B) -> Result<Proc, Break>
    requires free { (B.view bus.old).kept ≡ false }
    ensures cycles { Performs (store_element_phrase width p.now) (B.view bus.old) (B.view bus.new) it result }
    ensures free { (B.view bus.new).kept ≡ false }
{
    let element = register_at(width, p, EAX);
    write(
        p,
        bus,
        Role::Operand,
        ES,
        register_of(p, EDI),
        len_of(width),
        element,
    )?;
    Ok(past_element(width, EDI, p))
}

/// LODS: AL, AX or EAX loaded with the element at the source.
#[tactic(auto, using(m386_base::proofs::Phrases::calls), unfolding(crate::specs::Element::load_element_phrase))]
fn load_element<B: Bus>(width: Width, source: &Addr, p: &Proc, bus: &mut B) -> Result<Proc, Break>
    requires free { (B.view bus.old).kept ≡ false }
    ensures cycles { Performs (load_element_phrase width source.now p.now) (B.view bus.old) (B.view bus.new) it result }
    ensures free { (B.view bus.new).kept ≡ false }
{
    let element = read_at(p, source, len_of(width), bus)?;
    Ok(with_register_at(width, &past_element(width, ESI, p), EAX, element))
}

/// SCAS: AL, AX or EAX less the element at ES:EDI, for the flags.
#[tactic(auto, using(m386_base::proofs::Phrases::calls), unfolding(crate::specs::Element::scan_element_phrase))]
fn scan_element<B: Bus>(width: Width, p: &Proc, bus: &mut B) -> Result<Proc, Break>
    requires free { (B.view bus.old).kept ≡ false }
    ensures cycles { Performs (scan_element_phrase width p.now) (B.view bus.old) (B.view bus.new) it result }
    ensures free { (B.view bus.new).kept ≡ false }
{
    let sought = register_at(width, p, EAX);
    let element = read(
        p,
        bus,
        Role::Operand,
        ES,
        register_of(p, EDI),
        len_of(width),
    )?;
    Ok(compared(width, sought, element, &past_element(width, EDI, p)))
}

/// One element. Its source, at ESI, is the operand; any other operands are #UD.
#[tactic(auto, using(m386_base::proofs::Phrases::calls))]
pub(crate) fn do_element<B: Bus>(
    element: Element,
    width: Width,
    operands: Operands,
    p: &Proc,
    bus: &mut B,
) -> Result<Proc, Break>
    requires free { (B.view bus.old).kept ≡ false }
    ensures cycles { Performs (element_phrase element width operands p.now) (B.view bus.old) (B.view bus.new) it result }
    ensures free { (B.view bus.new).kept ≡ false }
{
    match (element, operands) {
        (Element::Move, Operands::One(Place::Memory(source))) => {
            move_element(width, &source, p, bus)
        }
        (Element::Compare, Operands::One(Place::Memory(source))) => {
            compare_elements(width, &source, p, bus)
        }
        (Element::Store, Operands::Absent) => store_element(width, p, bus),
        (Element::Load, Operands::One(Place::Memory(source))) => {
            load_element(width, &source, p, bus)
        }
        (Element::Scan, Operands::Absent) => scan_element(width, p, bus),
        _ => Err(Break::Fault(undefined_opcode())),
    }
}
