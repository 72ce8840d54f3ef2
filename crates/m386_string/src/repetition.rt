//! String operations that are repeated: one turn, and whether a further one follows (PRM 3.6.1).
ghost use Rattle.std.specs.Prelude.{◌≡◌, ℕ, ◌<◌, false};
ghost use Rattle.m386_base.specs.Phrase.{Performs, it};
ghost use Rattle.m386_string.specs.Repetition.{lowered, counted_phrase, repeated_phrase, string_phrase, goes_on_with, is_repeated, goes_on, is_followed, behind_turn};

use crate::element::{Element, do_element, element_of};
use m386_access::after::{at_eip, register_of, with_register};
use m386_access::operands::Operands;
use m386_access::registers::ECX;
use m386_base::bus::Bus;
use m386_base::fault::Break;
use m386_base::flags::{Flag, has_flag};
use m386_base::number::Width;
use m386_opmap::op::{Op, Rep};
use m386_state::proc::Proc;

/// The state with ECX lowered by one element.
fn lowered(count: u32, after: &Proc) -> Proc
    requires { 0 < count }
    ensures { result ≡ lowered count after.now }
{
    with_register(after, ECX, count - 1)
}

/// One element of a count that isn't used up.
#[tactic(auto, using(m386_base::proofs::Phrases::calls), unfolding(crate::specs::Repetition::counted_phrase))]
fn do_counted<B: Bus>(
    element: Element,
    width: Width,
    operands: Operands,
    count: u32,
    p: &Proc,
    bus: &mut B,
) -> Result<Proc, Break>
    requires free { (B.view bus.old).kept ≡ false }
    requires some { 0 < count }
    ensures cycles { Performs (counted_phrase element width operands count p.now) (B.view bus.old) (B.view bus.new) it result }
    ensures free { (B.view bus.new).kept ≡ false }
{
    let after = do_element(element, width, operands, p, bus)?;
    Ok(lowered(count, &after))
}

/// A turn of a repetition: one element, or none where ECX is 0.
#[tactic(auto, using(m386_base::proofs::Phrases::calls), unfolding(crate::specs::Repetition::repeated_phrase))]
fn do_repeated<B: Bus>(
    element: Element,
    width: Width,
    operands: Operands,
    p: &Proc,
    bus: &mut B,
) -> Result<Proc, Break>
    requires free { (B.view bus.old).kept ≡ false }
    ensures cycles { Performs (repeated_phrase element width operands p.now) (B.view bus.old) (B.view bus.new) it result }
    ensures free { (B.view bus.new).kept ≡ false }
{
    let count = register_of(p, ECX);
    if count == 0 {
        return Ok(*p);
    }
    do_counted(element, width, operands, count, p, bus)
}

/// One element, or a turn of a repetition.
#[tactic(auto, using(m386_base::proofs::Phrases::calls))]
pub(crate) fn do_string<B: Bus>(
    element: Element,
    rep: Rep,
    width: Width,
    operands: Operands,
    p: &Proc,
    bus: &mut B,
) -> Result<Proc, Break>
    requires free { (B.view bus.old).kept ≡ false }
    ensures cycles { Performs (string_phrase element rep width operands p.now) (B.view bus.old) (B.view bus.new) it result }
    ensures free { (B.view bus.new).kept ≡ false }
{
    match rep {
        Rep::Once => do_element(element, width, operands, p, bus),
        Rep::Equal | Rep::NotEqual => do_repeated(element, width, operands, p, bus),
    }
}

/// Whether a prefix goes on behind an element that left this ZF, where the operation compares.
fn goes_on_with(rep: Rep, zero: bool) -> bool
    ensures { result ≡ goes_on_with rep zero }
{
    match rep {
        Rep::Once => false,
        Rep::Equal => zero,
        Rep::NotEqual => !zero,
    }
}

/// Whether there is a prefix, which is all that MOVS, STOS and LODS ask.
fn is_repeated(rep: Rep) -> bool
    ensures { result ≡ is_repeated rep }
{
    match rep {
        Rep::Once => false,
        Rep::Equal | Rep::NotEqual => true,
    }
}

/// Whether an operation goes on behind an element that left this ZF.
fn goes_on(element: Element, rep: Rep, zero: bool) -> bool
    ensures { result ≡ goes_on element rep zero }
{
    match element {
        Element::Compare | Element::Scan => goes_on_with(rep, zero),
        Element::Move | Element::Store | Element::Load => is_repeated(rep),
    }
}

/// Whether a further turn follows one that led from a state to another. It does behind the last element too, and finds ECX 0.
fn is_followed(element: Option<Element>, rep: Rep, before: &Proc, after: &Proc) -> bool
    ensures { result ≡ is_followed element rep before.now after.now }
{
    match element {
        Some(element) => {
            let count = register_of(before, ECX);
            count != 0 && goes_on(element, rep, has_flag(Flag::Zero, after.eflags))
        }
        None => false,
    }
}

/// The state behind an operation that led from a state at its instruction to another behind it: EIP is the instruction's again
/// where a further turn of its repetition follows. Behind an operation of another crate the state stays.
#[tactic(auto, unfolding(crate::specs::Repetition::behind_turn))]
pub fn behind_turn(op: &Op, before: &Proc, after: &Proc) -> Proc
    ensures { result ≡ behind_turn op.now before.now after.now }
{
    if is_followed(element_of(op.name), op.rep, before, after) {
        at_eip(after, before.eip)
    } else {
        *after
    }
}
