//! LAR, LSL, VERR and VERW: what is found at a selector.
ghost use Rattle.std.specs.Prelude.{◌≡◌, false};
ghost use Rattle.m386_base.specs.Phrase.{Performs, it};
ghost use Rattle.m386_segments.specs.Found.{found_phrase, with_shown, show_into_phrase, show_phrase, verify_place_phrase, verify_phrase};

use crate::zero::with_zero;
use m386_access::after::with_register_at;
use m386_access::operands::{Operands, Place, value};
use m386_base::bus::Bus;
use m386_base::exception::undefined_opcode;
use m386_base::fault::Break;
use m386_base::number::Width;
use m386_segload::look::look;
use m386_segload::wanted::Look;
use m386_state::proc::Proc;

/// What is found at the selector of an operand, which is read as 16 bits.
#[tactic(auto, using(m386_base::proofs::Phrases::calls), unfolding(crate::specs::Found::found_phrase))]
fn found<B: Bus>(p: &Proc, bus: &mut B, what: Look, operand: Place) -> Result<Option<u32>, Break>
    requires free { (B.view bus.old).kept ≡ false }
    ensures cycles { Performs (found_phrase p.now what operand) (B.view bus.old) (B.view bus.new) it result }
    ensures free { (B.view bus.new).kept ≡ false }
{
    let selector = value(Width::W16, p, operand, bus)?;
    Ok(look(p, bus, what, (selector % 0x1_0000) as u16)?)
}

/// The state with a register put to what was found, by its width, and ZF set; else ZF is cleared and the register stays.
fn with_shown(width: Width, p: &Proc, register: u8, found: Option<u32>) -> Proc
    ensures { result ≡ with_shown width p.now register found }
{
    match found {
        Some(shown) => with_register_at(width, &with_zero(p, true), register, shown),
        None => with_zero(p, false),
    }
}

/// LAR or LSL into a register, by its number.
#[tactic(auto, using(m386_base::proofs::Phrases::calls), unfolding(crate::specs::Found::show_into_phrase))]
fn show_into<B: Bus>(
    p: &Proc,
    bus: &mut B,
    what: Look,
    width: Width,
    register: u8,
    operand: Place,
) -> Result<Proc, Break>
    requires free { (B.view bus.old).kept ≡ false }
    ensures cycles { Performs (show_into_phrase p.now what width register operand) (B.view bus.old) (B.view bus.new) it result }
    ensures free { (B.view bus.new).kept ≡ false }
{
    let found = found(p, bus, what, operand)?;
    Ok(with_shown(width, p, register, found))
}

/// LAR or LSL.
#[tactic(auto, using(m386_base::proofs::Phrases::calls))]
pub(crate) fn show<B: Bus>(
    what: Look,
    width: Width,
    operands: Operands,
    p: &Proc,
    bus: &mut B,
) -> Result<Proc, Break>
    requires free { (B.view bus.old).kept ≡ false }
    ensures cycles { Performs (show_phrase what width operands p.now) (B.view bus.old) (B.view bus.new) it result }
    ensures free { (B.view bus.new).kept ≡ false }
{
    match operands {
        Operands::Two(Place::Register(register), operand) => {
            show_into(p, bus, what, width, register, operand)
        }
        _ => Err(Break::Fault(undefined_opcode())),
    }
}

/// VERR or VERW of an operand.
#[tactic(auto, using(m386_base::proofs::Phrases::calls), unfolding(crate::specs::Found::verify_place_phrase))]
fn verify_place<B: Bus>(p: &Proc, bus: &mut B, what: Look, operand: Place) -> Result<Proc, Break>
    requires free { (B.view bus.old).kept ≡ false }
    ensures cycles { Performs (verify_place_phrase p.now what operand) (B.view bus.old) (B.view bus.new) it result }
    ensures free { (B.view bus.new).kept ≡ false }
{
    let found = found(p, bus, what, operand)?;
    Ok(with_zero(p, found.is_some()))
}

/// VERR or VERW.
#[tactic(auto, using(m386_base::proofs::Phrases::calls))]
pub(crate) fn verify<B: Bus>(
    what: Look,
    operands: Operands,
    p: &Proc,
    bus: &mut B,
) -> Result<Proc, Break>
    requires free { (B.view bus.old).kept ≡ false }
    ensures cycles { Performs (verify_phrase what operands p.now) (B.view bus.old) (B.view bus.new) it result }
    ensures free { (B.view bus.new).kept ≡ false }
{
    match operands {
        Operands::One(operand) => verify_place(p, bus, what, operand),
        _ => Err(Break::Fault(undefined_opcode())),
    }
}
