//! Products and quotients.
ghost use Rattle.std.specs.Prelude.{◌≡◌, false};
ghost use Rattle.m386_alu.specs.Division.{div_of};
ghost use Rattle.m386_access.specs.After.{register_at};
ghost use Rattle.m386_access.specs.Registers.{eax};
ghost use Rattle.m386_base.specs.Phrase.{Performs, it};
ghost use Rattle.m386_data.specs.Change.{low_of};
ghost use Rattle.m386_data.specs.Products.{products_of, products_phrase, upper_register, with_halves, multiplied, with_product, multiply_accumulator_phrase, multiply_two_phrase, multiply_phrase, quotient_by, divided_phrase, divide_phrase};

use crate::change::low;
use m386_access::after::{register_at, with_flags, with_register_at};
use m386_access::operands::{Manner, Operands, Place, value};
use m386_access::registers::{AH, EAX, EDX};
use m386_alu::division::div;
use m386_alu::products::mul;
use m386_base::bus::Bus;
use m386_base::exception::{Exception, undefined_opcode};
use m386_base::fault::Break;
use m386_base::number::Width;
use m386_opmap::name::Name;
use m386_state::proc::Proc;

/// What an operation of this group does.
#[derive(Clone, Copy)]
pub enum Products {
    /// A product.
    Multiply {
        /// Whether the operands are read with a sign.
        signed: bool,
    },
    /// A quotient and a remainder.
    Divide {
        /// Whether the operands are read with a sign.
        signed: bool,
    },
}

/// What the operation of a name does, where it is one of this group.
pub fn products_of(name: Name) -> Option<Products>
    ensures { result ≡ products_of name }
{
    Some(match name {
        Name::Mul => Products::Multiply { signed: false },
        Name::Imul => Products::Multiply { signed: true },
        Name::Div => Products::Divide { signed: false },
        Name::Idiv => Products::Divide { signed: true },
        _ => return None,
    })
}

/// The register of the upper half of a product or dividend (PRM 3.2.3, 3.2.4).
fn upper_register(width: Width) -> u8
    ensures { result ≡ upper_register width }
{
    match width {
        Width::W8 => AH,
        Width::W16 | Width::W32 => EDX,
    }
}

/// The state with the registers of a product's two halves put to values.
fn with_halves(width: Width, p: &Proc, upper: u32, lower: u32) -> Proc
    ensures { result ≡ with_halves width p.now upper lower }
{
    let after = with_register_at(width, p, EAX, lower);
    with_register_at(width, &after, upper_register(width), upper)
}

/// The accumulator times a number, in two registers.
fn multiplied(signed: bool, width: Width, p: &Proc, b: u32) -> Proc
    ensures { result ≡ multiplied signed width p.now b }
{
    let a = low(width, register_at(width, p, EAX));
    let (upper, lower, flags) = mul(signed, width, a, low(width, b), p.eflags);
    with_halves(width, &with_flags(p, flags), upper, lower)
}

/// The lower half of a product, in a register.
fn with_product(signed: bool, width: Width, p: &Proc, register: u8, a: u32, b: u32) -> Proc
    ensures { result ≡ with_product signed width p.now register a b }
{
    let (_, lower, flags) = mul(signed, width, low(width, a), low(width, b), p.eflags);
    with_register_at(width, &with_flags(p, flags), register, lower)
}

/// Multiplies the accumulator by an operand.
#[tactic(auto, using(m386_base::proofs::Phrases::calls), unfolding(crate::specs::Products::multiply_accumulator_phrase))]
fn multiply_accumulator<B: Bus>(
    signed: bool,
    width: Width,
    p: &Proc,
    operand: Place,
    bus: &mut B,
) -> Result<Proc, Break>
    requires free { (B.view bus.old).kept ≡ false }
    ensures cycles { Performs (multiply_accumulator_phrase signed width p.now operand) (B.view bus.old) (B.view bus.new) it result }
    ensures free { (B.view bus.new).kept ≡ false }
{
    let b = value(width, p, operand, bus)?;
    Ok(multiplied(signed, width, p, b))
}

/// Puts a register to the lower half of the product of two operands.
#[tactic(auto, using(m386_base::proofs::Phrases::calls), unfolding(crate::specs::Products::multiply_two_phrase))]
fn multiply_two<B: Bus>(
    signed: bool,
    width: Width,
    p: &Proc,
    register: u8,
    first: Place,
    second: Place,
    bus: &mut B,
) -> Result<Proc, Break>
    requires free { (B.view bus.old).kept ≡ false }
    ensures cycles { Performs (multiply_two_phrase signed width p.now register first second) (B.view bus.old) (B.view bus.new) it result }
    ensures free { (B.view bus.new).kept ≡ false }
{
    let a = value(width, p, first, bus)?;
    let b = value(width, p, second, bus)?;
    Ok(with_product(signed, width, p, register, a, b))
}

/// MUL or IMUL, and the forms of IMUL with two and three operands.
#[tactic(auto, using(m386_base::proofs::Phrases::calls), unfolding(crate::specs::Products::multiply_phrase))]
fn multiply<B: Bus>(
    signed: bool,
    manner: Manner,
    operands: Operands,
    p: &Proc,
    bus: &mut B,
) -> Result<Proc, Break>
    requires free { (B.view bus.old).kept ≡ false }
    ensures cycles { Performs (multiply_phrase signed manner operands p.now) (B.view bus.old) (B.view bus.new) it result }
    ensures free { (B.view bus.new).kept ≡ false }
{
    match operands {
        Operands::One(first) => multiply_accumulator(signed, manner.width, p, first, bus),
        Operands::Two(Place::Register(register), second) => {
            multiply_two(
                signed,
                manner.width,
                p,
                register,
                Place::Register(register),
                second,
                bus,
            )
        }
        Operands::Three(Place::Register(register), second, third) => {
            multiply_two(signed, manner.width, p, register, second, third, bus)
        }
        _ => Err(Break::Fault(undefined_opcode())),
    }
}

/// The two registers divided by a number: the quotient and the remainder, none where it is 0 or the quotient doesn't fit.
fn quotient(signed: bool, width: Width, p: &Proc, by: u32) -> Option<(u32, u32)>
    ensures { result ≡ quotient_by signed width p.now by }
{
    let upper = low(width, register_at(width, p, upper_register(width)));
    let lower = low(width, register_at(width, p, EAX));
    div(signed, width, upper, lower, low(width, by))
}

/// DIV or IDIV of the two registers by an operand. Interrupt 0 where `quotient` finds none.
#[tactic(auto, using(m386_base::proofs::Phrases::calls), unfolding(crate::specs::Products::divide_phrase))]
fn divide<B: Bus>(
    signed: bool,
    manner: Manner,
    operands: Operands,
    p: &Proc,
    bus: &mut B,
) -> Result<Proc, Break>
    requires free { (B.view bus.old).kept ≡ false }
    ensures cycles { Performs (divide_phrase signed manner operands p.now) (B.view bus.old) (B.view bus.new) it result }
    ensures free { (B.view bus.new).kept ≡ false }
{
    match operands {
        Operands::One(first) => {
            let by = value(manner.width, p, first, bus)?;
            match quotient(signed, manner.width, p, by) {
                Some((quotient, remainder)) => Ok(with_halves(
                    manner.width,
                    p,
                    remainder,
                    quotient,
                )),
                None => Err(Break::Fault(Exception::DivideError.fault())),
            }
        }
        _ => Err(Break::Fault(undefined_opcode())),
    }
}

/// An operation of this group.
#[tactic(auto, using(m386_base::proofs::Phrases::calls))]
pub(crate) fn perform_products<B: Bus>(
    products: Products,
    manner: Manner,
    operands: Operands,
    p: &Proc,
    bus: &mut B,
) -> Result<Proc, Break>
    requires free { (B.view bus.old).kept ≡ false }
    ensures cycles { Performs (products_phrase products manner operands p.now) (B.view bus.old) (B.view bus.new) it result }
    ensures free { (B.view bus.new).kept ≡ false }
{
    match products {
        Products::Multiply { signed } => multiply(signed, manner, operands, p, bus),
        Products::Divide { signed } => divide(signed, manner, operands, p, bus),
    }
}
