//! The operands of an operation, by their forms.
ghost use Rattle.std.specs.Prelude.{◌≡◌, false};
ghost use Rattle.m386_base.specs.Phrase.{Performs, it};
ghost use Rattle.m386_access.specs.Operands.{manner_of, operand_of, forms_of, is_general, are_general, operands_of, value_phrase, store_phrase, put_phrase};

use crate::access::{read_at, write_at};
use crate::after::{len_of, register_at, with_register_at};
use m386_base::bus::Bus;
use m386_base::exception::undefined_opcode;
use m386_base::fault::Break;
use m386_base::number::Width;
use m386_opmap::op::{Addr, Arg, Op};
use m386_state::proc::Proc;

/// How an operation takes its operands.
#[derive(Clone, Copy)]
pub struct Manner {
    /// How wide they are.
    pub width: Width,
    /// Whether they have LOCK: the cycles on memory that is changed are one locked group.
    pub lock: bool,
}

/// Where an operand is.
#[derive(Clone, Copy)]
pub enum Place {
    /// In a general register, by its number.
    Register(u8),
    /// In the instruction, as a number.
    Number(u32),
    /// In memory.
    Memory(Addr),
    /// Any other.
    Other,
}

/// The operands of an operation, the destination first.
#[derive(Clone, Copy)]
pub enum Operands {
    /// None.
    Absent,
    /// One.
    One(Place),
    /// Two.
    Two(Place, Place),
    /// Three.
    Three(Place, Place, Place),
    /// Any others.
    Others,
}

/// How an operation takes its operands.
pub fn manner_of(op: &Op) -> Manner
    ensures { result ≡ manner_of op.now }
{
    Manner {
        width: op.width,
        lock: op.lock,
    }
}

/// An operand by its form.
fn operand_of(arg: Arg) -> Place
    ensures { result ≡ operand_of arg }
{
    match arg {
        Arg::Reg(register) => Place::Register(register),
        Arg::Imm(number) => Place::Number(number),
        Arg::Mem(address) => Place::Memory(address),
        Arg::Seg(_) | Arg::Cr0 | Arg::Rel(_) | Arg::Far { .. } => Place::Other,
    }
}

/// Operands by how many there are.
fn forms_of(args: &[Arg]) -> Operands
    ensures { result ≡ forms_of args.now }
{
    match args {
        [] => Operands::Absent,
        [a] => Operands::One(operand_of(*a)),
        [a, b] => Operands::Two(operand_of(*a), operand_of(*b)),
        [a, b, c] => Operands::Three(operand_of(*a), operand_of(*b), operand_of(*c)),
        _ => Operands::Others,
    }
}

/// Whether an operand is a general register, a number or memory.
fn is_general(operand: Place) -> bool
    ensures { result ≡ is_general operand }
{
    !matches!(operand, Place::Other)
}

/// Whether each operand is a general register, a number or memory.
pub fn are_general(operands: Operands) -> bool
    ensures { result ≡ are_general operands }
{
    match operands {
        Operands::Absent => true,
        Operands::One(a) => is_general(a),
        Operands::Two(a, b) => is_general(a) && is_general(b),
        Operands::Three(a, b, c) => is_general(a) && is_general(b) && is_general(c),
        Operands::Others => false,
    }
}

/// The operands of an operation.
#[tactic(auto, unfolding(crate::specs::Operands::operands_of))]
pub fn operands_of(op: &Op) -> Operands
    ensures { result ≡ operands_of op.now }
{
    forms_of(op.args.as_slice())
}

/// An operand's value, by its width. A fault as in `read`, or #UD for one that has none.
#[tactic(auto, using(m386_base::proofs::Phrases::calls), unfolding(crate::specs::Operands::value_phrase))]
pub fn value<B: Bus>(width: Width, p: &Proc, operand: Place, bus: &mut B) -> Result<u32, Break>
    requires free { (B.view bus.old).kept ≡ false }
    ensures cycles { Performs (value_phrase width p.now operand) (B.view bus.old) (B.view bus.new) it result }
    ensures free { (B.view bus.new).kept ≡ false }
{
    match operand {
        Place::Register(register) => Ok(register_at(width, p, register)),
        Place::Number(number) => Ok(number),
        Place::Memory(address) => read_at(p, &address, len_of(width), bus),
        Place::Other => Err(Break::Fault(undefined_opcode())),
    }
}

/// The state with memory put to a value.
#[tactic(auto, using(m386_base::proofs::Phrases::calls), unfolding(crate::specs::Operands::store_phrase))]
fn store<B: Bus>(width: Width, p: &Proc, a: &Addr, value: u32, bus: &mut B) -> Result<Proc, Break>
    requires free { (B.view bus.old).kept ≡ false }
    ensures cycles { Performs (store_phrase width p.now a.now value) (B.view bus.old) (B.view bus.new) it result }
    ensures free { (B.view bus.new).kept ≡ false }
{
    write_at(p, a, len_of(width), value, bus)?;
    Ok(*p)
}

/// The state with an operand put to a value, by its width. A fault as in `write`, or #UD for one that can't be put.
#[tactic(auto, using(m386_base::proofs::Phrases::calls), unfolding(crate::specs::Operands::put_phrase))]
pub fn put<B: Bus>(
    width: Width,
    p: &Proc,
    operand: Place,
    value: u32,
    bus: &mut B,
) -> Result<Proc, Break>
    requires free { (B.view bus.old).kept ≡ false }
    ensures cycles { Performs (put_phrase width p.now operand value) (B.view bus.old) (B.view bus.new) it result }
    ensures free { (B.view bus.new).kept ≡ false }
{
    match operand {
        Place::Register(register) => Ok(with_register_at(width, p, register, value)),
        Place::Memory(address) => store(width, p, &address, value, bus),
        Place::Number(_) | Place::Other => Err(Break::Fault(undefined_opcode())),
    }
}
