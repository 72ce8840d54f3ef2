//! Operations that change one operand, which is read and written.
ghost use Rattle.std.specs.Prelude.{◌≡◌, false};
ghost use Rattle.m386_base.specs.Phrase.{Performs, it};
ghost use Rattle.m386_data.specs.Update.{update_of, update_phrase, put_found, change_memory_phrase, change_phrase, arithmetic_phrase, single_phrase, shift_phrase, double_shift_phrase};

use crate::change::{Change, apply};
use m386_access::address::address;
use m386_access::after::{len_of, register_at, with_flags, with_register_at};
use m386_access::modify::modify;
use m386_access::operands::{Manner, Operands, Place, value};
use m386_alu::arithmetic::AluOp;
use m386_alu::shifts::ShiftOp;
use m386_base::bus::Bus;
use m386_base::exception::undefined_opcode;
use m386_base::fault::Break;
use m386_base::number::{Flags, Width};
use m386_opmap::name::Name;
use m386_state::proc::Proc;

/// What an operation of this group does.
#[derive(Clone, Copy)]
pub enum Update {
    /// Arithmetic or logic with a second operand.
    Arithmetic(AluOp),
    /// A change that needs no other operand.
    Single(Change),
    /// A shift or rotate.
    Shift(ShiftOp),
    /// A shift that takes in bits of a second operand.
    DoubleShift {
        /// Whether it goes to the left.
        left: bool,
    },
}

/// What the operation of a name does, where it is one of this group.
pub fn update_of(name: Name) -> Option<Update>
    ensures { result ≡ update_of name }
{
    Some(match name {
        Name::Add => Update::Arithmetic(AluOp::Add),
        Name::Or => Update::Arithmetic(AluOp::Or),
        Name::Adc => Update::Arithmetic(AluOp::Adc),
        Name::Sbb => Update::Arithmetic(AluOp::Sbb),
        Name::And => Update::Arithmetic(AluOp::And),
        Name::Sub => Update::Arithmetic(AluOp::Sub),
        Name::Xor => Update::Arithmetic(AluOp::Xor),
        Name::Inc => Update::Single(Change::Increment),
        Name::Dec => Update::Single(Change::Decrement),
        Name::Not => Update::Single(Change::Invert),
        Name::Neg => Update::Single(Change::Negate),
        Name::Rol => Update::Shift(ShiftOp::Rol),
        Name::Ror => Update::Shift(ShiftOp::Ror),
        Name::Rcl => Update::Shift(ShiftOp::Rcl),
        Name::Rcr => Update::Shift(ShiftOp::Rcr),
        Name::Shl => Update::Shift(ShiftOp::Shl),
        Name::Shr => Update::Shift(ShiftOp::Shr),
        Name::Sar => Update::Shift(ShiftOp::Sar),
        Name::Shld => Update::DoubleShift { left: true },
        Name::Shrd => Update::DoubleShift { left: false },
        _ => return None,
    })
}

/// Changes memory, and answers the state with the flags after it.
#[tactic(auto, using(m386_base::proofs::Phrases::calls), unfolding(crate::specs::Update::change_memory_phrase))]
pub(crate) fn change_memory<B: Bus>(
    change: Change,
    manner: Manner,
    p: &Proc,
    seg: u8,
    offset: u32,
    bus: &mut B,
) -> Result<Proc, Break>
    requires free { (B.view bus.old).kept ≡ false }
    ensures cycles { Performs (change_memory_phrase change manner p.now seg offset) (B.view bus.old) (B.view bus.new) it result }
    ensures free { (B.view bus.new).kept ≡ false }
{
    let flags = p.eflags;
    let width = manner.width;
    let old = modify(
        p,
        bus,
        seg,
        offset,
        len_of(width),
        manner.lock,
        |old| apply(change, width, old, flags).0,
    )?;
    Ok(with_flags(p, apply(change, width, old, flags).1))
}

/// The state with a register put to a result, and the flags after it.
fn put_found(width: Width, p: &Proc, register: u8, found: (u32, Flags)) -> Proc
    ensures { result ≡ put_found width p.now register found }
{
    with_register_at(width, &with_flags(p, found.1), register, found.0)
}

/// Changes an operand, and answers the state after it.
#[tactic(auto, using(m386_base::proofs::Phrases::calls), unfolding(crate::specs::Update::change_phrase))]
pub(crate) fn change_operand<B: Bus>(
    change: Change,
    manner: Manner,
    p: &Proc,
    operand: Place,
    bus: &mut B,
) -> Result<Proc, Break>
    requires free { (B.view bus.old).kept ≡ false }
    ensures cycles { Performs (change_phrase change manner p.now operand) (B.view bus.old) (B.view bus.new) it result }
    ensures free { (B.view bus.new).kept ≡ false }
{
    match operand {
        Place::Register(register) => {
            let old = register_at(manner.width, p, register);
            let found = apply(change, manner.width, old, p.eflags);
            Ok(put_found(manner.width, p, register, found))
        }
        Place::Memory(a) => {
            let (seg, offset) = address(p, &a);
            change_memory(change, manner, p, seg, offset, bus)
        }
        Place::Number(_) | Place::Other => Err(Break::Fault(undefined_opcode())),
    }
}

/// ADD, OR, ADC, SBB, AND, SUB or XOR. The second operand is read first.
#[tactic(auto, using(m386_base::proofs::Phrases::calls), unfolding(crate::specs::Update::arithmetic_phrase))]
fn arithmetic<B: Bus>(
    op: AluOp,
    manner: Manner,
    operands: Operands,
    p: &Proc,
    bus: &mut B,
) -> Result<Proc, Break>
    requires free { (B.view bus.old).kept ≡ false }
    ensures cycles { Performs (arithmetic_phrase op manner operands p.now) (B.view bus.old) (B.view bus.new) it result }
    ensures free { (B.view bus.new).kept ≡ false }
{
    match operands {
        Operands::Two(first, second) => {
            let b = value(manner.width, p, second, bus)?;
            change_operand(Change::Arithmetic(op, b), manner, p, first, bus)
        }
        _ => Err(Break::Fault(undefined_opcode())),
    }
}

/// INC, DEC, NOT or NEG.
#[tactic(auto, using(m386_base::proofs::Phrases::calls), unfolding(crate::specs::Update::single_phrase))]
fn single<B: Bus>(
    change: Change,
    manner: Manner,
    operands: Operands,
    p: &Proc,
    bus: &mut B,
) -> Result<Proc, Break>
    requires free { (B.view bus.old).kept ≡ false }
    ensures cycles { Performs (single_phrase change manner operands p.now) (B.view bus.old) (B.view bus.new) it result }
    ensures free { (B.view bus.new).kept ≡ false }
{
    match operands {
        Operands::One(first) => change_operand(change, manner, p, first, bus),
        _ => Err(Break::Fault(undefined_opcode())),
    }
}

/// A shift or rotate, by a number or CL.
#[tactic(auto, using(m386_base::proofs::Phrases::calls), unfolding(crate::specs::Update::shift_phrase))]
fn shift_operand<B: Bus>(
    op: ShiftOp,
    manner: Manner,
    operands: Operands,
    p: &Proc,
    bus: &mut B,
) -> Result<Proc, Break>
    requires free { (B.view bus.old).kept ≡ false }
    ensures cycles { Performs (shift_phrase op manner operands p.now) (B.view bus.old) (B.view bus.new) it result }
    ensures free { (B.view bus.new).kept ≡ false }
{
    match operands {
        Operands::Two(first, count) => {
            let n = value(Width::W8, p, count, bus)?;
            change_operand(Change::Shift(op, n), manner, p, first, bus)
        }
        _ => Err(Break::Fault(undefined_opcode())),
    }
}

/// SHLD or SHRD, by a number or CL.
#[tactic(auto, using(m386_base::proofs::Phrases::calls), unfolding(crate::specs::Update::double_shift_phrase))]
fn double_shift_operand<B: Bus>(
    left: bool,
    manner: Manner,
    operands: Operands,
    p: &Proc,
    bus: &mut B,
) -> Result<Proc, Break>
    requires free { (B.view bus.old).kept ≡ false }
    ensures cycles { Performs (double_shift_phrase left manner operands p.now) (B.view bus.old) (B.view bus.new) it result }
    ensures free { (B.view bus.new).kept ≡ false }
{
    match operands {
        Operands::Three(first, second, count) => {
            let source = value(manner.width, p, second, bus)?;
            let count = value(Width::W8, p, count, bus)?;
            change_operand(
                Change::DoubleShift {
                    left,
                    source,
                    count,
                },
                manner,
                p,
                first,
                bus,
            )
        }
        _ => Err(Break::Fault(undefined_opcode())),
    }
}

/// An operation of this group.
#[tactic(auto, using(m386_base::proofs::Phrases::calls))]
pub(crate) fn perform_update<B: Bus>(
    update: Update,
    manner: Manner,
    operands: Operands,
    p: &Proc,
    bus: &mut B,
) -> Result<Proc, Break>
    requires free { (B.view bus.old).kept ≡ false }
    ensures cycles { Performs (update_phrase update manner operands p.now) (B.view bus.old) (B.view bus.new) it result }
    ensures free { (B.view bus.new).kept ≡ false }
{
    match update {
        Update::Arithmetic(op) => arithmetic(op, manner, operands, p, bus),
        Update::Single(change) => single(change, manner, operands, p, bus),
        Update::Shift(op) => shift_operand(op, manner, operands, p, bus),
        Update::DoubleShift { left } => double_shift_operand(left, manner, operands, p, bus),
    }
}
