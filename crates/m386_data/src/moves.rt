//! Moves and exchanges.
ghost use Rattle.std.specs.Prelude.{◌≡◌, ◌<◌, ◌^◌, false};
ghost use Rattle.m386_alu.specs.Width.{bits};
ghost use Rattle.m386_base.specs.Phrase.{Performs, it};
ghost use Rattle.m386_data.specs.Moves.{moves_of, moves_phrase, move_phrase, extended_of, extend_phrase, address_phrase, swap_phrase, registers_swapped, exchange_with_phrase, exchange_phrase, table_byte_phrase, translate_phrase, set_phrase};

use crate::change::low;
use m386_access::access::read;
use m386_access::address::{address, offset};
use m386_access::after::{len_of, register_at, with_register_at};
use m386_access::conditions::{Condition, Relation, meets, unless, when};
use m386_access::modify::modify;
use m386_access::operands::{Manner, Operands, Place, put, value};
use m386_access::registers::EAX;
use m386_alu::width::{has_sign, max_of};
use m386_base::ask::Role;
use m386_base::bus::Bus;
use m386_base::exception::undefined_opcode;
use m386_base::fault::Break;
use m386_base::number::Width;
use m386_opmap::name::Name;
use m386_opmap::op::Addr;
use m386_state::proc::Proc;

/// What an operation of this group does.
#[derive(Clone, Copy)]
pub enum Moves {
    /// The second operand goes to the first.
    Move,
    /// The second operand, of a width of its own, goes to the first.
    Extend {
        /// Whether copies of its sign stand above it.
        signed: bool,
        /// Its width.
        from: Width,
    },
    /// The operands change places.
    Exchange,
    /// The offset of the second operand goes to the first.
    Address,
    /// A byte of a table goes to AL.
    Translate,
    /// A byte becomes 1 on a condition, and else 0.
    Set(Condition),
}

/// What the operation of a name does, where it is one of this group.
pub fn moves_of(name: Name) -> Option<Moves>
    ensures { result ≡ moves_of name }
{
    Some(match name {
        Name::Mov => Moves::Move,
        Name::Movzx8 => Moves::Extend {
            signed: false,
            from: Width::W8,
        },
        Name::Movzx16 => Moves::Extend {
            signed: false,
            from: Width::W16,
        },
        Name::Movsx8 => Moves::Extend {
            signed: true,
            from: Width::W8,
        },
        Name::Movsx16 => Moves::Extend {
            signed: true,
            from: Width::W16,
        },
        Name::Xchg => Moves::Exchange,
        Name::Lea => Moves::Address,
        Name::Xlat => Moves::Translate,
        Name::Seto => Moves::Set(when(Relation::Overflow)),
        Name::Setno => Moves::Set(unless(Relation::Overflow)),
        Name::Setb => Moves::Set(when(Relation::Below)),
        Name::Setae => Moves::Set(unless(Relation::Below)),
        Name::Sete => Moves::Set(when(Relation::Equal)),
        Name::Setne => Moves::Set(unless(Relation::Equal)),
        Name::Setbe => Moves::Set(when(Relation::BelowOrEqual)),
        Name::Seta => Moves::Set(unless(Relation::BelowOrEqual)),
        Name::Sets => Moves::Set(when(Relation::Sign)),
        Name::Setns => Moves::Set(unless(Relation::Sign)),
        Name::Setp => Moves::Set(when(Relation::Parity)),
        Name::Setnp => Moves::Set(unless(Relation::Parity)),
        Name::Setl => Moves::Set(when(Relation::Less)),
        Name::Setge => Moves::Set(unless(Relation::Less)),
        Name::Setle => Moves::Set(when(Relation::LessOrEqual)),
        Name::Setg => Moves::Set(unless(Relation::LessOrEqual)),
        _ => return None,
    })
}

/// MOV.
#[tactic(auto, using(m386_base::proofs::Phrases::calls), unfolding(crate::specs::Moves::move_phrase))]
fn move_operand<B: Bus>(
    manner: Manner,
    operands: Operands,
    p: &Proc,
    bus: &mut B,
) -> Result<Proc, Break>
    requires free { (B.view bus.old).kept ≡ false }
    ensures cycles { Performs (move_phrase manner operands p.now) (B.view bus.old) (B.view bus.new) it result }
    ensures free { (B.view bus.new).kept ≡ false }
{
    match operands {
        Operands::Two(first, second) => {
            let found = value(manner.width, p, second, bus)?;
            put(manner.width, p, first, found, bus)
        }
        _ => Err(Break::Fault(undefined_opcode())),
    }
}

/// A number of a width as one of 32 bits, with zeros above it or copies of its sign.
pub(crate) fn extended(signed: bool, from: Width, n: u32) -> u32
    requires { n < 2 ^ bits from }
    ensures { result ≡ extended_of signed from n }
{
    if signed && has_sign(from, n) {
        n + (u32::MAX - max_of(from))
    } else {
        n
    }
}

/// MOVZX or MOVSX, from an operand of a width of its own.
#[tactic(auto, using(m386_base::proofs::Phrases::calls), unfolding(crate::specs::Moves::extend_phrase))]
fn extend<B: Bus>(
    signed: bool,
    from: Width,
    manner: Manner,
    operands: Operands,
    p: &Proc,
    bus: &mut B,
) -> Result<Proc, Break>
    requires free { (B.view bus.old).kept ≡ false }
    ensures cycles { Performs (extend_phrase signed from manner operands p.now) (B.view bus.old) (B.view bus.new) it result }
    ensures free { (B.view bus.new).kept ≡ false }
{
    match operands {
        Operands::Two(first, second) => {
            let found = value(from, p, second, bus)?;
            put(
                manner.width,
                p,
                first,
                extended(signed, from, low(from, found)),
                bus,
            )
        }
        _ => Err(Break::Fault(undefined_opcode())),
    }
}

/// LEA.
#[tactic(auto, using(m386_base::proofs::Phrases::calls), unfolding(crate::specs::Moves::address_phrase))]
fn load_address<B: Bus>(
    manner: Manner,
    operands: Operands,
    p: &Proc,
    bus: &mut B,
) -> Result<Proc, Break>
    requires free { (B.view bus.old).kept ≡ false }
    ensures cycles { Performs (address_phrase manner operands p.now) (B.view bus.old) (B.view bus.new) it result }
    ensures free { (B.view bus.new).kept ≡ false }
{
    match operands {
        Operands::Two(first, Place::Memory(a)) => put(manner.width, p, first, offset(p, &a), bus),
        _ => Err(Break::Fault(undefined_opcode())),
    }
}

/// Exchanges memory and a register, in one locked group.
#[tactic(auto, using(m386_base::proofs::Phrases::calls), unfolding(crate::specs::Moves::swap_phrase))]
fn swap<B: Bus>(width: Width, p: &Proc, a: &Addr, register: u8, bus: &mut B) -> Result<Proc, Break>
    requires free { (B.view bus.old).kept ≡ false }
    ensures cycles { Performs (swap_phrase width p.now a.now register) (B.view bus.old) (B.view bus.new) it result }
    ensures free { (B.view bus.new).kept ≡ false }
{
    let (seg, offset) = address(p, a);
    let new = register_at(width, p, register);
    let old = modify(p, bus, seg, offset, len_of(width), true, |_| new)?;
    Ok(with_register_at(width, p, register, old))
}

/// Two registers exchanged.
fn registers_swapped(width: Width, p: &Proc, a: u8, b: u8) -> Proc
    ensures { result ≡ registers_swapped width p.now a b }
{
    let after = with_register_at(width, p, a, register_at(width, p, b));
    with_register_at(width, &after, b, register_at(width, p, a))
}

/// Exchanges an operand and a register.
#[tactic(auto, using(m386_base::proofs::Phrases::calls))]
fn exchange_with<B: Bus>(
    width: Width,
    p: &Proc,
    operand: Place,
    register: u8,
    bus: &mut B,
) -> Result<Proc, Break>
    requires free { (B.view bus.old).kept ≡ false }
    ensures cycles { Performs (exchange_with_phrase width p.now operand register) (B.view bus.old) (B.view bus.new) it result }
    ensures free { (B.view bus.new).kept ≡ false }
{
    match operand {
        Place::Memory(a) => swap(width, p, &a, register, bus),
        Place::Register(other) => Ok(registers_swapped(width, p, other, register)),
        Place::Number(_) | Place::Other => Err(Break::Fault(undefined_opcode())),
    }
}

/// XCHG. With memory it is one locked group, with LOCK and without it.
#[tactic(auto, using(m386_base::proofs::Phrases::calls), unfolding(crate::specs::Moves::exchange_phrase))]
fn exchange<B: Bus>(
    manner: Manner,
    operands: Operands,
    p: &Proc,
    bus: &mut B,
) -> Result<Proc, Break>
    requires free { (B.view bus.old).kept ≡ false }
    ensures cycles { Performs (exchange_phrase manner operands p.now) (B.view bus.old) (B.view bus.new) it result }
    ensures free { (B.view bus.new).kept ≡ false }
{
    match operands {
        Operands::Two(first, Place::Register(register)) => exchange_with(
            manner.width,
            p,
            first,
            register,
            bus,
        ),
        _ => Err(Break::Fault(undefined_opcode())),
    }
}

/// Puts AL to the byte of a table that it is the number of.
#[tactic(auto, using(m386_base::proofs::Phrases::calls), unfolding(crate::specs::Moves::table_byte_phrase))]
fn table_byte<B: Bus>(p: &Proc, a: &Addr, bus: &mut B) -> Result<Proc, Break>
    requires free { (B.view bus.old).kept ≡ false }
    ensures cycles { Performs (table_byte_phrase p.now a.now) (B.view bus.old) (B.view bus.new) it result }
    ensures free { (B.view bus.new).kept ≡ false }
{
    let (seg, table) = address(p, a);
    let at = table.wrapping_add(register_at(Width::W8, p, EAX));
    let found = read(p, bus, Role::Operand, seg, at, 1)?;
    Ok(with_register_at(Width::W8, p, EAX, found))
}

/// XLAT.
#[tactic(auto, using(m386_base::proofs::Phrases::calls), unfolding(crate::specs::Moves::translate_phrase))]
fn translate<B: Bus>(operands: Operands, p: &Proc, bus: &mut B) -> Result<Proc, Break>
    requires free { (B.view bus.old).kept ≡ false }
    ensures cycles { Performs (translate_phrase operands p.now) (B.view bus.old) (B.view bus.new) it result }
    ensures free { (B.view bus.new).kept ≡ false }
{
    match operands {
        Operands::One(Place::Memory(a)) => table_byte(p, &a, bus),
        _ => Err(Break::Fault(undefined_opcode())),
    }
}

/// SETcc.
#[tactic(auto, using(m386_base::proofs::Phrases::calls), unfolding(crate::specs::Moves::set_phrase))]
fn set<B: Bus>(
    condition: Condition,
    operands: Operands,
    p: &Proc,
    bus: &mut B,
) -> Result<Proc, Break>
    requires free { (B.view bus.old).kept ≡ false }
    ensures cycles { Performs (set_phrase condition operands p.now) (B.view bus.old) (B.view bus.new) it result }
    ensures free { (B.view bus.new).kept ≡ false }
{
    match operands {
        Operands::One(first) => {
            let found = if meets(condition, p.eflags) { 1 } else { 0 };
            put(Width::W8, p, first, found, bus)
        }
        _ => Err(Break::Fault(undefined_opcode())),
    }
}

/// An operation of this group.
#[tactic(auto, using(m386_base::proofs::Phrases::calls))]
pub(crate) fn perform_moves<B: Bus>(
    moves: Moves,
    manner: Manner,
    operands: Operands,
    p: &Proc,
    bus: &mut B,
) -> Result<Proc, Break>
    requires free { (B.view bus.old).kept ≡ false }
    ensures cycles { Performs (moves_phrase moves manner operands p.now) (B.view bus.old) (B.view bus.new) it result }
    ensures free { (B.view bus.new).kept ≡ false }
{
    match moves {
        Moves::Move => move_operand(manner, operands, p, bus),
        Moves::Extend { signed, from } => extend(signed, from, manner, operands, p, bus),
        Moves::Exchange => exchange(manner, operands, p, bus),
        Moves::Address => load_address(manner, operands, p, bus),
        Moves::Translate => translate(operands, p, bus),
        Moves::Set(condition) => set(condition, operands, p, bus),
    }
}
