//! Tests of bits in registers and in memory.
ghost use Rattle.std.specs.Prelude.{◌≡◌, ◌<◌, ◌^◌, false};
ghost use Rattle.m386_alu.specs.Width.{bits};
ghost use Rattle.m386_base.specs.Phrase.{Performs, it};
ghost use Rattle.m386_data.specs.BitStrings.{bit_op_of, unit_offset, inspect_bit_phrase, memory_bit_phrase, register_bit_phrase, bit_string_phrase, bit_of_phrase, bit_test_phrase};

use crate::change::{Change, apply};
use crate::update::{change_memory, change_operand};
use m386_access::address::address;
use m386_access::after::{len_of, register_at, with_flags};
use m386_access::modify::inspect;
use m386_access::operands::{Manner, Operands, Place, value};
use m386_alu::bit_tests::BitOp;
use m386_alu::width::{bits_of, has_sign, max_of};
use m386_base::bus::Bus;
use m386_base::exception::undefined_opcode;
use m386_base::fault::Break;
use m386_base::number::Width;
use m386_opmap::name::Name;
use m386_opmap::op::Addr;
use m386_state::proc::Proc;

/// What the operation of a name does, where it is one of this group.
pub fn bit_op_of(name: Name) -> Option<BitOp>
    ensures { result ≡ bit_op_of name }
{
    Some(match name {
        Name::Bt => BitOp::Test,
        Name::Bts => BitOp::Set,
        Name::Btr => BitOp::Reset,
        Name::Btc => BitOp::Complement,
        _ => return None,
    })
}

/// The offset of the unit of a width that holds bit k of a bit string, where k is read with a sign (PRM 3.4.2).
fn unit_offset(width: Width, offset: u32, k: u32) -> u32
    requires { k < 2 ^ bits width }
    ensures { result ≡ unit_offset width offset k }
{
    let size = u32::from(len_of(width));
    if has_sign(width, k) {
        let below = max_of(width) - k + 1;
        offset.wrapping_sub(size * ((below + (bits_of(width) - 1)) / bits_of(width)))
    } else {
        offset.wrapping_add(size * (k / bits_of(width)))
    }
}

/// Tests a bit of memory, with LOCK in one locked group.
#[tactic(auto, using(m386_base::proofs::Phrases::calls), unfolding(crate::specs::BitStrings::inspect_bit_phrase))]
fn inspect_bit<B: Bus>(
    manner: Manner,
    p: &Proc,
    seg: u8,
    offset: u32,
    k: u32,
    bus: &mut B,
) -> Result<Proc, Break>
    requires free { (B.view bus.old).kept ≡ false }
    ensures cycles { Performs (inspect_bit_phrase manner p.now seg offset k) (B.view bus.old) (B.view bus.new) it result }
    ensures free { (B.view bus.new).kept ≡ false }
{
    let old = inspect(p, bus, seg, offset, len_of(manner.width), manner.lock)?;
    let found = apply(Change::Bit(BitOp::Test, k), manner.width, old, p.eflags);
    Ok(with_flags(p, found.1))
}

/// Tests a bit of memory, and changes it but for BT.
#[tactic(auto, using(m386_base::proofs::Phrases::calls))]
fn memory_bit<B: Bus>(
    op: BitOp,
    manner: Manner,
    p: &Proc,
    seg: u8,
    offset: u32,
    k: u32,
    bus: &mut B,
) -> Result<Proc, Break>
    requires free { (B.view bus.old).kept ≡ false }
    ensures cycles { Performs (memory_bit_phrase op manner p.now seg offset k) (B.view bus.old) (B.view bus.new) it result }
    ensures free { (B.view bus.new).kept ≡ false }
{
    match op {
        BitOp::Test => inspect_bit(manner, p, seg, offset, k, bus),
        BitOp::Set | BitOp::Reset | BitOp::Complement => {
            change_memory(Change::Bit(op, k), manner, p, seg, offset, bus)
        }
    }
}

/// Tests a bit of a register.
#[tactic(auto, using(m386_base::proofs::Phrases::calls), unfolding(crate::specs::BitStrings::register_bit_phrase))]
fn register_bit<B: Bus>(
    op: BitOp,
    manner: Manner,
    p: &Proc,
    register: u8,
    second: Place,
    bus: &mut B,
) -> Result<Proc, Break>
    requires free { (B.view bus.old).kept ≡ false }
    ensures cycles { Performs (register_bit_phrase op manner p.now register second) (B.view bus.old) (B.view bus.new) it result }
    ensures free { (B.view bus.new).kept ≡ false }
{
    let k = value(manner.width, p, second, bus)?;
    change_operand(
        Change::Bit(op, k),
        manner,
        p,
        Place::Register(register),
        bus,
    )
}

/// Tests a bit of memory, by a register or a number.
#[tactic(auto, using(m386_base::proofs::Phrases::calls))]
fn bit_string<B: Bus>(
    op: BitOp,
    manner: Manner,
    p: &Proc,
    a: &Addr,
    second: Place,
    bus: &mut B,
) -> Result<Proc, Break>
    requires free { (B.view bus.old).kept ≡ false }
    ensures cycles { Performs (bit_string_phrase op manner p.now a.now second) (B.view bus.old) (B.view bus.new) it result }
    ensures free { (B.view bus.new).kept ≡ false }
{
    let (seg, offset) = address(p, a);
    match second {
        Place::Register(register) => {
            let k = register_at(manner.width, p, register);
            memory_bit(
                op,
                manner,
                p,
                seg,
                unit_offset(manner.width, offset, k),
                k,
                bus,
            )
        }
        Place::Number(number) => memory_bit(op, manner, p, seg, offset, number, bus),
        Place::Memory(_) | Place::Other => Err(Break::Fault(undefined_opcode())),
    }
}

/// Tests a bit of an operand.
#[tactic(auto, using(m386_base::proofs::Phrases::calls))]
fn bit_of<B: Bus>(
    op: BitOp,
    manner: Manner,
    p: &Proc,
    first: Place,
    second: Place,
    bus: &mut B,
) -> Result<Proc, Break>
    requires free { (B.view bus.old).kept ≡ false }
    ensures cycles { Performs (bit_of_phrase op manner p.now first second) (B.view bus.old) (B.view bus.new) it result }
    ensures free { (B.view bus.new).kept ≡ false }
{
    match first {
        Place::Register(register) => register_bit(op, manner, p, register, second, bus),
        Place::Memory(a) => bit_string(op, manner, p, &a, second, bus),
        Place::Number(_) | Place::Other => Err(Break::Fault(undefined_opcode())),
    }
}

/// BT, BTS, BTR or BTC.
#[tactic(auto, using(m386_base::proofs::Phrases::calls), unfolding(crate::specs::BitStrings::bit_test_phrase))]
pub(crate) fn bit_test<B: Bus>(
    op: BitOp,
    manner: Manner,
    operands: Operands,
    p: &Proc,
    bus: &mut B,
) -> Result<Proc, Break>
    requires free { (B.view bus.old).kept ≡ false }
    ensures cycles { Performs (bit_test_phrase op manner operands p.now) (B.view bus.old) (B.view bus.new) it result }
    ensures free { (B.view bus.new).kept ≡ false }
{
    match operands {
        Operands::Two(first, second) => bit_of(op, manner, p, first, second, bus),
        _ => Err(Break::Fault(undefined_opcode())),
    }
}
