//! Near jumps, which stay in the code segment (PRM 17.2.2.11, JMP, Jcc, LOOP).
ghost use Rattle.std.specs.Prelude.{◌≡◌, false};
ghost use Rattle.m386_base.specs.Phrase.{Performs, it};
ghost use Rattle.m386_gates.specs.Near.{near_of, is_in_code, near_target, land_phrase, named_target_phrase, target_phrase, jump_phrase, branch_phrase, counted_down, goes_round, near_phrase};

use m386_access::address::segment;
use m386_access::after::{at_eip, register_of, with_register};
use m386_access::conditions::{Condition, Relation, meets, unless, when};
use m386_access::operands::{Operands, operands_of, value};
use m386_access::registers::ECX;
use m386_base::bus::Bus;
use m386_base::exception::{general_protection, undefined_opcode};
use m386_base::fault::Break;
use m386_base::number::{Flags, Width};
use m386_base::segments::CS;
use m386_desc::offsets::allows;
use m386_opmap::name::Name;
use m386_opmap::op::{Arg, Op};
use m386_state::proc::Proc;

/// What a near jump does.
#[derive(Clone, Copy)]
pub enum Near {
    /// JMP.
    Jump,
    /// A jump on a condition.
    Branch(Condition),
    /// ECX is counted down, and a jump made where it isn't 0 and the condition, if there is one, is met.
    Loop(Option<Condition>),
    /// A jump where ECX is 0.
    Empty,
}

/// What the operation of a name does, where it is one of this group.
pub fn near_of(name: Name) -> Option<Near>
    ensures { result ≡ near_of name }
{
    Some(match name {
        Name::Jmp => Near::Jump,
        Name::Jo => Near::Branch(when(Relation::Overflow)),
        Name::Jno => Near::Branch(unless(Relation::Overflow)),
        Name::Jb => Near::Branch(when(Relation::Below)),
        Name::Jae => Near::Branch(unless(Relation::Below)),
        Name::Je => Near::Branch(when(Relation::Equal)),
        Name::Jne => Near::Branch(unless(Relation::Equal)),
        Name::Jbe => Near::Branch(when(Relation::BelowOrEqual)),
        Name::Ja => Near::Branch(unless(Relation::BelowOrEqual)),
        Name::Js => Near::Branch(when(Relation::Sign)),
        Name::Jns => Near::Branch(unless(Relation::Sign)),
        Name::Jp => Near::Branch(when(Relation::Parity)),
        Name::Jnp => Near::Branch(unless(Relation::Parity)),
        Name::Jl => Near::Branch(when(Relation::Less)),
        Name::Jge => Near::Branch(unless(Relation::Less)),
        Name::Jle => Near::Branch(when(Relation::LessOrEqual)),
        Name::Jg => Near::Branch(unless(Relation::LessOrEqual)),
        Name::Loop => Near::Loop(None),
        Name::Loopz => Near::Loop(Some(when(Relation::Equal))),
        Name::Loopnz => Near::Loop(Some(unless(Relation::Equal))),
        Name::Jecxz => Near::Empty,
        _ => return None,
    })
}

/// Whether an offset lies in the code segment (PRM 6.3.1.2).
pub(crate) fn is_in_code(p: &Proc, offset: u32) -> bool
    ensures { result ≡ is_in_code p.now offset }
{
    allows(&segment(p, CS).desc, offset, 1)
}

/// An offset by the width of its transfer: with 16 bits it is taken modulo 65,536.
pub(crate) fn near_target(width: Width, offset: u32) -> u32
    ensures { result ≡ near_target width offset }
{
    match width {
        Width::W32 => offset,
        Width::W16 | Width::W8 => offset % 0x1_0000,
    }
}

/// The state at a target. #GP(0) where it lies outside the limit of CS.
#[tactic(auto, using(m386_base::proofs::Phrases::calls))]
pub(crate) fn land<B: Bus>(p: &Proc, bus: &mut B, target: u32) -> Result<Proc, Break>
    requires free { (B.view bus.old).kept ≡ false }
    ensures cycles { Performs (land_phrase p.now target) (B.view bus.old) (B.view bus.new) it result }
    ensures free { (B.view bus.new).kept ≡ false }
{
    if is_in_code(p, target) {
        Ok(at_eip(p, target))
    } else {
        Err(Break::Fault(general_protection()))
    }
}

/// A target that stands in a register or in memory.
#[tactic(auto, using(m386_base::proofs::Phrases::calls))]
fn named_target<B: Bus>(
    p: &Proc,
    bus: &mut B,
    width: Width,
    operands: Operands,
) -> Result<u32, Break>
    requires free { (B.view bus.old).kept ≡ false }
    ensures cycles { Performs (named_target_phrase p.now width operands) (B.view bus.old) (B.view bus.new) it result }
    ensures free { (B.view bus.new).kept ≡ false }
{
    match operands {
        Operands::One(operand) => {
            let offset = value(width, p, operand, bus)?;
            Ok(near_target(width, offset))
        }
        _ => Err(Break::Fault(undefined_opcode())),
    }
}

/// Where a jump or a call leads, from the end of the instruction, where EIP stands.
#[tactic(auto, using(m386_base::proofs::Phrases::calls), unfolding(crate::specs::Near::target_phrase))]
pub(crate) fn target<B: Bus>(p: &Proc, bus: &mut B, op: &Op) -> Result<u32, Break>
    requires free { (B.view bus.old).kept ≡ false }
    ensures cycles { Performs (target_phrase p.now op.now) (B.view bus.old) (B.view bus.new) it result }
    ensures free { (B.view bus.new).kept ≡ false }
{
    match op.args.as_slice() {
        [Arg::Rel(distance)] => Ok(near_target(op.width, p.eip.wrapping_add(*distance))),
        _ => named_target(p, bus, op.width, operands_of(op)),
    }
}

/// JMP.
#[tactic(auto, using(m386_base::proofs::Phrases::calls), unfolding(crate::specs::Near::jump_phrase))]
fn jump<B: Bus>(p: &Proc, bus: &mut B, op: &Op) -> Result<Proc, Break>
    requires free { (B.view bus.old).kept ≡ false }
    ensures cycles { Performs (jump_phrase p.now op.now) (B.view bus.old) (B.view bus.new) it result }
    ensures free { (B.view bus.new).kept ≡ false }
{
    let target = target(p, bus, op)?;
    land(p, bus, target)
}

/// A jump that may be taken. One that isn't leaves EIP whole.
#[tactic(auto, using(m386_base::proofs::Phrases::calls), unfolding(crate::specs::Near::branch_phrase))]
fn branch<B: Bus>(p: &Proc, bus: &mut B, op: &Op, taken: bool) -> Result<Proc, Break>
    requires free { (B.view bus.old).kept ≡ false }
    ensures cycles { Performs (branch_phrase p.now op.now taken) (B.view bus.old) (B.view bus.new) it result }
    ensures free { (B.view bus.new).kept ≡ false }
{
    if taken { jump(p, bus, op) } else { Ok(*p) }
}

/// The state with ECX lowered by 1, modulo 2^32.
fn counted_down(p: &Proc) -> Proc
    ensures { result ≡ counted_down p.now }
{
    with_register(p, ECX, register_of(p, ECX).wrapping_sub(1))
}

/// Whether a loop goes round with this count.
fn goes_round(count: u32, condition: Option<Condition>, flags: Flags) -> bool
    ensures { result ≡ goes_round count condition flags }
{
    count != 0
        && match condition {
            Some(condition) => meets(condition, flags),
            None => true,
        }
}

/// A near jump.
#[tactic(auto, using(m386_base::proofs::Phrases::calls))]
pub(crate) fn transfer_near<B: Bus>(
    p: &Proc,
    bus: &mut B,
    near: Near,
    op: &Op,
) -> Result<Proc, Break>
    requires free { (B.view bus.old).kept ≡ false }
    ensures cycles { Performs (near_phrase near op.now p.now) (B.view bus.old) (B.view bus.new) it result }
    ensures free { (B.view bus.new).kept ≡ false }
{
    match near {
        Near::Jump => jump(p, bus, op),
        Near::Branch(condition) => branch(p, bus, op, meets(condition, p.eflags)),
        Near::Loop(condition) => {
            let counted = counted_down(p);
            let taken = goes_round(register_of(&counted, ECX), condition, p.eflags);
            branch(&counted, bus, op, taken)
        }
        Near::Empty => branch(p, bus, op, register_of(p, ECX) == 0),
    }
}
