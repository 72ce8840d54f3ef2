//! Which spelling of an instruction is laid out.
ghost use Rattle.std.specs.Prelude.{◌≡◌, false, ◌≤◌, ◌+◌, ◌^◌, is_some, true, Option, Some, None, List, ℕ, length, map, pos, negsuc, ◌+ℤ◌};
ghost use Rattle.std.specs.List.{list_any};
ghost use Rattle.m386_words.specs.Expressions.{Expression as Value};
ghost use Rattle.m386_words.specs.Seen.{expression_seen, place_seen};
ghost use Rattle.m386_lines.specs.Faults.{meaning_of};
ghost use Rattle.m386_lines.specs.Lines.{Operate};
ghost use Rattle.m386_lines.specs.Seen.{argument_seen, instruction_seen};
ghost use Rattle.m386_opmap.specs.Forms.{width_bits};
ghost use Rattle.m386_asm.specs.Bounds.{IsPlace, IsValue};
ghost use Rattle.m386_base.specs.declared.number.Width.TheVariants.{W32};
ghost use Rattle.m386_asm.specs.Jumps.{full_length, HasNoFull, HasNoShort, IsFull, IsShort};
ghost use Rattle.m386_asm.specs.Knows.{Knows};
ghost use Rattle.m386_asm.specs.Layout.{Names as NameValues, IsFirstSpelling, IsOutOfReach, Makes, arg_at, arg_fields, has_target, is_named, is_target, op_at, place_address, wrapped as wrapped_to};

use crate::value::{Names, bits_of, wrapped};
use arrayvec::ArrayVec;
use m386_base::number::Width;
use m386_encode::encode::encode;
use m386_encode::wide::encode_wide;
use m386_lines::instruction::{Argument, Instruction};
use m386_opmap::name::Name;
use m386_opmap::op::{Addr, Arg, Op};
use m386_words::operand::Place;

/// The bytes of an instruction.
pub(crate) type Bytes = ArrayVec<u8, 15>;

/// Memory with the value of its number.
fn address(names: &Names<'_>, place: &Place<'_>) -> Arg
    ensures { (ns : NameValues) → Knows names.now ns → result ≡ place_address ns (place_seen place.now) }
{
    Arg::Mem(Addr {
        seg: place.seg,
        base: place.base,
        index: place.index,
        scale: place.scale,
        disp: names.field(32, &place.offset),
    })
}

/// The distance to a target from an instruction's end.
fn distance(target: i128, end: u128) -> u32
    requires target { IsValue target }
    requires end { end ≤ 2 ^ 111 }
    ensures { result ≡ wrapped_to 32 ((target +ℤ negsuc end) +ℤ pos 1) }
{
    wrapped(32, target - end as i128)
}

/// An operand, where the instruction's end stands there.
fn arg_at(names: &Names<'_>, end: u128, argument: &Argument<'_>) -> Arg
    requires { end ≤ 2 ^ 111 }
    ensures { (ns : NameValues) → Knows names.now ns → result ≡ arg_at ns end (argument_seen argument.now) }
{
    match argument {
        Argument::Fixed(arg) => *arg,
        Argument::Immediate(width, number) => Arg::Imm(names.field(bits_of(*width), number)),
        Argument::Target(target) => Arg::Rel(distance(names.value(target), end)),
        Argument::Far(selector, offset) => Arg::Far {
            selector: names.field(16, selector) as u16,
            offset: names.field(32, offset),
        },
        Argument::At(place) => address(names, place),
    }
}

/// The operation of an instruction whose end stands there.
fn op_at(names: &Names<'_>, end: u128, instruction: &Instruction<'_>) -> Op
    requires { end ≤ 2 ^ 111 }
    ensures { (ns : NameValues) → Knows names.now ns → result ≡ op_at ns end (instruction_seen instruction.now) }
{
    let mut args = ArrayVec::new();
    for argument in instruction.args.as_slice() {
        args.push(arg_at(names, end, argument));
    }
    Op {
        name: instruction.name,
        width: instruction.width,
        args,
        lock: instruction.lock,
        rep: instruction.rep,
    }
}

/// Whether an operand has a name.
fn has_name(argument: &Argument<'_>) -> bool
    ensures { result ≡ list_any (λ (f : ℕ × Value). is_some f.1.name) (arg_fields (argument_seen argument.now)) }
{
    match argument {
        Argument::Fixed(_) => false,
        Argument::Immediate(_, number) => number.name.is_some(),
        Argument::Target(target) => target.name.is_some(),
        Argument::Far(selector, offset) => selector.name.is_some() || offset.name.is_some(),
        Argument::At(place) => place.offset.name.is_some(),
    }
}

/// Whether one of these operands has a name.
fn have_name(arguments: &[Argument<'_>]) -> bool
    ensures { result ≡ list_any (λ a. list_any (λ (f : ℕ × Value). is_some f.1.name) (arg_fields (argument_seen a))) arguments.now }
{
    arguments.iter().any(has_name)
}

/// Whether an operand of an instruction has a name.
#[tactic(auto, using(crate::proofs::Targets::seen_names))]
fn is_named(instruction: &Instruction<'_>) -> bool
    ensures { result ≡ is_named (instruction_seen instruction.now) }
{
    have_name(instruction.args.as_slice())
}

/// Whether an operand is the target of a jump or a call.
fn is_target(argument: &Argument<'_>) -> bool
    ensures { result ≡ is_target (argument_seen argument.now) }
{
    matches!(argument, Argument::Target(_))
}

/// Whether one of these operands is the target of a jump or a call.
fn have_target(arguments: &[Argument<'_>]) -> bool
    ensures { result ≡ list_any (λ a. is_target (argument_seen a)) arguments.now }
{
    arguments.iter().any(is_target)
}

/// Whether an instruction is a jump or a call that names its target.
#[tactic(auto, using(crate::proofs::Targets::seen_targets))]
fn has_target(instruction: &Instruction<'_>) -> bool
    ensures { result ≡ has_target (instruction_seen instruction.now) }
{
    have_target(instruction.args.as_slice())
}

/// How many bytes the full spelling of a jump or a call has, without a prefix (PRM 17.2.2.11).
fn full_len(name: Name) -> u8
    ensures { result ≡ full_length name }
{
    match name {
        Name::Loopnz | Name::Loopz | Name::Loop | Name::Jecxz => 2,
        Name::Jmp | Name::Call => 5,
        _ => 6,
    }
}

/// The spelling of an instruction without a target: in full, where an operand has a name.
fn encode_here(names: &Names<'_>, place: u128, instruction: &Instruction<'_>) -> Option<Bytes>
    requires place { IsPlace place }
    requires here { has_target (instruction_seen instruction.now) ≡ false }
    ensures some { (ns : NameValues) (bytes : _) → Knows names.now ns → result ≡ Some bytes → IsFirstSpelling ns place (instruction_seen instruction.now) bytes.items }
    ensures none { (ns : NameValues) → Knows names.now ns → result ≡ None → IsOutOfReach ns place (instruction_seen instruction.now) }
{
    let op = op_at(names, place, instruction);
    if is_named(instruction) {
        encode_wide(&op)
    } else {
        encode(&op)
    }
}

/// The spelling in two bytes of a jump without a name from a place on, if it has one.
fn encode_short(names: &Names<'_>, place: u128, instruction: &Instruction<'_>) -> Option<Bytes>
    requires { IsPlace place }
    ensures some { (ns : NameValues) (bytes : _) → Knows names.now ns → result ≡ Some bytes → IsShort ns place (instruction_seen instruction.now) bytes.items }
    ensures none { (ns : NameValues) → Knows names.now ns → result ≡ None → HasNoShort ns place (instruction_seen instruction.now) }
{
    if is_named(instruction) {
        return None;
    }
    let bytes = encode(&op_at(names, place + 2, instruction))?;
    if bytes.len() == 2 { Some(bytes) } else { None }
}

/// The full spelling of a jump or a call from a place on, if it has one.
fn encode_full(names: &Names<'_>, place: u128, instruction: &Instruction<'_>) -> Option<Bytes>
    requires { IsPlace place }
    ensures some { (ns : NameValues) (bytes : _) → Knows names.now ns → result ≡ Some bytes → IsFull ns place (instruction_seen instruction.now) bytes.items }
    ensures none { (ns : NameValues) → Knows names.now ns → result ≡ None → HasNoFull ns place (instruction_seen instruction.now) }
{
    let len = full_len(instruction.name);
    let bytes = encode_wide(&op_at(names, place + u128::from(len), instruction))?;
    if bytes.len() == usize::from(len) {
        Some(bytes)
    } else {
        None
    }
}

/// The spelling of a jump or a call of 32 bits from a place on.
fn encode_target(names: &Names<'_>, place: u128, instruction: &Instruction<'_>) -> Option<Bytes>
    requires place { IsPlace place }
    requires target { has_target (instruction_seen instruction.now) ≡ true }
    requires wide { instruction.now.width ≡ W32 }
    ensures some { (ns : NameValues) (bytes : _) → Knows names.now ns → result ≡ Some bytes → IsFirstSpelling ns place (instruction_seen instruction.now) bytes.items }
    ensures none { (ns : NameValues) → Knows names.now ns → result ≡ None → IsOutOfReach ns place (instruction_seen instruction.now) }
{
    match encode_short(names, place, instruction) {
        Some(bytes) => Some(bytes),
        None => encode_full(names, place, instruction),
    }
}

/// The first spelling of an instruction from a place on: the full one, where an operand has a name. None where no spelling
/// reaches its target: by a prefix alone a jump has 16 bits, and it has none.
pub(crate) fn encode_at(
    names: &Names<'_>,
    place: u128,
    instruction: &Instruction<'_>,
) -> Option<Bytes>
    requires { IsPlace place }
    ensures some { (ns : NameValues) (bytes : _) → Knows names.now ns → result ≡ Some bytes → IsFirstSpelling ns place (instruction_seen instruction.now) bytes.items }
    ensures none { (ns : NameValues) → Knows names.now ns → result ≡ None → IsOutOfReach ns place (instruction_seen instruction.now) }
{
    if !has_target(instruction) {
        return encode_here(names, place, instruction);
    }
    match instruction.width {
        Width::W32 => encode_target(names, place, instruction),
        Width::W8 | Width::W16 => None,
    }
}

/// How many bytes an instruction has: two, where no spelling reaches its target.
pub(crate) fn length_at(names: &Names<'_>, place: u128, instruction: &Instruction<'_>) -> u128
    requires { IsPlace place }
    // They are as many by any names, so by those of the whole text too.
    ensures length { (ns : NameValues) (line bytes : List ℕ) → (meaning_of line).statement ≡ Operate (instruction_seen instruction.now) → Makes ns place (Operate (instruction_seen instruction.now)) bytes → length bytes ≡ result }
    ensures small { result ≤ 15 }
{
    match encode_at(names, place, instruction) {
        Some(bytes) => bytes.len() as u128,
        None => 2,
    }
}
