//! The operands of a row and the operation that they make.
ghost use Rattle.std.specs.Prelude.{◌≡◌, ℕ, ◌+◌, ◌<◌, ◌≤◌, ◌^◌, ◌∷◌, [], ◌++◌, length, take, drop, option_to_list};
ghost use Rattle.arrayvec.specs.ArrayVec.{array_vec_len};
ghost use Rattle.m386_base.specs.declared.number.Width.TheVariants.{W8, W16, W32};
ghost use Rattle.m386_opmap.specs.Forms.{width_bytes, number, extended, displacement};
ghost use Rattle.m386_opmap.specs.Operands.{width_of, in_modrm, has_modrm, suits, is_memory_alone, is_register_alone, wants_memory, wants_register, operand_length, tail_length, operand_value, plain_memory, is_string, operation};

use crate::fields::Fields;
use crate::name::Name;
use crate::op::{Addr, Arg, Op, Rep};
use crate::row::{Operand, Row, Size};
use arrayvec::ArrayVec;
use m386_base::number::Width;

/// How wide operands are, with the prefix 66h and without it.
pub(crate) fn width(size: Size, narrow: bool) -> Width
    ensures { result ≡ width_of size narrow }
{
    match size {
        Size::Byte => Width::W8,
        Size::Word => Width::W16,
        Size::Double => Width::W32,
        Size::Either if narrow => Width::W16,
        Size::Either => Width::W32,
    }
}

/// How many bytes a width has.
fn bytes_of(width: Width) -> usize
    ensures exact { result ≡ width_bytes width }
    ensures few { result ≤ 4 }
{
    match width {
        Width::W8 => 1,
        Width::W16 => 2,
        Width::W32 => 4,
    }
}

/// Whether an operand stands in a ModRM byte.
fn stands_in_modrm(operand: Operand) -> bool
    ensures { result ≡ in_modrm operand }
{
    matches!(
        operand,
        Operand::E | Operand::M | Operand::R | Operand::G | Operand::S
    )
}

/// Whether a row has a ModRM byte.
pub(crate) fn is_with_modrm(row: &Row) -> bool
    ensures { result ≡ has_modrm row.now }
{
    stands_in_modrm(row.first) || stands_in_modrm(row.second) || stands_in_modrm(row.third)
}

/// Whether an operand is memory alone.
fn is_memory(operand: Operand) -> bool
    ensures { result ≡ is_memory_alone operand }
{
    matches!(operand, Operand::M)
}

/// Whether an operand is a register alone.
fn is_register(operand: Operand) -> bool
    ensures { result ≡ is_register_alone operand }
{
    matches!(operand, Operand::R)
}

/// Whether an operand of a row is memory alone.
fn is_with_memory(row: &Row) -> bool
    ensures { result ≡ wants_memory row.now }
{
    is_memory(row.first) || is_memory(row.second) || is_memory(row.third)
}

/// Whether an operand of a row is a register alone.
fn is_with_register(row: &Row) -> bool
    ensures { result ≡ wants_register row.now }
{
    is_register(row.first) || is_register(row.second) || is_register(row.third)
}

/// Whether a row takes a LOCK, if there is one, and a ModRM byte that names memory, or a register.
pub(crate) fn is_suited(row: &Row, lock: bool, memory: bool) -> bool
    ensures { result ≡ suits row.now lock memory }
{
    let with_memory = is_with_memory(row);
    let with_register = is_with_register(row);
    (!lock || row.lock && memory) && (!with_memory || memory) && (!with_register || !memory)
}

/// How many bytes behind opcode, ModRM byte and what belongs to that are an operand's, in an operation of a width: 0 to 6
/// (PRM appendix A).
pub fn length_of(width: Width, operand: Operand) -> usize
    ensures exact { result ≡ operand_length width operand }
    ensures few { result ≤ 6 }
{
    match operand {
        Operand::I | Operand::J => bytes_of(width),
        Operand::Ib | Operand::SignedByte | Operand::Jb => 1,
        Operand::Iw => 2,
        Operand::O => 4,
        Operand::A => bytes_of(width) + 2,
        _ => 0,
    }
}

/// How many bytes stand behind opcode and ModRM, with the prefix 66h and without it.
#[tactic(auto, unfolding(crate::specs::Operands::tail_length))]
pub(crate) fn tail_len(row: &Row, narrow: bool) -> usize
    ensures exact { result ≡ tail_length row.now narrow }
    ensures few { result ≤ 18 }
{
    let width = width(row.size, narrow);
    length_of(width, row.first) + length_of(width, row.second) + length_of(width, row.third)
}

/// The number that four bytes make, the lowest first.
#[tactic(auto, unfolding(crate::specs::Forms::number))]
fn doubleword(first: u8, second: u8, third: u8, fourth: u8) -> u32
    ensures { result ≡ number (first ∷ second ∷ third ∷ fourth ∷ []) }
{
    let upper = u32::from(third) + 256 * u32::from(fourth);
    u32::from(first) + 256 * (u32::from(second) + 256 * upper)
}

/// The number that bytes make, the lowest first.
#[tactic(auto, unfolding(crate::specs::Forms::number))]
fn number_of(bytes: &[u8]) -> u32
    requires { length bytes.now ≤ 4 }
    ensures exact { result ≡ number bytes.now }
    ensures bound { result < 256 ^ length bytes.now }
{
    match bytes {
        [] => 0,
        [first, second, third, fourth] => doubleword(*first, *second, *third, *fourth),
        [first, rest @ ..] => u32::from(*first) + 256 * number_of(rest),
    }
}

/// A byte as a number of a width, with its sign in the upper bits.
#[tactic(auto, unfolding(crate::specs::Forms::extended))]
fn extended_byte(byte: u8, to: Width) -> u32
    ensures { result ≡ extended W8 to byte }
{
    let upper = match to {
        Width::W8 => 0,
        Width::W16 => 0xff00,
        Width::W32 => 0xffff_ff00,
    };
    if byte < 0x80 {
        u32::from(byte)
    } else {
        u32::from(byte) + upper
    }
}

/// A word as a number of 32 bits, with its sign in the upper bits.
#[tactic(auto, unfolding(crate::specs::Forms::extended))]
fn extended_word(word: u16) -> u32
    ensures { result ≡ extended W16 W32 word }
{
    if word < 0x8000 {
        u32::from(word)
    } else {
        u32::from(word) + 0xffff_0000
    }
}

/// The displacement that some bytes make: a byte with its sign, four bytes whole, or 0 without any.
#[tactic(auto, unfolding(crate::specs::Forms::displacement))]
pub(crate) fn displacement_of(bytes: &[u8]) -> u32
    requires { length bytes.now ≤ 4 }
    ensures { result ≡ displacement bytes.now }
{
    let number = number_of(bytes);
    if bytes.len() == 1 {
        extended_byte(number as u8, Width::W32)
    } else {
        number
    }
}

/// At most `count` bytes from a place on.
fn bytes_at(tail: &[u8], from: usize, count: usize) -> &[u8]
    ensures exact { result.now ≡ take count (drop from tail.now) }
    ensures few { length result.now ≤ count }
{
    let rest = tail.get(from..).unwrap_or(&[]);
    &rest[..count.min(rest.len())]
}

/// The number of at most `count` bytes from a place on.
fn number_at(tail: &[u8], from: usize, count: usize) -> u32
    requires { count ≤ 4 }
    ensures exact { result ≡ number (take count (drop from tail.now)) }
    ensures bound { result < 256 ^ count }
{
    number_of(bytes_at(tail, from, count))
}

/// Memory whose offset is a register, or a number alone.
fn memory(seg: Option<u8>, base: Option<u8>, disp: u32) -> Arg
    ensures { result ≡ plain_memory seg base disp }
{
    Arg::Mem(Addr {
        seg,
        base,
        index: None,
        scale: 1,
        disp,
    })
}

/// The distance of a jump, of the operation's width.
#[tactic(auto, using(crate::proofs::Numbers::extended_whole))]
fn distance(width: Width, tail: &[u8]) -> u32
    ensures { result ≡ extended width W32 (number (take (width_bytes width) tail.now)) }
{
    match width {
        Width::W8 => extended_byte(number_at(tail, 0, 1) as u8, Width::W32),
        Width::W16 => extended_word(number_at(tail, 0, 2) as u16),
        Width::W32 => number_at(tail, 0, 4),
    }
}

/// An operand's value, from the fields of the instruction, its width, and the bytes behind opcode and ModRM.
#[inline(always)]
fn argument(fields: &Fields, width: Width, tail: &[u8], operand: Operand) -> Option<Arg>
    ensures { result ≡ operand_value fields.now width tail.now operand }
{
    let size = bytes_of(width);
    let seg = fields.prefixes.seg;
    Some(match operand {
        Operand::Absent => return None,
        Operand::E | Operand::M | Operand::R => return fields.place,
        Operand::G => Arg::Reg(fields.middle),
        Operand::S => Arg::Seg(fields.middle),
        Operand::Low => Arg::Reg((fields.opcode % 8) as u8),
        Operand::I => Arg::Imm(number_at(tail, 0, size)),
        Operand::Ib => Arg::Imm(number_at(tail, 0, 1)),
        Operand::Iw => Arg::Imm(number_at(tail, 0, 2)),
        Operand::SignedByte => Arg::Imm(extended_byte(number_at(tail, 0, 1) as u8, width)),
        Operand::Jb => Arg::Rel(extended_byte(number_at(tail, 0, 1) as u8, Width::W32)),
        Operand::J => Arg::Rel(distance(width, tail)),
        Operand::O => memory(seg, None, number_at(tail, 0, 4)),
        Operand::A => Arg::Far {
            selector: number_at(tail, size, 2) as u16,
            offset: number_at(tail, 0, size),
        },
        Operand::X => memory(seg, Some(6), 0),
        Operand::Table => memory(seg, Some(3), 0),
        Operand::Eax => Arg::Reg(0),
        Operand::Cl => Arg::Reg(1),
        Operand::Dx => Arg::Reg(2),
        Operand::One => Arg::Imm(1),
        Operand::Es => Arg::Seg(0),
        Operand::Cs => Arg::Seg(1),
        Operand::Ss => Arg::Seg(2),
        Operand::Ds => Arg::Seg(3),
        Operand::Fs => Arg::Seg(4),
        Operand::Gs => Arg::Seg(5),
        Operand::Cr0 => Arg::Cr0,
    })
}

/// Appends an operand's value, if there is one.
// Inlined with `argument`: what is appended would be copied at each call. Most rows have one operand or two.
#[inline(always)]
fn append(args: &mut ArrayVec<Arg, 3>, fields: &Fields, width: Width, tail: &[u8], operand: Operand)
    requires { array_vec_len args.old < 3 }
    ensures items { args.new.items ≡ args.old.items ++ option_to_list (operand_value fields.now width tail.now operand) }
    ensures len { array_vec_len args.new ≤ array_vec_len args.old + 1 }
{
    if operand == Operand::Absent {
        return;
    }
    if let Some(arg) = argument(fields, width, tail, operand) {
        args.push(arg);
    }
}

/// Whether an operation is one on strings.
pub(crate) fn is_on_strings(name: Name) -> bool
    ensures { result ≡ is_string name }
{
    matches!(
        name,
        Name::Movs | Name::Cmps | Name::Stos | Name::Lods | Name::Scas
    )
}

/// The operation of a row, from the fields of the instruction and the bytes behind opcode and ModRM.
#[tactic(auto, unfolding(crate::specs::Operands::operation))]
pub(crate) fn operation_of(row: &Row, fields: &Fields, tail: &[u8]) -> Op
    ensures { result ≡ operation row.now fields.now tail.now }
{
    let width = width(row.size, fields.prefixes.narrow);
    let mut args = ArrayVec::new();
    append(&mut args, fields, width, tail, row.first);
    append(&mut args, fields, width, tail, row.second);
    append(&mut args, fields, width, tail, row.third);
    Op {
        name: row.name,
        width,
        args,
        lock: fields.prefixes.lock,
        rep: if is_on_strings(row.name) {
            fields.prefixes.rep
        } else {
            Rep::Once
        },
    }
}
