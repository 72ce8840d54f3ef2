//! The parts of a spelling, from an operation and a row.
ghost use Rattle.std.specs.Prelude.{◌≡◌, ℕ, ◌+◌, ◌<◌, ◌≤◌, ◌++◌, get_or};
ghost use Rattle.arrayvec.specs.ArrayVec.{array_vec_len};
ghost use Rattle.m386_encode.specs.Candidates.{low_bytes, operand, named_segment, segment_prefix, rep_prefix, byte_if, prefixes, register, is_low, is_middle, is_place, key_bytes, opcode, middle_of, base, mode_of, index, scale, address_bytes, place_bytes, form_bytes, operand_bytes, tail_bytes};

use arrayvec::ArrayVec;
use m386_base::number::Width;
use m386_opmap::form::displacement_len;
use m386_opmap::op::{Addr, Arg, Op, Rep};
use m386_opmap::operand::length_of;
use m386_opmap::row::{Operand, Row};

/// The bytes of a spelling.
pub type Bytes = ArrayVec<u8, 15>;

/// Writes so many bytes of a number, the lowest first.
#[tactic(auto, unfolding(crate::specs::Candidates::low_bytes))]
fn write_number(bytes: &mut Bytes, count: usize, number: u32)
    requires { array_vec_len bytes.old + count ≤ 15 }
    ensures items { bytes.new.items ≡ bytes.old.items ++ low_bytes count number }
    ensures len { array_vec_len bytes.new ≡ array_vec_len bytes.old + count }
{
    if count > 0 {
        bytes.push((number % 256) as u8);
        write_number(bytes, count - 1, number / 256);
    }
}

/// The operand at a place.
fn argument(args: &[Arg], place: usize) -> Arg
    ensures { result ≡ operand place args.now }
{
    args.get(place).copied().unwrap_or(Arg::Cr0)
}

/// The segment register that the first memory operand names.
#[tactic(auto, unfolding(crate::specs::Candidates::named_segment))]
fn segment_of(args: &[Arg]) -> Option<u8>
    ensures { result ≡ named_segment args.now }
{
    match args {
        [] => None,
        [Arg::Mem(address), ..] => address.seg,
        [_, rest @ ..] => segment_of(rest),
    }
}

/// Writes the prefix of a segment register.
fn write_segment(bytes: &mut Bytes, segment: Option<u8>)
    requires { array_vec_len bytes.old ≤ 14 }
    ensures items { bytes.new.items ≡ bytes.old.items ++ segment_prefix segment }
    ensures len { array_vec_len bytes.new ≤ array_vec_len bytes.old + 1 }
{
    match segment {
        Some(0) => bytes.push(0x26),
        Some(1) => bytes.push(0x2e),
        Some(2) => bytes.push(0x36),
        Some(3) => bytes.push(0x3e),
        Some(4) => bytes.push(0x64),
        Some(5) => bytes.push(0x65),
        _ => {}
    }
}

/// Writes a byte where it is wanted.
fn write_if(bytes: &mut Bytes, wanted: bool, byte: u8)
    requires { array_vec_len bytes.old ≤ 14 }
    ensures items { bytes.new.items ≡ bytes.old.items ++ byte_if wanted byte }
    ensures len { array_vec_len bytes.new ≤ array_vec_len bytes.old + 1 }
{
    if wanted {
        bytes.push(byte);
    }
}

/// Writes the prefix of a repetition.
fn write_rep(bytes: &mut Bytes, rep: Rep)
    requires { array_vec_len bytes.old ≤ 14 }
    ensures items { bytes.new.items ≡ bytes.old.items ++ rep_prefix rep }
    ensures len { array_vec_len bytes.new ≤ array_vec_len bytes.old + 1 }
{
    match rep {
        Rep::Once => {}
        Rep::Equal => bytes.push(0xf3),
        Rep::NotEqual => bytes.push(0xf2),
    }
}

/// The prefixes of an operation, rising, with 66h or without.
#[tactic(auto, unfolding(crate::specs::Candidates::prefixes))]
pub fn written_prefixes(op: &Op, narrow: bool) -> Bytes
    ensures items { result.items ≡ prefixes op.now narrow }
    ensures len { array_vec_len result ≤ 4 }
{
    let mut bytes = ArrayVec::new();
    write_segment(&mut bytes, segment_of(op.args.as_slice()));
    write_if(&mut bytes, narrow, 0x66);
    write_if(&mut bytes, op.lock, 0xf0);
    write_rep(&mut bytes, op.rep);
    bytes
}

/// The number of a register, general or segment.
fn register_of(arg: Arg) -> u8
    ensures exact { result ≡ register arg }
    ensures few { result < 8 }
{
    match arg {
        Arg::Reg(number) | Arg::Seg(number) => number % 8,
        _ => 0,
    }
}

/// Whether an operand is the opcode's low three bits.
fn stands_in_opcode(operand: Operand) -> bool
    ensures { result ≡ is_low operand }
{
    matches!(operand, Operand::Low)
}

/// Whether an operand is the middle bits of the ModRM byte.
fn stands_in_middle(operand: Operand) -> bool
    ensures { result ≡ is_middle operand }
{
    matches!(operand, Operand::G | Operand::S)
}

/// Whether an operand is what the ModRM byte names.
fn is_named(operand: Operand) -> bool
    ensures { result ≡ is_place operand }
{
    matches!(operand, Operand::E | Operand::M | Operand::R)
}

/// The opcode, of those of a row.
#[tactic(auto, unfolding(crate::specs::Candidates::opcode))]
fn opcode_of(row: &Row, args: &[Arg]) -> u16
    ensures { result ≡ opcode row.now args.now }
{
    if stands_in_opcode(row.first) {
        row.low / 64 * 8 + u16::from(register_of(argument(args, 0)))
    } else if stands_in_opcode(row.second) {
        row.low / 64 * 8 + u16::from(register_of(argument(args, 1)))
    } else {
        row.low / 8
    }
}

/// Writes an opcode.
pub fn write_opcode(bytes: &mut Bytes, row: &Row, args: &[Arg])
    requires { array_vec_len bytes.old ≤ 4 }
    ensures items { bytes.new.items ≡ bytes.old.items ++ key_bytes (opcode row.now args.now) }
    ensures len { array_vec_len bytes.new ≤ 6 }
{
    let opcode = opcode_of(row, args);
    if opcode < 256 {
        bytes.push(opcode as u8);
    } else {
        bytes.push(0x0f);
        bytes.push((opcode % 256) as u8);
    }
}

/// The middle bits of the ModRM byte.
#[tactic(auto, unfolding(crate::specs::Candidates::middle_of))]
fn middle_of(row: &Row, args: &[Arg]) -> u8
    ensures exact { result ≡ middle_of row.now args.now }
    ensures few { result < 8 }
{
    if stands_in_middle(row.first) {
        register_of(argument(args, 0))
    } else if stands_in_middle(row.second) {
        register_of(argument(args, 1))
    } else {
        (row.low % 8) as u8
    }
}

/// The base as the low three bits of the ModRM or SIB byte, 5 for none.
fn base_bits(register: Option<u8>) -> u8
    ensures exact { result ≡ base register }
    ensures few { result < 8 }
{
    match register {
        None => 5,
        Some(register) => register % 8,
    }
}

/// The mode, which without a base is 0.
fn mode_with(register: Option<u8>, mode: u8) -> u8
    ensures exact { result ≡ mode_of register mode }
    ensures few { result < 3 }
{
    match register {
        None => 0,
        Some(_) => mode % 3,
    }
}

/// The index as the middle bits of the SIB byte, 4 for none.
fn index_bits(register: Option<u8>) -> u8
    ensures exact { result ≡ index register }
    ensures few { result < 8 }
{
    match register {
        None => 4,
        Some(register) => register % 8,
    }
}

/// The scale as the top bits of the SIB byte.
fn scale_bits(factor: u8) -> u8
    ensures exact { result ≡ scale factor }
    ensures few { result < 4 }
{
    match factor {
        8 => 3,
        4 => 2,
        2 => 1,
        _ => 0,
    }
}

/// Writes the ModRM byte and, where it is wanted, the SIB byte of an address.
#[tactic(auto, unfolding(crate::specs::Candidates::address_bytes))]
fn write_address(bytes: &mut Bytes, middle: u8, mode: u8, address: &Addr)
    requires few { array_vec_len bytes.old ≤ 6 }
    requires middle { middle < 8 }
    ensures items { bytes.new.items ≡ bytes.old.items ++ address_bytes middle mode address.now }
    ensures len { array_vec_len bytes.new ≤ array_vec_len bytes.old + 2 }
{
    let base = base_bits(address.base);
    let mode = mode_with(address.base, mode);
    let index = index_bits(address.index);
    if index == 4 && base != 4 {
        bytes.push(64 * mode + 8 * middle + base);
    } else {
        bytes.push(64 * mode + 8 * middle + 4);
        bytes.push(64 * scale_bits(address.scale) + 8 * index + base);
    }
}

/// Writes ModRM byte, SIB byte and displacement of what the ModRM byte names, by the mode.
#[tactic(auto, unfolding(crate::specs::Candidates::place_bytes))]
fn write_place(bytes: &mut Bytes, middle: u8, mode: u8, place: Arg)
    requires few { array_vec_len bytes.old ≤ 6 }
    requires middle { middle < 8 }
    ensures items { bytes.new.items ≡ bytes.old.items ++ place_bytes middle mode place }
    ensures len { array_vec_len bytes.new ≤ array_vec_len bytes.old + 6 }
{
    match place {
        Arg::Reg(register) => bytes.push(192 + 8 * middle + register % 8),
        Arg::Mem(address) => {
            write_address(bytes, middle, mode, &address);
            let mode = mode_with(address.base, mode);
            let count = displacement_len(mode, base_bits(address.base));
            write_number(bytes, count, address.disp);
        }
        _ => {}
    }
}

/// Writes the bytes between opcode and tail.
#[tactic(auto, unfolding(crate::specs::Candidates::form_bytes))]
pub fn write_form(bytes: &mut Bytes, row: &Row, mode: u8, args: &[Arg])
    requires { array_vec_len bytes.old ≤ 6 }
    ensures items { bytes.new.items ≡ bytes.old.items ++ form_bytes row.now mode args.now }
    ensures len { array_vec_len bytes.new ≤ 12 }
{
    let middle = middle_of(row, args);
    if is_named(row.first) {
        write_place(bytes, middle, mode, argument(args, 0));
    } else if is_named(row.second) {
        write_place(bytes, middle, mode, argument(args, 1));
    }
}

/// So many bytes of an operand behind opcode and ModRM.
#[tactic(auto, unfolding(crate::specs::Candidates::operand_bytes))]
fn bytes_of(count: usize, arg: Arg) -> Bytes
    requires { count ≤ 6 }
    ensures items { result.items ≡ operand_bytes count arg }
    ensures len { array_vec_len result ≤ 8 }
{
    let mut bytes = ArrayVec::new();
    match arg {
        Arg::Imm(number) | Arg::Rel(number) => write_number(&mut bytes, count, number),
        Arg::Mem(address) => write_number(&mut bytes, count, address.disp),
        Arg::Far { selector, offset } => {
            let first = count.saturating_sub(2);
            write_number(&mut bytes, first, offset);
            write_number(&mut bytes, count - first, u32::from(selector));
        }
        _ => {}
    }
    bytes
}

/// The bytes behind opcode and ModRM.
#[tactic(auto, unfolding(crate::specs::Candidates::tail_bytes))]
pub fn tail_of(row: &Row, width: Width, args: &[Arg]) -> Bytes
    ensures items { result.items ≡ tail_bytes row.now width args.now }
    ensures len { array_vec_len result ≤ 8 }
{
    let first = length_of(width, row.first);
    let second = length_of(width, row.second);
    if first != 0 {
        bytes_of(first, argument(args, 0))
    } else if second != 0 {
        bytes_of(second, argument(args, 1))
    } else {
        bytes_of(length_of(width, row.third), argument(args, 2))
    }
}
