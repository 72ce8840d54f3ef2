//! What a string of bytes reads as.
ghost use Rattle.std.specs.Prelude.{◌≡◌, ℕ, ◌+◌, ◌*◌, ◌<◌, ◌≤◌, ◌^◌, List, [], ◌++◌, length};
ghost use Rattle.m386_opmap.specs.declared.op.Op.{Op};
ghost use Rattle.m386_opmap.specs.Opcodes.{opcode_rows};
ghost use Rattle.m386_opmap.specs.Rows.{row_at, row_of};
ghost use Rattle.m386_opmap.specs.Forms.{displacement};
ghost use Rattle.m386_opmap.specs.Prefix.{is_prefix, with_prefix, no_prefixes};
ghost use Rattle.m386_opmap.specs.Readings.{tail_reading, displaced_reading, sib_reading, form_reading, modrm_reading, opcode_reading, second_reading, first_reading, prefixed_reading, reading_by, reading_of};
ghost use Rattle.m386_opmap.specs.Spelling.{Spells, IsReadingOf};
ghost use Rattle.m386_opmap.specs.Sure.{IsSure};

use crate::fields::{Fields, Prefixes};
use crate::lookup::Lookup;
use crate::op::{Addr, Arg};
use crate::outcome::Reading;
use crate::row::Row;
use crate::rows::{ESCAPED_ROWS_BELOW, OPCODE_ROWS, ROWS_BELOW};
use crate::{form, operand};

/// The row of a table that covers a key.
#[tactic(auto, using(crate::proofs::Find::row_at_steps))]
fn covering(rows: &[Row], key: u16) -> Option<Row>
    ensures { result ≡ row_at key rows.now }
{
    for row in rows {
        if row.low <= key && key <= row.high {
            return Some(*row);
        }
    }
    None
}

/// The first row of an opcode, of those that take LOCK where there is one.
#[tactic(auto, using(crate::proofs::Find::row_of_steps))]
fn beginning(rows: &[Row], lock: bool, opcode: u16) -> Option<Row>
    requires { opcode < 4096 }
    ensures { result ≡ row_of lock opcode rows.now }
{
    for row in rows {
        if row.low <= 8 * opcode + 7 && 8 * opcode <= row.high && (!lock || row.lock) {
            return Some(*row);
        }
    }
    None
}

/// Reads the bytes behind opcode and ModRM, of which the first stands at this place.
// Inlined, since an answer is large, and each call that isn't inlined copies it.
#[inline(always)]
#[tactic(auto, unfolding(crate::specs::Readings::tail_reading))]
fn read_tail(row: &Row, fields: &Fields, at: usize, rest: &[u8], lack: &mut usize) -> Reading
    requires { at + length rest.now < 2 ^ 64 }
    ensures exact { result ≡ tail_reading row.now fields.now at rest.now }
    ensures sure { result ≡ Reading.More → IsSure (tail_reading row.now fields.now at) rest.now lack.new }
{
    let len = operand::tail_len(row, fields.prefixes.narrow);
    if rest.len() < len {
        *lack = len - rest.len();
        return Reading::More;
    }
    Reading::Spelled {
        op: operand::operation_of(row, fields, &rest[..len]),
        len: at + len,
    }
}

/// Reads a displacement of so many bytes, of which the first stands at this place.
// Inlined as `read_tail` is.
#[inline(always)]
#[tactic(auto, unfolding(crate::specs::Readings::displaced_reading))]
fn read_displacement(
    row: &Row,
    fields: &Fields,
    address: Addr,
    len: usize,
    at: usize,
    rest: &[u8],
    lack: &mut usize,
) -> Reading
    requires few { len ≤ 4 }
    requires room { at + length rest.now < 2 ^ 64 }
    ensures exact { result ≡ displaced_reading row.now fields.now address len at rest.now }
    ensures sure { result ≡ Reading.More → IsSure (displaced_reading row.now fields.now address len at) rest.now lack.new }
{
    if rest.len() < len {
        *lack = len - rest.len() + operand::tail_len(row, fields.prefixes.narrow);
        return Reading::More;
    }
    let mut address = address;
    address.disp = operand::displacement_of(&rest[..len]);
    let mut fields = *fields;
    fields.place = Some(Arg::Mem(address));
    read_tail(row, &fields, at + len, &rest[len..], lack)
}

/// Reads a SIB byte at this place.
// Inlined as `read_tail` is.
#[inline(always)]
#[tactic(auto, unfolding(crate::specs::Readings::sib_reading))]
fn read_sib(
    row: &Row,
    fields: &Fields,
    mode: u8,
    at: usize,
    rest: &[u8],
    lack: &mut usize,
) -> Reading
    requires { at + length rest.now < 2 ^ 64 }
    ensures exact { result ≡ sib_reading row.now fields.now mode at rest.now }
    ensures sure { result ≡ Reading.More → IsSure (sib_reading row.now fields.now mode at) rest.now lack.new }
{
    let [sib, rest @ ..] = rest else {
        *lack = 1;
        return Reading::More;
    };
    let address = Addr {
        seg: fields.prefixes.seg,
        base: form::base(mode, sib % 8),
        index: form::index(*sib),
        scale: form::scale(*sib),
        disp: 0,
    };
    let len = form::displacement_len(mode, sib % 8);
    read_displacement(row, fields, address, len, at + 1, rest, lack)
}

/// Reads what a ModRM byte names. The byte behind it stands at this place.
// Inlined as `read_tail` is.
#[inline(always)]
#[tactic(auto, unfolding(crate::specs::Readings::form_reading))]
fn read_form(
    row: &Row,
    fields: &Fields,
    modrm: u8,
    at: usize,
    rest: &[u8],
    lack: &mut usize,
) -> Reading
    requires { at + length rest.now < 2 ^ 64 }
    ensures exact { result ≡ form_reading row.now fields.now modrm at rest.now }
    ensures sure { result ≡ Reading.More → IsSure (form_reading row.now fields.now modrm at) rest.now lack.new }
{
    let mode = modrm / 64;
    let register = modrm % 8;
    if mode == 3 {
        let mut fields = *fields;
        fields.place = Some(Arg::Reg(register));
        return read_tail(row, &fields, at, rest, lack);
    }
    if register == 4 {
        return read_sib(row, fields, mode, at, rest, lack);
    }
    let address = Addr {
        seg: fields.prefixes.seg,
        base: form::base(mode, register),
        index: None,
        scale: 1,
        disp: 0,
    };
    let len = form::displacement_len(mode, register);
    read_displacement(row, fields, address, len, at, rest, lack)
}

/// Reads a ModRM byte at this place.
// Inlined as `read_tail` is.
#[inline(always)]
#[tactic(auto, unfolding(crate::specs::Readings::modrm_reading))]
fn read_modrm(
    rows: &[Row],
    prefixes: &Prefixes,
    opcode: u16,
    at: usize,
    rest: &[u8],
    lack: &mut usize,
) -> Reading
    requires opcode { opcode < 4096 }
    requires room { at + length rest.now < 2 ^ 64 }
    ensures exact { result ≡ modrm_reading rows.now prefixes.now opcode at rest.now }
    ensures sure { result ≡ Reading.More → IsSure (modrm_reading rows.now prefixes.now opcode at) rest.now lack.new }
{
    let [modrm, rest @ ..] = rest else {
        *lack = 1;
        return Reading::More;
    };
    let middle = modrm / 8 % 8;
    let Some(row) = covering(rows, 8 * opcode + u16::from(middle)) else {
        return Reading::Refused { at };
    };
    if !operand::is_suited(&row, prefixes.lock, modrm / 64 != 3) {
        return Reading::Refused { at };
    }
    let fields = Fields {
        prefixes: *prefixes,
        opcode,
        middle,
        place: None,
    };
    read_form(&row, &fields, *modrm, at + 1, rest, lack)
}

/// Reads what stands behind an opcode, whose last byte stands at this place.
// Inlined as `read_tail` is.
#[inline(always)]
#[tactic(auto, unfolding(crate::specs::Readings::opcode_reading))]
fn read_opcode(
    rows: &[Row],
    prefixes: &Prefixes,
    opcode: u16,
    at: usize,
    rest: &[u8],
    lack: &mut usize,
) -> Reading
    requires opcode { opcode < 4096 }
    requires room { at + length rest.now + 1 < 2 ^ 64 }
    ensures exact { result ≡ opcode_reading rows.now prefixes.now opcode at rest.now }
    ensures sure { result ≡ Reading.More → IsSure (opcode_reading rows.now prefixes.now opcode at) rest.now lack.new }
{
    let Some(row) = beginning(rows, prefixes.lock, opcode) else {
        return Reading::Refused { at };
    };
    if operand::is_with_modrm(&row) {
        return read_modrm(rows, prefixes, opcode, at + 1, rest, lack);
    }
    let fields = Fields {
        prefixes: *prefixes,
        opcode,
        middle: 0,
        place: None,
    };
    read_tail(&row, &fields, at + 1, rest, lack)
}

/// Reads the second byte of an opcode, at this place.
#[tactic(auto, unfolding(crate::specs::Readings::second_reading))]
fn read_second(
    table: &Lookup,
    prefixes: &Prefixes,
    at: usize,
    rest: &[u8],
    lack: &mut usize,
) -> Reading
    requires { at + length rest.now < 2 ^ 64 }
    ensures exact { result ≡ second_reading table.now.rows.now prefixes.now at rest.now }
    ensures sure { result ≡ Reading.More → IsSure (second_reading table.now.rows.now prefixes.now at) rest.now lack.new }
{
    let [byte, rest @ ..] = rest else {
        *lack = 1;
        return Reading::More;
    };
    let rows = table.from_second_byte(*byte);
    read_opcode(rows, prefixes, 0xf00 + u16::from(*byte), at, rest, lack)
}

/// Reads an opcode whose first byte stands at this place.
#[tactic(auto, unfolding(crate::specs::Readings::first_reading))]
fn read_first(
    table: &Lookup,
    prefixes: &Prefixes,
    byte: u8,
    at: usize,
    rest: &[u8],
    lack: &mut usize,
) -> Reading
    requires { at + length rest.now + 1 < 2 ^ 64 }
    ensures exact { result ≡ first_reading table.now.rows.now prefixes.now byte at rest.now }
    ensures sure { result ≡ Reading.More → IsSure (first_reading table.now.rows.now prefixes.now byte at) rest.now lack.new }
{
    if byte == 0x0f {
        read_second(table, prefixes, at + 1, rest, lack)
    } else {
        read_opcode(
            table.from_byte(byte),
            prefixes,
            u16::from(byte),
            at,
            rest,
            lack,
        )
    }
}

/// What bytes read as by a table of rows.
#[tactic(auto, using(crate::proofs::Find::prefixed_steps, crate::proofs::Sure::prefixed_goes), unfolding(crate::specs::Readings::reading_by))]
fn read(table: &Lookup, bytes: &[u8], lack: &mut usize) -> Reading
    ensures exact { result ≡ reading_by table.now.rows.now bytes.now }
    ensures sure { result ≡ Reading.More → IsSure (reading_by table.now.rows.now) bytes.now lack.new }
{
    let mut prefixes = Prefixes::none();
    for (at, byte) in bytes.iter().enumerate() {
        match prefixes.with(*byte) {
            Some(said) => prefixes = said,
            None => return read_first(table, &prefixes, *byte, at, &bytes[at + 1..], lack),
        }
    }
    *lack = 1;
    Reading::More
}

/// What bytes read as by the opcodes of the machine.
fn read_opcodes(bytes: &[u8], lack: &mut usize) -> Reading
    ensures exact { result ≡ reading_of bytes.now }
    ensures sure { result ≡ Reading.More → IsSure reading_of bytes.now lack.new }
{
    let table = Lookup {
        rows: &OPCODE_ROWS,
        below: &ROWS_BELOW,
        escaped_below: &ESCAPED_ROWS_BELOW,
    };
    read(&table, bytes, lack)
}

/// What bytes read as, and for `More` how many more bytes are surely wanted: with fewer behind them they read as `More` too.
pub fn reading_sure(bytes: &[u8], lack: &mut usize) -> Reading
    ensures exact { result ≡ reading_of bytes.now }
    ensures says { IsReadingOf bytes.now result }
    ensures sure { result ≡ Reading.More → IsSure reading_of bytes.now lack.new }
{
    read_opcodes(bytes, lack)
}

/// What bytes read as: the operation that they begin with and the number of its bytes; `More` where they begin a spelling
/// and have none yet; or `Refused` at the first byte after which no spelling begins so (PRM 17.2). Bytes may stand behind
/// a spelling. It takes no memory.
pub fn reading(bytes: &[u8]) -> Reading
    ensures exact { result ≡ reading_of bytes.now }

    // What the answer says is so.
    ensures says { IsReadingOf bytes.now result }

    // What is spelled is read, whatever follows.
    ensures spelled { (op : Op) (front rest : List ℕ) → bytes.now ≡ front ++ rest → Spells op front → result ≡ Reading.Spelled op (length front) }
{
    let mut lack = 0;
    read_opcodes(bytes, &mut lack)
}

/// No bytes spell two operations.
pub fn one_operation()
    ensures { (op other : Op) (bytes : List ℕ) → Spells op bytes → Spells other bytes → op ≡ other }
{}

/// No two rows match one string of bytes.
pub fn one_row_for_bytes()
    ensures { (op other : Op) (bytes : List ℕ) (spelling : Spells op bytes) (another : Spells other bytes) → spelling.row ≡ another.row }
{}

/// No spelling is a proper front of another.
pub fn no_longer_spelling()
    ensures { (op other : Op) (bytes rest : List ℕ) → Spells op bytes → Spells other (bytes ++ rest) → rest ≡ [] }
{}
