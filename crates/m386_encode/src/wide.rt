//! The wide spelling of an operation: the earliest of the wide candidates of all full rows that spell it.
ghost use Rattle.std.specs.Prelude.{◌≡◌, ◌↔◌, ◌<◌, true, Option, Some, None, List, ℕ, length, get_or};
ghost use Rattle.std.specs.List.{All, Contains};
ghost use Rattle.m386_opmap.specs.Opcodes.{opcode_rows};
ghost use Rattle.m386_opmap.specs.Spelling.{Spells};
ghost use Rattle.m386_opmap.specs.declared.row.Operand.TheVariants.{Jb};
ghost use Rattle.m386_encode.specs.Renumbered.{KeepsLength};
ghost use Rattle.m386_encode.specs.RoundTrip.{IsReadBack};
ghost use Rattle.m386_encode.specs.Shortest.{IsReached, no_row};
ghost use Rattle.m386_encode.specs.Wide.{is_always_near, is_brief, is_full, IsShortestWide, IsWideSound, IsMetBy, IsMetWide, IsOffered, HasFullRow};

use crate::encode::with_choice;
use crate::parts::Bytes;
use crate::same::same_name;
use arrayvec::ArrayVec;
use m386_opmap::name::Name;
use m386_opmap::op::Op;
use m386_opmap::row::{Operand, Row};
use m386_opmap::rows::OPCODE_ROWS;

/// Whether a jump's distance has one byte in each of its opcodes.
fn stays_near(name: Name) -> bool
    ensures { result ≡ is_always_near name }
{
    matches!(name, Name::Loopnz | Name::Loopz | Name::Loop | Name::Jecxz)
}

/// Whether an operand has fewer bytes than in another opcode of the same name.
fn is_short(name: Name, operand: Operand) -> bool
    ensures { result ≡ is_brief name operand }
{
    match operand {
        Operand::SignedByte | Operand::One => true,
        Operand::Jb => !stays_near(name),
        _ => false,
    }
}

/// Whether each operand of a row has its full size.
fn has_full_operands(row: &Row) -> bool
    ensures { result ≡ is_full row.now }
{
    !is_short(row.name, row.first)
        && !is_short(row.name, row.second)
        && !is_short(row.name, row.third)
}

/// Whether a row is full and has the operation's name.
fn is_offered(op: &Op, row: &Row) -> bool
    ensures yes { result ≡ true → IsOffered op.now row.now }
    ensures no { IsOffered op.now row.now → result ≡ true }
{
    same_name(row.name, op.name) && has_full_operands(row)
}

/// The earlier of the best wide spelling so far and the one by a row, with 66h or without.
fn with_wide(op: &Op, best: Option<Bytes>, row: &Row, narrow: bool) -> Option<Bytes>
    requires listed { Contains opcode_rows row.now }
    requires full { is_full row.now ≡ true }
    requires best { IsWideSound op.now best }
    ensures wide { IsWideSound op.now result }
    ensures kept { (other : List ℕ) → IsReached best other → IsReached result other }
    ensures met { IsMetBy op.now result row.now narrow }
{
    // Mode 2 of a ModRM byte is a displacement of four bytes.
    with_choice(op, best, row, narrow, 2)
}

/// The earlier of the best wide spelling so far and those by a row.
fn with_full_row(op: &Op, best: Option<Bytes>, row: &Row) -> Option<Bytes>
    requires listed { Contains opcode_rows row.now }
    requires full { is_full row.now ≡ true }
    requires best { IsWideSound op.now best }
    ensures wide { IsWideSound op.now result }
    ensures kept { (other : List ℕ) → IsReached best other → IsReached result other }
    ensures met { IsMetWide op.now result row.now }
{
    let best = with_wide(op, best, row, false);
    with_wide(op, best, row, true)
}

/// The first of the wide spellings by some rows.
fn best_wide_by(op: &Op, rows: &[Row]) -> Option<Bytes>
    requires { All (Contains opcode_rows) rows.now }
    ensures wide { IsWideSound op.now result }
    ensures met { (i : ℕ) → i < length rows.now → IsOffered op.now (get_or rows.now i no_row) → IsMetWide op.now result (get_or rows.now i no_row) }
{
    let mut best = None;
    for row in rows {
        if !is_offered(op, row) {
            continue;
        }
        best = with_full_row(op, best, row);
    }
    best
}

/// The first of the wide spellings by the rows of the machine.
fn best_wide_of(op: &Op) -> Option<Bytes>
    ensures wide { IsWideSound op.now result }
    ensures met { (i : ℕ) → i < length opcode_rows → IsOffered op.now (get_or opcode_rows i no_row) → IsMetWide op.now result (get_or opcode_rows i no_row) }
{
    best_wide_by(op, &OPCODE_ROWS)
}

/// The shortest wide spelling of an operation (PRM 17.2.1), and among equally short ones the one whose bytes, compared in order,
/// are least. Wide are the spellings whose displacements, immediates and distances have the full size of some opcode of
/// the operation's name: memory by a ModRM byte has a displacement of four bytes, and the count 1 of a shift is a byte. `None`
/// exactly where the operation has no spelling.
pub fn encode_wide(op: &Op) -> Option<ArrayVec<u8, 15>>
    // The bytes are a wide spelling of the operation, and no wide spelling of it, however long, comes before them.
    ensures shortest { (bytes : _) → result ≡ Some bytes → IsShortestWide op.now bytes.items }
    // There are none exactly where no bytes spell the operation, wide or not.
    ensures none { (result ≡ None) ↔ ((bytes : List ℕ) → Spells op.now bytes → ⊥) }
    // They are decoded to the operation, whatever bytes follow.
    ensures decoded { (bytes : _) → result ≡ Some bytes → IsReadBack op.now bytes.items }
{
    best_wide_of(op)
}

/// Each row of the opcodes that isn't full has a full one of the same name and size beside it.
pub fn full_row_for_each()
    ensures { (r : Row) → Contains opcode_rows r → HasFullRow r }
{}

/// The jumps that are taken to stay near do: no opcode has their distance in more than a byte.
pub fn near_jumps_stay_near()
    ensures { (r : Row) → Contains opcode_rows r → is_always_near r.name ≡ true → r.first ≡ Jb }
{}

/// What `encode_wide` writes is as long for each number: of two operations that differ in the numbers of their operands alone,
/// and both have a spelling, the wide ones are equally long. So what stands behind an instruction has its place before the
/// numbers are known.
pub fn numbers_keep_the_length()
    ensures { KeepsLength }
{}
