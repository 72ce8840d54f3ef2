//! The shortest spelling of an operation: the earliest of the candidates of all rows that spell it.
ghost use Rattle.std.specs.Prelude.{◌≡◌, ◌↔◌, ◌⊎◌, ◌<◌, ◌≤◌, true, None, Some, List, ℕ, length, get_or};
ghost use Rattle.m386_opmap.specs.Opcodes.{opcode_rows};
ghost use Rattle.m386_opmap.specs.Spelling.{Spells};
ghost use Rattle.m386_encode.specs.Candidates.{candidate};
ghost use Rattle.m386_encode.specs.RoundTrip.{IsReadBack};
ghost use Rattle.m386_encode.specs.Shortest.{IsShortest, IsSpelling, IsSound, IsReached, IsCandidate, IsMet, no_row};

use crate::candidate::candidate_of;
use crate::order::before;
use crate::parts::Bytes;
use crate::same::{same_name, same_op};
use arrayvec::ArrayVec;
use m386_opmap::op::Op;
use m386_opmap::outcome::Reading;
use m386_opmap::reading::reading;
use m386_opmap::row::Row;
use m386_opmap::rows::OPCODE_ROWS;

/// Whether bytes spell an operation.
fn spells(op: &Op, bytes: &[u8]) -> bool
    ensures yes { result ≡ true → IsSpelling op.now bytes.now }
    ensures no { IsSpelling op.now bytes.now → result ≡ true }
{
    match reading(bytes) {
        Reading::Spelled { op: read, len } => len == bytes.len() && same_op(&read, op),
        _ => false,
    }
}

/// The earlier of the best spelling so far and some bytes, if these spell the operation.
#[tactic(auto, using(crate::proofs::Ordered::ordered))]
fn earlier(op: &Op, best: Option<Bytes>, bytes: Bytes) -> Option<Bytes>
    requires { IsSound op.now best }
    ensures sound { IsSound op.now result }
    ensures kept { (other : List ℕ) → IsReached best other → IsReached result other }
    ensures met { IsSpelling op.now bytes.items → IsReached result bytes.items }
    ensures one { (result ≡ best) ⊎ (result ≡ Some bytes) }
{
    if !spells(op, bytes.as_slice()) {
        return best;
    }
    let Some(best) = best else {
        return Some(bytes);
    };
    if before(bytes.as_slice(), best.as_slice()) {
        Some(bytes)
    } else {
        Some(best)
    }
}

/// The earlier of the best spelling so far and the bytes by which a row would spell the operation.
pub(crate) fn with_choice(
    op: &Op,
    best: Option<Bytes>,
    row: &Row,
    narrow: bool,
    mode: u8,
) -> Option<Bytes>
    requires { IsSound op.now best }
    ensures sound { IsSound op.now result }
    ensures kept { (other : List ℕ) → IsReached best other → IsReached result other }
    ensures met { length (candidate op.now row.now narrow mode) ≤ 15 → IsSpelling op.now (candidate op.now row.now narrow mode) → IsReached result (candidate op.now row.now narrow mode) }
    ensures one { (result ≡ best) ⊎ IsCandidate op.now row.now narrow mode result }
{
    match candidate_of(op, row, narrow, mode) {
        Some(bytes) => earlier(op, best, bytes),
        None => best,
    }
}

/// The earlier of the best spelling so far and the spellings by a row.
fn with_row(op: &Op, best: Option<Bytes>, row: &Row) -> Option<Bytes>
    requires { IsSound op.now best }
    ensures sound { IsSound op.now result }
    ensures kept { (other : List ℕ) → IsReached best other → IsReached result other }
    ensures met { IsMet op.now result row.now }
{
    let mut best = best;
    best = with_choice(op, best, row, false, 0);
    best = with_choice(op, best, row, false, 1);
    best = with_choice(op, best, row, false, 2);
    best = with_choice(op, best, row, true, 0);
    best = with_choice(op, best, row, true, 1);
    with_choice(op, best, row, true, 2)
}

/// The first of the spellings by some rows.
fn best_by(op: &Op, rows: &[Row]) -> Option<Bytes>
    ensures sound { IsSound op.now result }
    ensures met { (i : ℕ) → i < length rows.now → (get_or rows.now i no_row).name ≡ op.now.name → IsMet op.now result (get_or rows.now i no_row) }
{
    let mut best = None;
    for row in rows {
        if !same_name(row.name, op.name) {
            continue;
        }
        best = with_row(op, best, row);
    }
    best
}

/// The first of the spellings by the rows of the machine.
fn best_of(op: &Op) -> Option<Bytes>
    ensures sound { IsSound op.now result }
    ensures met { (i : ℕ) → i < length opcode_rows → (get_or opcode_rows i no_row).name ≡ op.now.name → IsMet op.now result (get_or opcode_rows i no_row) }
{
    best_by(op, &OPCODE_ROWS)
}

/// The shortest spelling of an operation (PRM 17.2.1), and among equally short ones the one whose bytes, compared in order,
/// are least. `None` exactly where the operation has no spelling.
pub fn encode(op: &Op) -> Option<ArrayVec<u8, 15>>
    // The bytes spell the operation, and no spelling of it, however long, comes before them.
    ensures shortest { (bytes : _) → result ≡ Some bytes → IsShortest op.now bytes.items }
    // There are none exactly where no bytes spell the operation.
    ensures none { (result ≡ None) ↔ ((bytes : List ℕ) → Spells op.now bytes → ⊥) }
    // They are decoded to the operation, whatever bytes follow.
    ensures decoded { (bytes : _) → result ≡ Some bytes → IsReadBack op.now bytes.items }
{
    best_of(op)
}
