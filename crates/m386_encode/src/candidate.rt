//! The bytes by which a row would spell an operation.
ghost use Rattle.std.specs.Prelude.{◌≡◌, ◌<◌, ◌≤◌, ◌++◌, Option, Some, None, length, ℕ};
ghost use Rattle.arrayvec.specs.ArrayVec.{array_vec_len};
ghost use Rattle.m386_encode.specs.Candidates.{candidate};

use crate::parts::{Bytes, tail_of, write_form, write_opcode, written_prefixes};
use m386_opmap::op::Op;
use m386_opmap::row::Row;

/// The bytes by which a row would spell an operation, with 66h or without, and with a displacement by the mode. None where
/// they are more than 15.
#[tactic(auto, unfolding(crate::specs::Candidates::candidate))]
pub fn candidate_of(op: &Op, row: &Row, narrow: bool, mode: u8) -> Option<Bytes>
    ensures bytes { (bytes : _) → result ≡ Some bytes → bytes.items ≡ candidate op.now row.now narrow mode }
    ensures none { result ≡ None → 15 < length (candidate op.now row.now narrow mode) }
{
    let args = op.args.as_slice();
    let mut bytes = written_prefixes(op, narrow);
    write_opcode(&mut bytes, row, args);
    write_form(&mut bytes, row, mode, args);
    let tail = tail_of(row, op.width, args);
    match bytes.try_extend_from_slice(tail.as_slice()) {
        Ok(()) => Some(bytes),
        Err(_) => None,
    }
}
