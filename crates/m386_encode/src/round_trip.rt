//! Operations to bytes and back: what is written is decoded again, whatever follows.
ghost use Rattle.std.specs.Prelude.{◌≤◌, ℕ, List, length};
ghost use Rattle.m386_opmap.specs.declared.op.Op.{Op};
ghost use Rattle.m386_opmap.specs.Spelling.{Spells};
ghost use Rattle.m386_encode.specs.RoundTrip.{IsReadBack};

/// What is written for an operation is decoded to it. Of bytes that spell it and are at most 15, as those of `encode`, with
/// whatever bytes behind them, a decoder answers the operation and its length, and nothing else.
pub fn written_is_decoded()
    ensures { (op : Op) (bytes : List ℕ) → Spells op bytes → length bytes ≤ 15 → IsReadBack op bytes }
{}
