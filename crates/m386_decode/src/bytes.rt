//! The operation that bytes in memory begin with.
ghost use Rattle.std.specs.Prelude.{◌≡◌, ◌≢◌, ◌↔◌, ◌≤◌, ◌<◌, ℕ, List, ◌++◌, length, Result, Ok, Err};
ghost use Rattle.m386_base.specs.declared.fault.Break.{Break as Breaks};
ghost use Rattle.m386_opmap.specs.declared.op.Op.{Op as Operation};
ghost use Rattle.m386_opmap.specs.Spelling.{Spells};
ghost use Rattle.m386_decode.specs.declared.decoded.Decoded.{Decoded as Decodes};
ghost use Rattle.m386_decode.specs.Decoding.{WantsMore, IsAnswered};
ghost use Rattle.m386_decode.specs.Slices.{paused};

use crate::decode::decode;
use crate::decoded::Decoded;
use crate::slice_source::SliceSource;
use m386_base::fault::Break;

/// The operation that bytes begin with, and how many bytes its spelling has. Where they are fewer than 15 and want more,
/// it pauses behind the last.
pub fn decode_bytes(bytes: &[u8]) -> Result<Decoded, Break>
    ensures exact { (answer : Result Decodes Breaks) → IsAnswered bytes.now answer → result ≡ answer }
    ensures paused { result ≡ Err paused ↔ ((length bytes.now < 15) × WantsMore bytes.now) }
    ensures answered { result ≢ Err paused → IsAnswered bytes.now result }
    ensures spelled { (op : Operation) (front rest : List ℕ) → bytes.now ≡ front ++ rest → length front ≤ 15 → Spells op front → result ≡ Ok (record { op = op; len = length front }) }
{
    decode(&mut SliceSource::new(bytes))
}
