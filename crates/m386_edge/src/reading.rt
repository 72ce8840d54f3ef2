//! Reads that end only at the end of input.
ghost use Rattle.std.specs.Prelude.{◌≡◌, ◌≢◌, ◌+◌, ◌<◌, ◌≤◌, ℕ, List, Some, IfOk, OnErr, IsErr, length};
ghost use Rattle.m386_base.specs.Bus.{Rose};
ghost use Rattle.m386_edge.specs.Edge.{Gave, IsEmptied};

use crate::failed::Failed;
use crate::source::Source;
use std::alloc::{AllocError, Global};

/// Why a source wasn't read to its end.
#[derive(Clone, Copy, Debug, PartialEq, Eq)]
pub enum ReadEnd {
    /// There was no memory to keep what was read.
    Memory,
    /// A read failed.
    Failed,
    /// The source gave more bytes than are wanted.
    TooLong,
}

impl From<AllocError> for ReadEnd {
    ghost use Rattle.m386_edge.specs.declared.reading.ReadEnd.TheVariants as ends;

    ghost from_gives = { λ _ e. e ≡ ends.Memory };

    fn from(_: AllocError) -> Self {
        ReadEnd::Memory
    }
}

impl From<Failed> for ReadEnd {
    ghost use Rattle.m386_edge.specs.declared.reading.ReadEnd.TheVariants as ends;

    ghost from_gives = { λ _ e. e ≡ ends.Failed };

    fn from(_: Failed) -> Self {
        ReadEnd::Failed
    }
}

/// Everything that a source has left, unless that is more than `limit` bytes. Of a longer source it takes `limit` + 1
/// bytes and no more. Whatever it answers, it took at most so many, and what it took before an `Err` is dropped.
pub fn read_whole<S: Source>(
    alloc: Global,
    source: &mut S,
    limit: usize,
) -> Result<Vec<u8>, ReadEnd>
    ensures ok { IfOk result (λ bytes. (length bytes.items ≤ limit) × Gave (S.left source.old) (S.left source.new) bytes.items × IsEmptied (S.left source.new)) }
    ensures err { OnErr result ((bytes : List ℕ) × (length bytes ≤ limit + 1) × Gave (S.left source.old) (S.left source.new) bytes) }
    ensures too_long { result ≡ Err ReadEnd.TooLong → (bytes : List ℕ) × (length bytes ≡ limit + 1) × Gave (S.left source.old) (S.left source.new) bytes }
    ensures failed { result ≡ Err ReadEnd.Failed → Rose (S.faults source.old) (S.faults source.new) }
    ensures never_falls { S.faults source.old ≤ S.faults source.new }
    ensures within { (bytes : List ℕ) → S.left source.old ≡ Some bytes → length bytes ≤ limit → result ≢ Err ReadEnd.TooLong }
    ensures past { (bytes : List ℕ) → S.left source.old ≡ Some bytes → limit < length bytes → IsErr result }
{
    let mut bytes = Vec::new(alloc);
    let mut buf = [0; 4096];
    while bytes.len() <= limit {
        // One byte past the limit is enough to know that the source is too long.
        let room = (limit - bytes.len()).min(buf.len() - 1) + 1;
        let count = source.read(&mut buf[..room])?;
        if count == 0 {
            return Ok(bytes);
        }
        bytes.extend_from_slice(&buf[..count])?;
    }
    Err(ReadEnd::TooLong)
}
