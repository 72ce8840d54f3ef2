//! The bytes of an input.
ghost use Rattle.std.specs.Prelude.{IfOk, IfErr};
ghost use Rattle.m386.specs.Top.{HasNoInput, SourceGave, at_source};

use crate::status::Status;
use m386_edge::reading::{ReadEnd, read_whole};
use m386_edge::source::Source;
use std::alloc::Global;

/// The most bytes of an input.
const MOST_BYTES: usize = 20_971_520;

/// All bytes of the source, or why there are none that may be an input.
pub fn read_input<S: Source>(alloc: Global, source: &mut S) -> Result<Vec<u8>, Status>
    ensures ok { IfOk result (λ bytes. SourceGave (at_source (S.left source.old) (S.faults source.old)) (at_source (S.left source.new) (S.faults source.new)) bytes.items) }
    ensures err { IfErr result (HasNoInput (at_source (S.left source.old) (S.faults source.old)) (at_source (S.left source.new) (S.faults source.new))) }
{
    match read_whole(alloc, source, MOST_BYTES) {
        Ok(bytes) => Ok(bytes),
        Err(ReadEnd::Memory) => Err(Status::Memory),
        Err(ReadEnd::Failed) => Err(Status::ReadFault),
        Err(ReadEnd::TooLong) => Err(Status::TooLong),
    }
}
