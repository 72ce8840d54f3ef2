//! The image of a source text.
ghost use Rattle.m386.specs.Top.{IsAssembled, at_edges};

use crate::input::read_input;
use crate::status::Status;
use m386_asm::assemble::assemble;
use m386_asm::stop::AsmStop;
use m386_edge::failed::Failed;
use m386_edge::sink::Sink;
use m386_edge::source::Source;
use m386_edge::writing::write_whole;
use std::alloc::Global;

/// Writes the image of the source text that the source has.
pub fn assemble_input<S: Source, K: Sink>(alloc: Global, source: &mut S, out: &mut K) -> Status
    ensures { IsAssembled
        (at_edges (S.left source.old) (S.faults source.old) (K.held out.old) (K.faults out.old))
        (at_edges (S.left source.new) (S.faults source.new) (K.held out.new) (K.faults out.new))
        result }
{
    let text = match read_input(alloc, source) {
        Ok(text) => text,
        Err(status) => return status,
    };
    let bytes = match assemble(alloc, &text) {
        Ok(bytes) => bytes,
        Err(AsmStop::Memory) => return Status::Memory,
        Err(AsmStop::Bad { line, kind }) => return Status::Asm { line, kind },
    };
    match write_whole(out, &bytes) {
        Ok(()) => Status::Done,
        Err(Failed) => Status::WriteFault,
    }
}
