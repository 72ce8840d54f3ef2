//! Tables of texts, each with what the language's description says that it lays out.

mod directives;
mod faults;
mod generated;
mod instructions;
mod kernel;
mod mnemonics;
mod names;
mod operands;

use m386_asm::assemble::assemble;
use m386_asm::stop::AsmStop;
use m386_base::fault::NoMemory;
use m386_lines::kind::AsmKind;
use std::alloc::Global;

/// What stands before a line that begins at 0x1000.
const BEFORE: &str = ".memory 65536\n.cpus 1\n.org 0x1000\n";

/// How many bytes stand before those of the first section, in an image without a plan.
const HEAD: usize = 72;

/// What a text of these parts lays out.
fn joined_image(alloc: Global, parts: &[&str]) -> Result<Result<Vec<u8>, AsmStop>, NoMemory> {
    let mut text = Vec::new(alloc);
    for part in parts {
        text.extend_from_slice(part.as_bytes())?;
    }
    Ok(assemble(alloc, text.as_slice()))
}

/// What lines lay out behind others.
fn laid_out(
    alloc: Global,
    before: &str,
    lines: &str,
) -> Result<Result<Vec<u8>, AsmStop>, NoMemory> {
    joined_image(alloc, &[before, lines])
}

/// An image's bytes from one on, if there is an image.
fn behind(image: &Result<Vec<u8>, AsmStop>, from: usize) -> Option<&[u8]> {
    match image {
        Ok(bytes) => bytes.as_slice().get(from..),
        Err(_) => None,
    }
}

/// The faulty line and its kind, if there is one.
fn fault_in(image: &Result<Vec<u8>, AsmStop>) -> Option<(u32, AsmKind)> {
    match image {
        Err(AsmStop::Bad { line, kind }) => Some((*line, *kind)),
        Ok(_) | Err(AsmStop::Memory) => None,
    }
}
