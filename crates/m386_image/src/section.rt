//! The sections of a file, one after the other.
ghost use Rattle.std.specs.Prelude.{◌≡◌, ◌↔◌, ◌+◌, ◌^◌, ◌<◌, ◌≤◌, List, [], ℕ, length, IsTrue, IfSome, IsNone, IfOk};
ghost use Rattle.m386_image.specs.Format.{Takes, TakesAll, ArePlaced};
ghost use Rattle.m386_image.specs.declared.image.Section.{Section};

use crate::image::Section;
use crate::number::read_u32;
use m386_base::fault::NoMemory;
use m386_base::list::List;
use std::alloc::Global;

/// A section in a file, and the bytes behind it.
#[derive(Clone, Copy)]
struct Part<'a> {
    /// The address of its first byte.
    addr: u32,
    /// Its bytes.
    bytes: &'a [u8],
    /// What stands behind it.
    rest: &'a [u8],
}

impl Part<'_> {
    /// Whether the section begins at `place` or above it, and ends inside the memory.
    fn is_placed(&self, place: u64, memory: u32) -> bool
        requires { length self.now.bytes.now < 2 ^ 32 }
        ensures { IsTrue result ↔ ((place ≤ self.now.addr) × (self.now.addr + length self.now.bytes.now ≤ memory)) }
    {
        place <= self.addr as u64 && self.end() <= memory as u64
    }

    /// The address behind the section's last byte.
    fn end(&self) -> u64
        requires { length self.now.bytes.now < 2 ^ 32 }
        ensures { result ≡ self.now.addr + length self.now.bytes.now }
    {
        self.addr as u64 + self.bytes.len() as u64
    }
}

/// The section that the bytes begin with, or None where they end within it.
fn next_section(bytes: &[u8]) -> Option<Part<'_>>
    ensures some { IfSome result (λ p. Takes bytes.now (record { addr = p.addr; bytes = p.bytes.now }) p.rest.now) }
    ensures none { IsNone result → (s : Section) (rest : List ℕ) → ¬ Takes bytes.now s rest }
{
    if bytes.len() < 8 {
        return None;
    }
    let len = read_u32(bytes, 4) as usize;
    let (_, body) = bytes.split_at(8);
    if body.len() < len {
        return None;
    }
    let (section, rest) = body.split_at(len);
    Some(Part {
        addr: read_u32(bytes, 0),
        bytes: section,
        rest,
    })
}

/// What a walk over the sections of a file found.
#[derive(Clone, Copy)]
pub struct Walk<'a> {
    /// What stands behind the last section.
    pub rest: &'a [u8],
    /// Whether the sections are placed as an image's are: rising, apart, and inside the memory.
    pub placed: bool,
}

/// A walk over so many sections, or None where the bytes end within them.
pub fn walk_sections(bytes: &[u8], count: u32, memory: u32) -> Option<Walk<'_>>
    ensures some { IfSome result (λ w. (ss : List Section) × TakesAll count bytes.now ss w.rest.now × (IsTrue w.placed ↔ ArePlaced 0 memory ss)) }
    ensures none { IsNone result → (ss : List Section) (rest : List ℕ) → ¬ TakesAll count bytes.now ss rest }
{
    let mut rest = bytes;
    let mut placed = true;
    let mut end = 0;
    for _ in 0..count {
        let part = next_section(rest)?;
        placed = placed && part.is_placed(end, memory);
        end = part.end();
        rest = part.rest;
    }
    Some(Walk { rest, placed })
}

/// So many sections, as they stand in the file.
pub fn sections_of(alloc: Global, bytes: &[u8], count: u32) -> Result<List<Section>, NoMemory>
    requires { (ss : List Section) × (rest : List ℕ) × TakesAll count bytes.now ss rest }
    ensures { IfOk result (λ ss. (rest : List ℕ) × TakesAll count bytes.now ss rest) }
{
    let mut sections = List::new(alloc);
    let mut rest = bytes;
    for _ in 0..count {
        let Some(part) = next_section(rest) else {
            unreachable!()
        };
        sections.push(Section {
            addr: part.addr,
            bytes: List::of(Vec::from_slice(alloc, part.bytes)?),
        })?;
        rest = part.rest;
    }
    Ok(sections)
}
