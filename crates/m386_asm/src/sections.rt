//! The sections of an image, which grow line by line.
ghost use Rattle.std.specs.Prelude.{◌≡◌, ◌++◌, ◌∷◌, [], IfOk, OnOk, List as Items, ℕ};
ghost use Rattle.m386_image.specs.declared.image.Section.{Section as SectionSeen};
ghost use Rattle.m386_lines.specs.Seen.{statement_seen};
ghost use Rattle.m386_asm.specs.Bounds.{IsPlace};
ghost use Rattle.m386_asm.specs.Drafts.{HasSections, growing};
ghost use Rattle.m386_asm.specs.Knows.{Knows};
ghost use Rattle.m386_asm.specs.Layout.{Makes, Names as NameValues, begins_at, with_bytes, with_statement};

use crate::bytes::put_line;
use crate::value::{Names, wrapped};
use m386_base::fault::NoMemory;
use m386_base::list::List;
use m386_image::image::Section;
use m386_lines::directive::Directive;
use m386_lines::line::Statement;
use std::alloc::Global;

/// The sections so far.
#[derive(Drop)]
pub(crate) struct Sections {
    /// Those that no line adds to any more.
    ended: List<Section>,
    /// The one that the next line adds to.
    last: Option<Section>,
}

/// A section with the bytes of a line behind those that it has.
fn grown(
    section: Section,
    names: &Names<'_>,
    place: u128,
    statement: &Statement<'_>,
) -> Result<Section, NoMemory>
    requires { IsPlace place }
    ensures { IfOk result (λ after. (ns : NameValues) → Knows names.now ns → (bytes : Items ℕ) × Makes ns place (statement_seen statement.now) bytes ×
        (after ≡ record { addr = section.addr; bytes = section.bytes ++ bytes })) }
{
    let Section { addr, mut bytes } = section;
    put_line(&mut bytes, names, place, statement)?;
    Ok(Section { addr, bytes })
}

/// A section that begins at 0 with the bytes of a line, if it has any.
fn first(
    alloc: Global,
    names: &Names<'_>,
    place: u128,
    statement: &Statement<'_>,
) -> Result<Option<Section>, NoMemory>
    requires { IsPlace place }
    ensures { IfOk result (λ after. (ns : NameValues) → Knows names.now ns → (bytes : Items ℕ) × Makes ns place (statement_seen statement.now) bytes ×
        (growing after ≡ with_bytes bytes [])) }
{
    let begun = Section {
        addr: 0,
        bytes: List::new(alloc),
    };
    let section = grown(begun, names, place, statement)?;
    if section.bytes.as_slice().is_empty() {
        return Ok(None);
    }
    Ok(Some(section))
}

/// The last section with the bytes of a line behind it. Where there is none yet, one begins at 0.
fn grown_last(
    alloc: Global,
    last: Option<Section>,
    names: &Names<'_>,
    place: u128,
    statement: &Statement<'_>,
) -> Result<Option<Section>, NoMemory>
    requires { IsPlace place }
    ensures { IfOk result (λ after. (ns : NameValues) → Knows names.now ns → (bytes : Items ℕ) × Makes ns place (statement_seen statement.now) bytes ×
        (growing after ≡ with_bytes bytes (growing last))) }
{
    match last {
        Some(section) => Ok(Some(grown(section, names, place, statement)?)),
        None => first(alloc, names, place, statement),
    }
}

/// Where a section begins, if a statement begins one.
fn begins_at(statement: &Statement<'_>) -> Option<u32>
    ensures { result ≡ begins_at (statement_seen statement.now) }
{
    match statement {
        Statement::Direct(Directive::Begins(address)) => { Some(wrapped(32, i128::from(*address))) }
        _ => None,
    }
}

impl Sections {
    /// No sections.
    pub(crate) fn new(alloc: Global) -> Sections
        ensures { HasSections result [] }
    {
        Sections {
            ended: List::new(alloc),
            last: None,
        }
    }

    /// Ends the last section, and begins one at an address.
    fn begin(&mut self, alloc: Global, address: u32) -> Result<(), NoMemory>
        ensures { OnOk result ((ss : Items SectionSeen) → HasSections self.old ss → HasSections self.new (ss ++ record { addr = address; bytes = [] } ∷ [])) }
    {
        if let Some(last) = self.last.take() {
            self.ended.push(last)?;
        }
        self.last = Some(Section {
            addr: address,
            bytes: List::new(alloc),
        });
        Ok(())
    }

    /// Adds the bytes of a line to the last section. Where there is none yet, one begins at 0.
    fn grow(
        &mut self,
        alloc: Global,
        names: &Names<'_>,
        place: u128,
        statement: &Statement<'_>,
    ) -> Result<(), NoMemory>
        requires { IsPlace place }
        ensures { OnOk result ((ns : NameValues) (ss : Items SectionSeen) → Knows names.now ns → HasSections self.old ss →
            (bytes : Items ℕ) × Makes ns place (statement_seen statement.now) bytes × HasSections self.new (with_bytes bytes ss)) }
    {
        let last = self.last.take();
        self.last = grown_last(alloc, last, names, place, statement)?;
        Ok(())
    }

    /// Takes a line that begins at a place.
    pub(crate) fn take(
        &mut self,
        alloc: Global,
        names: &Names<'_>,
        place: u128,
        statement: &Statement<'_>,
    ) -> Result<(), NoMemory>
        requires { IsPlace place }
        ensures { OnOk result ((ns : NameValues) (ss : Items SectionSeen) → Knows names.now ns → HasSections self.old ss →
            (bytes : Items ℕ) × Makes ns place (statement_seen statement.now) bytes × HasSections self.new (with_statement ss (statement_seen statement.now) bytes)) }
    {
        match begins_at(statement) {
            Some(address) => self.begin(alloc, address),
            None => self.grow(alloc, names, place, statement),
        }
    }

    /// All of them.
    pub(crate) fn all(self) -> Result<List<Section>, NoMemory>
        ensures { IfOk result (λ all. (ss : Items SectionSeen) → HasSections self ss → all ≡ ss) }
    {
        let Sections { mut ended, last } = self;
        if let Some(last) = last {
            ended.push(last)?;
        }
        Ok(ended)
    }
}
