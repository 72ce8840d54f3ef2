//! The second walk over a text: the first faulty line, or the image.
ghost use Rattle.std.specs.Prelude.{◌≡◌, [], ◌-◌, ◌<◌, ◌^◌, List as Items, IfOk, OnOk, Ok, Err, length, true, false, ℕ, Result as Answer};
ghost use Rattle.std.specs.List.{AllByRecursion};
ghost use Rattle.m386_image.specs.Format.{HasImageText, HasText, image_text};
ghost use Rattle.m386_words.specs.Text.{lines_of};
ghost use Rattle.m386_lines.specs.declared.kind.AsmKind.{AsmKind as Kind};
ghost use Rattle.m386_asm.specs.declared.stop.AsmStop.TheVariants.{Bad};
ghost use Rattle.m386_asm.specs.Answered.{IsAnswer};
ghost use Rattle.m386_asm.specs.Layout.{AreLaid, EachLine, IsFaultless, IsFirstFault, Laid, Layout, image_of, lacks_header, number_in};
ghost use Rattle.m386_asm.specs.Surveys.{IsSurveyOf};
ghost use Rattle.m386_asm.specs.Turns.{IsWalk, has_memory_size};

use crate::drafted::Draft;
use crate::judge::{bad, go_over};
use crate::limits::is_memory_size;
use crate::noted::Noted;
use crate::stop::AsmStop;
use crate::survey::Survey;
use crate::surveyor::survey_of;
use crate::value::wrapped;
use crate::walk::Walk;
use m386_image::image::{Image, Section};
use m386_image::writing::text_of;
use m386_lines::kind::AsmKind;
use m386_words::text::next_line;
use std::alloc::Global;
use std::collections::BTreeSet;

/// Whether the memory has a valid size, as far as it is known.
fn has_memory_size(memory: Option<i128>) -> bool
    ensures { result ≡ has_memory_size memory }
{
    match memory {
        Some(size) => is_memory_size(size),
        None => false,
    }
}

/// The low 32 bits of a value, or 0 where it isn't known.
fn number_in(value: Option<i128>) -> u32
    ensures { result ≡ number_in value }
{
    match value {
        Some(value) => wrapped(32, value),
        None => 0,
    }
}

/// The walk before any line.
fn begin(alloc: Global, survey: &Survey<'_>) -> Walk
    ensures none { result.lines ≡ 0 }
    ensures start { result.place ≡ 0 }
    ensures walk { (ls : Items Laid) → IsSurveyOf ls survey.now → IsWalk ls [] result }
{
    Walk {
        lines: 0,
        place: 0,
        noted: Noted {
            headers: BTreeSet::new(alloc),
            planned: None,
        },
        draft: Draft::new(alloc),
        makes: has_memory_size(survey.memory),
    }
}

/// Walks over the lines of a text, to the first faulty one.
fn walk_over(alloc: Global, survey: &Survey<'_>, text: &[u8]) -> Result<Walk, AsmStop>
    requires few { length (lines_of text.now) < 2 ^ 32 - 1 }
    ensures lines { IfOk result (λ walk. walk.lines ≡ length (lines_of text.now)) }
    ensures good { IfOk result (λ walk. (ls : Items Laid) → AreLaid text.now ls → IsSurveyOf ls survey.now → EachLine (IsFaultless ls) [] ls × IsWalk ls ls walk) }
    ensures bad { (number : ℕ) (kind : Kind) → result ≡ Err (Bad number kind) → (ls : Items Laid) → AreLaid text.now ls → IsSurveyOf ls survey.now → IsFirstFault ls number kind }
{
    let mut walk = begin(alloc, survey);
    let mut rest = text;
    while let Some(split) = next_line(rest) {
        go_over(alloc, survey, &mut walk, split.line)?;
        rest = split.rest;
    }
    Ok(walk)
}

/// Whether a section ends where a file can say it.
fn is_short(section: &Section) -> bool
    ensures { result ≡ true → HasText section.now }
{
    u128::from(section.addr) + section.bytes.as_slice().len() as u128 <= u128::from(u32::MAX)
}

/// Whether each section does.
fn are_short(sections: &[Section]) -> bool
    ensures { result ≡ true → AllByRecursion HasText sections.now }
{
    for section in sections {
        if !is_short(section) {
            return false;
        }
    }
    true
}

/// Whether an image is small enough for a file, as it is where no line is faulty.
fn has_text(image: &Image) -> bool
    ensures { result ≡ true → HasImageText image.now }
{
    image.plan.as_slice().len() <= u32::MAX as usize
        && image.sections.as_slice().len() <= u32::MAX as usize
        && are_short(image.sections.as_slice())
}

/// The bytes of the image behind the last line, unless a header is missing.
fn finish(alloc: Global, survey: &Survey<'_>, walk: Walk) -> Result<Vec<u8>, AsmStop>
    requires few { walk.lines < 2 ^ 32 - 1 }
    ensures good { IfOk result (λ bytes. (ls : Items Laid) → IsSurveyOf ls survey.now → EachLine (IsFaultless ls) [] ls → IsWalk ls ls walk → (lacks_header ls ≡ false) × (bytes.items ≡ image_text (image_of ls))) }
    ensures bad { (number : ℕ) (kind : Kind) → result ≡ Err (Bad number kind) → (ls : Items Laid) → IsSurveyOf ls survey.now → EachLine (IsFaultless ls) [] ls → IsWalk ls ls walk → IsFirstFault ls number kind }
{
    if survey.memory.is_none() || survey.cpus.is_none() {
        return Err(bad(walk.lines, AsmKind::HeaderMissing));
    }
    let image = walk.draft.image(
        number_in(survey.memory),
        (number_in(survey.cpus) % 256) as u8,
    )?;
    if !has_text(&image) {
        return Err(AsmStop::Memory);
    }
    Ok(text_of(alloc, &image)?)
}

/// The bytes of the image that a text lays out, or the number and the kind of its first faulty line.
///
/// A line is faulty where it has a kind of [`AsmKind`], and the least of its kinds is told. Nothing is assembled in part. The
/// answer is [`AsmStop::Memory`] where there is no memory for what is kept, and for a text of 2^32 - 1 lines or more.
pub fn assemble(alloc: Global, text: &[u8]) -> Result<Vec<u8>, AsmStop>
    ensures ok { IfOk result (λ bytes. Layout text.now (Ok bytes.items)) }
    ensures bad { (line : ℕ) (kind : Kind) → result ≡ Err (Bad line kind) → Layout text.now (Err (line, kind)) }
    ensures only { (layout : Answer (Items ℕ) (ℕ × Kind)) → Layout text.now layout → IsAnswer result layout }
{
    let survey = survey_of(alloc, text)?;
    let walk = walk_over(alloc, &survey, text)?;
    finish(alloc, &survey, walk)
}
