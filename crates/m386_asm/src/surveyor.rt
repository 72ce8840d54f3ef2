//! The first walk over a text: its names, its memory and its processors.
ghost use Rattle.std.specs.Prelude.{◌≡◌, ◌++◌, ◌∷◌, [], ◌+◌, ◌-◌, ◌*◌, ◌^◌, ◌<◌, ◌≤◌, ℕ, pos, IfOk, OnOk, List as Items, length};
ghost use Rattle.std.specs.Option.{option_map, option_or};
ghost use Rattle.m386_words.specs.Seen.{expression_seen, word_seen};
ghost use Rattle.m386_words.specs.Text.{lines_of};
ghost use Rattle.m386_lines.specs.Seen.{meaning_seen, statement_seen};
ghost use Rattle.m386_asm.specs.Bounds.{IsPlace};
ghost use Rattle.m386_asm.specs.Knows.{Knows, found};
ghost use Rattle.m386_asm.specs.Layout.{AreLaid, IsLaid, Laid, Names as NameValues, assigned, cpus_set, labelled, memory_set};
ghost use Rattle.m386_asm.specs.Surveys.{IsSurveyOf, IsSurveying, found_first, given_by, known_value, seen_at};

use crate::bytes::{line_len, moved};
use crate::named::Named;
use crate::survey::Survey;
use crate::surveying::Surveying;
use crate::value::Names;
use m386_base::fault::NoMemory;
use m386_lines::directive::Directive;
use m386_lines::line::{Meaning, Statement, judge_line};
use m386_words::expression::Expression;
use m386_words::text::next_line;
use std::alloc::Global;

/// A place as a name's value.
#[tactic(auto, using(std::proofs::lemmas::Int::to_z_pos))]
fn value_of(place: u128) -> i128
    requires { IsPlace place }
    ensures { result ≡ pos place }
{
    place as i128
}

/// Gives the name before a line's `:`, if there is one, to the line's place.
fn name_place<'a>(
    names: &mut Names<'a>,
    place: u128,
    line: u64,
    label: Option<&'a [u8]>,
) -> Result<(), NoMemory>
    requires { IsPlace place }
    ensures { OnOk result ((w : Items ℕ) → seen_at (found names.new w) ≡ option_or (seen_at (found names.old w)) (found_first (labelled place (word_seen label.entry)) line w)) }
{
    match label {
        Some(word) => {
            let value = value_of(place);
            names.define(word, Named { value, line })
        }
        None => Ok(()),
    }
}

/// Gives the name of `name = number`, if a line is one, to the number.
fn name_number<'a>(
    names: &mut Names<'a>,
    line: u64,
    statement: &Statement<'a>,
) -> Result<(), NoMemory>
    ensures { OnOk result ((w : Items ℕ) → seen_at (found names.new w) ≡ option_or (seen_at (found names.old w)) (found_first (assigned (statement_seen statement.now)) line w)) }
{
    match statement {
        Statement::Assign(word, number) => {
            let value = i128::from(*number);
            names.define(*word, Named { value, line })
        }
        Statement::Nothing => Ok(()),
        Statement::Direct(_) => Ok(()),
        Statement::Operate(_) => Ok(()),
    }
}

/// The memory size that a line sets.
fn memory_in<'a>(statement: &Statement<'a>) -> Option<Expression<'a>>
    ensures { option_map expression_seen result ≡ given_by memory_set (statement_seen statement.now) }
{
    match statement {
        Statement::Direct(Directive::SetsMemory(size)) => Some(*size),
        _ => None,
    }
}

/// The number of processors that a line sets.
fn cpus_in<'a>(statement: &Statement<'a>) -> Option<Expression<'a>>
    ensures { option_map expression_seen result ≡ given_by cpus_set (statement_seen statement.now) }
{
    match statement {
        Statement::Direct(Directive::SetsCpus(count)) => Some(*count),
        _ => None,
    }
}

/// Takes a line that means something. The values of names aren't known yet, so its length is that by no names.
fn take<'a>(
    walk: &mut Surveying<'a>,
    none: &Names<'_>,
    meaning: &Meaning<'a>,
) -> Result<(), NoMemory>
    requires few { walk.now.lines < 2 ^ 32 }
    requires near { walk.now.place ≤ walk.now.lines * 2 ^ 70 }
    ensures lines { OnOk result (walk.new.lines ≡ walk.old.lines + 1) }
    ensures near { OnOk result (walk.new.place ≤ walk.new.lines * 2 ^ 70) }
    ensures behind { OnOk result ((ns : NameValues) (before : Items Laid) (l : Laid) → meaning_seen meaning.now ≡ l.meaning → IsLaid ns before l → IsSurveying before walk.old → IsSurveying (before ++ l ∷ []) walk.new) }
{
    let statement = &meaning.statement;
    let line = walk.lines + 1;
    name_place(&mut walk.names, walk.place, line, meaning.label)?;
    name_number(&mut walk.names, line, statement)?;
    walk.memory = walk.memory.or(memory_in(statement));
    walk.cpus = walk.cpus.or(cpus_in(statement));
    let len = line_len(none, walk.place, statement);
    walk.place = moved(walk.place, len, statement);
    walk.lines = line;
    Ok(())
}

/// Goes over a line. One that is faulty by itself says nothing.
fn go_over<'a>(
    alloc: Global,
    walk: &mut Surveying<'a>,
    none: &Names<'_>,
    line: &'a [u8],
) -> Result<(), NoMemory>
    requires few { walk.now.lines < 2 ^ 32 - 1 }
    requires near { walk.now.place ≤ walk.now.lines * 2 ^ 70 }
    ensures lines { OnOk result (walk.new.lines ≡ walk.old.lines + 1) }
    ensures few { OnOk result (walk.new.lines < 2 ^ 32 - 1) }
    ensures near { OnOk result (walk.new.place ≤ walk.new.lines * 2 ^ 70) }
    ensures behind { OnOk result ((ns : NameValues) (before : Items Laid) (l : Laid) → l.text ≡ line.now → IsLaid ns before l → IsSurveying before walk.old → IsSurveying (before ++ l ∷ []) walk.new) }
{
    // So the number of the line behind the last has four bytes.
    if walk.lines == 0xffff_fffe {
        return Err(NoMemory);
    }
    match judge_line(alloc, line)? {
        Ok(meaning) => take(walk, none, &meaning),
        Err(_) => {
            walk.lines += 1;
            Ok(())
        }
    }
}

/// Goes over the lines of a text.
fn walk_over<'a>(alloc: Global, text: &'a [u8]) -> Result<Surveying<'a>, NoMemory>
    ensures few { IfOk result (λ walk. length (lines_of text.now) < 2 ^ 32 - 1) }
    ensures walk { IfOk result (λ walk. (ls : Items Laid) → AreLaid text.now ls → IsSurveying ls walk) }
{
    let none = Names::new(alloc);
    let mut walk = Surveying {
        lines: 0,
        place: 0,
        names: Names::new(alloc),
        memory: None,
        cpus: None,
    };
    let mut rest = text;
    while let Some(split) = next_line(rest) {
        go_over(alloc, &mut walk, &none, split.line)?;
        rest = split.rest;
    }
    Ok(walk)
}

/// An expression's value, if there is one and its names are known.
fn known(names: &Names<'_>, expression: Option<Expression<'_>>) -> Option<i128>
    ensures { (ns : NameValues) → Knows names.now ns → result ≡ known_value ns (option_map expression_seen expression.entry) }
{
    let expression = expression?;
    if names.lacks(&expression) {
        return None;
    }
    Some(names.value(&expression))
}

/// What the lines of a text say together. A text of 2^32 - 1 lines or more is answered as if there was no memory for it.
pub(crate) fn survey_of<'a>(alloc: Global, text: &'a [u8]) -> Result<Survey<'a>, NoMemory>
    ensures survey { IfOk result (λ s. (ls : Items Laid) → AreLaid text.now ls → IsSurveyOf ls s) }
    ensures few { IfOk result (λ s. length (lines_of text.now) < 2 ^ 32 - 1) }
{
    let walk = walk_over(alloc, text)?;
    let memory = known(&walk.names, walk.memory);
    let cpus = known(&walk.names, walk.cpus);
    Ok(Survey {
        names: walk.names,
        memory,
        cpus,
    })
}
