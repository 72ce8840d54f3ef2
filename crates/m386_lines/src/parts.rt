//! The parts of a line: arguments between blanks, values and operands between commas.
ghost use Rattle.std.specs.Prelude.{◌≡◌, IfOk, map};
ghost use Rattle.std.specs.Option.{option_map};
ghost use Rattle.m386_words.specs.Expressions.{expression};
ghost use Rattle.m386_words.specs.Operands.{operand};
ghost use Rattle.m386_words.specs.Options.{all_some};
ghost use Rattle.m386_words.specs.Seen.{expression_seen, written_seen};
ghost use Rattle.m386_words.specs.Text.{is_comma, listed, parts_by, spaced};
ghost use Rattle.m386_words.specs.Tokens.{seen};
ghost use Rattle.m386_lines.specs.Seen.{part_seen};

use m386_base::fault::NoMemory;
use m386_base::list::List;
use m386_words::expression::{Expression, expression_of};
use m386_words::operand::{Written, operand_of};
use m386_words::part::{Separator, next_part};
use m386_words::token::Token;
use std::alloc::Global;

/// The parts between commas: one more than there are commas.
#[tactic(auto, using(crate::proofs::Listed::parts))]
fn parts_of<'s, 'a>(
    alloc: Global,
    tokens: &'s [Token<'a>],
) -> Result<List<&'s [Token<'a>]>, NoMemory>
    ensures { IfOk result (λ parts. map part_seen parts ≡ parts_by is_comma (map seen tokens.now)) }
{
    let mut parts = List::new(alloc);
    let mut left = Some(tokens);
    while let Some(now) = left {
        let found = next_part(Separator::Comma, now);
        parts.push(found.part)?;
        left = found.rest;
    }
    Ok(parts)
}

/// The parts between commas: none where there are no tokens. The tokens have no blanks.
pub fn listed_of<'s, 'a>(
    alloc: Global,
    tokens: &'s [Token<'a>],
) -> Result<List<&'s [Token<'a>]>, NoMemory>
    ensures { IfOk result (λ parts. map part_seen parts ≡ listed (map seen tokens.now)) }
{
    if tokens.is_empty() {
        return Ok(List::new(alloc));
    }
    parts_of(alloc, tokens)
}

/// The arguments between blanks.
#[tactic(auto, using(crate::proofs::Listed::arguments))]
pub fn arguments_of<'s, 'a>(
    alloc: Global,
    tokens: &'s [Token<'a>],
) -> Result<List<&'s [Token<'a>]>, NoMemory>
    ensures { IfOk result (λ parts. map part_seen parts ≡ spaced (map seen tokens.now)) }
{
    let mut arguments = List::new(alloc);
    let mut left = Some(tokens);
    while let Some(now) = left {
        let found = next_part(Separator::Blank, now);
        left = found.rest;
        if found.part.is_empty() {
            continue;
        }
        arguments.push(found.part)?;
    }
    Ok(arguments)
}

/// The expressions that these parts are, or None where one isn't.
#[tactic(auto, using(crate::proofs::Each::each))]
pub fn expressions_of<'a>(
    alloc: Global,
    parts: &[&[Token<'a>]],
) -> Result<Option<List<Expression<'a>>>, NoMemory>
    ensures { IfOk result (λ es. option_map (map expression_seen) es ≡ all_some (map expression (map part_seen parts.now))) }
{
    let mut expressions = List::new(alloc);
    for part in parts {
        match expression_of(part) {
            Some(expression) => expressions.push(expression)?,
            None => return Ok(None),
        }
    }
    Ok(Some(expressions))
}

/// The operands that these parts are, or None where one isn't.
#[tactic(auto, using(crate::proofs::Each::each))]
pub fn operands_of<'a>(
    alloc: Global,
    parts: &[&[Token<'a>]],
) -> Result<Option<List<Written<'a>>>, NoMemory>
    ensures { IfOk result (λ os. option_map (map written_seen) os ≡ all_some (map operand (map part_seen parts.now))) }
{
    let mut operands = List::new(alloc);
    for part in parts {
        match operand_of(part) {
            Some(operand) => operands.push(operand)?,
            None => return Ok(None),
        }
    }
    Ok(Some(operands))
}
