//! What a line means, and what is wrong with it by itself.
ghost use Rattle.std.specs.Prelude.{◌≡◌, IfOk, map};
ghost use Rattle.std.specs.List.{list_any};
ghost use Rattle.std.specs.Option.{option_map};
ghost use Rattle.m386_words.specs.Text.{solid};
ghost use Rattle.m386_words.specs.Tokens.{seen};
ghost use Rattle.m386_lines.specs.Faults.{has_numbers, has_strange_byte, is_strange, is_strange_byte, is_wrong_number, judged_line};
ghost use Rattle.m386_lines.specs.Judged.{judged_shape, judged_tokens, judgement_seen};
ghost use Rattle.m386_lines.specs.Lines.{Directs, behind_dot, is_dotted, operation_of};
ghost use Rattle.m386_lines.specs.Seen.{instruction_seen, judged_seen, shape_seen};

use crate::arguments::{directive_of, form_of};
use crate::directive::Directive;
use crate::instruction::{Instruction, Prefixing};
use crate::kind::AsmKind;
use crate::matching::instruction_of;
use crate::parts::{listed_of, operands_of};
use crate::shape::{Shape, begins_with_dot, label_of, shape_of};
use m386_base::fault::NoMemory;
use m386_base::list::List;
use m386_words::expression::signed;
use m386_words::number::number;
use m386_words::part::solid_of;
use m386_words::token::{Token, words_of};
use std::alloc::Global;

/// What a line says.
#[derive(Drop)]
pub enum Statement<'a> {
    /// Nothing, or only a name.
    Nothing,
    /// `name = number`.
    Assign(&'a [u8], i64),
    /// A directive.
    Direct(Directive<'a>),
    /// An instruction.
    Operate(Instruction<'a>),
}

/// What a line means.
#[derive(Drop)]
pub struct Meaning<'a> {
    /// The name before `:`.
    pub label: Option<&'a [u8]>,
    /// What stands behind it.
    pub statement: Statement<'a>,
}

/// What a line says behind its name, or the least of the kinds of faults that it has by itself.
pub type Judged<'a> = Result<Statement<'a>, AsmKind>;

/// Whether a byte is neither a tab nor a printable character.
fn is_strange_byte(byte: u8) -> bool
    ensures { result ≡ is_strange_byte byte }
{
    !(byte == b'\t' || (32..=126).contains(&byte))
}

/// Whether a line has a byte that is neither a tab nor a printable character.
fn has_strange_byte(line: &[u8]) -> bool
    ensures { result ≡ has_strange_byte line.now }
{
    line.iter().any(|&byte| is_strange_byte(byte))
}

/// Whether a token is a byte that is in no word, and no mark or blank.
fn is_strange(token: &Token<'_>) -> bool
    ensures { result ≡ is_strange (seen token.now) }
{
    matches!(token, Token::Strange)
}

/// Whether a token is a word that begins with a digit and is no number.
fn is_wrong_number(token: &Token<'_>) -> bool
    ensures { result ≡ is_wrong_number (seen token.now) }
{
    match token {
        Token::Word(word) => match word {
            [first, ..] => first.is_ascii_digit() && number(word).is_none(),
            [] => false,
        },
        _ => false,
    }
}

/// Whether words that begin with a digit have to be numbers: the digits of `.hex` are none.
fn has_numbers(shape: &Shape<'_, '_>) -> bool
    ensures { result ≡ has_numbers (shape_seen shape.now) }
{
    match shape {
        Shape::Directs(word) => *word != b".hex".as_slice(),
        _ => true,
    }
}

/// Whether a token is a word that begins with a dot.
fn is_dotted(token: &Token<'_>) -> bool
    ensures { result ≡ is_dotted (seen token.now) }
{
    match token {
        Token::Word(word) => begins_with_dot(word),
        _ => false,
    }
}

/// What stands behind the first word that begins with a dot.
#[tactic(auto, using(crate::proofs::Judged::dots))]
fn behind_dot<'s, 'a>(tokens: &'s [Token<'a>]) -> &'s [Token<'a>]
    ensures { map seen result.now ≡ behind_dot (map seen tokens.now) }
{
    for (index, token) in tokens.iter().enumerate() {
        if is_dotted(token) {
            let (_, rest) = tokens.split_at(index + 1);
            return rest;
        }
    }
    let (_, rest) = tokens.split_at(tokens.len());
    rest
}

/// The directive of a word, or what is wrong with it.
#[tactic(auto, unfolding(crate::specs::Judged::judged_shape, crate::specs::Faults::first_of))]
fn judge_directive<'a>(
    alloc: Global,
    word: &[u8],
    tokens: &[Token<'a>],
) -> Result<Judged<'a>, NoMemory>
    ensures { IfOk result (λ j. judgement_seen j ≡ judged_shape (map seen tokens.now) (Directs word.now)) }
{
    let Some(form) = form_of(word) else {
        return Ok(Err(AsmKind::Directive));
    };
    match directive_of(alloc, form, behind_dot(tokens))? {
        Some(directive) => Ok(Ok(Statement::Direct(directive))),
        None => Ok(Err(AsmKind::Arguments)),
    }
}

/// The instruction of a mnemonic, and the operands behind it between commas.
fn operation_of<'a>(
    alloc: Global,
    prefixing: Prefixing,
    word: &[u8],
    tokens: &[Token<'a>],
) -> Result<Option<Instruction<'a>>, NoMemory>
    ensures { IfOk result (λ i. option_map instruction_seen i ≡ operation_of prefixing word.now (map seen tokens.now)) }
{
    let parts = listed_of(alloc, tokens)?;
    match operands_of(alloc, parts.as_slice())? {
        Some(operands) => Ok(instruction_of(prefixing, word, operands.as_slice())),
        None => Ok(None),
    }
}

/// What a line of some shape means, or what is wrong with it.
#[tactic(auto, unfolding(crate::specs::Judged::judged_shape, crate::specs::Faults::first_of))]
fn judge_shape<'a>(
    alloc: Global,
    shape: &Shape<'_, 'a>,
    tokens: &[Token<'a>],
) -> Result<Judged<'a>, NoMemory>
    ensures { IfOk result (λ j. judgement_seen j ≡ judged_shape (map seen tokens.now) (shape_seen shape.now)) }
{
    match *shape {
        Shape::Empty => Ok(Ok(Statement::Nothing)),
        Shape::Other => Ok(Err(AsmKind::Mnemonic)),
        Shape::Assigns(name, rest) => match signed(rest) {
            Some(number) => Ok(Ok(Statement::Assign(name, number))),
            None => Ok(Err(AsmKind::Arguments)),
        },
        Shape::Directs(word) => judge_directive(alloc, word, tokens),
        Shape::Operates(prefixing, word, rest) => {
            match operation_of(alloc, prefixing, word, rest)? {
                Some(instruction) => Ok(Ok(Statement::Operate(instruction))),
                None => Ok(Err(AsmKind::Operands)),
            }
        }
    }
}

/// Whether one of these tokens is a byte that is in no word, and no mark or blank.
fn has_strange_token(tokens: &[Token<'_>]) -> bool
    ensures { result ≡ list_any (λ t. is_strange (seen t)) tokens.now }
{
    tokens.iter().any(is_strange)
}

/// Whether one of these tokens is a word that begins with a digit and is no number.
fn has_wrong_number(tokens: &[Token<'_>]) -> bool
    ensures { result ≡ list_any (λ t. is_wrong_number (seen t)) tokens.now }
{
    tokens.iter().any(is_wrong_number)
}

/// What a line means, by its tokens with blanks and without them, or what is wrong with it.
#[tactic(auto, using(crate::proofs::Judged::token_rules))]
fn judge_tokens<'a>(
    alloc: Global,
    tokens: &[Token<'a>],
    without_blanks: &[Token<'a>],
) -> Result<Judged<'a>, NoMemory>
    requires { map seen without_blanks.now ≡ solid (map seen tokens.now) }
    ensures { IfOk result (λ j. judgement_seen j ≡ judged_tokens (map seen tokens.now)) }
{
    if has_strange_token(tokens) {
        return Ok(Err(AsmKind::Token));
    }
    let shape = shape_of(without_blanks);
    if has_numbers(&shape) && has_wrong_number(tokens) {
        return Ok(Err(AsmKind::Number));
    }
    judge_shape(alloc, &shape, tokens)
}

/// What a line means, or the least of the kinds of faults that it has by itself.
#[tactic(auto, using(crate::proofs::Judged::line_rules))]
pub fn judge_line<'a>(
    alloc: Global,
    line: &'a [u8],
) -> Result<Result<Meaning<'a>, AsmKind>, NoMemory>
    ensures { IfOk result (λ j. judged_seen j ≡ judged_line line.now) }
{
    if has_strange_byte(line) {
        return Ok(Err(AsmKind::Ascii));
    }
    let tokens: List<Token<'a>> = words_of(alloc, line)?;
    let without_blanks = solid_of(alloc, tokens.as_slice())?;
    match judge_tokens(alloc, tokens.as_slice(), without_blanks.as_slice())? {
        Ok(statement) => Ok(Ok(Meaning {
            label: label_of(without_blanks.as_slice()),
            statement,
        })),
        Err(kind) => Ok(Err(kind)),
    }
}
