//! Operands as they are written.
ghost use Rattle.std.specs.Prelude.{◌≡◌, ◌∷◌, map};
ghost use Rattle.std.specs.Option.{option_map};
ghost use Rattle.m386_words.specs.Text.{Word, is_colon, parts_by};
ghost use Rattle.m386_words.specs.Tokens.{seen};
ghost use Rattle.m386_words.specs.Operands.{general, single, word_operand, place_with, alone, added, index_of, scale_of, scaled, behind_plus, behind_base, worded, parts_of_place, place, is_close, inside, memory, pointed, operand};
ghost use Rattle.m386_words.specs.Seen.{expression_seen, place_seen, written_seen, tokens_seen};

use crate::expression::{Expression, expression_of, term};
use crate::name::{SizeWord, is_control, size_word};
use crate::number::number;
use crate::part::{Separator, next_part};
use crate::register::{register, segment};
use crate::token::Token;
use m386_base::number::Width;

/// The parts of an address (PRM 2.5.3.2).
#[derive(Clone, Copy, Debug, PartialEq, Eq)]
pub struct Place<'a> {
    /// The segment register that stands before `:`.
    pub seg: Option<u8>,
    /// The base register.
    pub base: Option<u8>,
    /// The index register.
    pub index: Option<u8>,
    /// What the index is multiplied by, 1 where there is none.
    pub scale: u8,
    /// What is added, 0 where nothing is.
    pub offset: Expression<'a>,
}

/// An operand as it is written.
#[derive(Clone, Copy, Debug, PartialEq, Eq)]
pub enum Written<'a> {
    /// A general register of a width.
    General(Width, u8),
    /// A segment register.
    Segment(u8),
    /// CR0.
    Control,
    /// An immediate, or the target of a jump or call.
    Number(Expression<'a>),
    /// A far pointer: its selector and its offset.
    Pointer(Expression<'a>, Expression<'a>),
    /// Memory, and the word before it.
    Memory(Option<SizeWord>, Place<'a>),
}

/// The general register of a width that a word is.
fn general(width: Width, word: &[u8]) -> Option<Written<'_>>
    ensures { option_map written_seen result ≡ general width word.now }
{
    Some(Written::General(width, register(width, word)?))
}

/// The general or segment register that a word is.
fn single(word: &[u8]) -> Option<Written<'_>>
    ensures { option_map written_seen result ≡ single word.now }
{
    if let Some(written) = general(Width::W8, word) {
        return Some(written);
    }
    if let Some(written) = general(Width::W16, word) {
        return Some(written);
    }
    if let Some(written) = general(Width::W32, word) {
        return Some(written);
    }
    Some(Written::Segment(segment(word)?))
}

/// What one word is as an operand: CR0, another register, or a number or name.
fn word_operand(word: &[u8]) -> Option<Written<'_>>
    ensures { option_map written_seen result ≡ word_operand word.now }
{
    if is_control(word) {
        return Some(Written::Control);
    }
    if let Some(written) = single(word) {
        return Some(written);
    }
    Some(Written::Number(term(word)?))
}

/// An address without a segment register.
fn place_with<'a>(
    base: Option<u8>,
    index: Option<u8>,
    scale: u8,
    offset: Expression<'a>,
) -> Place<'a>
    ensures { place_seen result ≡ place_with base index scale (expression_seen offset.entry) }
{
    Place {
        seg: None,
        base,
        index,
        scale,
        offset,
    }
}

/// An address that is an expression alone.
fn alone<'a>(tokens: &[Token<'a>]) -> Option<Place<'a>>
    ensures { option_map place_seen result ≡ alone (map seen tokens.now) }
{
    Some(place_with(None, None, 1, expression_of(tokens)?))
}

/// What stands behind base and index: nothing, an expression behind `+`, or one that begins with `-`.
fn added<'a>(tokens: &[Token<'a>]) -> Option<Expression<'a>>
    ensures { option_map expression_seen result ≡ added (map seen tokens.now) }
{
    match tokens {
        [] => Some(Expression {
            name: None,
            number: 0,
        }),
        [Token::Plus, rest @ ..] => expression_of(rest),
        [Token::Minus, ..] => expression_of(tokens),
        _ => None,
    }
}

/// The number of a register that may be an index: any of 32 bits but ESP.
fn index_of(word: &[u8]) -> Option<u8>
    ensures { result ≡ index_of word.now }
{
    let number = register(Width::W32, word)?;
    if number == 4 { None } else { Some(number) }
}

/// What an index may be multiplied by.
fn scale_of(word: &[u8]) -> Option<u8>
    ensures { result ≡ scale_of word.now }
{
    match number(word)? {
        1 => Some(1),
        2 => Some(2),
        4 => Some(4),
        8 => Some(8),
        _ => None,
    }
}

/// An index, by what stands behind its `*`: the scale, and perhaps more.
fn scaled<'a>(base: Option<u8>, index: &[u8], tokens: &[Token<'a>]) -> Option<Place<'a>>
    ensures { option_map place_seen result ≡ scaled base index.now (map seen tokens.now) }
{
    let [Token::Word(scale), rest @ ..] = tokens else {
        return None;
    };
    let index = index_of(index)?;
    let scale = scale_of(scale)?;
    Some(place_with(base, Some(index), scale, added(rest)?))
}

/// What stands behind a base and `+`: an index, or an expression.
fn behind_plus<'a>(base: u8, tokens: &[Token<'a>]) -> Option<Place<'a>>
    ensures { option_map place_seen result ≡ behind_plus base (map seen tokens.now) }
{
    match tokens {
        [Token::Word(index), Token::Star, rest @ ..] => scaled(Some(base), index, rest),
        _ => Some(place_with(Some(base), None, 1, expression_of(tokens)?)),
    }
}

/// What stands behind a base.
fn behind_base<'a>(base: u8, tokens: &[Token<'a>]) -> Option<Place<'a>>
    ensures { option_map place_seen result ≡ behind_base base (map seen tokens.now) }
{
    match tokens {
        [Token::Plus, rest @ ..] => behind_plus(base, rest),
        _ => Some(place_with(Some(base), None, 1, added(tokens)?)),
    }
}

/// What begins with a word: an index, if `*` follows, a base, or an expression. `tokens` are all, and `rest` is behind the word.
fn worded<'a>(word: &[u8], rest: &[Token<'a>], tokens: &[Token<'a>]) -> Option<Place<'a>>
    requires { map seen tokens.now ≡ Word word.now ∷ map seen rest.now }
    ensures { option_map place_seen result ≡ worded word.now (map seen rest.now) }
{
    if let [Token::Star, scale @ ..] = rest {
        return scaled(None, word, scale);
    }
    match register(Width::W32, word) {
        Some(base) => behind_base(base, rest),
        None => alone(tokens),
    }
}

/// Base, index with its scale and expression, each of which may be missing.
fn parts_of_place<'a>(tokens: &[Token<'a>]) -> Option<Place<'a>>
    ensures { option_map place_seen result ≡ parts_of_place (map seen tokens.now) }
{
    match tokens {
        [] => Some(place_with(
            None,
            None,
            1,
            Expression {
                name: None,
                number: 0,
            },
        )),
        [Token::Word(word), rest @ ..] => worded(word, rest, tokens),
        _ => alone(tokens),
    }
}

/// What stands between `[` and `]`.
#[tactic(auto, unfolding(crate::specs::Operands::place))]
fn place_of<'a>(tokens: &[Token<'a>]) -> Option<Place<'a>>
    ensures { option_map place_seen result ≡ place (map seen tokens.now) }
{
    match tokens {
        [Token::Word(word), Token::Colon, rest @ ..] => {
            let seg = segment(word)?;
            let place = parts_of_place(rest)?;
            Some(Place {
                seg: Some(seg),
                ..place
            })
        }
        _ => parts_of_place(tokens),
    }
}

/// Whether a token is `]`.
fn is_close(token: &Token<'_>) -> bool
    ensures { result ≡ is_close (seen token.now) }
{
    matches!(token, Token::Close)
}

/// What stands before the last token, which is `]`.
#[tactic(auto, using(crate::proofs::Insides::insides))]
fn inside<'s, 'a>(tokens: &'s [Token<'a>]) -> Option<&'s [Token<'a>]>
    ensures { tokens_seen result ≡ inside (map seen tokens.now) }
{
    if tokens.is_empty() {
        return None;
    }
    let last = tokens.len() - 1;
    if is_close(&tokens[last]) {
        Some(&tokens[..last])
    } else {
        None
    }
}

/// What stands behind `[`, with the word before it.
fn memory<'a>(size: Option<SizeWord>, tokens: &[Token<'a>]) -> Option<Written<'a>>
    ensures { option_map written_seen result ≡ memory size (map seen tokens.now) }
{
    Some(Written::Memory(size, place_of(inside(tokens)?)?))
}

/// An expression, or two between which a colon stands.
#[tactic(auto, using(crate::proofs::Pointed::too_many))]
fn pointed<'a>(tokens: &[Token<'a>]) -> Option<Written<'a>>
    ensures { option_map written_seen result ≡ pointed (parts_by is_colon (map seen tokens.now)) }
{
    let first = next_part(Separator::Colon, tokens);
    let Some(behind) = first.rest else {
        return Some(Written::Number(expression_of(first.part)?));
    };
    let second = next_part(Separator::Colon, behind);
    if second.rest.is_some() {
        return None;
    }
    let selector = expression_of(first.part)?;
    Some(Written::Pointer(selector, expression_of(second.part)?))
}

/// An operand, of tokens without blanks: a register, an expression, a far pointer or memory.
#[tactic(auto, unfolding(crate::specs::Operands::operand))]
pub fn operand_of<'a>(tokens: &[Token<'a>]) -> Option<Written<'a>>
    ensures { option_map written_seen result ≡ operand (map seen tokens.now) }
{
    match tokens {
        [Token::Word(word)] => word_operand(word),
        [Token::Open, rest @ ..] => memory(None, rest),
        [Token::Word(word), Token::Open, rest @ ..] => {
            let size = size_word(word)?;
            memory(Some(size), rest)
        }
        _ => pointed(tokens),
    }
}
