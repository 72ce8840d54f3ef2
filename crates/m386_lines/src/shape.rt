//! What the first words of a line say that it is.
ghost use Rattle.std.specs.Prelude.{◌≡◌, if◌then◌else◌, map};
ghost use Rattle.m386_words.specs.Mnemonics.{is_mnemonic};
ghost use Rattle.m386_words.specs.Seen.{word_seen};
ghost use Rattle.m386_words.specs.Tokens.{seen};
ghost use Rattle.m386_words.specs.Words.{begins_with_dot};
ghost use Rattle.m386_lines.specs.Lines.{Operates, Other, assigned, behind_label, instruction_shape, label_of, prefix_word, shape_of, statement_shape, word_in};
ghost use Rattle.m386_lines.specs.Seen.{assigned_seen, shape_seen};

use crate::instruction::Prefixing;
use m386_opmap::op::Rep;
use m386_words::mnemonic::is_mnemonic;
use m386_words::name::is_name;
use m386_words::token::Token;

/// The shape of a line, of tokens without blanks.
#[derive(Clone, Copy)]
pub enum Shape<'s, 'a> {
    /// Nothing, but perhaps a name.
    Empty,
    /// A name and `=`, and what stands behind.
    Assigns(&'a [u8], &'s [Token<'a>]),
    /// A word that begins with a dot.
    Directs(&'a [u8]),
    /// A mnemonic, with the words before it and what stands behind.
    Operates(Prefixing, &'a [u8], &'s [Token<'a>]),
    /// Anything else.
    Other,
}

/// Whether a word begins with a dot.
pub(crate) fn begins_with_dot(word: &[u8]) -> bool
    ensures { result ≡ begins_with_dot word.now }
{
    match word {
        [first, ..] => *first == b'.',
        [] => false,
    }
}

/// What a word says before a mnemonic, if it is one of those that may stand there.
fn prefix_word(prefixing: Prefixing, word: &[u8]) -> Option<Prefixing>
    ensures { result ≡ prefix_word prefixing word.now }
{
    if word == b"lock".as_slice() {
        return Some(Prefixing {
            lock: true,
            rep: prefixing.rep,
        });
    }
    if word == b"rep".as_slice() || word == b"repz".as_slice() {
        return Some(Prefixing {
            lock: prefixing.lock,
            rep: Rep::Equal,
        });
    }
    if word == b"repnz".as_slice() {
        return Some(Prefixing {
            lock: prefixing.lock,
            rep: Rep::NotEqual,
        });
    }
    None
}

/// The word that a token is.
fn word_in<'a>(token: &Token<'a>) -> Option<&'a [u8]>
    ensures { word_seen result ≡ word_in (seen token.now) }
{
    match token {
        Token::Word(word) => Some(word),
        _ => None,
    }
}

/// The shape of a line with this word in a mnemonic's place.
fn operates<'s, 'a>(prefixing: Prefixing, word: &'a [u8], rest: &'s [Token<'a>]) -> Shape<'s, 'a>
    ensures { shape_seen result ≡ (if is_mnemonic word.now then Operates prefixing word.now (map seen rest.now) else Other) }
{
    if is_mnemonic(word) {
        Shape::Operates(prefixing, word, rest)
    } else {
        Shape::Other
    }
}

/// The shape of an instruction.
#[tactic(auto, using(crate::proofs::Shaped::shaped))]
fn instruction_shape<'s, 'a>(prefixing: Prefixing, tokens: &'s [Token<'a>]) -> Shape<'s, 'a>
    ensures { shape_seen result ≡ instruction_shape prefixing (map seen tokens.now) }
{
    let mut prefixing = prefixing;
    for (index, token) in tokens.iter().enumerate() {
        let Some(word) = word_in(token) else {
            return Shape::Other;
        };
        let Some(more) = prefix_word(prefixing, word) else {
            let (_, rest) = tokens.split_at(index + 1);
            return operates(prefixing, word, rest);
        };
        prefixing = more;
    }
    Shape::Other
}

/// The shape of what stands behind a line's name.
fn statement_shape<'s, 'a>(tokens: &'s [Token<'a>]) -> Shape<'s, 'a>
    ensures { shape_seen result ≡ statement_shape (map seen tokens.now) }
{
    let [first, ..] = tokens else {
        return Shape::Empty;
    };
    let Token::Word(word) = first else {
        return Shape::Other;
    };
    if begins_with_dot(word) {
        return Shape::Directs(word);
    }
    instruction_shape(
        Prefixing {
            lock: false,
            rep: Rep::Once,
        },
        tokens,
    )
}

/// The name before `:` at the front of a line.
pub fn label_of<'a>(tokens: &[Token<'a>]) -> Option<&'a [u8]>
    ensures { word_seen result ≡ label_of (map seen tokens.now) }
{
    match tokens {
        [Token::Word(word), Token::Colon, ..] if is_name(word) => Some(word),
        _ => None,
    }
}

/// What stands behind a name and `:`.
fn behind_label<'s, 'a>(tokens: &'s [Token<'a>]) -> &'s [Token<'a>]
    ensures { map seen result.now ≡ behind_label (map seen tokens.now) }
{
    match tokens {
        [Token::Word(word), Token::Colon, rest @ ..] if is_name(word) => rest,
        _ => tokens,
    }
}

/// The name before `=` at the front of a line, and what stands behind it.
fn assigned<'s, 'a>(tokens: &'s [Token<'a>]) -> Option<(&'a [u8], &'s [Token<'a>])>
    ensures { assigned_seen result ≡ assigned (map seen tokens.now) }
{
    match tokens {
        [Token::Word(word), Token::Equals, rest @ ..] if is_name(word) => Some((*word, rest)),
        _ => None,
    }
}

/// The shape of a line, of tokens without blanks.
#[tactic(auto, unfolding(crate::specs::Lines::shape_of))]
pub fn shape_of<'s, 'a>(tokens: &'s [Token<'a>]) -> Shape<'s, 'a>
    ensures { shape_seen result ≡ shape_of (map seen tokens.now) }
{
    match assigned(tokens) {
        Some((name, rest)) => Shape::Assigns(name, rest),
        None => statement_shape(behind_label(tokens)),
    }
}
