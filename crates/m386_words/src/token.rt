//! What a line consists of: words, marks and blanks.
ghost use Rattle.std.specs.Prelude.{◌≡◌, ◌∷◌, [], ◌<◌, ◌≤◌, length, map, IfSome, IfNone, IfOk};
ghost use Rattle.m386_words.specs.Text.{tokens_of, is_word_byte, mark_of};
ghost use Rattle.m386_words.specs.Tokens.{seen, IsRun};

use m386_base::fault::NoMemory;
use m386_base::list::List;
use std::alloc::Global;

/// What stands in a line before its comment.
#[derive(Clone, Copy, Debug, PartialEq, Eq)]
pub enum Token<'a> {
    /// A longest run of letters, digits, `_` and `.`.
    Word(&'a [u8]),
    /// `,`
    Comma,
    /// `:`
    Colon,
    /// `[`
    Open,
    /// `]`
    Close,
    /// `+`
    Plus,
    /// `-`
    Minus,
    /// `*`
    Star,
    /// `=`
    Equals,
    /// A space or a tab.
    Blank,
    /// A byte that is none of these.
    Strange,
}

/// The first token of a line, and what follows it.
#[derive(Clone, Copy)]
pub struct Step<'a> {
    /// The token.
    pub token: Token<'a>,
    /// The bytes behind it.
    pub rest: &'a [u8],
}

/// Whether a byte stands in words.
fn is_word_byte(byte: u8) -> bool
    ensures { result ≡ is_word_byte byte }
{
    matches!(byte, b'A'..=b'Z' | b'a'..=b'z' | b'0'..=b'9' | b'_' | b'.')
}

/// What a byte outside words is.
fn mark(byte: u8) -> Token<'static>
    ensures { seen result ≡ mark_of byte }
{
    match byte {
        b',' => Token::Comma,
        b':' => Token::Colon,
        b'[' => Token::Open,
        b']' => Token::Close,
        b'+' => Token::Plus,
        b'-' => Token::Minus,
        b'*' => Token::Star,
        b'=' => Token::Equals,
        b' ' | b'\t' => Token::Blank,
        _ => Token::Strange,
    }
}

/// How many bytes at the front stand in words.
#[tactic(auto, using(crate::proofs::Tokens::runs))]
fn word_len(line: &[u8]) -> usize
    ensures { IsRun line.now result }
{
    for (index, &byte) in line.iter().enumerate() {
        if !is_word_byte(byte) {
            return index;
        }
    }
    line.len()
}

/// The first token, or None where the line is empty or a comment begins.
#[tactic(auto, using(crate::proofs::Tokens::token_rules))]
pub fn next_token(line: &[u8]) -> Option<Step<'_>>
    ensures some { IfSome result (λ s. tokens_of line.now ≡ seen s.token ∷ tokens_of s.rest.now) }
    ensures less { IfSome result (λ s. length s.rest.now < length line.now) }
    ensures none { IfNone result (tokens_of line.now ≡ []) }
{
    let [first, behind @ ..] = line else {
        return None;
    };
    if *first == b';' {
        return None;
    }
    if !is_word_byte(*first) {
        return Some(Step {
            token: mark(*first),
            rest: behind,
        });
    }
    let (word, rest) = line.split_at(word_len(line));
    Some(Step {
        token: Token::Word(word),
        rest,
    })
}

/// The tokens of a line, up to its comment.
#[tactic(auto, using(crate::proofs::Tokens::words_rules))]
pub fn words_of<'a>(alloc: Global, line: &'a [u8]) -> Result<List<Token<'a>>, NoMemory>
    ensures { IfOk result (λ words. map seen words ≡ tokens_of line.now) }
{
    let mut words = List::new(alloc);
    let mut rest = line;
    while let Some(step) = next_token(rest) {
        words.push(step.token)?;
        rest = step.rest;
    }
    Ok(words)
}
