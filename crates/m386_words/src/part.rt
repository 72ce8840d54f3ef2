//! Lists of tokens: without blanks, and their parts between tokens of one kind.
ghost use Rattle.std.specs.Prelude.{◌≡◌, ◌∷◌, [], ◌<◌, length, map, IfSome, IfNone, IfOk};
ghost use Rattle.m386_words.specs.Text.{is_blank, solid, parts_by, spaced};
ghost use Rattle.m386_words.specs.Tokens.{seen};
ghost use Rattle.m386_words.specs.Seen.{separates, rest_parts};

use crate::token::Token;
use m386_base::fault::NoMemory;
use m386_base::list::List;
use std::alloc::Global;

/// What stands between parts.
#[derive(Clone, Copy, Debug, PartialEq, Eq)]
pub enum Separator {
    /// `,`
    Comma,
    /// `:`
    Colon,
    /// A space or a tab.
    Blank,
}

/// A part of a list of tokens, and what follows the separator behind it.
#[derive(Clone, Copy)]
pub struct Part<'s, 'a> {
    /// The tokens of the part.
    pub part: &'s [Token<'a>],
    /// The tokens behind the separator, if there is one.
    pub rest: Option<&'s [Token<'a>]>,
}

/// Whether a token is a separator.
fn separates(separator: Separator, token: &Token<'_>) -> bool
    ensures { result ≡ separates separator (seen token.now) }
{
    match (separator, token) {
        (Separator::Comma, Token::Comma) => true,
        (Separator::Colon, Token::Colon) => true,
        (Separator::Blank, Token::Blank) => true,
        _ => false,
    }
}

/// The part before the first separator.
#[tactic(auto, using(crate::proofs::Parts::parts))]
pub fn next_part<'s, 'a>(separator: Separator, tokens: &'s [Token<'a>]) -> Part<'s, 'a>
    ensures parts { parts_by (separates separator) (map seen tokens.now) ≡ map seen result.part.now ∷ rest_parts separator result.rest }
    ensures less { IfSome result.rest (λ rest. length rest.now < length tokens.now) }
{
    for (index, token) in tokens.iter().enumerate() {
        if separates(separator, token) {
            let (_, rest) = tokens.split_at(index + 1);
            return Part {
                part: &tokens[..index],
                rest: Some(rest),
            };
        }
    }
    Part {
        part: tokens,
        rest: None,
    }
}

/// The tokens without blanks.
#[tactic(auto, using(crate::proofs::Parts::solids))]
pub fn solid_of<'a>(alloc: Global, tokens: &[Token<'a>]) -> Result<List<Token<'a>>, NoMemory>
    ensures { IfOk result (λ solids. map seen solids ≡ solid (map seen tokens.now)) }
{
    let mut solids = List::new(alloc);
    for &token in tokens {
        if separates(Separator::Blank, &token) {
            continue;
        }
        solids.push(token)?;
    }
    Ok(solids)
}
