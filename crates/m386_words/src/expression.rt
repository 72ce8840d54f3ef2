//! Numbers with a sign, and expressions, whose names have their values later.
ghost use Rattle.std.specs.Prelude.{◌≡◌, map, IfSome, neg_ℤ};
ghost use Rattle.std.specs.Option.{option_map};
ghost use Rattle.m386_words.specs.Expressions.{signed, term, plus, followed, expression};
ghost use Rattle.m386_words.specs.Tokens.{seen};
ghost use Rattle.m386_words.specs.Seen.{expression_seen, IsSmall, IsSum};

use crate::name::is_name;
use crate::number::number;
use crate::token::Token;

/// A number, with the value of a name where it has one.
#[derive(Clone, Copy, Debug, PartialEq, Eq)]
pub struct Expression<'a> {
    /// The name.
    pub name: Option<&'a [u8]>,
    /// The number, which is added to the name's value: the sum of two numbers of 32 bits with their signs at most.
    pub number: i64,
}

/// A number with an optional `-`.
pub fn signed(tokens: &[Token<'_>]) -> Option<i64>
    ensures value { result ≡ signed (map seen tokens.now) }
    ensures small { IfSome result IsSmall }
{
    match tokens {
        [Token::Word(word)] => Some(i64::from(number(word)?)),
        [Token::Minus, Token::Word(word)] => Some(-i64::from(number(word)?)),
        _ => None,
    }
}

/// What a word is in an expression.
pub(crate) fn term(word: &[u8]) -> Option<Expression<'_>>
    ensures value { option_map expression_seen result ≡ term word.now }
    ensures small { IfSome result (λ e. IsSmall e.number) }
{
    if is_name(word) {
        return Some(Expression {
            name: Some(word),
            number: 0,
        });
    }
    Some(Expression {
        name: None,
        number: i64::from(number(word)?),
    })
}

/// An expression with a number more.
fn plus(expression: Expression<'_>, number: i64) -> Expression<'_>
    requires first { IsSmall expression.number }
    requires second { IsSmall number }
    ensures value { expression_seen result ≡ plus (expression_seen expression.entry) number }
    ensures small { IsSum result.number }
{
    Expression {
        name: expression.name,
        number: expression.number + number,
    }
}

/// An expression with a number less.
fn minus(expression: Expression<'_>, number: i64) -> Expression<'_>
    requires first { IsSmall expression.number }
    requires second { IsSmall number }
    ensures value { expression_seen result ≡ plus (expression_seen expression.entry) (neg_ℤ number) }
    ensures small { IsSum result.number }
{
    Expression {
        name: expression.name,
        number: expression.number - number,
    }
}

/// What an expression is with what follows its first part.
fn followed<'a>(first: Expression<'a>, tokens: &[Token<'a>]) -> Option<Expression<'a>>
    requires { IsSmall first.number }
    ensures value { option_map expression_seen result ≡ followed (expression_seen first.entry) (map seen tokens.now) }
    ensures small { IfSome result (λ e. IsSum e.number) }
{
    match tokens {
        [] => Some(first),
        [Token::Plus, rest @ ..] => Some(plus(first, signed(rest)?)),
        [Token::Minus, rest @ ..] => Some(minus(first, signed(rest)?)),
        _ => None,
    }
}

/// An expression: a number or a name, and perhaps a number more or less.
#[tactic(auto, unfolding(crate::specs::Expressions::expression))]
pub fn expression_of<'a>(tokens: &[Token<'a>]) -> Option<Expression<'a>>
    ensures value { option_map expression_seen result ≡ expression (map seen tokens.now) }
    ensures small { IfSome result (λ e. IsSum e.number) }
{
    match tokens {
        [Token::Word(word), rest @ ..] => followed(term(word)?, rest),
        [Token::Minus, Token::Word(word), rest @ ..] => {
            let number = -i64::from(number(word)?);
            followed(Expression { name: None, number }, rest)
        }
        _ => None,
    }
}
