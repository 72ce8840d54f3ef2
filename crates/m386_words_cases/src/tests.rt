//! Tables of texts, each with what the language's description says that it is.

mod expressions;
mod lines;
mod mnemonics;
mod operands;
mod words;

use m386_base::fault::NoMemory;
use m386_base::list::List;
use m386_words::expression::Expression;
use m386_words::part::solid_of;
use m386_words::token::{Token, words_of};
use std::alloc::Global;

/// The tokens of a line, without blanks.
fn tokens_of<'a>(alloc: Global, line: &'a str) -> Result<List<Token<'a>>, NoMemory> {
    let words = words_of(alloc, line.as_bytes())?;
    solid_of(alloc, words.as_slice())
}

/// The expression of a number.
fn only(number: i64) -> Expression<'static> {
    Expression { name: None, number }
}

/// The expression of a name and a number.
fn named(name: &'static str, number: i64) -> Expression<'static> {
    Expression {
        name: Some(name.as_bytes()),
        number,
    }
}
