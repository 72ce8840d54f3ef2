//! A case of an instruction, as a line has it.

use crate::state::{FIRST, State, changed};
use hex::decode_to_slice;

/// The most bytes of an instruction, of which a lawful one has one less.
pub const MOST_CODE: usize = 16;

/// A case: an instruction, the state before it and the state after it.
#[derive(Clone, Copy)]
pub struct Case<'a> {
    /// The operation's name.
    pub name: &'a str,
    /// The bytes of the instruction, and zeros behind them.
    pub code: [u8; MOST_CODE],
    /// How many bytes the instruction has.
    pub size: u32,
    /// The state before it.
    pub before: State,
    /// The state after it, where only its flags, its exception and what it changed are said.
    pub after: State,
}

/// The bytes of an instruction, with zeros behind them.
fn code_of(digits: &str) -> Option<[u8; MOST_CODE]> {
    let mut code = [0; MOST_CODE];
    decode_to_slice(digits, code.get_mut(..digits.len() / 2)?).ok()?;
    Some(code)
}

/// The case of a line: `NAME BYTES WORDS > WORDS`, the words of the state before the instruction and of what is changed
/// after it. `None`: the line is no case.
pub fn read_case(line: &str) -> Option<Case<'_>> {
    let (begin, end) = line.split_once('>')?;
    let (name, begin) = begin.split_once(' ')?;
    let (digits, begin) = begin.split_once(' ')?;
    let code = code_of(digits)?;
    let before = changed(&FIRST, begin)?;
    let after = changed(&before, end)?;
    Some(Case {
        name,
        code,
        size: u32::try_from(digits.len() / 2).ok()?,
        before,
        after,
    })
}
