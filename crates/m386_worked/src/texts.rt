//! Cases as a text has them. A line that doesn't begin with a blank names a case. The lines behind it begin with one, and say of it:
//! `before` and words, what the state has in which it begins (`changes`); `bytes` and bytes, what lies at 1000h; `memory`, an address
//! and doublewords, what lies there; or in place of these `then`, that it goes on where the case before it ended; a line for each
//! cycle, with what it reads (`asks`), or `makes` and their number alone; and last `after` and words, what the step changes.
//! Outside a case a line `start` and words says what the states of all cases behind it have, and a line `memory` what lies in the
//! memory of each. What no word says is as in `bare`, and as in `bus_of`. All numbers are hexadecimal. A line that begins with `#`
//! is for the reader.

use crate::asks::ask_of;
use crate::cases::{Case, Difference, bus_of, counted, over_bus, over_values, put};
use crate::changes::changed;
use crate::numbers::{byte, number};
use crate::states::bare;
use arrayvec::ArrayVec;
use m386_base::ask::Ask;
use m386_memory::fixed::FixedBus;
use m386_state::proc::Proc;

/// A doubleword in memory, by its address.
type Word = (u32, u32);

/// A case as the lines so far have it.
#[derive(Drop)]
struct Draft<'a> {
    name: &'a str,
    start: Proc,
    standing: ArrayVec<Word, 48>,
    before: Proc,
    bytes: ArrayVec<u8, 16>,
    words: ArrayVec<Word, 16>,
    cycles: ArrayVec<Ask, 64>,
    count: Option<usize>,
    goes_on: bool,
    after: Proc,
}

/// What a case comes to that its text doesn't say.
#[derive(Clone, Copy, Debug, PartialEq, Eq)]
pub enum Wrong<'a> {
    /// The line says nothing.
    Line(&'a str),
    /// The case of this name comes to something else.
    Case(&'a str, Difference),
}

/// The draft before the first line.
fn empty<'a>() -> Draft<'a> {
    Draft {
        name: "",
        start: bare(),
        standing: ArrayVec::new(),
        before: bare(),
        bytes: ArrayVec::new(),
        words: ArrayVec::new(),
        cycles: ArrayVec::new(),
        count: None,
        goes_on: false,
        after: bare(),
    }
}

/// Begins a case.
fn begin<'a>(draft: &mut Draft<'a>, name: &'a str) {
    draft.name = name;
    draft.before = draft.start;
    draft.bytes.clear();
    draft.words.clear();
    draft.cycles.clear();
    draft.count = None;
    draft.goes_on = false;
}

/// Puts bytes behind those of the case.
fn put_bytes(bytes: &mut ArrayVec<u8, 16>, text: &str) -> Option<()> {
    for digits in text.split_whitespace() {
        bytes.try_push(byte(digits)?).ok()?;
    }
    Some(())
}

/// Puts doublewords behind those that lie in memory: an address, and what lies there and behind it.
fn put_words<const N: usize>(words: &mut ArrayVec<Word, N>, text: &str) -> Option<()> {
    let (address, values) = text.split_once(' ')?;
    let mut address = number(address)?;
    for digits in values.split_whitespace() {
        words.try_push((address, number(digits)?)).ok()?;
        address = address.checked_add(4)?;
    }
    Some(())
}

/// Takes a line of a case but its last one.
fn take(draft: &mut Draft<'_>, word: &str, words: &str) -> Option<()> {
    if word == "before" {
        draft.before = changed(&draft.start, words)?;
    } else if word == "then" {
        draft.before = draft.after;
        draft.goes_on = true;
    } else if word == "bytes" {
        put_bytes(&mut draft.bytes, words)?;
    } else if word == "memory" {
        put_words(&mut draft.words, words)?;
    } else if word == "makes" {
        draft.count = Some(number(words)? as usize);
    } else {
        draft.cycles.try_push(ask_of(word, words)?).ok()?;
    }
    Some(())
}

/// Puts these doublewords into memory.
fn put_all(bus: &mut FixedBus<0x1018>, words: &[Word]) -> Option<()> {
    for (address, value) in words {
        put(bus, *address, *value)?;
    }
    Some(())
}

/// The draft behind the lines of a text that has no case.
fn begun<'a>(text: &'a str) -> Option<Draft<'a>> {
    let mut draft = empty();
    for line in text.lines() {
        head(&mut draft, line)?;
    }
    Some(draft)
}

/// Puts into memory what the lines of a text that has no case say.
pub fn put_lines(bus: &mut FixedBus<0x1018>, text: &str) -> Option<()> {
    let draft = begun(text)?;
    put_all(bus, draft.standing.as_slice())
}

/// A bus with the memory of a case.
fn memory_of(draft: &Draft<'_>) -> Option<FixedBus<0x1018>> {
    let bytes = draft.bytes.as_slice();
    if bytes.len() > 16 {
        return None;
    }
    let mut bus = bus_of(bytes);
    put_all(&mut bus, draft.standing.as_slice())?;
    put_all(&mut bus, draft.words.as_slice())?;
    Some(bus)
}

/// Compares the steps with a case that comes to this state: over its memory where it has bytes or goes on, and over its values where it
/// has each cycle.
fn compare(draft: &Draft<'_>, bus: &mut FixedBus<0x1018>, after: Proc) -> Result<(), Difference> {
    let case = Case {
        name: draft.name,
        before: draft.before,
        code: draft.bytes.as_slice(),
        cycles: draft.cycles.as_slice(),
        after,
    };
    if !draft.goes_on {
        *bus = memory_of(draft).ok_or(Difference::Unfit)?;
    }
    match draft.count {
        Some(count) => counted(&case, bus, count),
        None if draft.goes_on || !case.code.is_empty() => {
            over_bus(&case, bus)?;
            over_values(&case)
        }
        None => over_values(&case),
    }
}

/// Takes a line outside a case, or the name of one.
fn head<'a>(draft: &mut Draft<'a>, line: &'a str) -> Option<()> {
    if let Some(words) = line.strip_prefix("start ") {
        draft.start = changed(&bare(), words)?;
    } else if let Some(words) = line.strip_prefix("memory ") {
        put_words(&mut draft.standing, words)?;
    } else {
        begin(draft, line);
    }
    Some(())
}

/// Takes a line of a case, and makes its steps at the last one. It answers whether that was one.
fn tail<'a>(
    draft: &mut Draft<'a>,
    bus: &mut FixedBus<0x1018>,
    line: &'a str,
) -> Result<bool, Wrong<'a>> {
    let (word, words) = line.trim().split_once(' ').unwrap_or((line.trim(), ""));
    if word == "after" {
        draft.after = changed(&draft.before, words).ok_or(Wrong::Line(line))?;
        compare(draft, bus, draft.after).map_err(|found| Wrong::Case(draft.name, found))?;
        return Ok(true);
    }
    take(draft, word, words).ok_or(Wrong::Line(line))?;
    Ok(false)
}

/// Makes the steps of the cases of these lines behind what was begun, and answers how many there are.
fn made_in<'a>(begun: Draft<'a>, text: &'a str) -> Result<usize, Wrong<'a>> {
    let mut draft = begun;
    let mut bus = bus_of(&[]);
    let mut made = 0usize;
    for line in text.lines() {
        if line.starts_with("#") {
            continue;
        }
        if !line.starts_with(" ") {
            head(&mut draft, line).ok_or(Wrong::Line(line))?;
        } else if tail(&mut draft, &mut bus, line)? {
            made = made.saturating_add(1);
        }
    }
    Ok(made)
}

/// Makes the steps of each case of a text, and answers how many cases there are, or the first thing that is wrong.
pub fn all_made(text: &str) -> Result<usize, Wrong<'_>> {
    made_in(empty(), text)
}

/// The same with the lines of another text before it, which has no case.
pub fn made_behind<'a>(start: &'a str, text: &'a str) -> Result<usize, Wrong<'a>> {
    match begun(start) {
        Some(draft) => made_in(draft, text),
        None => Err(Wrong::Line(start)),
    }
}
