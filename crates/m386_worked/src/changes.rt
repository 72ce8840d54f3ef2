//! What the words of a text change in a state: `eip`, `flags`, `cr0` and the general registers by a number; `es` to `gs`, `ldtr` and `tr`
//! by a segment; `gdtr` and `idtr` by a table; `mode`; `pending` by a vector and, behind `:`, its error code, and `soft` or `external` by a
//! vector; `shadow`; `request` by a vector; `start` by a selector. What there is none of is `none`.

use crate::numbers::{byte, half, number};
use crate::segments::{segment_of, table_of, with_segment};
use m386_base::number::Flags;
use m386_state::event::{Cause, Event};
use m386_state::proc::{Mode, Proc};

/// The words of the general registers, by their numbers.
const REGISTERS: [&str; 8] = ["eax", "ecx", "edx", "ebx", "esp", "ebp", "esi", "edi"];

/// The words of the segment registers, by their numbers.
const SEGMENTS: [&str; 6] = ["es", "cs", "ss", "ds", "fs", "gs"];

/// Where a word stands in a list.
fn place_of(names: &[&str], word: &str) -> Option<usize> {
    names.iter().position(|name| *name == word)
}

/// Changes a general register. `None`: the word names none, or the value is no number.
fn set_register(p: &mut Proc, word: &str, value: &str) -> Option<()> {
    let place = place_of(&REGISTERS, word)?;
    *p.regs.get_mut(place)? = number(value)?;
    Some(())
}

/// Changes a segment register, LDTR or TR.
fn set_segment(p: &mut Proc, word: &str, value: &str) -> Option<()> {
    let value = segment_of(value)?;
    if word == "ldtr" {
        p.ldtr = value;
    } else if word == "tr" {
        p.tr = value;
    } else {
        let place = place_of(&SEGMENTS, word)?;
        p.segs = with_segment(&p.segs, place, value);
    }
    Some(())
}

/// Changes EIP, EFLAGS, CR0 or the register of a table.
fn set_system(p: &mut Proc, word: &str, value: &str) -> Option<()> {
    if word == "eip" {
        p.eip = number(value)?;
    } else if word == "flags" {
        p.eflags = Flags(number(value)?);
    } else if word == "cr0" {
        p.cr0 = number(value)?;
    } else if word == "gdtr" {
        p.gdtr = table_of(value)?;
    } else if word == "idtr" {
        p.idtr = table_of(value)?;
    } else {
        return None;
    }
    Some(())
}

/// The mode of a word.
fn mode_of(word: &str) -> Option<Mode> {
    for (name, mode) in [
        ("running", Mode::Running),
        ("halted", Mode::Halted),
        ("shutdown", Mode::Shutdown),
    ] {
        if name == word {
            return Some(mode);
        }
    }
    None
}

/// An event of this cause, `VECTOR` or `VECTOR:CODE`.
fn event_of(value: &str, cause: Cause) -> Option<Event> {
    let (vector, code) = match value.split_once(':') {
        Some((vector, code)) => (vector, Some(half(code)?)),
        None => (value, None),
    };
    Some(Event {
        vector: byte(vector)?,
        code,
        cause,
    })
}

/// Changes what a step begins with.
fn set_turn(p: &mut Proc, word: &str, value: &str) -> Option<()> {
    let is_none = value == "none";
    if word == "mode" {
        p.mode = mode_of(value)?;
    } else if word == "shadow" {
        p.shadow = byte(value)? == 1;
    } else if word == "request" {
        p.request = if is_none { None } else { Some(byte(value)?) };
    } else if word == "start" {
        p.start = if is_none { None } else { Some(half(value)?) };
    } else if is_none && word == "pending" {
        p.pending = None;
    } else {
        p.pending = Some(event_of(value, cause_of(word)?)?);
    }
    Some(())
}

/// The cause of a pending event, by the word for it.
fn cause_of(word: &str) -> Option<Cause> {
    for (name, cause) in [
        ("pending", Cause::Exception),
        ("soft", Cause::Soft),
        ("external", Cause::External),
    ] {
        if name == word {
            return Some(cause);
        }
    }
    None
}

/// Changes what one word says, `NAME=VALUE`.
fn set(p: &mut Proc, word: &str) -> Option<()> {
    let (name, value) = word.split_once('=')?;
    if place_of(&REGISTERS, name).is_some() {
        set_register(p, name, value)
    } else if place_of(&SEGMENTS, name).is_some() || name == "ldtr" || name == "tr" {
        set_segment(p, name, value)
    } else if name == "eip"
        || name == "flags"
        || name == "cr0"
        || name == "gdtr"
        || name == "idtr"
    {
        set_system(p, name, value)
    } else {
        set_turn(p, name, value)
    }
}

/// The state with all that the words say. `None`: one of them says nothing.
pub fn changed(p: &Proc, words: &str) -> Option<Proc> {
    let mut after = *p;
    for word in words.split_whitespace() {
        set(&mut after, word)?;
    }
    Some(after)
}
