//! The program `m386_truth`: it reads cases with the answers that a processor, an assembler or the manual gives, asks the
//! crates the same, and writes for each kind how many were compared, and each case whose answer differs.
//!
//! A line `= KIND` begins the cases of a kind. Each line behind it is a case: the question, ` : `, and the wanted answer.
#![tactic(auto)]

mod arithmetic;
mod decoding;

use std::alloc::{AllocError, Global};
use std::io;

/// What the crates answer to a question of a kind.
fn answer(alloc: Global, kind: &str, question: &str) -> Result<String, AllocError> {
    if kind == "decode" {
        return decoding::answer(alloc, question);
    }
    arithmetic::answer(alloc, kind, question)
}

/// Compares the answer to one case with the wanted one, and writes it where it differs. Whether it does is answered.
fn differs(rt: &HostRuntime, kind: &str, line: &str) -> io::Result<bool> {
    let (question, wanted) = line.split_once(" : ").unwrap_or((line, ""));
    let found = answer(rt.alloc(), kind, question)?;
    if found.as_str() == wanted {
        return Ok(false);
    }
    println!(rt; "{kind} {question}: {wanted} is wanted, and {found} was found")?;
    Ok(true)
}

/// Writes how many cases of a kind were compared.
fn tell(rt: &HostRuntime, kind: &str, compared: u64, different: u64) -> io::Result<()> {
    if compared == 0 {
        return Ok(());
    }
    println!(rt; "{kind}: {compared} compared, {different} different")
}

fn main(rt: HostRuntime) -> io::Result<()> {
    let mut kind = String::new(rt.alloc());
    let mut compared: u64 = 0;
    let mut different: u64 = 0;
    for line in rt.lines(rt.alloc()) {
        let line = line?;
        if let Some(next) = line.as_str().strip_prefix("= ") {
            tell(&rt, kind.as_str(), compared, different)?;
            kind = next.to_string(rt.alloc())?;
            compared = 0;
            different = 0;
            continue;
        }
        compared = compared.saturating_add(1);
        if differs(&rt, kind.as_str(), line.as_str())? {
            different = different.saturating_add(1);
        }
    }
    tell(&rt, kind.as_str(), compared, different)
}
