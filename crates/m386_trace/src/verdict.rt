//! The line of the verdict.
ghost use Rattle.std.specs.Prelude.{◌≡◌, ◌+◌, ◌<◌, ◌≤◌, ◌++◌, ◌∷◌, [], length, codes, decimal};
ghost use Rattle.arrayvec.specs.ArrayString.{array_string_len};
ghost use Rattle.m386_trace.specs.Line.{spaced};
ghost use Rattle.m386_trace.specs.Report.{verdict_text};

use crate::field::{push_decimal, push_word};
use arrayvec::ArrayString;
use m386_book::verdict::Verdict;

/// The line of a run that fails a rule, but for its line feed.
fn unclean(rule: u8) -> ArrayString<64>
    ensures bytes { result.bytes ≡ codes "unclean" ++ spaced (codes "rule" ∷ decimal rule ∷ []) }
    ensures len { array_string_len result ≤ 33 }
{
    let mut line = ArrayString::new();
    line.push_str("unclean");
    push_word(&mut line, "rule");
    push_decimal(&mut line, u64::from(rule));
    line
}

/// The line of a run that fails a rule at a cycle, but for its line feed.
fn unclean_at(rule: u8, index: u64) -> ArrayString<64>
    ensures bytes { result.bytes
        ≡ codes "unclean" ++ spaced (codes "rule" ∷ decimal rule ∷ codes "at" ∷ decimal index ∷ []) }
    ensures len { array_string_len result < 64 }
{
    let mut line = unclean(rule);
    push_word(&mut line, "at");
    push_decimal(&mut line, index);
    line
}

/// A line of one word, but for its line feed.
fn word(text: &str) -> ArrayString<64>
    requires { length text.now < 64 }
    ensures bytes { result.bytes ≡ text.now ++ spaced [] }
    ensures len { array_string_len result < 64 }
{
    let mut line = ArrayString::new();
    line.push_str(text);
    line
}

/// The last line of the report.
#[tactic(auto, unfolding(crate::specs::Report::verdict_text))]
pub fn verdict_line(verdict: &Verdict) -> ArrayString<64>
    ensures { result.bytes ≡ verdict_text verdict.now }
{
    let mut line = match verdict {
        Verdict::Clean => word("clean"),
        Verdict::Static(rule) => unclean(*rule),
        Verdict::At { rule, index } => unclean_at(*rule, *index),
    };
    line.push_str("\n");
    line
}
