//! The line of a cycle.
ghost use Rattle.std.specs.Prelude.{◌≡◌, ◌<◌, ◌≤◌, ◌++◌, ◌∷◌, [], codes, IsAscii};
ghost use Rattle.arrayvec.specs.ArrayString.{array_string_len};
ghost use Rattle.m386_trace.specs.Line.{spaced, hex1, hex8, two_digits};
ghost use Rattle.m386_trace.specs.Report.{cycle_text, IsPrintable};

use crate::field::{digit_of, digits_of, push_ascii, push_word};
use crate::words::{access_words, cpu_words, role_word};
use arrayvec::ArrayString;
use m386_base::ask::{Ask, Cycle};

/// The end of a cycle's line: its part, address, enables and value, and the line feed. These have fixed places, so they
/// are put down as bytes, and found to be text at once.
fn last_fields(ask: &Ask) -> [u8; 24]
    requires part { ask.now.part < 100 }
    requires enables { ask.now.enables < 16 }
    ensures text { result ≡ spaced (two_digits ask.now.part ∷ hex8 ask.now.addr ∷ hex1 ask.now.enables ∷ hex8 ask.now.value ∷ []) ++ codes "\n" }
    ensures ascii { IsAscii result }
{
    let tens = b'0' + ask.part / 10;
    let ones = b'0' + ask.part % 10;
    let a = digits_of(ask.addr);
    let e = digit_of(ask.enables);
    let v = digits_of(ask.value);
    [
        b' ', tens, ones, b' ', a[0], a[1], a[2], a[3], a[4], a[5], a[6], a[7], b' ', e, b' ',
        v[0], v[1], v[2], v[3], v[4], v[5], v[6], v[7], b'\n',
    ]
}

/// The line of a cycle with its line feed: at most 44 bytes. It takes no memory.
#[tactic(auto, unfolding(crate::specs::Report::cycle_text))]
pub fn cycle_line(cycle: &Cycle) -> ArrayString<64>
    requires { IsPrintable cycle.now }
    ensures text { result.bytes ≡ cycle_text cycle.now }
    ensures short { array_string_len result ≤ 44 }
{
    let ask = &cycle.ask;
    let mut line = ArrayString::new();
    line.push_str(cpu_words(cycle.cpu));
    line.push_str(access_words(ask.space, ask.write, ask.joined));
    push_word(&mut line, role_word(ask.role));
    push_ascii(&mut line, &last_fields(ask));
    line
}
