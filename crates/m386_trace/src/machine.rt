//! The line of the machine.
ghost use Rattle.std.specs.Prelude.{◌≡◌, ◌<◌};
ghost use Rattle.m386_trace.specs.Report.{machine_text};

use crate::field::{push_decimal, push_hex8, push_word};
use arrayvec::ArrayString;
use m386_image::image::Image;

/// The second line of the report, for a run of so many processors.
#[tactic(auto, unfolding(crate::specs::Report::machine_text))]
pub fn machine_line(image: &Image, cpus: usize) -> ArrayString<64>
    ensures { result.bytes ≡ machine_text image.now cpus }
{
    let mut line = ArrayString::new();
    line.push_str("memory");
    push_hex8(&mut line, image.memory);
    push_word(&mut line, "cpus");
    push_decimal(&mut line, cpus as u64);
    line.push_str("\n");
    line
}
