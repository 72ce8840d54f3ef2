//! The line that says why there is no output.
ghost use Rattle.std.specs.Prelude.{◌≡◌, ◌≤◌, ◌++◌, OnOk, OnErr, codes, decimal};
ghost use Rattle.m386_base.specs.Bus.{Rose};
ghost use Rattle.m386_edge.specs.Edge.{Grows, GrowsByFront};
ghost use Rattle.m386.specs.Status.{asm_line, fault_line, status_line};

use crate::status::{Status, kind_name, kind_number};
use itoa::Buffer;
use m386_edge::failed::Failed;
use m386_edge::sink::Sink;
use m386_edge::writing::write_whole;
use m386_lines::kind::AsmKind;

/// Writes the words that begin a fault's line, and its number.
#[tactic(auto, using(m386_edge::proofs::Edge::growing))]
fn write_number<E: Sink>(err: &mut E, begin: &[u8], number: u8) -> Result<(), Failed>
    ensures ok { OnOk result (Grows (E.held err.old) (E.held err.new) (begin.now ++ decimal number ++ codes " ")) }
    ensures err { OnErr result (GrowsByFront (E.held err.old) (E.held err.new) (begin.now ++ decimal number ++ codes " ")) }
    ensures failed { OnErr result (Rose (E.faults err.old) (E.faults err.new)) }
    ensures never_falls { E.faults err.old ≤ E.faults err.new }
{
    let mut digits = Buffer::new();
    write_whole(err, begin)?;
    write_whole(err, digits.format(number).as_bytes())?;
    write_whole(err, b" ")
}

/// Writes a fault's name, and ends the line.
#[tactic(auto, using(m386_edge::proofs::Edge::growing))]
fn write_name<E: Sink>(err: &mut E, name: &[u8]) -> Result<(), Failed>
    ensures ok { OnOk result (Grows (E.held err.old) (E.held err.new) (name.now ++ codes "\n")) }
    ensures err { OnErr result (GrowsByFront (E.held err.old) (E.held err.new) (name.now ++ codes "\n")) }
    ensures failed { OnErr result (Rose (E.faults err.old) (E.faults err.new)) }
    ensures never_falls { E.faults err.old ≤ E.faults err.new }
{
    write_whole(err, name)?;
    write_whole(err, b"\n")
}

/// Writes the line of a fault with its number and name.
#[tactic(auto, using(m386_edge::proofs::Edge::growing))]
fn write_fault<E: Sink>(err: &mut E, begin: &[u8], number: u8, name: &[u8]) -> Result<(), Failed>
    ensures ok { OnOk result (Grows (E.held err.old) (E.held err.new) (fault_line begin.now number name.now)) }
    ensures err { OnErr result (GrowsByFront (E.held err.old) (E.held err.new) (fault_line begin.now number name.now)) }
    ensures failed { OnErr result (Rose (E.faults err.old) (E.faults err.new)) }
    ensures never_falls { E.faults err.old ≤ E.faults err.new }
{
    write_number(err, begin, number)?;
    write_name(err, name)
}

/// Writes the words that name a line of a source text.
#[tactic(auto, using(m386_edge::proofs::Edge::growing))]
fn write_place<E: Sink>(err: &mut E, begin: &[u8], line: u32) -> Result<(), Failed>
    ensures ok { OnOk result (Grows (E.held err.old) (E.held err.new) (begin.now ++ decimal line)) }
    ensures err { OnErr result (GrowsByFront (E.held err.old) (E.held err.new) (begin.now ++ decimal line)) }
    ensures failed { OnErr result (Rose (E.faults err.old) (E.faults err.new)) }
    ensures never_falls { E.faults err.old ≤ E.faults err.new }
{
    let mut digits = Buffer::new();
    write_whole(err, begin)?;
    write_whole(err, digits.format(line).as_bytes())
}

/// Writes the line of a faulty line of a source text, behind the words that begin it.
#[tactic(auto, using(m386_edge::proofs::Edge::growing))]
fn write_asm<E: Sink>(err: &mut E, begin: &[u8], line: u32, kind: AsmKind) -> Result<(), Failed>
    ensures ok { OnOk result (Grows (E.held err.old) (E.held err.new) (asm_line begin.now line kind)) }
    ensures err { OnErr result (GrowsByFront (E.held err.old) (E.held err.new) (asm_line begin.now line kind)) }
    ensures failed { OnErr result (Rose (E.faults err.old) (E.faults err.new)) }
    ensures never_falls { E.faults err.old ≤ E.faults err.new }
{
    write_place(err, begin, line)?;
    write_fault(
        err,
        b": fault ",
        kind_number(kind),
        kind_name(kind).as_bytes(),
    )
}

/// Writes the line of a status to `err`. Where it is `Done` nothing is written.
#[tactic(auto, unfolding(crate::specs::Status::status_line))]
pub fn tell<E: Sink>(err: &mut E, status: Status) -> Result<(), Failed>
    ensures ok { OnOk result (Grows (E.held err.old) (E.held err.new) (status_line status)) }
    ensures err { OnErr result (GrowsByFront (E.held err.old) (E.held err.new) (status_line status)) }
    ensures failed { OnErr result (Rose (E.faults err.old) (E.faults err.new)) }
    ensures never_falls { E.faults err.old ≤ E.faults err.new }
{
    match status {
        Status::Done => Ok(()),
        Status::Memory => write_whole(err, b"m386: out of memory\n"),
        Status::Usage(kind) => {
            let name = kind.name().as_bytes();
            write_fault(err, b"m386: usage fault ", kind.number(), name)
        }
        Status::ReadFault => write_whole(err, b"m386: read fault\n"),
        Status::WriteFault => write_whole(err, b"m386: write fault\n"),
        Status::Image(fault) => {
            let name = fault.name().as_bytes();
            write_fault(err, b"m386: image fault ", fault.number(), name)
        }
        Status::Asm { line, kind } => write_asm(err, b"m386: line ", line, kind),
        Status::TooLong => write_whole(err, b"m386: input too long\n"),
    }
}
