//! How a call of the program ends, with its number and its text.
ghost use Rattle.std.specs.Prelude.{◌≡◌};
ghost use Rattle.m386_asm.specs.Layout.{kind_number};
ghost use Rattle.m386.specs.Status.{kind_name, status_number};

use m386_calls::usage::UsageKind;
use m386_image::fault::ImageFault;
use m386_lines::kind::AsmKind;

/// The number of what is wrong with a line of a source text, from 1.
pub fn kind_number(kind: AsmKind) -> u8
    ensures { result ≡ kind_number kind }
{
    match kind {
        AsmKind::Ascii => 1,
        AsmKind::Token => 2,
        AsmKind::Number => 3,
        AsmKind::Mnemonic => 4,
        AsmKind::Operands => 5,
        AsmKind::UnknownName => 6,
        AsmKind::NameTwice => 7,
        AsmKind::Directive => 8,
        AsmKind::Arguments => 9,
        AsmKind::HeaderTwice => 10,
        AsmKind::HeaderMissing => 11,
        AsmKind::Range => 12,
        AsmKind::Overlap => 13,
        AsmKind::PlanOrder => 14,
    }
}

/// The name of what is wrong with a line of a source text.
#[tactic(auto, unfolding(crate::specs::Status::kind_name))]
pub fn kind_name(kind: AsmKind) -> &'static str
    ensures { result.now ≡ kind_name kind }
{
    match kind {
        AsmKind::Ascii => "Ascii",
        AsmKind::Token => "Token",
        AsmKind::Number => "Number",
        AsmKind::Mnemonic => "Mnemonic",
        AsmKind::Operands => "Operands",
        AsmKind::UnknownName => "UnknownName",
        AsmKind::NameTwice => "NameTwice",
        AsmKind::Directive => "Directive",
        AsmKind::Arguments => "Arguments",
        AsmKind::HeaderTwice => "HeaderTwice",
        AsmKind::HeaderMissing => "HeaderMissing",
        AsmKind::Range => "Range",
        AsmKind::Overlap => "Overlap",
        AsmKind::PlanOrder => "PlanOrder",
    }
}

/// How a call ended.
#[derive(Clone, Copy, Debug, PartialEq, Eq)]
pub enum Status {
    /// All input was read and all output written.
    Done,
    /// There was no memory for what the call was to keep.
    Memory,
    /// The words were refused.
    Usage(UsageKind),
    /// The source of the input failed.
    ReadFault,
    /// The sink of the output failed.
    WriteFault,
    /// The input is no image; its first fault.
    Image(ImageFault),
    /// The input is no source text of an image; its first faulty line, from 1, and the least of its kinds.
    Asm {
        /// The line's number.
        line: u32,
        /// What is wrong with it.
        kind: AsmKind,
    },
    /// The input is longer than any input may be.
    TooLong,
}

impl Status {
    /// The exit status of the program.
    pub fn number(self) -> u8
        ensures { result ≡ status_number self }
    {
        match self {
            Status::Done => 0,
            Status::Memory => 1,
            Status::Usage(_) => 2,
            Status::ReadFault => 3,
            Status::WriteFault => 4,
            Status::Image(_) => 5,
            Status::Asm { .. } => 6,
            Status::TooLong => 7,
        }
    }
}
