//! What LAR, LSL, VERR and VERW look for.
ghost use Rattle.std.specs.Prelude.{◌≡◌};
ghost use Rattle.m386_segload.specs.Look.{type_wanted};

use crate::rules::Requirement;

/// What is looked for.
#[derive(Clone, Copy, Debug, PartialEq, Eq)]
pub enum Look {
    /// The access rights.
    Lar,
    /// The limit.
    Lsl,
    /// Whether it may be read.
    Verr,
    /// Whether it may be written.
    Verw,
}

/// The type that is wanted.
pub(crate) fn type_wanted(what: Look) -> Requirement
    ensures { result ≡ type_wanted what }
{
    match what {
        Look::Lar => Requirement::WithRights,
        Look::Lsl => Requirement::WithLimit,
        Look::Verr => Requirement::Readable,
        Look::Verw => Requirement::Writable,
    }
}
