//! What a task switch comes to.
ghost use Rattle.std.specs.Prelude.{◌≡◌};
ghost use Rattle.m386_switch.specs.Switch.{outcome_of};

use m386_checks::facts::{Context, Fail};
use m386_state::proc::Proc;

/// How a task switch ends.
#[derive(Clone, Copy, Debug, PartialEq, Eq)]
pub enum Outcome {
    /// It is whole.
    Done,
    /// One of rows 1 to 7 failed: nothing was written, and the old task goes on.
    Old(Fail),
    /// One of rows 8 to 19 failed: the new task was entered, and is told.
    New(Fail),
}

/// The state behind a switch, and the first row that failed.
#[derive(Clone, Copy, Debug, PartialEq, Eq)]
pub struct Switched {
    /// The state before where one of rows 1 to 7 failed, and else the new task's.
    pub after: Proc,
    /// The first row that failed.
    pub fail: Option<Fail>,
}

/// What a switch comes to by the first row that failed.
pub(crate) fn outcome_of(fail: Option<Fail>) -> Outcome
    ensures { result ≡ outcome_of fail }
{
    match fail {
        Some(x) => match x.context {
            Context::Old => Outcome::Old(x),
            Context::New => Outcome::New(x),
        },
        None => Outcome::Done,
    }
}
