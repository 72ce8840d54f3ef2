//! HLT.
ghost use Rattle.std.specs.Prelude.{◌≡◌};
ghost use Rattle.m386_system.specs.Halt.{halted};

use m386_state::proc::{Mode, Proc};

/// The state behind HLT: the processor waits for an event.
pub(crate) fn halted(p: &Proc) -> Proc
    ensures { result ≡ halted p.now }
{
    let mut after = *p;
    after.mode = Mode::Halted;
    after
}
