//! ZF, which tells whether a selector was found fit.
ghost use Rattle.std.specs.Prelude.{◌≡◌};
ghost use Rattle.m386_segments.specs.Zero.{with_zero};

use m386_access::after::with_flags;
use m386_base::flags::{Flag, put_flag};
use m386_state::proc::Proc;

/// The state with ZF put to a value. The other flags stay.
pub(crate) fn with_zero(p: &Proc, zero: bool) -> Proc
    ensures { result ≡ with_zero p.now zero }
{
    with_flags(p, put_flag(Flag::Zero, zero, p.eflags))
}
