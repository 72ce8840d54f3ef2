//! A state that an instruction leaves, and the fault that is pending in it.
ghost use Rattle.std.specs.Prelude.{◌≡◌, None};
ghost use Rattle.m386_access.specs.Ran.{ran};

use m386_base::fault::Fault;
use m386_state::proc::Proc;

/// What an instruction comes to: the state after it, and a fault that is seen in that state. A fault that is seen in the state
/// before is no end of this kind.
#[derive(Clone, Copy)]
pub struct Ran {
    /// The state after it.
    pub after: Proc,
    /// The fault that is pending in it.
    pub fault: Option<Fault>,
}

/// A state in which no fault is pending.
pub fn without_fault(after: Proc) -> Ran
    ensures { result ≡ ran after None }
{
    Ran { after, fault: None }
}
