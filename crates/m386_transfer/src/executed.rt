//! What an instruction comes to that may end in a task switch (PRM 7.5).
ghost use Rattle.std.specs.Prelude.{◌≡◌, false};
ghost use Rattle.m386_base.specs.Phrase.{Performs, it};
ghost use Rattle.m386_switch.specs.Switch.{fail_in, switched};
ghost use Rattle.m386_transfer.specs.Executed.{ran_to, switching_phrase, fault_by, as_ran};

use m386_access::ran::{Ran, without_fault};
use m386_base::bus::Bus;
use m386_base::fault::{Break, Fault};
use m386_base::kind::SwitchKind;
use m386_checks::facts::Fail;
use m386_state::proc::Proc;
use m386_switch::outcome::{Outcome, Switched};
use m386_switch::switch::switch;

/// A task switch that an instruction asks for.
#[derive(Clone, Copy, Debug, PartialEq, Eq)]
pub struct Brief {
    /// What makes it.
    pub kind: SwitchKind,
    /// The selector of the new TSS. IRET takes the back link in its place.
    pub selector: u16,
    /// Whether no gate was used.
    pub direct: bool,
    /// The EXT bit of the error codes.
    pub ext: bool,
}

/// What an instruction comes to. A fault that is seen in the state before it, and that comes before any switch, is no end of this
/// kind.
#[derive(Clone, Copy)]
pub enum Executed {
    /// It came to no switch. A fault is seen in the state that it left.
    Ran(Ran),
    /// It came to a task switch, whole or not.
    Came(Switched),
}

/// An instruction that leaves this state and no fault.
pub fn ran_to(after: Proc) -> Executed
    ensures { result ≡ ran_to after }
{
    Executed::Ran(without_fault(after))
}

/// The row that an outcome tells.
fn fail_in(outcome: Outcome) -> Option<Fail>
    ensures { result ≡ fail_in outcome }
{
    match outcome {
        Outcome::Done => None,
        Outcome::Old(fail) | Outcome::New(fail) => Some(fail),
    }
}

/// What a switch came to that left this state.
pub fn came(after: Proc, outcome: Outcome) -> Switched
    ensures { result ≡ switched after outcome }
{
    Switched {
        after,
        fail: fail_in(outcome),
    }
}

/// The fault of a row that failed.
fn fault_by(fail: Option<Fail>) -> Option<Fault>
    ensures { result ≡ fault_by fail }
{
    match fail {
        Some(fail) => Some(fail.fault),
        None => None,
    }
}

/// The state that an instruction left, and the fault that is seen in it. Of a switch that failed in the old task it is the state that
/// the switch began in.
pub fn as_ran(executed: &Executed) -> Ran
    ensures { result ≡ as_ran executed.now }
{
    match executed {
        Executed::Ran(ran) => *ran,
        Executed::Came(came) => Ran {
            after: came.after,
            fault: fault_by(came.fail),
        },
    }
}

/// A task switch with nothing behind it, from a state that has EIP behind the instruction. What it comes to holds the state behind it
/// and the first row of the check table that failed.
#[tactic(auto, using(m386_base::proofs::Phrases::calls), unfolding(crate::specs::Executed::switching_phrase))]
pub fn make_switch<B: Bus>(p: &Proc, bus: &mut B, brief: Brief) -> Result<Executed, Break>
    requires free { (B.view bus.old).kept ≡ false }
    ensures cycles { Performs (switching_phrase p.now brief) (B.view bus.old) (B.view bus.new) it result }
    ensures free { (B.view bus.new).kept ≡ false }
{
    let mut after = *p;
    let outcome = switch(
        &mut after,
        bus,
        brief.kind,
        brief.selector,
        brief.direct,
        brief.ext,
    )?;
    Ok(Executed::Came(came(after, outcome)))
}
