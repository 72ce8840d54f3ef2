//! The state behind an instruction: with its trap, or with its fault pending; and behind a task switch.
ghost use Rattle.std.specs.Prelude.{◌≡◌};
ghost use Rattle.m386_step.specs.Settled.{faulted, traced, settled, behind_switch, behind_start};

use m386_base::exception::Exception;
use m386_base::fault::Fault;
use m386_base::flags::{Flag, has_flag};
use m386_checks::facts::Context;
use m386_deliver::second::event_of;
use m386_state::proc::{Mode, Proc};
use m386_switch::outcome::Switched;

/// The state with the exception of an instruction pending.
pub fn with_fault(p: &Proc, fault: Fault) -> Proc
    ensures { result ≡ faulted p.now fault }
{
    let mut after = *p;
    after.pending = Some(event_of(fault));
    after
}

/// The state after an instruction: with TF set at its start, the single-step trap is pending (PRM 12.3.1.4).
fn with_trap(before: &Proc, after: &Proc) -> Proc
    ensures { result ≡ traced before.now after.now }
{
    if has_flag(Flag::Trap, before.eflags) {
        with_fault(after, Exception::Debug.fault())
    } else {
        *after
    }
}

/// The state behind an instruction, by whether it made a delivery: with its trap, which a delivery has not, or with the fault that is
/// seen in the new state.
pub fn settled(delivered: bool, before: &Proc, after: &Proc, fault: Option<Fault>) -> Proc
    ensures { result ≡ settled delivered before.now after.now fault }
{
    match fault {
        Some(fault) => with_fault(after, fault),
        None => if delivered {
            *after
        } else {
            with_trap(before, after)
        },
    }
}

/// The state behind an instruction that came to a task switch. A row that failed in the old task is seen in the state before the
/// instruction, one that failed in the new task in the new state. Behind a switch there is no trap.
pub fn behind_switch(before: &Proc, came: &Switched) -> Proc
    ensures { result ≡ behind_switch before.now came.now }
{
    match came.fail {
        Some(fail) => match fail.context {
            Context::Old => with_fault(before, fail.fault),
            Context::New => with_fault(&came.after, fail.fault),
        },
        None => came.after,
    }
}

/// The state with the processor shut down.
fn shut_down(p: &Proc) -> Proc
    ensures { result ≡ record p.now { mode = Mode.Shutdown } }
{
    let mut after = *p;
    after.mode = Mode::Shutdown;
    after
}

/// The state behind the start of a task. There is no old task in which a failed row could be seen: the processor shuts down.
pub fn behind_start(before: &Proc, came: &Switched) -> Proc
    ensures { result ≡ behind_start before.now came.now }
{
    match came.fail {
        Some(fail) => match fail.context {
            Context::Old => shut_down(before),
            Context::New => with_fault(&came.after, fail.fault),
        },
        None => came.after,
    }
}
