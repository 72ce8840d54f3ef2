//! What becomes of a fault that is met while an event is delivered (PRM 9.8.8).
ghost use Rattle.std.specs.Prelude.{◌≡◌};
ghost use Rattle.m386_deliver.specs.Second.{class_of, class_by, event_of, double_fault, second_by, second_of};

use m386_base::exception::Exception;
use m386_base::fault::Fault;
use m386_state::event::{Cause, Event};

/// How two exceptions in a row go together (PRM 9.8.8).
#[derive(Clone, Copy, Debug, PartialEq, Eq)]
enum FaultClass {
    /// The second takes the first one's place.
    Benign,
    /// Two of this class make a double fault.
    Contributory,
    /// The double fault, which no further fault may follow.
    Double,
}

/// The class of an exception, by its vector.
fn class_of(vector: u8) -> FaultClass
    ensures { result ≡ class_of vector }
{
    match vector {
        8 => FaultClass::Double,
        0 | 10..=13 => FaultClass::Contributory,
        _ => FaultClass::Benign,
    }
}

/// The class of an event: an interrupt, of a program or from outside, is benign whatever its vector.
fn class_by(cause: Cause, vector: u8) -> FaultClass
    ensures { result ≡ class_by cause vector }
{
    match cause {
        Cause::Exception => class_of(vector),
        Cause::Soft | Cause::External => FaultClass::Benign,
    }
}

/// The event of a fault.
pub fn event_of(fault: Fault) -> Event
    ensures { result ≡ event_of fault }
{
    Event {
        vector: fault.vector,
        code: fault.code,
        cause: Cause::Exception,
    }
}

/// The double fault. Its error code is 0.
fn double_fault() -> Event
    ensures { result ≡ double_fault }
{
    event_of(Exception::DoubleFault.coded_fault(0))
}

/// By the classes of what was being delivered and of the fault.
fn second_by(first: FaultClass, met: FaultClass, fault: Fault) -> Option<Event>
    ensures { result ≡ second_by first met fault }
{
    match first {
        FaultClass::Double => None,
        FaultClass::Contributory => Some(match met {
            FaultClass::Contributory => double_fault(),
            FaultClass::Benign | FaultClass::Double => event_of(fault),
        }),
        FaultClass::Benign => Some(event_of(fault)),
    }
}

/// The event that is pending behind a fault met while the first was delivered: a double fault exactly where both are contributory
/// exceptions, and else the fault itself. `None`, a shutdown, exactly where the first is the exception 8 (PRM 9.8.8).
pub fn second(first: &Event, fault: Fault) -> Option<Event>
    ensures { result ≡ second_of first.now fault }
{
    second_by(
        class_by(first.cause, first.vector),
        class_of(fault.vector),
        fault,
    )
}
