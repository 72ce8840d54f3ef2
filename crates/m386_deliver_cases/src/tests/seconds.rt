//! Each pair of a first event and a fault that is met while it is delivered.
use super::event;
use m386_base::fault::Fault;
use m386_deliver::second::second;
use m386_state::event::{Cause, Event};
use std::process::Abort;

/// The vectors of first events, and the word that says for each vector of `MET` what becomes of it: the fault itself, a double fault,
/// or a shutdown.
const FIRST: [(u8, &str); 9] = [
    (0, "dfddddf"),
    (6, "fffffff"),
    (8, "sssssss"),
    (10, "dfddddf"),
    (11, "dfddddf"),
    (12, "dfddddf"),
    (13, "dfddddf"),
    (14, "fffffff"),
    (32, "fffffff"),
];

/// The vectors of the faults that may be met, and of two that are none.
const MET: [u8; 7] = [0, 6, 10, 11, 12, 13, 14];

/// The event of an exception.
fn exception(vector: u8, code: u16) -> Event {
    Event {
        vector,
        code: Some(code),
        cause: Cause::Exception,
    }
}

#[test]
fn a_second_fault_goes_by_both_classes(rt: HostRuntime) {
    for (first, word) in FIRST {
        for (met, what) in MET.iter().zip(word.as_bytes()) {
            let fault = Fault {
                vector: *met,
                code: Some(0x19),
            };
            let wanted = match *what {
                b'd' => Some(exception(8, 0)),
                b'f' => Some(exception(*met, 0x19)),
                _ => None,
            };
            assert_eq!(rt;
                second(&event(Cause::Exception, first), fault),
                wanted,
                "{first} {met}"
            );
        }
    }
}

#[test]
fn behind_an_interrupt_a_fault_is_itself(rt: HostRuntime) {
    for (first, _) in FIRST {
        for cause in [Cause::Soft, Cause::External] {
            for met in MET {
                let fault = Fault {
                    vector: met,
                    code: None,
                };
                let wanted = Event {
                    vector: met,
                    code: None,
                    cause: Cause::Exception,
                };
                assert_eq!(rt;
                    second(&event(cause, first), fault),
                    Some(wanted),
                    "{first} {met}"
                );
            }
        }
    }
}
