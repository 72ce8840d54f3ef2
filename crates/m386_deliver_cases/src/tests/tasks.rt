//! Deliveries through a task gate: each row of the check table with its fault and the task that it is told in, and the error code that a
//! switch which goes through pushes. The new task's segment is at 200h, its descriptor 0038 at 148h and that of its LDT, 0040, at 150h.
ghost use Rattle.std.specs.Prelude.{◌≡◌, false};

use super::gates::CAUSES;
use super::{Entry, Surroundings, bus_of, coded, event, kernel, push, put, user, usual};
use m386_base::ask::{Cycle, Role};
use m386_base::bus::Bus;
use m386_base::fault::{Break, Fault};
use m386_deliver::deliver::deliver;
use m386_memory::fixed::FixedBus;
use m386_state::event::{Cause, Event};
use m386_state::proc::{Proc, unusable};
use std::process::Abort;

/// The places of the new task's fields that the cases change.
const EIP: u32 = 0x220;

const CS: u32 = 0x24c;

const SS: u32 = 0x250;

const DS: u32 = 0x254;

/// The row, its name, two doublewords that are put into memory before, the vector and the selector that the code names, where it is none
/// 0 without EXT, and whether the new task is told.
type Line = (u8, &'static str, [(u32, u32); 2], u8, Option<u16>, bool);

/// The gate of vector 32, whose upper half has the selector.
const GATE: u32 = 0x100;

/// The descriptors 0018 and 0020, whose doublewords begin there.
const OTHER_CODE: u32 = 0x128;

const OTHER_STACK: u32 = 0x130;

/// Each row but the first, which no doubleword makes fail, and the fourth, which isn't asked.
const ROWS: [Line; 20] = [
    (
        2,
        "outside the GDT",
        [(GATE, 0x53_0000), (EIP, 0x40)],
        10,
        Some(0x50),
        false,
    ),
    (
        2,
        "of the LDT",
        [(GATE, 0x3c_0000), (EIP, 0x40)],
        10,
        Some(0x3c),
        false,
    ),
    (2, "null", [(GATE, 0), (EIP, 0x40)], 10, Some(0), false),
    (
        3,
        "a TSS of the 286",
        [(0x14c, 0x8100), (EIP, 0x40)],
        10,
        Some(0x38),
        false,
    ),
    (
        5,
        "a busy task",
        [(0x14c, 0x8b00), (EIP, 0x40)],
        10,
        Some(0x38),
        false,
    ),
    (
        6,
        "a TSS that isn't there",
        [(0x14c, 0x900), (EIP, 0x40)],
        11,
        Some(0x38),
        false,
    ),
    (
        7,
        "a short TSS",
        [(0x148, 0x0200_0066), (EIP, 0x40)],
        10,
        Some(0x38),
        false,
    ),
    (
        8,
        "a wrong LDT",
        [(0x154, 0x8100), (EIP, 0x40)],
        10,
        Some(0x40),
        true,
    ),
    (
        9,
        "an LDT that isn't there",
        [(0x154, 0x200), (EIP, 0x40)],
        10,
        Some(0x40),
        true,
    ),
    (
        10,
        "data as CS",
        [(CS, 0x10), (EIP, 0x40)],
        10,
        Some(0x10),
        true,
    ),
    (
        11,
        "CS of level 3",
        [(CS, 0x28), (EIP, 0x40)],
        10,
        Some(0x28),
        true,
    ),
    (
        12,
        "no CS",
        [(CS, 0x18), (OTHER_CODE + 4, 0x00cf_1b00)],
        11,
        Some(0x18),
        true,
    ),
    (13, "code as SS", [(SS, 8), (EIP, 0x40)], 10, Some(8), true),
    (
        14,
        "SS of level 3",
        [(SS, 0x30), (EIP, 0x40)],
        10,
        Some(0x30),
        true,
    ),
    (
        15,
        "no SS",
        [(SS, 0x20), (OTHER_STACK + 4, 0x00cf_1300)],
        12,
        Some(0x20),
        true,
    ),
    (
        16,
        "a TSS as DS",
        [(DS, 0x38), (EIP, 0x40)],
        10,
        Some(0x38),
        true,
    ),
    (
        17,
        "DS of level 0 by RPL 3",
        [(DS, 0x13), (EIP, 0x40)],
        10,
        Some(0x10),
        true,
    ),
    (
        18,
        "no DS",
        [(DS, 0x20), (OTHER_STACK + 4, 0x00cf_1300)],
        11,
        Some(0x20),
        true,
    ),
    (
        19,
        "EIP outside",
        [(CS, 0x18), (EIP, 0x1_0000)],
        13,
        None,
        true,
    ),
    (
        19,
        "EIP far outside",
        [(CS, 0x18), (EIP, 0xffff_ffff)],
        13,
        None,
        true,
    ),
];

/// A task gate of DPL 3 for vector 32, which names the task 0038.
fn task_gate() -> Surroundings {
    Surroundings {
        gate: Entry {
            low: 0x0038_0000,
            high: 0xe500,
        },
        code: Entry {
            low: 0xffff,
            high: 0x0040_9b00,
        },
        ..usual()
    }
}

/// A bus with the new task, where all rows hold: EIP 40h, EFLAGS 2, ESP 300h, CS 8, SS 10h, DS 10h and LDT 40h; and with these
/// doublewords in it.
fn world(first: (u32, u32), second: (u32, u32)) -> FixedBus<0x400>
    ensures free { (⟦<FixedBus<0x400> as Bus>⟧.view result).kept ≡ false }
{
    let mut bus = bus_of(&task_gate());
    put(&mut bus, 0x148, 0x0200_0067);
    put(&mut bus, 0x14c, 0x8900);
    put(&mut bus, 0x150, 0x0380_0007);
    put(&mut bus, 0x154, 0x8200);
    put(&mut bus, EIP, 0x40);
    put(&mut bus, 0x224, 2);
    put(&mut bus, 0x238, 0x300);
    put(&mut bus, CS, 8);
    put(&mut bus, SS, 0x10);
    put(&mut bus, DS, 0x10);
    put(&mut bus, 0x260, 0x40);
    put(&mut bus, first.0 % 0x3fd, first.1);
    put(&mut bus, second.0 % 0x3fd, second.1);
    bus
}

/// The state with the descriptors 0038 and 0040 inside the GDT.
fn with_table(p: Proc) -> Proc {
    let mut after = p;
    after.gdtr.limit = 0x47;
    after
}

/// The fault of a row: its code names a selector, with EXT, or is 0.
fn told(vector: u8, selector: Option<u16>, ext: u16) -> Fault {
    match selector {
        Some(selector) => coded(vector, selector | ext),
        None => coded(vector, 0),
    }
}

/// How many cycles are pushes.
fn pushes(bus: &FixedBus<0x400>) -> usize {
    bus.cycles()
        .iter()
        .filter(|cycle| cycle.ask.role == Role::Push)
        .count()
}

/// An event with the error code of 1234h.
fn with_error(cause: Cause) -> Event {
    Event {
        code: Some(0x1234),
        ..event(cause, 32)
    }
}

#[test]
fn each_row_fails_in_its_task_by_its_code(rt: HostRuntime) {
    for (row, name, [first, second], vector, selector, new) in ROWS {
        for (cause, ext) in CAUSES {
            let before = with_table(kernel());
            let mut p = before;
            let mut bus = world(first, second);
            let found = deliver(&mut p, &mut bus, with_error(cause));
            let fault = told(vector, selector, ext);
            assert_eq!(rt; found, Err(Break::Fault(fault)), "{row} {name} {cause:?}");
            assert_eq!(rt;
                p.tr.selector,
                if new { 0x38 } else { 0x3b },
                "{row} {name}"
            );
            assert!(rt; new || p == before, "{row} {name}");
            assert_eq!(rt; pushes(&bus), 0, "{row} {name}");
        }
    }
}

#[test]
fn without_a_task_no_other_is_entered(rt: HostRuntime) {
    for (cause, _) in CAUSES {
        let mut before = with_table(kernel());
        before.tr = unusable(0);
        let mut p = before;
        let mut bus = world((EIP, 0x40), (SS, 0x10));
        let found = deliver(&mut p, &mut bus, event(cause, 32));
        assert_eq!(rt; found, Err(Break::Fault(coded(13, 0))), "{cause:?}");
        assert_eq!(rt; p, before, "{cause:?}");
        assert_eq!(rt; bus.cycles().len(), 2, "{cause:?}");
    }
}

/// A delivery goes through to the new task, and ends in this cycle where it pushes a code.
fn enters(rt: &impl Abort, before: &Proc, e: Event, pushed: usize) {
    let mut p = *before;
    let mut bus = world((EIP, 0x40), (SS, 0x10));
    let found = deliver(&mut p, &mut bus, e);
    assert_eq!(rt; found, Ok(()), "{:?}", e.cause);
    let at = (p.tr.selector, p.eip, p.cpl(), p.eflags.0);
    assert_eq!(rt; at, (0x38, 0x40, 0, 0x4002), "{:?}", e.cause);
    assert_eq!(rt; pushes(&bus), pushed, "{:?}", e.cause);
    let last = bus.cycles().last().copied();
    let code = Cycle {
        cpu: 0,
        ask: push(0x2fc, 0x1234),
    };
    assert!(rt; pushed == 0 || last == Some(code), "{:?}", e.cause);
}

#[test]
fn the_task_of_a_gate_is_entered_from_each_level(rt: HostRuntime) {
    for before in [with_table(kernel()), with_table(user())] {
        for (cause, _) in CAUSES {
            enters(&rt, &before, event(cause, 32), 0);
            enters(&rt, &before, with_error(cause), 1);
        }
    }
}

#[test]
fn a_push_of_the_code_that_faults_is_told_in_the_new_task(rt: HostRuntime) {
    for (cause, _) in CAUSES {
        let mut p = with_table(kernel());
        // SS is 0020, with a limit of FFh, and ESP 300h.
        let mut bus = world((SS, 0x20), (OTHER_STACK, 0xff));
        put(&mut bus, OTHER_STACK + 4, 0x0040_9300);
        let found = deliver(&mut p, &mut bus, with_error(cause));
        assert_eq!(rt; found, Err(Break::Fault(coded(12, 0))), "{cause:?}");
        assert_eq!(rt; (p.tr.selector, p.eip), (0x38, 0x40), "{cause:?}");
        assert_eq!(rt; pushes(&bus), 0, "{cause:?}");
    }
}
