//! LTR: its rules in order, its claim, and what it leaves.
use super::Change::{Access, GdtLimit, Limit, NoTask, Nothing};
use super::{Change, NEW_TSS, bus_of, changed, desc_of, letter, sound};
use m386_base::fault::{Break, Fault};
use m386_base::kind::SwitchKind;
use m386_state::segment::Seg;
use m386_switch::ltr::ltr;

/// A name, what is changed, the selector, and the vector and error code of the fault, with vector 0 where there is none; and the cycles.
type Case = (&'static str, Change, u16, (u8, u16), &'static str);

/// Each rule broken alone, two of which the earlier is told, and what breaks none.
const CASES: [Case; 17] = [
    ("a task", Nothing, 0x11, (0, 0), "ghT"),
    ("the first one", NoTask, 0x11, (0, 0), "ghT"),
    ("a short one", Limit(NEW_TSS, 0), 0x11, (0, 0), "ghT"),
    ("the last of the GDT", GdtLimit(0x57), 0x53, (0, 0), "ghT"),
    ("null", Nothing, 0, (13, 0), ""),
    ("null with RPL", Nothing, 3, (13, 0), ""),
    ("of the LDT", Nothing, 0x15, (13, 0x14), ""),
    ("outside the GDT", Nothing, 0x51, (13, 0x50), ""),
    ("the busy one", Nothing, 9, (13, 8), "gh"),
    ("a busy one", Access(NEW_TSS, 2), 0x11, (13, 0x10), "gh"),
    ("of the 286", Access(NEW_TSS, 8), 0x12, (13, 0x10), "gh"),
    ("code", Access(NEW_TSS, 0x10), 0x11, (13, 0x10), "gh"),
    ("a task gate", Access(NEW_TSS, 0xc), 0x11, (13, 0x10), "gh"),
    ("an LDT", Nothing, 0x1a, (13, 0x18), "gh"),
    ("not there", Access(NEW_TSS, 0x80), 0x13, (11, 0x10), "gh"),
    (
        "busy and not there",
        Access(NEW_TSS, 0x82),
        0x11,
        (13, 0x10),
        "gh",
    ),
    ("the last but a byte", GdtLimit(0x16), 0x11, (13, 0x10), ""),
];

#[test]
fn ltr_claims_a_task_by_its_rules(rt: HostRuntime) {
    for (name, change, selector, (vector, code), letters) in CASES {
        let w = changed(&sound(SwitchKind::Jmp), change);
        let mut p = w.before;
        let mut bus = bus_of(&w);
        let found = ltr(&mut p, &mut bus, selector);
        let mut after = w.before;
        let fault = Fault {
            vector,
            code: Some(code),
        };
        let wanted = if vector == 0 {
            after.tr = Seg {
                selector,
                usable: true,
                desc: desc_of(&w, (selector / 8 % 13) as u8),
            };
            Ok(())
        } else {
            Err(Break::Fault(fault))
        };
        assert_eq!(rt; found, wanted, "{name}");
        assert_eq!(rt; p, after, "{name}");
        assert_eq!(rt; bus.cycles().len(), letters.as_bytes().len(), "{name}");
        for (cycle, want) in bus.cycles().iter().zip(letters.as_bytes()) {
            assert_eq!(rt; letter(&cycle.ask), *want, "{name}");
        }
    }
}

#[test]
fn the_claim_of_ltr_is_one_byte(rt: HostRuntime) {
    let w = sound(SwitchKind::Jmp);
    let mut p = w.before;
    let mut bus = bus_of(&w);
    assert_eq!(rt; ltr(&mut p, &mut bus, 0x11), Ok(()));
    let claim = bus.cycles().get(2).map(|cycle| cycle.ask);
    let seen = claim.map(|ask| (ask.part, ask.addr, ask.enables, ask.value));
    assert_eq!(rt; seen, Some((0, 0x114, 2, 0xab00)));
}
