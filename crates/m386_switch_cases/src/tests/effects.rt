//! The table of effects, line by line: busy bits, NT, the back link, TS and the T bit, of switches that are whole and of those that fail in
//! the new task.
use super::{Change, GS_AT, LDT_AT, NEW_TSS, Ran, Way, changed, sound, switched};
use m386_base::ask::Role;
use m386_base::kind::SwitchKind;
use m386_memory::fixed::FixedBus;
use m386_state::event::{Cause, Event};
use m386_switch::outcome::Outcome;

/// What is written of the tasks' links and busy bits, and of the old flags.
#[derive(Clone, Copy, Debug, PartialEq, Eq)]
enum Effect {
    /// Byte 5 of the new TSS's descriptor.
    Incoming,
    /// Byte 5 of the old TSS's descriptor.
    Outgoing,
    /// The new task's back link.
    Link,
    /// The old task's flags.
    SavedFlags,
}

/// The effect that a write has.
fn effect_of(role: Role, part: u8) -> Option<Effect> {
    match (role, part) {
        (Role::ClaimJmp | Role::ClaimCall | Role::ClaimStart | Role::ClaimLtr, _) => {
            Some(Effect::Incoming)
        }
        (Role::RelJmp | Role::RelRet, _) => Some(Effect::Outgoing),
        (Role::Link, _) => Some(Effect::Link),
        (Role::Save, 9) => Some(Effect::SavedFlags),
        _ => None,
    }
}

/// The values that were written with an effect: the last one, and how many there are.
fn written(bus: &FixedBus<0x400>, which: Effect) -> (Option<u32>, u32) {
    let mut found = (None, 0);
    for cycle in bus.cycles() {
        let ask = cycle.ask;
        if ask.write && effect_of(ask.role, ask.part) == Some(which) {
            found = (Some(ask.value), found.1 % 1000 + 1);
        }
    }
    found
}

/// One write of a value, or none.
fn once(value: Option<u32>) -> (Option<u32>, u32) {
    (value, if value.is_some() { 1 } else { 0 })
}

/// A kind; byte 5 of the incoming descriptor and of the outgoing one as they are written, in the second byte of their group; the back
/// link; NT of the new task where its image has 0 and where it has 1; and NT of the old task as it is saved, likewise.
type Line = (
    SwitchKind,
    Option<u32>,
    Option<u32>,
    Option<u32>,
    [u32; 2],
    Option<[u32; 2]>,
);

/// The table of effects. The incoming TSS is available, 0xa9, but for IRET, and the outgoing one busy, 0xab.
const EFFECTS: [Line; 5] = [
    (
        SwitchKind::Jmp,
        Some(0xab00),
        Some(0xa900),
        None,
        [0, 0],
        Some([0, 0x4000]),
    ),
    (
        SwitchKind::Call,
        Some(0xab00),
        None,
        Some(9),
        [0x4000, 0x4000],
        Some([0, 0x4000]),
    ),
    (
        SwitchKind::Event,
        Some(0xab00),
        None,
        Some(9),
        [0x4000, 0x4000],
        Some([0, 0x4000]),
    ),
    (
        SwitchKind::Iret,
        None,
        Some(0xa900),
        None,
        [0, 0x4000],
        Some([0, 0]),
    ),
    (SwitchKind::Start, Some(0xab00), None, None, [0, 0], None),
];

/// What lets a switch be whole, and what lets it fail at the first row of the new task, at a later one and at the last.
const CHANGES: [Change; 4] = [
    Change::Nothing,
    Change::Access(LDT_AT, 1),
    Change::Access(GS_AT, 0x80),
    Change::Field(8, 0x1_0000),
];

/// The trap field with the map's base above it, and whether the T bit, bit 0, is set.
const TRAPS: [(u32, bool); 5] = [
    (0x68_0000, false),
    (0x68_0001, true),
    (0x69_0000, false),
    (0xffff_fffe, false),
    (0xffff_ffff, true),
];

/// The exception of the T bit: vector 1, without an error code.
const DEBUG: Event = Event {
    vector: 1,
    code: None,
    cause: Cause::Exception,
};

/// CR0 before and after.
const CONTROLS: [(u32, u32); 3] = [(1, 9), (7, 0xf), (9, 9)];

/// A switch of this kind by itself.
fn direct(kind: SwitchKind) -> Way {
    Way {
        kind,
        direct: true,
        ext: false,
    }
}

#[test]
fn each_kind_has_its_line_of_effects(rt: HostRuntime) {
    for (kind, incoming, outgoing, link, nt, saved) in EFFECTS {
        for change in CHANGES {
            for (old, image) in [(0, 0), (0, 1), (1, 0), (1, 1)] {
                let flags = changed(
                    &changed(&sound(kind), change),
                    Change::OldFlags(0xed7 + old as u32 % 2 * 0x4000),
                );
                let w = changed(&flags, Change::Field(9, 0x3302 + image as u32 % 2 * 0x4000));
                let Ran { found, after, bus } = switched(&w, direct(kind));
                let told = matches!(found, Ok(Outcome::Done | Outcome::New(_)));
                assert!(rt; told, "{kind:?} {change:?}");
                assert_eq!(rt; written(&bus, Effect::Incoming), once(incoming), "{kind:?}");
                assert_eq!(rt; written(&bus, Effect::Outgoing), once(outgoing), "{kind:?}");
                assert_eq!(rt; written(&bus, Effect::Link), once(link), "{kind:?}");
                let flags = saved.map(|nt| 0xed7 | nt[old % 2]);
                assert_eq!(rt;
                    written(&bus, Effect::SavedFlags),
                    once(flags),
                    "{kind:?} {old}"
                );
                assert_eq!(rt; after.eflags.0, 0x3302 | nt[image % 2], "{kind:?} {image}");
            }
        }
    }
}

#[test]
fn ts_is_set_by_each_kind(rt: HostRuntime) {
    for (kind, _, _, _, _, _) in EFFECTS {
        for change in CHANGES {
            for (old, new) in CONTROLS {
                let mut w = changed(&sound(kind), change);
                w.before.cr0 = old;
                let Ran { found, after, .. } = switched(&w, direct(kind));
                assert!(rt; found.is_ok(), "{kind:?}");
                assert_eq!(rt; after.cr0, new, "{kind:?} {change:?}");
            }
        }
    }
}

#[test]
fn vector_1_is_pending_where_all_rows_hold_and_the_t_bit_is_set(rt: HostRuntime) {
    for (kind, _, _, _, _, _) in EFFECTS {
        for change in CHANGES.iter().chain(&[Change::Limit(NEW_TSS, 0x66)]) {
            for (field, set) in TRAPS {
                let w = changed(&changed(&sound(kind), *change), Change::Field(25, field));
                let Ran { found, after, .. } = switched(&w, direct(kind));
                let whole = matches!(change, Change::Nothing);
                let pending = if whole && set { Some(DEBUG) } else { None };
                assert_eq!(rt; found == Ok(Outcome::Done), whole, "{kind:?} {change:?}");
                assert_eq!(rt; after.pending, pending, "{kind:?} {change:?} {field:x}");
            }
        }
    }
}
