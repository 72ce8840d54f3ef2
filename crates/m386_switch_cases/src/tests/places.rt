//! Where task state segments and tables may lie: at odd addresses, across the ends of memory and of the addresses, over one another, and
//! a switch to the task itself; and a bus that stops.
use super::Change::{
    Access, Base, Field, GdtBase, Nothing, OldBase, OldEip, OldRegister, Selector,
};
use super::rows::{End, end_of, fails, passes};
use super::{
    ALL, ALL_USABLE, DS_AT, LDT_AT, NEW_TSS, OLD_TSS, SS_AT, WAYS, Way, World, bus_of, changed,
    comes_to, desc_of, entered, flat, seen, sound, with,
};
use m386_base::fault::Stop;
use m386_base::kind::SwitchKind;
use m386_memory::fixed::FixedBus;
use m386_state::proc::Proc;
use m386_switch::outcome::Outcome;
use m386_switch::switch::switch;
use std::process::Abort;

/// The place of a cycle in a switch, its letter, part, address, enables and value.
type Made = (usize, u8, u8, u32, u8, u32);

/// A whole switch from one world comes to a state, by the cycles of a head and a tail, among them these.
fn goes(
    rt: &impl Abort,
    w: &World,
    way: Way,
    after: &Proc,
    letters: (&'static str, &'static str),
    some: &[Made],
) {
    let bus = comes_to(rt, "a place", w, way, Outcome::Done, after, letters);
    has(rt, &bus, some);
}

/// These are among the cycles of a bus, at their places.
fn has(rt: &impl Abort, bus: &FixedBus<0x400>, some: &[Made]) {
    for (at, sort, part, addr, enables, value) in some.iter().copied() {
        let got = bus.cycles().get(at).map(|cycle| cycle.ask);
        let want = (sort, part, addr, enables, value);
        assert_eq!(rt; got.map(|a| seen(&a)), Some(want), "{at}");
    }
}

/// The cycles up to the last field with the old TSS at 201h and the new one at 283h.
fn odd_head(kind: SwitchKind) -> &'static str {
    match kind {
        SwitchKind::Jmp => { "tuJssssssssssssssssssssssssssqQffffffffffffffffffffffffffffffffffff" }
        SwitchKind::Call | SwitchKind::Event => {
            "tuCsssssssssssssssssssssssssskkffffffffffffffffffffffffffffffffffff"
        }
        SwitchKind::Iret => {
            "btussssssssssssssssssssssssssrRffffffffffffffffffffffffffffffffffff"
        }
        SwitchKind::Start => "tuSffffffffffffffffffffffffffffffffffff",
    }
}

/// Of a CALL between such tasks: EIP, ECX and ES saved, the link, and EIP, ES and the T bit's word loaded.
const ODD: [Made; 13] = [
    (3, b's', 8, 0x220, 0xe, 0x0101_0100),
    (4, b's', 8, 0x224, 1, 1),
    (9, b's', 11, 0x22c, 0xe, 0x100),
    (10, b's', 11, 0x230, 1, 0xa0),
    (23, b's', 18, 0x248, 6, 0x0011_1300),
    (29, b'k', 0, 0x280, 8, 0x0900_0000),
    (30, b'k', 0, 0x284, 1, 0),
    (31, b'f', 8, 0x2a0, 8, 0x4400_0000),
    (32, b'f', 8, 0x2a4, 7, 0),
    (51, b'f', 18, 0x2c8, 8, 0x0600_0000),
    (52, b'f', 18, 0x2cc, 1, 0),
    (65, b'f', 25, 0x2e4, 8, 0),
    (66, b'f', 25, 0x2e8, 1, 0),
];

#[test]
fn segments_of_tasks_may_be_at_odd_addresses(rt: HostRuntime) {
    for way in WAYS {
        let w = with(
            &sound(way.kind),
            [OldBase(0x201), Base(NEW_TSS, 0x283), Nothing],
        );
        let after = entered(&w, way.kind, ALL_USABLE);
        let some = match way.kind {
            SwitchKind::Call => ODD.as_slice(),
            SwitchKind::Jmp | SwitchKind::Event | SwitchKind::Iret | SwitchKind::Start => &[],
        };
        goes(&rt, &w, way, &after, (odd_head(way.kind), ALL), some);
    }
}

/// The cycles up to the last field with the GDT at 101h.
fn odd_table_head(kind: SwitchKind) -> &'static str {
    match kind {
        SwitchKind::Jmp => "tuuuJssssssssssssssssqQffffffffffffffffff",
        SwitchKind::Call | SwitchKind::Event => "tuuuCsssssssssssssssskffffffffffffffffff",
        SwitchKind::Iret => "btuuussssssssssssssssrRffffffffffffffffff",
        SwitchKind::Start => "tuuuSffffffffffffffffff",
    }
}

/// The cycles behind the last field with both tables at odd addresses.
const ODD_TABLES: &str = "ghhhghhhGghhhGghhhGlmmmLghhhGlmmmL";

/// Of a JMP over such tables: the descriptor of the TSS with its claim, the release, and CS.
const ODD_LINES: [Made; 12] = [
    (0, b't', 0, 0x110, 0xe, 0x8000_6700),
    (1, b'u', 3, 0x114, 1, 2),
    (2, b'u', 0, 0x114, 0xe, 0x00a9_0000),
    (3, b'u', 3, 0x118, 1, 0),
    (4, b'J', 0, 0x114, 4, 0x00ab_0000),
    (21, b'q', 0, 0x10c, 4, 0x00ab_0000),
    (22, b'Q', 0, 0x10c, 4, 0x00a9_0000),
    (45, b'g', 0, 0x120, 0xe, 0x00ff_ff00),
    (46, b'h', 3, 0x124, 1, 0),
    (47, b'h', 0, 0x124, 0xe, 0x40da_0000),
    (48, b'h', 3, 0x128, 1, 0),
    (49, b'G', 0, 0x124, 4, 0x00db_0000),
];

#[test]
fn tables_may_be_at_odd_addresses(rt: HostRuntime) {
    for way in WAYS {
        let w = with(
            &sound(way.kind),
            [GdtBase(0x101), Base(LDT_AT, 0x159), Nothing],
        );
        let after = entered(&w, way.kind, ALL_USABLE);
        let some = match way.kind {
            SwitchKind::Jmp => ODD_LINES.as_slice(),
            SwitchKind::Call | SwitchKind::Event | SwitchKind::Iret | SwitchKind::Start => &[],
        };
        goes(
            &rt,
            &w,
            way,
            &after,
            (odd_table_head(way.kind), ODD_TABLES),
            some,
        );
    }
}

/// Row 8 fails by an LDT selector of ones, before any descriptor was read.
fn of_ones() -> End {
    end_of((8, 0, 10, 10, 0xfffc), "", 0)
}

#[test]
fn what_lies_past_memory_is_read_as_ones(rt: HostRuntime) {
    for way in WAYS {
        // FS and what follows it lie past the end.
        let crossing = with(
            &changed(&sound(way.kind), Base(NEW_TSS, 0x3a8)),
            [Field(22, 0xffff), Field(23, 0xffff), Field(24, 0xffff)],
        );
        fails(&rt, "it crosses the end", &crossing, way, &of_ones());
        let mut past = changed(&sound(way.kind), Base(NEW_TSS, 0x1000));
        past.fields = [0xffff_ffff; 26];
        fails(&rt, "it lies past the end", &past, way, &of_ones());
    }
}

#[test]
fn what_is_saved_past_memory_is_lost(rt: HostRuntime) {
    for way in WAYS {
        let crossing = changed(&sound(way.kind), OldBase(0x3a8));
        passes(&rt, "it crosses the end", &crossing, way, ALL, ALL_USABLE);
        let past = changed(&sound(way.kind), OldBase(0x1000));
        let no_link = end_of((2, 0, 13, 10, 0xfffc), "", 0);
        match way.kind {
            SwitchKind::Iret => fails(&rt, "a link of ones", &past, way, &no_link),
            SwitchKind::Jmp | SwitchKind::Call | SwitchKind::Event | SwitchKind::Start => {
                passes(&rt, "it lies past the end", &past, way, ALL, ALL_USABLE);
            }
        }
    }
}

#[test]
fn addresses_go_on_at_zero(rt: HostRuntime) {
    for way in WAYS {
        // EIP is at 0, and the link at FFFFFFE0h, where no memory is.
        let w = changed(&sound(way.kind), Base(NEW_TSS, 0xffff_ffe0));
        passes(&rt, "the new task", &w, way, ALL, ALL_USABLE);
    }
}

/// The state in which a task is left whose ESI, EDI and segment registers lie where the new task has EIP, EFLAGS and the others.
fn over(kind: SwitchKind) -> World {
    with(
        &sound(kind),
        [
            Base(NEW_TSS, 0x220),
            OldRegister(6, 0x44),
            OldRegister(7, 0x0246),
        ],
    )
}

#[test]
fn what_was_saved_is_loaded_from_a_segment_over_the_old_one(rt: HostRuntime) {
    for way in WAYS {
        let w = over(way.kind);
        // The upper halves are those of the fields that were there.
        let mut want = w;
        want.fields[8] = 0x44;
        want.fields[9] = 0x0246;
        want.fields[10] = 0xb000_1113;
        want.fields[11] = 0xb000_2221;
        want.fields[12] = 0xb000_3331;
        want.fields[13] = 0xb000_4443;
        want.fields[14] = 0xb000_5553;
        want.fields[15] = 0xb000_6663;
        if way.kind == SwitchKind::Start {
            // A start saves nothing.
            passes(&rt, "a start", &w, way, ALL, ALL_USABLE);
        } else {
            let after = entered(&want, way.kind, ALL_USABLE);
            goes(&rt, &w, way, &after, (super::head(way.kind), ALL), &[]);
        }
    }
}

/// A task at level 2 whose own TSS, of level 3, is named, and whose registers name sound descriptors.
fn itself(kind: SwitchKind) -> World {
    let own = changed(&sound(kind), Access(OLD_TSS, 0x40));
    let w = with(&own, [Base(NEW_TSS, 0x200), Selector(9), OldEip(0x44)]);
    let segs = [
        flat(6, 0xfb),
        flat(0x22, 0xdb),
        flat(0x2a, 0xd3),
        flat(0x32, 0xd3),
        flat(0x41, 0x9f),
        flat(0xd, 0xd1),
    ];
    let before = Proc { segs, ..w.before };
    World { before, ..w }
}

/// The state behind such a switch: registers as before, and the flags as they were saved, with NT by the kind.
fn back_in(w: &World, kind: SwitchKind, flags: u32) -> Proc {
    let mut want = *w;
    want.fields[9] = flags;
    for (number, value) in w.before.regs.iter().enumerate() {
        want.fields[(number + 10) % 26] = *value;
    }
    entered(&want, kind, ALL_USABLE)
}

#[test]
fn a_busy_task_is_its_own_target_for_iret_alone(rt: HostRuntime) {
    for way in WAYS {
        let w = itself(way.kind);
        match way.kind {
            SwitchKind::Iret => {
                let after = back_in(&w, SwitchKind::Iret, 0xed7);
                let some = [
                    (0, b'b', 0, 0x200, 3, 9),
                    (1, b't', 0, 0x108, 15, 0x0200_0067),
                    (2, b'u', 0, 0x10c, 15, 0xeb00),
                    (19, b'r', 0, 0x10c, 2, 0xeb00),
                    (20, b'R', 0, 0x10c, 2, 0xe900),
                ];
                goes(&rt, &w, way, &after, (super::head(way.kind), ALL), &some);
            }
            SwitchKind::Jmp | SwitchKind::Call | SwitchKind::Event | SwitchKind::Start => {
                fails(
                    &rt,
                    "it is busy",
                    &w,
                    way,
                    &end_of((5, 0, 13, 10, 8), "", 0),
                );
            }
        }
    }
}

#[test]
fn a_task_that_isnt_marked_may_go_to_itself(rt: HostRuntime) {
    for (kind, some) in [
        (
            SwitchKind::Jmp,
            [
                (2, b'J', 0, 0x10c, 2, 0xeb00),
                (19, b'q', 0, 0x10c, 2, 0xeb00),
                (20, b'Q', 0, 0x10c, 2, 0xe900),
            ],
        ),
        (
            SwitchKind::Call,
            [
                (2, b'C', 0, 0x10c, 2, 0xeb00),
                (19, b'k', 0, 0x200, 3, 9),
                (20, b'f', 8, 0x220, 15, 0x44),
            ],
        ),
    ] {
        let way = Way {
            kind,
            direct: true,
            ext: false,
        };
        let w = changed(&itself(kind), Access(OLD_TSS, 2));
        let after = back_in(&w, kind, 0x4ed7);
        goes(&rt, &w, way, &after, (super::head(kind), ALL), &some);
    }
}

#[test]
fn a_descriptor_is_read_anew_for_each_register(rt: HostRuntime) {
    for way in WAYS {
        // DS names the descriptor of SS, which has its accessed bit by then.
        let w = changed(&sound(way.kind), Field(21, 0x2a));
        let mut after = entered(&w, way.kind, ALL_USABLE);
        after.segs[3].desc = desc_of(&changed(&w, Access(SS_AT, 1)), SS_AT);
        let letters = (super::head(way.kind), "ghghGghGghlmLghGlmL");
        goes(&rt, &w, way, &after, letters, &[]);
    }
}

#[test]
fn a_stop_leaves_the_state(rt: HostRuntime) {
    let w = changed(&sound(SwitchKind::Iret), Access(DS_AT, 1));
    let mut bus = bus_of(&w);
    let mut p = w.before;
    let first = switch(&mut p, &mut bus, SwitchKind::Iret, 0, true, false);
    assert_eq!(rt; first, Ok(Outcome::Done));
    p = w.before;
    let second = switch(&mut p, &mut bus, SwitchKind::Iret, 0, true, false);
    assert_eq!(rt; second, Ok(Outcome::Done));
    p = w.before;
    let third = switch(&mut p, &mut bus, SwitchKind::Iret, 0, true, false);
    assert_eq!(rt; third, Ok(Outcome::Done));
    p = w.before;
    let fourth = switch(&mut p, &mut bus, SwitchKind::Iret, 0, true, false);
    assert_eq!(rt; fourth, Err(Stop::Paused));
    assert_eq!(rt; p, w.before);
    assert_eq!(rt; bus.cycles().len(), 192);
}
