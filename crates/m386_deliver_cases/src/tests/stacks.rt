//! The change to an inner stack, which fails at each of its rules, and frames that don't fit.
use super::gates::CAUSES;
use super::{
    CODE_3, DATA_0, DATA_3, Entry, Surroundings, bus_of, coded, event, fails, joined, makes, read,
    user, usual, with_task, without_task,
};
use m386_base::ask::Role;
use m386_base::fault::Break;
use m386_deliver::deliver::deliver;
use m386_state::event::Cause;
use std::process::Abort;

/// SS0, the descriptor 0020, the cycles behind the four of the gate and the code, and the fault: its vector, its error code, and
/// whether that has EXT.
#[derive(Clone, Copy)]
struct StackRow {
    name: &'static str,
    ss0: u32,
    stack: Entry,
    cycles: usize,
    vector: u8,
    error: u16,
    named: bool,
}

/// A descriptor of whole data or code with this access byte.
fn segment(access: u8) -> Entry {
    Entry {
        low: 0xffff,
        high: 0x00cf_0000 + u32::from(access) * 0x100,
    }
}

#[test]
fn the_task_names_a_stack(rt: HostRuntime) {
    let w = usual();
    let none = without_task(&user());
    let short = with_task(&user(), 0x3b, 8);
    for (cause, ext) in CAUSES {
        fails(&rt, "no task", &w, &none, event(cause, 32), 4, coded(10, 0));
        fails(
            &rt,
            "a short TSS",
            &w,
            &short,
            event(cause, 32),
            4,
            coded(10, 0x38 + ext % 2),
        );
    }
}

#[test]
fn the_inner_stack_passes_its_rules_in_order(rt: HostRuntime) {
    let rows = [
        StackRow {
            name: "null",
            ss0: 3,
            stack: DATA_0,
            cycles: 2,
            vector: 10,
            error: 0,
            named: false,
        },
        StackRow {
            name: "past the limit of the GDT",
            ss0: 0x38,
            stack: DATA_0,
            cycles: 2,
            vector: 10,
            error: 0x38,
            named: true,
        },
        StackRow {
            name: "in an LDT that isn't there",
            ss0: 0x24,
            stack: DATA_0,
            cycles: 2,
            vector: 10,
            error: 0x24,
            named: true,
        },
        StackRow {
            name: "of RPL 3",
            ss0: 0x23,
            stack: DATA_0,
            cycles: 4,
            vector: 10,
            error: 0x20,
            named: true,
        },
        StackRow {
            name: "of DPL 3",
            ss0: 0x20,
            stack: DATA_3,
            cycles: 4,
            vector: 10,
            error: 0x20,
            named: true,
        },
        StackRow {
            name: "that can't be written",
            ss0: 0x20,
            stack: segment(0x91),
            cycles: 4,
            vector: 10,
            error: 0x20,
            named: true,
        },
        StackRow {
            name: "code",
            ss0: 0x20,
            stack: segment(0x9b),
            cycles: 4,
            vector: 10,
            error: 0x20,
            named: true,
        },
        StackRow {
            name: "not present and not writable",
            ss0: 0x20,
            stack: segment(0x11),
            cycles: 4,
            vector: 10,
            error: 0x20,
            named: true,
        },
        StackRow {
            name: "not present and of DPL 3",
            ss0: 0x20,
            stack: segment(0x73),
            cycles: 4,
            vector: 10,
            error: 0x20,
            named: true,
        },
        StackRow {
            name: "not present",
            ss0: 0x20,
            stack: segment(0x12),
            cycles: 4,
            vector: 12,
            error: 0x20,
            named: true,
        },
        StackRow {
            name: "with room for no push, behind the accessed byte",
            ss0: 0x20,
            stack: Entry {
                low: 0x02fa,
                high: 0x0040_9200,
            },
            cycles: 5,
            vector: 12,
            error: 0,
            named: false,
        },
        StackRow {
            name: "that expands downward, with room for two pushes",
            ss0: 0x20,
            stack: Entry {
                low: 0x02f7,
                high: 0x0040_9700,
            },
            cycles: 6,
            vector: 12,
            error: 0,
            named: false,
        },
    ];
    for row in &rows {
        let w = Surroundings {
            stack: row.stack,
            ss0: row.ss0,
            ..usual()
        };
        for (cause, ext) in CAUSES {
            let added = if row.named { ext % 2 } else { 0 };
            let fault = coded(row.vector, row.error / 2 * 2 + added);
            fails(
                &rt,
                row.name,
                &w,
                &user(),
                event(cause, 32),
                4 + row.cycles % 16,
                fault,
            );
        }
    }
}

#[test]
fn an_offset_is_tested_behind_the_stack(rt: HostRuntime) {
    let w = Surroundings {
        code: Entry {
            low: 0x0043,
            high: 0x0040_9b00,
        },
        ..usual()
    };
    for (cause, _) in CAUSES {
        fails(
            &rt,
            "an offset past the limit",
            &w,
            &user(),
            event(cause, 32),
            8,
            coded(13, 0),
        );
    }
}

#[test]
fn the_same_level_keeps_its_stack(rt: HostRuntime) {
    let w = Surroundings {
        code: CODE_3,
        stack: DATA_3,
        ..usual()
    };
    let mut p = without_task(&user());
    p.regs[4] = 9;
    fails(
        &rt,
        "a third push that passes the last offset",
        &w,
        &p,
        event(Cause::External, 32),
        8,
        coded(12, 0),
    );
}

#[test]
fn each_inner_level_has_its_fields(rt: HostRuntime) {
    // The code's access byte, the greatest limit of a TSS that is too short, and the places and values of ESP and SS.
    let rows = [
        (
            0x9b00,
            8,
            read(Role::Inner, 1, 0x184, 15, 0x300),
            read(Role::Inner, 2, 0x188, 3, 3),
        ),
        (
            0xbb00,
            16,
            read(Role::Inner, 3, 0x18c, 15, 0),
            read(Role::Inner, 4, 0x190, 3, 0),
        ),
        (
            0xdb00,
            24,
            read(Role::Inner, 5, 0x194, 15, 0),
            read(Role::Inner, 6, 0x198, 3, 0),
        ),
    ];
    for (access, short, esp, ss) in rows {
        let w = Surroundings {
            code: Entry {
                low: 0xffff,
                high: 0x00cf_0000 + access % 0x1_0000,
            },
            ss0: 3,
            ..usual()
        };
        let e = event(Cause::External, 32);
        let before = with_task(&user(), 0x3b, short % 0x100);
        fails(&rt, "a short TSS", &w, &before, e, 4, coded(10, 0x39));
        let before = with_task(&user(), 0x3b, short % 0x100 + 1);
        let mut p = before;
        let mut bus = bus_of(&w);
        assert_eq!(rt;
            deliver(&mut p, &mut bus, e),
            Err(Break::Fault(coded(10, 0)))
        );
        assert_eq!(rt; p, before);
        let cycles = [
            read(Role::Idt, 0, 0x100, 15, 0x0018_0044),
            joined(read(Role::Idt, 0, 0x104, 15, 0xee00)),
            read(Role::Gdt, 0, 0x128, 15, 0xffff),
            joined(read(Role::Gdt, 0, 0x12c, 15, w.code.high)),
            esp,
            ss,
        ];
        makes(&rt, "a null stack", &bus, &cycles);
    }
}
