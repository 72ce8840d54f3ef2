//! The rules of a gate and of the code that it leads to, in their order.
use super::{
    CODE_0, CODE_3, DATA_0, Entry, Surroundings, coded, event, fails, kernel, user, usual,
};
use m386_state::event::Cause;
use std::process::Abort;

/// Each cause of an event, and the EXT bit that it sets.
pub(super) const CAUSES: [(Cause, u16); 3] = [
    (Cause::Soft, 0),
    (Cause::Exception, 1),
    (Cause::External, 1),
];

/// The access byte of a gate, and whether a gate of this byte passes for INT n at level 3, INT n at level 0, and any other event; else
/// the vector of its fault.
const GATES: [(u8, Option<u8>, Option<u8>, Option<u8>); 32] = [
    (0xee, None, None, None),
    (0xef, None, None, None),
    (0x8e, Some(13), None, None),
    (0x8f, Some(13), None, None),
    (0xae, Some(13), None, None),
    (0xce, Some(13), None, None),
    (0xcf, Some(13), None, None),
    (0x6e, Some(11), Some(11), Some(11)),
    (0x6f, Some(11), Some(11), Some(11)),
    (0x0e, Some(13), Some(11), Some(11)),
    (0x4f, Some(13), Some(11), Some(11)),
    (0xe0, Some(13), Some(13), Some(13)),
    (0xe1, Some(13), Some(13), Some(13)),
    (0xe2, Some(13), Some(13), Some(13)),
    (0xe3, Some(13), Some(13), Some(13)),
    (0xe4, Some(13), Some(13), Some(13)),
    (0x05, Some(13), Some(11), Some(11)),
    (0xe6, Some(13), Some(13), Some(13)),
    (0xe7, Some(13), Some(13), Some(13)),
    (0xe8, Some(13), Some(13), Some(13)),
    (0xe9, Some(13), Some(13), Some(13)),
    (0xea, Some(13), Some(13), Some(13)),
    (0xeb, Some(13), Some(13), Some(13)),
    (0xec, Some(13), Some(13), Some(13)),
    (0xed, Some(13), Some(13), Some(13)),
    (0x65, Some(11), Some(11), Some(11)),
    (0x6c, Some(13), Some(13), Some(13)),
    (0xfe, Some(13), Some(13), Some(13)),
    (0xff, Some(13), Some(13), Some(13)),
    (0xf3, Some(13), Some(13), Some(13)),
    (0xfb, Some(13), Some(13), Some(13)),
    (0x7f, Some(13), Some(13), Some(13)),
];

/// A gate that passes leads to a null selector here, which is #GP(0) whatever the cause.
fn gate(access: u8) -> Surroundings {
    Surroundings {
        gate: Entry {
            low: 0x0003_0044,
            high: u32::from(access) * 0x100,
        },
        ..usual()
    }
}

/// The fault of a row: it names the entry of vector 32, whose place is 100h.
fn fault_of(row: Option<u8>, ext: u16) -> (u8, u16) {
    match row {
        Some(vector) => (vector, 0x102 + ext % 2),
        None => (13, 0),
    }
}

#[test]
fn a_gate_passes_by_its_type_its_level_and_its_presence(rt: HostRuntime) {
    for (access, of_level_3, of_level_0, other) in GATES {
        let w = gate(access);
        for (cause, ext) in CAUSES {
            let inner = match cause {
                Cause::Soft => of_level_0,
                Cause::Exception | Cause::External => other,
            };
            let outer = match cause {
                Cause::Soft => of_level_3,
                Cause::Exception | Cause::External => other,
            };
            let (vector, code) = fault_of(inner, ext);
            fails(
                &rt,
                "at level 0",
                &w,
                &kernel(),
                event(cause, 32),
                2,
                coded(vector, code),
            );
            let (vector, code) = fault_of(outer, ext);
            fails(
                &rt,
                "at level 3",
                &w,
                &user(),
                event(cause, 32),
                2,
                coded(vector, code),
            );
        }
    }
}

#[test]
fn an_entry_lies_inside_the_limit(rt: HostRuntime) {
    let w = Surroundings {
        vector: 13,
        gate: gate(0x8e).gate,
        ..usual()
    };
    for (cause, ext) in CAUSES {
        let mut p = kernel();
        p.idtr.limit = 0x6e;
        fails(
            &rt,
            "one byte short",
            &w,
            &p,
            event(cause, 13),
            0,
            coded(13, 0x6a + ext % 2),
        );
        p.idtr.limit = 0x6f;
        fails(&rt, "whole", &w, &p, event(cause, 13), 2, coded(13, 0));
        fails(
            &rt,
            "past it",
            &w,
            &p,
            event(cause, 255),
            0,
            coded(13, 0x7fa + ext % 2),
        );
    }
}

/// A gate's selector, the descriptor 0018, the cycles behind the gate's two, and the fault: its vector, its error code, and whether
/// that has EXT.
#[derive(Clone, Copy)]
struct CodeRow {
    name: &'static str,
    selector: u16,
    code: Entry,
    cycles: usize,
    vector: u8,
    error: u16,
    named: bool,
}

/// A descriptor of whole code or data with this access byte and these flags.
fn segment(access: u8, flags: u8) -> Entry {
    Entry {
        low: 0xffff,
        high: 0x000f_0000 + u32::from(flags % 16) * 0x10_0000 + u32::from(access) * 0x100,
    }
}

#[test]
fn the_code_passes_its_rules_in_order(rt: HostRuntime) {
    let rows = [
        CodeRow {
            name: "null",
            selector: 0,
            code: CODE_0,
            cycles: 0,
            vector: 13,
            error: 0,
            named: false,
        },
        CodeRow {
            name: "null with RPL 3",
            selector: 3,
            code: CODE_0,
            cycles: 0,
            vector: 13,
            error: 0,
            named: false,
        },
        CodeRow {
            name: "in an LDT that isn't there",
            selector: 4,
            code: CODE_0,
            cycles: 0,
            vector: 13,
            error: 4,
            named: true,
        },
        CodeRow {
            name: "past the limit of the GDT",
            selector: 0x3b,
            code: CODE_0,
            cycles: 0,
            vector: 13,
            error: 0x38,
            named: true,
        },
        CodeRow {
            name: "data",
            selector: 0x18,
            code: DATA_0,
            cycles: 2,
            vector: 13,
            error: 0x18,
            named: true,
        },
        CodeRow {
            name: "code of 16 bits",
            selector: 0x19,
            code: segment(0x9b, 8),
            cycles: 2,
            vector: 13,
            error: 0x18,
            named: true,
        },
        CodeRow {
            name: "a call gate",
            selector: 0x18,
            code: segment(0x8c, 0xc),
            cycles: 2,
            vector: 13,
            error: 0x18,
            named: true,
        },
        CodeRow {
            name: "of an outer level",
            selector: 0x1b,
            code: CODE_3,
            cycles: 2,
            vector: 13,
            error: 0x18,
            named: true,
        },
        CodeRow {
            name: "conforming, of an outer level",
            selector: 0x18,
            code: segment(0xbf, 0xc),
            cycles: 2,
            vector: 13,
            error: 0x18,
            named: true,
        },
        CodeRow {
            name: "of an outer level and not present",
            selector: 0x18,
            code: segment(0x7b, 0xc),
            cycles: 2,
            vector: 13,
            error: 0x18,
            named: true,
        },
        CodeRow {
            name: "data that isn't present",
            selector: 0x18,
            code: segment(0x13, 0xc),
            cycles: 2,
            vector: 13,
            error: 0x18,
            named: true,
        },
        CodeRow {
            name: "not present",
            selector: 0x1b,
            code: segment(0x1a, 0xc),
            cycles: 2,
            vector: 11,
            error: 0x18,
            named: true,
        },
        CodeRow {
            name: "an offset past the limit, behind the accessed byte",
            selector: 0x18,
            code: Entry {
                low: 0x0043,
                high: 0x0040_9a00,
            },
            cycles: 3,
            vector: 13,
            error: 0,
            named: false,
        },
    ];
    for row in &rows {
        let w = Surroundings {
            gate: Entry {
                low: u32::from(row.selector) * 0x1_0000 + 0x44,
                high: 0x8e00,
            },
            code: row.code,
            ..usual()
        };
        for (cause, ext) in CAUSES {
            let added = if row.named { ext % 2 } else { 0 };
            let fault = coded(row.vector, row.error / 2 * 2 + added);
            fails(
                &rt,
                row.name,
                &w,
                &kernel(),
                event(cause, 32),
                2 + row.cycles % 16,
                fault,
            );
        }
    }
}
