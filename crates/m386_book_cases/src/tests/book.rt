//! Books: one history for each line of what a cycle moves.
use super::{booked, byte_written, cycle_of, empty_image};
use m386_base::ask::{Cycle, Role};
use m386_base::fault::NoMemory;
use m386_book::holding::Holding;
use std::alloc::Global;

/// The base and the limit of the GDT: room for the descriptors 1 to 5.
const BASE: u32 = 0x2000;

const LIMIT: u16 = 0x2f;

/// One write of a history: the processor, the role, and the selector of the task whose access byte it writes.
type Step = (u8, Role, u32);

/// A step that moves nothing.
const REST: Step = (0, Role::Save, 0x18);

/// A history, and what its book says: what the processors 0 and 1 hold, who waits by whom, and whose links are live; 0 for
/// none.
struct History {
    shows: &'static str,
    steps: [Step; 6],
    held: [u16; 2],
    waiting: [(u16, u16); 2],
    live: [u16; 2],
}

static HISTORIES: [History; 22] = [
    History {
        shows: "a start takes a task",
        steps: [(1, Role::ClaimStart, 0x18), REST, REST, REST, REST, REST],
        held: [0, 0x18],
        waiting: [(0, 0), (0, 0)],
        live: [0, 0],
    },
    History {
        shows: "a start drops the older task",
        steps: [
            (0, Role::ClaimLtr, 0x18),
            (0, Role::ClaimStart, 0x20),
            REST,
            REST,
            REST,
            REST,
        ],
        held: [0x20, 0],
        waiting: [(0, 0), (0, 0)],
        live: [0, 0],
    },
    History {
        shows: "LTR takes a task",
        steps: [(0, Role::ClaimLtr, 0x18), REST, REST, REST, REST, REST],
        held: [0x18, 0],
        waiting: [(0, 0), (0, 0)],
        live: [0, 0],
    },
    History {
        shows: "LTR drops the older task",
        steps: [
            (0, Role::ClaimLtr, 0x18),
            (0, Role::ClaimLtr, 0x20),
            REST,
            REST,
            REST,
            REST,
        ],
        held: [0x20, 0],
        waiting: [(0, 0), (0, 0)],
        live: [0, 0],
    },
    History {
        shows: "the older task of a JMP waits until its release",
        steps: [
            (0, Role::ClaimLtr, 0x18),
            (0, Role::ClaimJmp, 0x20),
            REST,
            REST,
            REST,
            REST,
        ],
        held: [0x20, 0],
        waiting: [(0x18, 0x20), (0, 0)],
        live: [0, 0],
    },
    History {
        shows: "a JMP from no task",
        steps: [(0, Role::ClaimJmp, 0x20), REST, REST, REST, REST, REST],
        held: [0x20, 0],
        waiting: [(0, 0), (0, 0)],
        live: [0, 0],
    },
    History {
        shows: "the older task of a CALL waits",
        steps: [
            (0, Role::ClaimLtr, 0x18),
            (0, Role::ClaimCall, 0x20),
            REST,
            REST,
            REST,
            REST,
        ],
        held: [0x20, 0],
        waiting: [(0x18, 0x20), (0, 0)],
        live: [0, 0],
    },
    History {
        shows: "a CALL from no task",
        steps: [(1, Role::ClaimCall, 0x20), REST, REST, REST, REST, REST],
        held: [0, 0x20],
        waiting: [(0, 0), (0, 0)],
        live: [0, 0],
    },
    History {
        shows: "a link is that of the task that is held by then",
        steps: [
            (0, Role::ClaimLtr, 0x18),
            (0, Role::ClaimCall, 0x20),
            (0, Role::Link, 0),
            REST,
            REST,
            REST,
        ],
        held: [0x20, 0],
        waiting: [(0x18, 0x20), (0, 0)],
        live: [0x20, 0],
    },
    History {
        shows: "a link in two cycles is live once",
        steps: [
            (0, Role::ClaimLtr, 0x18),
            (0, Role::ClaimCall, 0x20),
            (0, Role::Link, 0),
            (0, Role::Link, 0),
            REST,
            REST,
        ],
        held: [0x20, 0],
        waiting: [(0x18, 0x20), (0, 0)],
        live: [0x20, 0],
    },
    History {
        shows: "a link of a processor that holds nothing",
        steps: [
            (0, Role::ClaimLtr, 0x18),
            (1, Role::Link, 0),
            REST,
            REST,
            REST,
            REST,
        ],
        held: [0x18, 0],
        waiting: [(0, 0), (0, 0)],
        live: [0, 0],
    },
    History {
        shows: "a release by JMP ends the entry of the older task",
        steps: [
            (0, Role::ClaimLtr, 0x18),
            (0, Role::ClaimJmp, 0x20),
            (0, Role::RelJmp, 0x18),
            REST,
            REST,
            REST,
        ],
        held: [0x20, 0],
        waiting: [(0, 0), (0, 0)],
        live: [0, 0],
    },
    History {
        shows: "a release by JMP ends the entries by the older task and the life of its link",
        steps: [
            (0, Role::ClaimLtr, 0x18),
            (0, Role::ClaimCall, 0x20),
            (0, Role::Link, 0),
            (0, Role::ClaimJmp, 0x28),
            (0, Role::RelJmp, 0x20),
            REST,
        ],
        held: [0x28, 0],
        waiting: [(0, 0), (0, 0)],
        live: [0, 0],
    },
    History {
        shows: "a release by JMP leaves the entries and links of others",
        steps: [
            (1, Role::ClaimLtr, 0x08),
            (1, Role::ClaimCall, 0x10),
            (1, Role::Link, 0),
            (0, Role::ClaimLtr, 0x18),
            (0, Role::ClaimJmp, 0x20),
            (0, Role::RelJmp, 0x18),
        ],
        held: [0x20, 0x10],
        waiting: [(0x08, 0x10), (0, 0)],
        live: [0x10, 0],
    },
    History {
        shows: "IRET goes back to the task that waited, and ends the link",
        steps: [
            (0, Role::ClaimLtr, 0x18),
            (0, Role::ClaimCall, 0x20),
            (0, Role::Link, 0),
            (0, Role::RelRet, 0x20),
            REST,
            REST,
        ],
        held: [0x18, 0],
        waiting: [(0, 0), (0, 0)],
        live: [0, 0],
    },
    History {
        shows: "IRET goes back to none where none waits",
        steps: [
            (0, Role::ClaimLtr, 0x18),
            (0, Role::RelRet, 0x18),
            REST,
            REST,
            REST,
            REST,
        ],
        held: [0, 0],
        waiting: [(0, 0), (0, 0)],
        live: [0, 0],
    },
    History {
        shows: "IRET goes back to the one that waits by its task, and not to another",
        steps: [
            (0, Role::ClaimLtr, 0x08),
            (0, Role::ClaimCall, 0x10),
            (1, Role::ClaimLtr, 0x18),
            (1, Role::ClaimCall, 0x20),
            (0, Role::RelRet, 0x10),
            REST,
        ],
        held: [0x08, 0x20],
        waiting: [(0x18, 0x20), (0, 0)],
        live: [0, 0],
    },
    History {
        shows: "IRET leaves the caller of its caller waiting",
        steps: [
            (0, Role::ClaimLtr, 0x08),
            (0, Role::ClaimCall, 0x10),
            (0, Role::Link, 0),
            (0, Role::ClaimCall, 0x18),
            (0, Role::Link, 0),
            (0, Role::RelRet, 0x18),
        ],
        held: [0x10, 0],
        waiting: [(0x08, 0x10), (0, 0)],
        live: [0x10, 0],
    },
    History {
        shows: "a claim ends the entries by its task and the life of its link",
        steps: [
            (0, Role::ClaimLtr, 0x18),
            (0, Role::ClaimCall, 0x20),
            (0, Role::Link, 0),
            (1, Role::ClaimLtr, 0x20),
            REST,
            REST,
        ],
        held: [0x20, 0x20],
        waiting: [(0, 0), (0, 0)],
        live: [0, 0],
    },
    History {
        shows: "a claim leaves the entries of its task",
        steps: [
            (0, Role::ClaimLtr, 0x18),
            (0, Role::ClaimCall, 0x20),
            (1, Role::ClaimLtr, 0x18),
            REST,
            REST,
            REST,
        ],
        held: [0x20, 0x18],
        waiting: [(0x18, 0x20), (0, 0)],
        live: [0, 0],
    },
    History {
        shows: "lists rise by task",
        steps: [
            (0, Role::ClaimLtr, 0x18),
            (0, Role::ClaimCall, 0x10),
            (0, Role::Link, 0),
            (1, Role::ClaimLtr, 0x20),
            (1, Role::ClaimCall, 0x08),
            (1, Role::Link, 0),
        ],
        held: [0x10, 0x08],
        waiting: [(0x18, 0x10), (0x20, 0x08)],
        live: [0x08, 0x10],
    },
    History {
        shows: "entries of one task rise by the one that it waits by",
        steps: [
            (0, Role::ClaimLtr, 0x18),
            (0, Role::ClaimCall, 0x08),
            (1, Role::ClaimLtr, 0x18),
            (1, Role::ClaimCall, 0x10),
            REST,
            REST,
        ],
        held: [0x08, 0x10],
        waiting: [(0x18, 0x08), (0x18, 0x10)],
        live: [0, 0],
    },
];

/// The write of a step. A link is written to a TSS, and any other write goes to an access byte.
fn cycle_at(step: Step) -> Cycle {
    let (cpu, role, selector) = step;
    match role {
        Role::Link => cycle_of(cpu, true, role, 0x3000, 3, 0),
        _ => byte_written(cpu, role, BASE + (selector & 0xffff) + 5),
    }
}

/// What a book says of the processors 0 and 1, with the first two entries and live links, 0 for none, and how many there are.
#[derive(Debug, Drop, PartialEq, Eq)]
struct Told {
    held: [Option<u16>; 2],
    waiting: [(u16, u16); 2],
    entries: usize,
    live: [u16; 2],
    links: usize,
}

/// The first two entries of a book, and 0 for none.
fn waiting(holding: &Holding) -> [(u16, u16); 2] {
    let mut told = [(0, 0); 2];
    for (i, entry) in holding.waiting.as_slice().iter().enumerate() {
        if i < 2 {
            told[i] = (entry.task, entry.by);
        }
    }
    told
}

/// The first two live links of a book, and 0 for none.
fn live(holding: &Holding) -> [u16; 2] {
    let mut told = [0; 2];
    for (i, link) in holding.live.as_slice().iter().enumerate() {
        if i < 2 {
            told[i] = *link;
        }
    }
    told
}

/// What the book of these cycles says in an image with this GDT.
fn told_after(alloc: Global, base: u32, limit: u16, cycles: &[Cycle]) -> Result<Told, NoMemory> {
    let holding = booked(alloc, &empty_image(alloc, base, limit), cycles)?;
    Ok(Told {
        held: [holding.held[0], holding.held[1]],
        waiting: waiting(&holding),
        entries: holding.waiting.as_slice().len(),
        live: live(&holding),
        links: holding.live.as_slice().len(),
    })
}

/// A task by its selector, of which 0 stands for none.
fn task(selector: u16) -> Option<u16> {
    if selector == 0 { None } else { Some(selector) }
}

/// What a history's book is to say.
fn wanted(history: &History) -> Result<Told, NoMemory> {
    Ok(Told {
        held: [task(history.held[0]), task(history.held[1])],
        waiting: history.waiting,
        entries: history.waiting.iter().filter(|entry| entry.0 != 0).count(),
        live: history.live,
        links: history.live.iter().filter(|link| **link != 0).count(),
    })
}

#[test]
fn each_history_has_its_book(rt: HostRuntime) {
    for history in HISTORIES.iter() {
        let steps = history.steps;
        let cycles = [
            cycle_at(steps[0]),
            cycle_at(steps[1]),
            cycle_at(steps[2]),
            cycle_at(steps[3]),
            cycle_at(steps[4]),
            cycle_at(steps[5]),
        ];
        assert_eq!(rt;
            told_after(rt.alloc(), BASE, LIMIT, &cycles),
            wanted(history),
            "{}",
            history.shows
        );
    }
}

/// What is told where processor 0 holds this task, 0 for none, and nothing else is so.
fn held_alone(selector: u16) -> Result<Told, NoMemory> {
    Ok(Told {
        held: [task(selector), None],
        waiting: [(0, 0); 2],
        entries: 0,
        live: [0; 2],
        links: 0,
    })
}

/// The GDT's base and limit, the group and the enabled bytes of a claim, and the task that is held then, 0 for none.
static CLAIMS: [(u32, u16, u32, u8, u16); 20] = [
    (0x2000, 0x2f, 0x2004, 2, 0),
    (0x2000, 0x2f, 0x200c, 2, 0x08),
    (0x2000, 0x2f, 0x202c, 2, 0x28),
    (0x2000, 0x2e, 0x202c, 2, 0),
    (0x2000, 0x2f, 0x2034, 2, 0),
    (0x2000, 0x2f, 0x200c, 1, 0),
    (0x2000, 0x2f, 0x200c, 4, 0),
    (0x2000, 0x2f, 0x2008, 2, 0),
    (0x2003, 0x2f, 0x2010, 1, 0x08),
    (0x2003, 0x2f, 0x200c, 2, 0),
    (0x2000, 0xffff, 0x1_1ffc, 2, 0xfff8),
    (0x2000, 0xffff, 0x1ffc, 2, 0),
    (0xffff_fff0, 0x2f, 0xffff_fffc, 2, 0x08),
    (0xffff_fff0, 0x2f, 0x0000_0004, 2, 0x10),
    (0xffff_fffc, 0x2f, 0x0000_0008, 2, 0x08),
    // A claim of no byte or of several speaks of no task.
    (0x2000, 0x2f, 0x201c, 2, 0x18),
    (0x2000, 0x2f, 0x201c, 0, 0),
    (0x2000, 0x2f, 0x201c, 3, 0),
    (0x2000, 0x2f, 0x201c, 6, 0),
    (0x2000, 0x2f, 0x201c, 0xf, 0),
];

#[test]
fn a_claim_speaks_of_its_task_by_one_byte(rt: HostRuntime) {
    for (base, limit, addr, enables, selector) in CLAIMS.iter().copied() {
        let claim = cycle_of(0, true, Role::ClaimLtr, addr, enables, 0);
        assert_eq!(rt;
            told_after(rt.alloc(), base, limit, &[claim]),
            held_alone(selector),
            "{addr} enables {enables} above {base}"
        );
    }
}

/// Cycles that move nothing: whether they write, and their role.
static STILL: [(bool, Role); 25] = [
    (true, Role::Fetch),
    (true, Role::Operand),
    (true, Role::Push),
    (true, Role::Pop),
    (true, Role::Flags),
    (true, Role::Gdt),
    (true, Role::Ldt),
    (true, Role::Idt),
    (true, Role::GdtAcc),
    (true, Role::LdtAcc),
    (true, Role::Tss),
    (true, Role::Save),
    (true, Role::Back),
    (true, Role::Load),
    (true, Role::Inner),
    (true, Role::Map),
    (true, Role::Lgdt),
    (true, Role::Lidt),
    (false, Role::ClaimJmp),
    (false, Role::ClaimCall),
    (false, Role::ClaimStart),
    (false, Role::ClaimLtr),
    (false, Role::RelJmp),
    (false, Role::RelRet),
    (false, Role::Link),
];

#[test]
fn other_cycles_change_nothing(rt: HostRuntime) {
    for (write, role) in STILL.iter().copied() {
        let cycles = [
            cycle_at((0, Role::ClaimLtr, 0x18)),
            cycle_at((0, Role::ClaimCall, 0x20)),
            cycle_at((0, Role::Link, 0)),
            cycle_of(0, write, role, BASE + 0x1c, 2, 0),
        ];
        let kept = Told {
            held: [Some(0x20), None],
            waiting: [(0x18, 0x20), (0, 0)],
            entries: 1,
            live: [0x20, 0],
            links: 1,
        };
        assert_eq!(rt;
            told_after(rt.alloc(), BASE, LIMIT, &cycles),
            Ok(kept),
            "{role:?}, a write: {write}"
        );
    }
}

#[test]
fn the_claim_of_a_start(rt: HostRuntime) {
    // The first three cycles of a processor that starts in the task 0018, whose GDT lies at 1000h.
    let cycles = [
        cycle_of(0, false, Role::Tss, 0x1018, 0xf, 0x3000_0067),
        cycle_of(0, false, Role::Tss, 0x101c, 0xf, 0x0000_8900),
        cycle_of(0, true, Role::ClaimStart, 0x101c, 2, 0x0000_8b00),
    ];
    assert_eq!(rt;
        told_after(rt.alloc(), 0x1000, 0x3f, &cycles),
        held_alone(0x18)
    );
}
