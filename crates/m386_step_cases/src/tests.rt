//! Worked steps: each over a bus of a few bytes, and over every front of the values that it reads.
mod boundaries;
mod decoding;
mod events;
mod numbers;
mod opcodes;
mod ports;
mod strings;
mod system;
mod table_registers;
mod wrong;

use m386_base::ask::Space;
use m386_base::fault::Stop;
use m386_base::list::List;
use m386_image::image::{Image, TableAt};
use m386_image::reading::read_image;
use m386_step::begin::{first_store, start};
use m386_step::run::run;
use m386_worked::cases::{Case, bus_of, over_bytes, over_values};
use m386_worked::cycles::{fetch, joined, read, write};
use m386_worked::states::{at, bare, flagged, in_mode, loaded, pending};
use m386_worked::texts::all_made;
use std::alloc::Global;
use std::process::Abort;
use std::test::Fail;

/// The step over a bus that holds the bytes of the case.
fn step_over_bytes(rt: &impl Abort, case: &Case<'_>) {
    assert_eq!(rt; over_bytes(case), Ok(()), "{}", case.name);
}

/// The step over each front of what it reads: it wants the next cycle, and at the end it is whole.
fn step_over_values(rt: &impl Abort, case: &Case<'_>) {
    assert_eq!(rt; over_values(case), Ok(()), "{}", case.name);
}

/// Moves between registers, numbers and memory.
const MOVES: &str = "\
MOV EBX, 12345678h
 bytes bb 78 56 34 12 00 00 00
 r fetch 0 1000 f 345678bb
 r fetch 0 1004 f 12
 after eip=1005 ebx=12345678
MOV EAX, [1010h], whose opcode ends a group
 before eip=1003
 bytes 00 00 00 a1 10 10 00 00
 r fetch 0 1000 f a1000000
 r fetch 0 1004 f 1010
 r data 0 1010 f 44332211
 after eip=1008 eax=44332211
MOV EAX, [1013h], split over two groups
 bytes a1 13 10 00 00 00 00 00
 r fetch 0 1000 f 1013a1
 r fetch 0 1004 f 0
 r data 0 1010 8 44000000
 r data 1 1014 7 776655
 after eip=1005 eax=77665544
MOV EAX, [FFFFFFFCh], whose last byte is the last of all
 bytes a1 fc ff ff ff 00 00 00
 r fetch 0 1000 f fffffca1
 r fetch 0 1004 f ff
 r data 0 fffffffc f ffffffff
 after eip=1005 eax=ffffffff
MOV EAX, [FFFFFFFDh], past the last offset
 bytes a1 fd ff ff ff 00 00 00
 r fetch 0 1000 f fffffda1
 r fetch 0 1004 f ff
 after pending=d:0
MOV [1011h], EAX, split over two groups
 bytes a3 11 10 00 00 00 00 00
 r fetch 0 1000 f 1011a3
 r fetch 0 1004 f 0
 w data 0 1010 e a1a2a300
 w data 3 1014 1 a0
 after eip=1005
MOV [FFFFFFFDh], EAX, past the last offset
 bytes a3 fd ff ff ff 00 00 00
 r fetch 0 1000 f fffffda3
 r fetch 0 1004 f ff
 after pending=d:0
";

/// Calculations with memory, locked and not.
const CALCULATIONS: &str = "\
ADD [1011h], EAX, split over two groups
 bytes 01 05 11 10 00 00 00 00
 r fetch 0 1000 f 10110501
 r fetch 0 1004 f 0
 r data 0 1010 e 44332200
 r data 3 1014 1 55
 w data 0 1010 e e5d5c500
 w data 3 1014 1 f5
 after eip=1006 flags=86
LOCK ADD [1011h], EAX, split over two groups
 bytes f0 01 05 11 10 00 00 00
 r fetch 0 1000 f 110501f0
 r fetch 0 1004 f 10
 r data 0 1010 e 44332200
 r+ data 3 1014 1 55
 w+ data 0 1010 e e5d5c500
 w+ data 3 1014 1 f5
 after eip=1007 flags=86
ADD AH, [1011h]
 bytes 02 25 11 10 00 00 00 00
 r fetch 0 1000 f 10112502
 r fetch 0 1004 f 0
 r data 0 1010 2 2200
 after eip=1006 eax=a0a1c4a3 flags=82
ADD [1013h], AX, split over two groups
 bytes 66 01 05 13 10 00 00 00
 r fetch 0 1000 f 13050166
 r fetch 0 1004 f 10
 r data 0 1010 8 44000000
 r data 1 1014 1 55
 w data 0 1010 8 e7000000
 w data 1 1014 1 f7
 after eip=1007 flags=86
TEST [1010h], EAX
 bytes 85 05 10 10 00 00 00 00
 r fetch 0 1000 f 10100585
 r fetch 0 1004 f 0
 r data 0 1010 f 44332211
 after eip=1006
LEA EAX, [1011h]
 bytes 8d 05 11 10 00 00 00 00
 r fetch 0 1000 f 1011058d
 r fetch 0 1004 f 0
 after eip=1006 eax=1011
";

/// XCHG, which is locked with and without its prefix.
const EXCHANGES: &str = "\
XCHG [1010h], ECX
 bytes 87 0d 10 10 00 00 00 00
 r fetch 0 1000 f 10100d87
 r fetch 0 1004 f 0
 r data 0 1010 f 44332211
 w+ data 0 1010 f c0c1c2c3
 after eip=1006 ecx=44332211
XCHG [1011h], ECX, split over two groups
 bytes 87 0d 11 10 00 00 00 00
 r fetch 0 1000 f 10110d87
 r fetch 0 1004 f 0
 r data 0 1010 e 44332200
 r+ data 3 1014 1 55
 w+ data 0 1010 e c1c2c300
 w+ data 3 1014 1 c0
 after eip=1006 ecx=55443322
XCHG [FFFFFFFFh], ECX, past the last offset
 bytes 87 0d ff ff ff ff 00 00
 r fetch 0 1000 f ffff0d87
 r fetch 0 1004 f ffff
 after pending=d:0
XCHG EBP, EAX, which makes no cycle of its own
 bytes 87 c5 00 00 00 00 00 00
 r fetch 0 1000 f c587
 after eip=1002 eax=50515253 ebp=a0a1a2a3
";

/// JMP with a distance.
const JUMPS: &str = "\
JMP 5, past the last offset
 bytes e9 00 f0 ff ff 00 00 00
 r fetch 0 1000 f fff000e9
 r fetch 0 1004 f ff
 after eip=5
JMP 80001000h
 bytes e9 fb ff ff 7f 00 00 00
 r fetch 0 1000 f fffffbe9
 r fetch 0 1004 f 7f
 after eip=80001000
JMP 1081h
 bytes eb 7f 00 00 00 00 00 00
 r fetch 0 1000 f 7feb
 after eip=1081
JMP F82h
 bytes eb 80 00 00 00 00 00 00
 r fetch 0 1000 f 80eb
 after eip=f82
JMP FFFFFFF0h from the last two bytes
 before eip=fffffffe
 r fetch 0 fffffffc f f0eb0000
 after eip=fffffff0
";

/// Turns without an instruction. The IDT has no entry: what is delivered meets #GP, whose code names the entry, with EXT.
const TURNS: &str = "\
a turn of a halted processor
 before mode=halted
 bytes f4 00 00 00 00 00 00 00
 after
a turn of one under a shadow
 before mode=halted shadow=1
 bytes f4 00 00 00 00 00 00 00
 after shadow=0
a pending #GP, a fault of its class, and so a double fault
 before mode=halted pending=d:0
 bytes f4 00 00 00 00 00 00 00
 after mode=running pending=8:0
a pending #UD, whose place the fault takes
 before pending=6
 bytes f4 00 00 00 00 00 00 00
 after pending=d:33
a pending double fault
 before pending=8:0
 bytes f4 00 00 00 00 00 00 00
 after mode=shutdown pending=none
a pending event before a request
 before pending=6 request=20
 bytes f4 00 00 00 00 00 00 00
 after pending=d:33
a pending event under a shadow
 before pending=6 shadow=1 request=20
 bytes f4 00 00 00 00 00 00 00
 after pending=d:33 shadow=0
a request with IF set
 before flags=202 mode=halted request=20
 bytes f4 00 00 00 00 00 00 00
 after mode=running pending=d:103 request=none
a request with IF clear
 before mode=halted request=20
 bytes f4 00 00 00 00 00 00 00
 after
the start of a task
 before eip=0 eax=0 ecx=0 edx=0 ebx=0 esp=0 ebp=0 esi=0 edi=0 es=-0:0:0:0:0 cs=-0:0:0:0:0 ss=-0:0:0:0:0 ds=-0:0:0:0:0 fs=-0:0:0:0:0 gs=-0:0:0:0:0 start=18
 bytes f4 00 00 00 00 00 00 00
 after mode=shutdown start=none
";

/// What an instruction leaves pending.
const ENDS: &str = "\
HLT
 bytes f4 00 00 00 00 00 00 00
 r fetch 0 1000 f f4
 after eip=1001 mode=halted
HLT with CPL 3
 before cs=1b:0:fffff:9b:c
 bytes f4 00 00 00 00 00 00 00
 r fetch 0 1000 f f4
 after pending=d:0
HLT with CPL 1
 before cs=9:0:fffff:9b:c
 bytes f4 00 00 00 00 00 00 00
 r fetch 0 1000 f f4
 after pending=d:0
an undefined opcode
 bytes 0f 04 00 00 00 00 00 00
 r fetch 0 1000 f 40f
 after pending=6
JMP 1000h with TF set
 before flags=102
 bytes eb fe 00 00 00 00 00 00
 r fetch 0 1000 f feeb
 after pending=1
an undefined opcode with TF set
 before flags=102
 bytes 0f 04 00 00 00 00 00 00
 r fetch 0 1000 f 40f
 after pending=6
JMP 1000h under a shadow, with IF set and a request
 before flags=202 shadow=1 request=20
 bytes eb fe 00 00 00 00 00 00
 r fetch 0 1000 f feeb
 after shadow=0
";

#[test]
fn a_run_ends_at_its_budget_or_in_shutdown(rt: HostRuntime) {
    // JMP 1000h; and an undefined opcode where the IDT has no entry: #UD, #GP, a double fault, and the end.
    for (opcode, budget, made, cycles) in [(0xeb, 5, 5, 5), (0xeb, 0, 0, 0), (0x0f, 9, 4, 1)] {
        let mut p = bare();
        let mut bus = bus_of(&[opcode, 0xfe, 0, 0, 0, 0, 0, 0]);
        assert_eq!(rt; run(&mut p, &mut bus, budget), Ok(made), "budget {budget}");
        assert_eq!(rt; bus.cycles().len(), cycles, "budget {budget}");
        assert_eq!(rt; p.eip, 0x1000, "budget {budget}");
    }
    let mut p = bare();
    let mut bus = bus_of(&[0xeb, 0xfe, 0, 0, 0, 0, 0, 0]);
    assert_eq!(rt; run(&mut p, &mut bus, 200), Err(Stop::Paused));
    assert_eq!(rt; bus.cycles().len(), 192);
}

/// An image of two processors: the first starts bare, and the second in a task.
fn two_starts(alloc: Global) -> Image {
    Image {
        memory: 0x4000,
        cpus: 2,
        flags: 2,
        gdt: TableAt {
            base: 0x1111,
            limit: 0x22,
        },
        idt: TableAt {
            base: 0x3333,
            limit: 0x44,
        },
        starts: [0x5678, 0xabcd_0028, 0, 0, 0, 0, 0, 0],
        plan: List::new(alloc),
        sections: List::new(alloc),
    }
}

#[test]
fn each_processor_starts_with_the_tables_of_the_image(rt: HostRuntime) {
    let image = two_starts(rt.alloc());
    for (cpu, eip, task) in [(0, 0x5678, None), (1, 0, Some(0x28))] {
        let p = start(&image, cpu);
        assert_eq!(rt; (p.eip, p.start), (eip, task));
        assert_eq!(rt; (p.gdtr.base, p.gdtr.limit), (0x1111, 0x22));
        assert_eq!(rt; (p.idtr.base, p.idtr.limit), (0x3333, 0x44));
    }
}

/// An image of 4,096 bytes of memory and one bare processor, with the bytes A1h and A2h at 10h, and B1h at 13h.
const TWO_SECTIONS: [u8; 83] = [
    0x4d, 0x33, 0x38, 0x36, 0x01, 0x00, 0x01, 0x00, 0x00, 0x10, 0x00, 0x00, 0x00, 0x00, 0x00, 0x00,
    0x00, 0x00, 0x00, 0x00, 0x00, 0x00, 0x00, 0x00, 0x00, 0x00, 0x00, 0x00, 0x02, 0x00, 0x00, 0x00,
    0x00, 0x00, 0x00, 0x00, 0x00, 0x00, 0x00, 0x00, 0x00, 0x00, 0x00, 0x00, 0x00, 0x00, 0x00, 0x00,
    0x00, 0x00, 0x00, 0x00, 0x00, 0x00, 0x00, 0x00, 0x00, 0x00, 0x00, 0x00, 0x00, 0x00, 0x00, 0x00,
    0x10, 0x00, 0x00, 0x00, 0x02, 0x00, 0x00, 0x00, 0xa1, 0xa2, 0x13, 0x00, 0x00, 0x00, 0x01, 0x00,
    0x00, 0x00, 0xb1,
];

#[test]
fn memory_begins_with_the_sections_of_the_image(rt: HostRuntime) -> Result<(), Fail> {
    let image = read_image(rt.alloc(), &TWO_SECTIONS)?;
    let store = first_store(rt.alloc(), &image)?;
    assert_eq!(rt; store.size(), 4096);
    for (addr, value) in [(0x0c, 0), (0x10, 0xb100_a2a1), (0x14, 0)] {
        assert_eq!(rt; store.read(Space::Memory, addr, 15), value, "{addr:x}");
        assert_eq!(rt; store.read(Space::Port, addr, 15), 0, "port {addr:x}");
    }
    Ok(())
}

/// Texts of cases: what each shows, by the name that docs/PROVING.md has for it, and how many cases it has.
static TEXTS: [(&str, &str, usize); 27] = [
    ("moves_make_their_cycles", MOVES, 7),
    ("calculations_make_their_cycles", CALCULATIONS, 6),
    ("exchange_is_one_locked_group", EXCHANGES, 4),
    ("jumps_are_taken_modulo_2_to_the_32", JUMPS, 5),
    ("a_turn_without_an_instruction_makes_no_cycle", TURNS, 10),
    ("an_instruction_halts_faults_or_traps", ENDS, 7),
    (
        "an_instruction_is_traced_by_tf_at_its_start",
        boundaries::TRACED,
        6,
    ),
    (
        "events_are_delivered_before_an_instruction",
        boundaries::DELIVERED,
        4,
    ),
    ("a_delivery_ends_a_step_without_a_trap", events::SOFTWARE, 2),
    (
        "a_fault_of_a_delivery_is_that_of_its_instruction",
        events::REFUSED,
        2,
    ),
    ("into_goes_by_of", events::OVERFLOWS, 2),
    ("iret_ends_as_an_instruction_does", events::IRETS, 3),
    (
        "events_are_delivered_before_instructions",
        events::EVENTS,
        5,
    ),
    (
        "a_request_leaves_with_the_fault_of_its_delivery",
        events::FAULTS,
        3,
    ),
    ("the_source_alone_goes_by_the_prefix", strings::PREFIXES, 6),
    (
        "a_store_of_two_elements_takes_three_turns",
        strings::STORES,
        3,
    ),
    (
        "a_comparison_ends_by_zf_or_by_the_count",
        strings::COMPARISONS,
        5,
    ),
    (
        "a_fault_leaves_the_registers_of_its_turn",
        strings::FAULTS,
        2,
    ),
    ("each_turn_fetches_its_code_anew", strings::ANEW, 2),
    ("each_turn_is_traced", strings::TRACED, 2),
    (
        "words_are_stored_with_16_bits_at_any_level",
        system::STORES,
        8,
    ),
    ("the_status_word_is_loaded", system::LMSWS, 5),
    (
        "table_registers_are_loaded_in_two_parts",
        table_registers::LOADS,
        7,
    ),
    (
        "table_registers_are_stored_whole",
        table_registers::STORES,
        5,
    ),
    ("ldtr_is_loaded_from_each_place", table_registers::LLDTS, 4),
    ("ports_are_reached_behind_the_last_byte", ports::FREE, 5),
    ("above_iopl_the_map_decides", ports::BY_THE_MAP, 8),
];

#[test]
fn each_case_of_a_text_is_made(rt: HostRuntime) {
    for (shows, text, count) in TEXTS.iter().copied() {
        assert_eq!(rt; all_made(text), Ok(count), "{shows}");
    }
}
