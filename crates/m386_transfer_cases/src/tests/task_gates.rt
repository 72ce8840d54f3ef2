//! Far JMP and CALL at level 3 through a task gate, which is descriptor 48, to the task of level 2 whose TSS is descriptor 58: each rule of
//! the gate and each row of the check table, with the task that is told. Beside the tables of the other transfers the GDT holds the TSS
//! at 380h, an LDT, and a segment of code and of data that aren't present; the old task is descriptor 70.
ghost use Rattle.std.specs.Prelude.{◌≡◌, ◌<◌, [], false};

use super::pending;
use super::transfers::{at_level, comes_to, flat, refused, world};
use m386_base::bus::Bus;
use m386_base::desc::Desc;
use m386_base::number::Flags;
use m386_memory::fixed::FixedBus;
use m386_state::proc::{Proc, unusable};
use m386_state::segment::Seg;
use m386_worked::cases::put;
use m386_worked::texts::all_made;
use std::process::Abort;

/// JMP and CALL to 4B:12345678, whose offset doesn't count; how many cycles a switch makes of each between the descriptor of the gate and
/// those of the new task: three that name and claim the TSS, 16 that save, two that release or one that links, 18 that load; and NT of
/// the new task.
const WAYS: [(u64, usize, u32); 2] = [(0x4b_1234_5678_ea, 39, 0), (0x4b_1234_5678_9a, 38, 0x4000)];

/// The cycles before a switch: two that fetch, and two that read the gate.
const NAMED: usize = 4;

/// By their descriptors: the gate, 48; CS of level 2 with a small limit, 28; an LDT that isn't present, 50; the TSS, of level 0, 58; an LDT, 60;
/// data of level 2 that isn't present, 68; the old TSS, 70; code of level 2 that isn't present, 78.
const TABLES: [(u32, u32); 15] = [
    (0x448, 0x58_0000),
    (0x44c, 0xe500),
    (0x42c, 0x40_db00),
    (0x450, 0x500_000f),
    (0x454, 0x0200),
    (0x458, 0x380_0067),
    (0x45c, 0x8900),
    (0x460, 0x500_000f),
    (0x464, 0x8200),
    (0x468, 0xffff),
    (0x46c, 0xcf_5300),
    (0x470, 0x300_0067),
    (0x474, 0x8b00),
    (0x478, 0xffff),
    (0x47c, 0xcf_5b00),
];

/// Where the new TSS holds its LDT, CS, SS, DS, ES, FS and GS, in the order in which they are tested.
const PLACES: [u32; 7] = [0x3e0, 0x3cc, 0x3d0, 0x3d4, 0x3c8, 0x3d8, 0x3dc];

/// What it holds there.
const SELECTORS: [u16; 7] = [0x60, 0x2a, 0x32, 0x32, 0x42, 0x32, 0x43];

/// The last offset of the new CS.
const LAST: u32 = 0xffff;

/// The processor at a level, with the GDT up to its last descriptor.
fn before(level: u8) -> Proc {
    let mut p = at_level(level);
    p.gdtr.limit = 0x7f;
    p
}

/// Puts doublewords into memory by their addresses.
fn put_all(rt: &impl Abort, bus: &mut FixedBus<0x1018>, words: &[(u32, u32)]) {
    for (addr, value) in words {
        assert!(rt; put(bus, *addr, *value).is_some());
    }
}

/// A bus with the instruction, the new task at its last offset with these selectors, and more doublewords.
fn with(rt: &impl Abort, code: u64, selectors: &[u16; 7], more: &[(u32, u32)]) -> FixedBus<0x1018>
    ensures free { (⟦<FixedBus<0x1018> as Bus>⟧.view result).kept ≡ false }
    ensures none { (⟦<FixedBus<0x1018> as Bus>⟧.view result).cycles ≡ [] }
{
    let mut bus = world(rt, code, &TABLES);
    for (at, selector) in PLACES.iter().zip(selectors) {
        put_all(rt, &mut bus, &[(*at, u32::from(*selector))]);
    }
    put_all(rt, &mut bus, &[(0x3a0, LAST)]);
    put_all(rt, &mut bus, more);
    bus.clear();
    bus
}

/// A register that names a descriptor of the new task and can be used.
fn held(selector: u16) -> Seg {
    match selector / 8 {
        5 => Seg {
            selector,
            usable: true,
            desc: Desc::new(0, LAST, 0xdb, 4),
        },
        6 => flat(selector, 0xd3),
        8 => flat(selector, 0xf3),
        _ => Seg {
            selector,
            usable: true,
            desc: Desc::new(0x500, 0xf, 0x82, 0),
        },
    }
}

/// The register at this place of the order, where so many passed their rows.
fn register(selectors: &[u16; 7], place: usize, passed: usize) -> Seg {
    let selector = selectors[place % 7];
    if place < passed {
        held(selector)
    } else {
        unusable(selector)
    }
}

/// The state in the new task, where so many of its registers passed their rows, with this bit NT.
fn entered(nested: u32, eip: u32, selectors: &[u16; 7], passed: usize) -> Proc {
    let mut p = before(3);
    p.regs = [0; 8];
    p.eip = eip;
    p.eflags = Flags(nested | 2);
    p.ldtr = register(selectors, 0, passed);
    p.segs = [
        register(selectors, 4, passed),
        register(selectors, 1, passed),
        register(selectors, 2, passed),
        register(selectors, 3, passed),
        register(selectors, 5, passed),
        register(selectors, 6, passed),
    ];
    p.tr = Seg {
        selector: 0x58,
        usable: true,
        desc: Desc::new(0x380, 0x67, 0x89, 0),
    };
    p.cr0 = 9;
    p
}

/// A transfer that the old task is told of: its name, CPL, whether TR holds a task, a doubleword of the gate or of the TSS, the cycles,
/// the vector and the code.
static OLD: [(&str, u8, bool, (u32, u32), usize, u8, u16); 17] = [
    // The gate, before the task is looked at.
    ("DPL below CPL", 3, true, (0x44c, 0xc500), 4, 13, 0x48),
    ("DPL below RPL", 0, true, (0x44c, 0x8500), 4, 13, 0x48),
    ("not present", 3, true, (0x44c, 0x6500), 4, 11, 0x48),
    ("low and not present", 3, true, (0x44c, 0x4500), 4, 13, 0x48),
    ("low, no task", 3, false, (0x44c, 0xc500), 4, 13, 0x48),
    // The rows 1 to 3 and 5 to 7 of the check table.
    ("without a task", 3, false, (0x448, 0x58_0000), 4, 13, 0),
    ("null with RPL 3", 3, true, (0x448, 0x3_0000), 4, 13, 0),
    ("of the LDT", 3, true, (0x448, 0x5c_0000), 4, 13, 0x5c),
    ("past the GDT", 3, true, (0x448, 0x80_0000), 4, 13, 0x80),
    ("code", 3, true, (0x448, 0x28_0000), 6, 13, 0x28),
    ("a task gate", 3, true, (0x448, 0x48_0000), 6, 13, 0x48),
    ("a TSS of the 286", 3, true, (0x45c, 0x8100), 6, 13, 0x58),
    ("busy", 3, true, (0x45c, 0x8b00), 6, 13, 0x58),
    ("no TSS", 3, true, (0x45c, 0x0900), 6, 11, 0x58),
    ("busy and not there", 3, true, (0x45c, 0x0b00), 6, 13, 0x58),
    ("a short TSS", 3, true, (0x458, 0x380_0066), 6, 10, 0x58),
    ("the old task", 3, true, (0x448, 0x70_0000), 6, 13, 0x70),
];

/// Switches to a task whose T bit is set.
const TRAPPED: &str = "\
start eip=4000 eax=0 ecx=0 edx=0 ebx=0 esp=5000 ebp=0 esi=0 edi=0 es=-0:0:0:0:0 fs=-0:0:0:0:0 gs=-0:0:0:0:0 cs=8:0:fffff:9b:c ss=10:0:fffff:93:c ds=10:0:fffff:93:c tr=18:3000:67:89:0 cr0=9 gdtr=1000:3f idtr=2000:107
T set, and a code: vector 1 stays pending behind its push
 before pending=8:0
 r idt 0 2040 f 200000
 r+ idt 0 2044 f 8500
 r tss 0 1020 f 30800067
 r+ tss 0 1024 f 8900
 w+ claimcall 0 1024 2 8b00
 w save 8 3020 f 4000
 w save 9 3024 f 2
 w save a 3028 f 0
 w save b 302c f 0
 w save c 3030 f 0
 w save d 3034 f 0
 w save e 3038 f 5000
 w save f 303c f 0
 w save 10 3040 f 0
 w save 11 3044 f 0
 w save 12 3048 3 0
 w save 13 304c 3 8
 w save 14 3050 3 10
 w save 15 3054 3 10
 w save 16 3058 3 0
 w save 17 305c 3 0
 w link 0 3080 3 18
 r load 8 30a0 f 4100
 r load 9 30a4 f 2
 r load a 30a8 f 0
 r load b 30ac f 0
 r load c 30b0 f 0
 r load d 30b4 f 0
 r load e 30b8 f 6000
 r load f 30bc f 0
 r load 10 30c0 f 0
 r load 11 30c4 f 0
 r load 12 30c8 3 0
 r load 13 30cc 3 8
 r load 14 30d0 3 10
 r load 15 30d4 3 10
 r load 16 30d8 3 0
 r load 17 30dc 3 0
 r load 18 30e0 3 0
 r load 19 30e4 3 1
 r gdt 0 1008 f ffff
 r+ gdt 0 100c f cf9b00
 r gdt 0 1010 f ffff
 r+ gdt 0 1014 f cf9300
 r gdt 0 1010 f ffff
 r+ gdt 0 1014 f cf9300
 w push 0 5ffc f 0
 after pending=1 esp=5ffc eip=4100 flags=4002 tr=20:3080:67:89:0
T set, no code: vector 1 is pending
 before pending=6
 r idt 0 2030 f 200000
 r+ idt 0 2034 f 8500
 r tss 0 1020 f 30800067
 r+ tss 0 1024 f 8900
 w+ claimcall 0 1024 2 8b00
 w save 8 3020 f 4000
 w save 9 3024 f 2
 w save a 3028 f 0
 w save b 302c f 0
 w save c 3030 f 0
 w save d 3034 f 0
 w save e 3038 f 5000
 w save f 303c f 0
 w save 10 3040 f 0
 w save 11 3044 f 0
 w save 12 3048 3 0
 w save 13 304c 3 8
 w save 14 3050 3 10
 w save 15 3054 3 10
 w save 16 3058 3 0
 w save 17 305c 3 0
 w link 0 3080 3 18
 r load 8 30a0 f 4100
 r load 9 30a4 f 2
 r load a 30a8 f 0
 r load b 30ac f 0
 r load c 30b0 f 0
 r load d 30b4 f 0
 r load e 30b8 f 6000
 r load f 30bc f 0
 r load 10 30c0 f 0
 r load 11 30c4 f 0
 r load 12 30c8 3 0
 r load 13 30cc 3 8
 r load 14 30d0 3 10
 r load 15 30d4 3 10
 r load 16 30d8 3 0
 r load 17 30dc 3 0
 r load 18 30e0 3 0
 r load 19 30e4 3 1
 r gdt 0 1008 f ffff
 r+ gdt 0 100c f cf9b00
 r gdt 0 1010 f ffff
 r+ gdt 0 1014 f cf9300
 r gdt 0 1010 f ffff
 r+ gdt 0 1014 f cf9300
 after pending=1 esp=6000 eip=4100 flags=4002 tr=20:3080:67:89:0
T set, INT n: vector 1 is pending
 r fetch 0 4000 f 20cd
 r idt 0 2100 f 200000
 r+ idt 0 2104 f 8500
 r tss 0 1020 f 30800067
 r+ tss 0 1024 f 8900
 w+ claimcall 0 1024 2 8b00
 w save 8 3020 f 4002
 w save 9 3024 f 2
 w save a 3028 f 0
 w save b 302c f 0
 w save c 3030 f 0
 w save d 3034 f 0
 w save e 3038 f 5000
 w save f 303c f 0
 w save 10 3040 f 0
 w save 11 3044 f 0
 w save 12 3048 3 0
 w save 13 304c 3 8
 w save 14 3050 3 10
 w save 15 3054 3 10
 w save 16 3058 3 0
 w save 17 305c 3 0
 w link 0 3080 3 18
 r load 8 30a0 f 4100
 r load 9 30a4 f 2
 r load a 30a8 f 0
 r load b 30ac f 0
 r load c 30b0 f 0
 r load d 30b4 f 0
 r load e 30b8 f 6000
 r load f 30bc f 0
 r load 10 30c0 f 0
 r load 11 30c4 f 0
 r load 12 30c8 3 0
 r load 13 30cc 3 8
 r load 14 30d0 3 10
 r load 15 30d4 3 10
 r load 16 30d8 3 0
 r load 17 30dc 3 0
 r load 18 30e0 3 0
 r load 19 30e4 3 1
 r gdt 0 1008 f ffff
 r+ gdt 0 100c f cf9b00
 r gdt 0 1010 f ffff
 r+ gdt 0 1014 f cf9300
 r gdt 0 1010 f ffff
 r+ gdt 0 1014 f cf9300
 after pending=1 esp=6000 eip=4100 flags=4002 tr=20:3080:67:89:0
T set, and a code that faults: the double fault takes the place of vector 1
 before pending=a:30
 r idt 0 2050 f 200000
 r+ idt 0 2054 f 8500
 r tss 0 1020 f 30800067
 r+ tss 0 1024 f 8900
 w+ claimcall 0 1024 2 8b00
 w save 8 3020 f 4000
 w save 9 3024 f 2
 w save a 3028 f 0
 w save b 302c f 0
 w save c 3030 f 0
 w save d 3034 f 0
 w save e 3038 f 5000
 w save f 303c f 0
 w save 10 3040 f 0
 w save 11 3044 f 0
 w save 12 3048 3 0
 w save 13 304c 3 8
 w save 14 3050 3 10
 w save 15 3054 3 10
 w save 16 3058 3 0
 w save 17 305c 3 0
 w link 0 3080 3 18
 r load 8 30a0 f 4100
 r load 9 30a4 f 2
 r load a 30a8 f 0
 r load b 30ac f 0
 r load c 30b0 f 0
 r load d 30b4 f 0
 r load e 30b8 f 6000
 r load f 30bc f 0
 r load 10 30c0 f 0
 r load 11 30c4 f 0
 r load 12 30c8 3 0
 r load 13 30cc 3 8
 r load 14 30d0 3 10
 r load 15 30d4 3 10
 r load 16 30d8 3 0
 r load 17 30dc 3 0
 r load 18 30e0 3 0
 r load 19 30e4 3 1
 r gdt 0 1008 f ffff
 r+ gdt 0 100c f cf9b00
 r gdt 0 1010 f ff
 r+ gdt 0 1014 f 409300
 r gdt 0 1010 f ff
 r+ gdt 0 1014 f 409300
 after pending=8:0 eip=4100 flags=4002 esp=6000 ss=10:0:ff:93:4 ds=10:0:ff:93:4 tr=20:3080:67:89:0
T set, and the code of a double fault that faults: shutdown, and nothing is pending
 before pending=8:0
 r idt 0 2040 f 200000
 r+ idt 0 2044 f 8500
 r tss 0 1020 f 30800067
 r+ tss 0 1024 f 8900
 w+ claimcall 0 1024 2 8b00
 w save 8 3020 f 4000
 w save 9 3024 f 2
 w save a 3028 f 0
 w save b 302c f 0
 w save c 3030 f 0
 w save d 3034 f 0
 w save e 3038 f 5000
 w save f 303c f 0
 w save 10 3040 f 0
 w save 11 3044 f 0
 w save 12 3048 3 0
 w save 13 304c 3 8
 w save 14 3050 3 10
 w save 15 3054 3 10
 w save 16 3058 3 0
 w save 17 305c 3 0
 w link 0 3080 3 18
 r load 8 30a0 f 4100
 r load 9 30a4 f 2
 r load a 30a8 f 0
 r load b 30ac f 0
 r load c 30b0 f 0
 r load d 30b4 f 0
 r load e 30b8 f 6000
 r load f 30bc f 0
 r load 10 30c0 f 0
 r load 11 30c4 f 0
 r load 12 30c8 3 0
 r load 13 30cc 3 8
 r load 14 30d0 3 10
 r load 15 30d4 3 10
 r load 16 30d8 3 0
 r load 17 30dc 3 0
 r load 18 30e0 3 0
 r load 19 30e4 3 1
 r gdt 0 1008 f ffff
 r+ gdt 0 100c f cf9b00
 r gdt 0 1010 f ff
 r+ gdt 0 1014 f 409300
 r gdt 0 1010 f ff
 r+ gdt 0 1014 f 409300
 after pending=none mode=shutdown eip=4100 flags=4002 esp=6000 ss=10:0:ff:93:4 ds=10:0:ff:93:4 tr=20:3080:67:89:0
T set, and a row that fails: its fault alone
 before request=20 flags=202
 r idt 0 2100 f 200000
 r+ idt 0 2104 f 8500
 r tss 0 1020 f 30800067
 r+ tss 0 1024 f 8900
 w+ claimcall 0 1024 2 8b00
 w save 8 3020 f 4000
 w save 9 3024 f 202
 w save a 3028 f 0
 w save b 302c f 0
 w save c 3030 f 0
 w save d 3034 f 0
 w save e 3038 f 5000
 w save f 303c f 0
 w save 10 3040 f 0
 w save 11 3044 f 0
 w save 12 3048 3 0
 w save 13 304c 3 8
 w save 14 3050 3 10
 w save 15 3054 3 10
 w save 16 3058 3 0
 w save 17 305c 3 0
 w link 0 3080 3 18
 r load 8 30a0 f 4100
 r load 9 30a4 f 2
 r load a 30a8 f 0
 r load b 30ac f 0
 r load c 30b0 f 0
 r load d 30b4 f 0
 r load e 30b8 f 6000
 r load f 30bc f 0
 r load 10 30c0 f 0
 r load 11 30c4 f 0
 r load 12 30c8 3 0
 r load 13 30cc 3 8
 r load 14 30d0 3 30
 r load 15 30d4 3 10
 r load 16 30d8 3 0
 r load 17 30dc 3 0
 r load 18 30e0 3 0
 r load 19 30e4 3 1
 r gdt 0 1008 f ffff
 r+ gdt 0 100c f cf9b00
 r gdt 0 1030 f ffff
 r+ gdt 0 1034 f cff200
 after request=none pending=a:31 eip=4100 flags=4002 esp=6000 cs=8:0:fffff:9b:c ss=-30:0:0:0:0 ds=-10:0:0:0:0 tr=20:3080:67:89:0
";

#[test]
fn the_old_task_is_told_of_its_gate_and_of_the_rows_1_to_7(rt: HostRuntime) {
    for (name, level, in_task, word, made, vector, code) in OLD.iter().copied() {
        for (instruction, _, _) in WAYS {
            let mut p = before(level);
            if !in_task {
                p.tr = unusable(0x70);
            }
            let bus = with(&rt, instruction, &SELECTORS, &[word]);
            refused(&rt, name, &p, bus, made, (vector, code));
        }
    }
}

/// A selector that the new task can't have: its name, its place in the order, and the vector. The code names it.
static NEW: [(&str, usize, u16, u8); 20] = [
    ("code as the LDT", 0, 0x28, 10),
    ("no LDT", 0, 0x50, 10),
    ("data as CS", 1, 0x32, 10),
    ("CS of level 3", 1, 0x3a, 10),
    ("no CS", 1, 0x7a, 11),
    ("code as SS", 2, 0x2a, 10),
    ("SS of level 3", 2, 0x42, 10),
    ("no SS", 2, 0x6a, 12),
    ("an LDT as DS", 3, 0x62, 10),
    ("DS of level 0", 3, 0x12, 10),
    ("no DS", 3, 0x6a, 11),
    ("an LDT as ES", 4, 0x62, 10),
    ("ES of level 0", 4, 0x12, 10),
    ("no ES", 4, 0x6a, 11),
    ("an LDT as FS", 5, 0x62, 10),
    ("FS of level 0", 5, 0x12, 10),
    ("no FS", 5, 0x6a, 11),
    ("an LDT as GS", 6, 0x62, 10),
    ("GS of level 0", 6, 0x12, 10),
    ("no GS", 6, 0x6a, 11),
];

#[test]
fn the_new_task_is_told_of_the_rows_8_to_18(rt: HostRuntime) {
    for (name, place, selector, vector) in NEW.iter().copied() {
        for (instruction, made, nested) in WAYS {
            let mut selectors = SELECTORS;
            selectors[place % 7] = selector;
            let bus = with(&rt, instruction, &selectors, &[]);
            let after = entered(nested, LAST, &selectors, place);
            let told = pending(&after, vector, Some(selector & 0xfffc));
            let made = NAMED + made + 2 * (place % 7 + 1);
            comes_to(&rt, name, &before(3), bus, made, &told);
        }
    }
}

/// The new task at an offset that CS has and at one that it hasn't, with a trap field, and what is pending then.
static WHOLE: [(u32, u32, Option<(u8, Option<u16>)>); 4] = [
    (LAST, 0, None),
    (LAST, 1, Some((1, None))),
    (LAST + 1, 0, Some((13, Some(0)))),
    (LAST + 1, 1, Some((13, Some(0)))),
];

#[test]
fn a_task_is_entered_whatever_the_level_of_its_tss(rt: HostRuntime) {
    for (eip, trap, told) in WHOLE.iter().copied() {
        for (instruction, made, nested) in WAYS {
            let words = [(0x3a0, eip), (0x3e4, trap)];
            let bus = with(&rt, instruction, &SELECTORS, &words);
            let new = entered(nested, eip, &SELECTORS, 7);
            let after = match told {
                Some((vector, code)) => pending(&new, vector, code),
                None => new,
            };
            comes_to(&rt, "whole", &before(3), bus, NAMED + made + 14, &after);
        }
    }
}

#[test]
fn the_t_bit_behind_a_task_gate(rt: HostRuntime) {
    assert_eq!(rt; all_made(TRAPPED), Ok(6));
}
