//! Lines and a report, byte for byte.
ghost use Rattle.std.specs.Prelude.{◌≡◌, ◌<◌, All, IfOk};

use m386_base::ask::{Ask, Cycle, Role, Space};
use m386_base::list::List;
use m386_base::number::Flags;
use m386_book::verdict::Verdict;
use m386_edge::failed::Failed;
use m386_edge::mem_sink::MemSink;
use m386_image::image::{Image, TableAt};
use m386_memory::ended::ProcEnd;
use m386_memory::history::Record;
use m386_memory::store::Store;
use m386_state::event::{Cause, Event};
use m386_state::proc::{Mode, Proc, start_bare, unusable};
use m386_state::segment::{Seg, TableReg};
use m386_trace::cycle::cycle_line;
use m386_trace::machine::machine_line;
use m386_trace::proc::proc_line;
use m386_trace::report::report;
use m386_trace::soak::soak_line;
use m386_trace::task::task_line;
use m386_trace::verdict::verdict_line;
use m386_trace::words::role_word;
use std::alloc::Global;
use std::test::Fail;

const FETCH: Ask = Ask {
    space: Space::Memory,
    write: false,
    joined: false,
    role: Role::Fetch,
    part: 0,
    addr: 0x1000,
    enables: 15,
    value: 0x3456_78b8,
};

const STORE: Ask = Ask {
    space: Space::Memory,
    write: true,
    joined: false,
    role: Role::Operand,
    part: 0,
    addr: 0x2000,
    enables: 15,
    value: 0x1234_5678,
};

/// The state after the three instructions MOV EAX, 12345678h; MOV [2000h], EAX; HLT.
fn first_run() -> ProcEnd<Proc> {
    let table = TableReg { base: 0, limit: 0 };
    let mut after = start_bare(0x100b, table, table);
    after.mode = Mode::Halted;
    after.regs[0] = 0x1234_5678;
    ProcEnd { after, steps: 3 }
}

/// The line of that processor.
const FIRST_RUN: &str =
    "p 0 halted steps 3 eip 0000100b efl 00000002 eax 12345678 ecx 00000000 edx 00000000 ebx 00000000 esp 00000000 ebp 00000000 esi 00000000 edi 00000000 es 0010 cs 0008 ss 0010 ds 0010 fs 0010 gs 0010 ldt 0000 tr 0000 cr0 00000001 pending none\n";

/// A cycle of processor 0.
fn made(ask: Ask) -> Cycle
    ensures { result ≡ record { cpu = 0; ask = ask } }
{
    Cycle { cpu: 0, ask }
}

#[test]
fn cycles_of_a_run(rt: HostRuntime) {
    let second = Ask {
        addr: 0x1004,
        value: 0x2000_a312,
        ..FETCH
    };
    let third = Ask {
        addr: 0x1008,
        value: 0xf4_0000,
        ..FETCH
    };
    assert_eq!(rt;
        cycle_line(&made(FETCH)).as_str(),
        "c 0 m r . fetch 00 00001000 f 345678b8\n"
    );
    assert_eq!(rt;
        cycle_line(&made(second)).as_str(),
        "c 0 m r . fetch 00 00001004 f 2000a312\n"
    );
    assert_eq!(rt;
        cycle_line(&made(third)).as_str(),
        "c 0 m r . fetch 00 00001008 f 00f40000\n"
    );
    assert_eq!(rt;
        cycle_line(&made(STORE)).as_str(),
        "c 0 m w . data 00 00002000 f 12345678\n"
    );
}

#[test]
fn cycles_of_a_split_store(rt: HostRuntime) {
    let first = Ask {
        enables: 8,
        value: 0x7800_0000,
        ..STORE
    };
    let second = Ask {
        part: 1,
        addr: 0x2004,
        enables: 7,
        value: 0x12_3456,
        ..STORE
    };
    assert_eq!(rt;
        cycle_line(&made(first)).as_str(),
        "c 0 m w . data 00 00002000 8 78000000\n"
    );
    assert_eq!(rt;
        cycle_line(&made(second)).as_str(),
        "c 0 m w . data 01 00002004 7 00123456\n"
    );
}

#[test]
fn each_form_of_a_cycle(rt: HostRuntime) {
    let joined = Cycle {
        cpu: 7,
        ask: Ask {
            joined: true,
            value: 2,
            ..STORE
        },
    };
    let port = Ask {
        space: Space::Port,
        addr: 4,
        enables: 8,
        value: 0,
        ..STORE
    };
    let last = Ask {
        role: Role::ClaimStart,
        part: 99,
        addr: 0xffff_fffc,
        ..FETCH
    };
    assert_eq!(rt;
        cycle_line(&joined).as_str(),
        "c 7 m w + data 00 00002000 f 00000002\n"
    );
    assert_eq!(rt;
        cycle_line(&made(port)).as_str(),
        "c 0 p w . data 00 00000004 8 00000000\n"
    );
    assert_eq!(rt;
        cycle_line(&made(last)).as_str(),
        "c 0 m r . claimstart 99 fffffffc f 345678b8\n"
    );
}

#[test]
fn words_of_roles(rt: HostRuntime) {
    let words = [
        (Role::Fetch, "fetch"),
        (Role::Operand, "data"),
        (Role::Push, "push"),
        (Role::Pop, "pop"),
        (Role::Flags, "flags"),
        (Role::Gdt, "gdt"),
        (Role::Ldt, "ldt"),
        (Role::Idt, "idt"),
        (Role::GdtAcc, "gdtacc"),
        (Role::LdtAcc, "ldtacc"),
        (Role::Tss, "tss"),
        (Role::ClaimJmp, "claimjmp"),
        (Role::ClaimCall, "claimcall"),
        (Role::ClaimStart, "claimstart"),
        (Role::ClaimLtr, "claimltr"),
        (Role::Save, "save"),
        (Role::Load, "load"),
        (Role::Link, "link"),
        (Role::Back, "back"),
        (Role::RelJmp, "reljmp"),
        (Role::RelRet, "relret"),
        (Role::Inner, "inner"),
        (Role::Map, "map"),
        (Role::Lgdt, "lgdt"),
        (Role::Lidt, "lidt"),
    ];
    for (role, word) in words {
        assert_eq!(rt; role_word(role), word);
    }
}

#[test]
fn processors_at_their_end(rt: HostRuntime) {
    let mut end = first_run();
    assert_eq!(rt; proc_line(0, &end).as_str(), FIRST_RUN);
    let code = Some(0x102);
    end.after.pending = Some(Event {
        vector: 13,
        code,
        cause: Cause::Exception,
    });
    assert!(rt; proc_line(0, &end).as_str().ends_with(" pending 0d 0102\n"));
    end.after.pending = Some(Event {
        vector: 6,
        code: None,
        cause: Cause::Exception,
    });
    assert!(rt; proc_line(0, &end).as_str().ends_with(" pending 06 -\n"));
}

/// A segment's register with this selector.
fn selected(selector: u16) -> Seg {
    Seg {
        selector,
        ..unusable(0)
    }
}

#[test]
fn each_field_of_a_processor_stands_in_its_place(rt: HostRuntime) {
    let table = TableReg {
        base: 0x7777,
        limit: 0x88,
    };
    let mut after = start_bare(0x1234_abcd, table, table);
    after.eflags = Flags(0x0000_4ed7);
    after.regs = [
        0xa000_0001,
        0xb000_0002,
        0xc000_0003,
        0xd000_0004,
        0xe000_0005,
        0xf000_0006,
        0x9000_0007,
        0x8000_0008,
    ];
    after.segs = [
        selected(0x1113),
        selected(0x2222),
        selected(0x333f),
        selected(0x444a),
        selected(0x555c),
        selected(0x666d),
    ];
    after.ldtr = selected(0x7770);
    after.tr = selected(0x888b);
    after.cr0 = 0xb;
    // What doesn't stand in the line.
    after.shadow = true;
    after.request = Some(0x21);
    after.start = Some(0x28);
    let fields =
        " eip 1234abcd efl 00004ed7 eax a0000001 ecx b0000002 edx c0000003 ebx d0000004 esp e0000005 ebp f0000006 esi 90000007 edi 80000008 es 1113 cs 2222 ss 333f ds 444a fs 555c gs 666d ldt 7770 tr 888b cr0 0000000b pending none\n";
    for (cpu, mode, steps, begin) in [
        (0, Mode::Running, 0, "p 0 running steps 0"),
        (1, Mode::Halted, 10, "p 1 halted steps 10"),
        (
            7,
            Mode::Shutdown,
            4_294_967_295,
            "p 7 shutdown steps 4294967295",
        ),
    ] {
        after.mode = mode;
        let end = ProcEnd { after, steps };
        let line = proc_line(cpu, &end);
        assert_eq!(rt; line.as_str().strip_prefix(begin), Some(fields), "{begin}");
    }
}

#[test]
fn each_field_of_a_cycle_stands_in_its_place(rt: HostRuntime) {
    let cycle = Cycle {
        cpu: 5,
        ask: Ask {
            space: Space::Port,
            write: false,
            joined: true,
            role: Role::Map,
            part: 42,
            addr: 0x89ab_cdec,
            enables: 10,
            value: 0x7600_5400,
        },
    };
    assert_eq!(rt;
        cycle_line(&cycle).as_str(),
        "c 5 p r + map 42 89abcdec a 76005400\n"
    );
}

#[test]
fn verdicts(rt: HostRuntime) {
    assert_eq!(rt; verdict_line(&Verdict::Clean).as_str(), "clean\n");
    for (verdict, line) in [
        (Verdict::Static(1), "unclean rule 1\n"),
        (Verdict::Static(4), "unclean rule 4\n"),
        (Verdict::At { rule: 6, index: 0 }, "unclean rule 6 at 0\n"),
        (Verdict::At { rule: 8, index: 10 }, "unclean rule 8 at 10\n"),
        (
            Verdict::At {
                rule: 9,
                index: 18_446_744_073_709_551_615,
            },
            "unclean rule 9 at 18446744073709551615\n",
        ),
    ] {
        assert_eq!(rt; verdict_line(&verdict).as_str(), line);
    }
}

/// A record of that store and a read of what it wrote.
#[tactic(auto, using(m386_trace::proofs::Printable::all_pushed))]
fn two_cycles(alloc: Global) -> Result<Record, Fail>
    ensures { IfOk result (λ log. All (λ c. c.cpu < 8) log.cycles) }
{
    let mut log = Record::new(alloc, Store::new(alloc, 16384)?);
    log.put(0, STORE)?;
    log.put(
        0,
        Ask {
            write: false,
            value: 0,
            ..STORE
        },
    )?;
    Ok(log)
}

#[test]
fn the_line_of_the_machine(rt: HostRuntime) {
    for (memory, has, cpus, line) in [
        (0x0100_0000, 8, 8, "memory 01000000 cpus 8\n"),
        (0x00ab_c000, 8, 3, "memory 00abc000 cpus 3\n"),
        (0x1000, 1, 1, "memory 00001000 cpus 1\n"),
    ] {
        let image = image_of(rt.alloc(), memory, has);
        assert_eq!(rt; machine_line(&image, cpus).as_str(), line);
    }
}

/// An image of so much memory and so many processors.
fn image_of(alloc: Global, memory: u32, cpus: u8) -> Image {
    Image {
        memory,
        cpus,
        flags: 0,
        gdt: TableAt { base: 0, limit: 0 },
        idt: TableAt { base: 0, limit: 0 },
        starts: [0x1000, 0, 0, 0, 0, 0, 0, 0],
        plan: List::new(alloc),
        sections: List::new(alloc),
    }
}

/// Its report, to a sink whose write with this number fails.
fn written(alloc: Global, fails: u32) -> Result<(MemSink, Result<(), Failed>), Fail> {
    let image = image_of(alloc, 16384, 1);
    let log = two_cycles(alloc)?;
    let mut sink = MemSink::new(alloc, 512, 4096, [fails].to_vec(alloc)?)?;
    let ended = report(&image, &log, &[first_run()], &Verdict::Clean, &mut sink);
    Ok((sink, ended))
}

#[test]
fn whole_report(rt: HostRuntime) -> Result<(), Fail> {
    let (sink, ended) = written(rt.alloc(), 0)?;
    assert_eq!(rt; ended, Ok(()));
    let head =
        "m386 report 1\nmemory 00004000 cpus 1\nc 0 m w . data 00 00002000 f 12345678\nc 0 m r . data 00 00002000 f 12345678\n";
    let text = format!(in rt.alloc(); "{head}{FIRST_RUN}clean\n")?;
    assert_eq!(rt; sink.bytes(), text.as_bytes());
    let (sink, ended) = written(rt.alloc(), 4)?;
    assert_eq!(rt; ended, Err(Failed));
    assert_eq!(rt;
        sink.bytes(),
        b"m386 report 1\nmemory 00004000 cpus 1\nc 0 m w . data 00 00002000 f 12345678\n".as_slice()
    );
    Ok(())
}

/// The line of a second processor, which took twelve steps.
const SECOND_RUN: &str =
    "p 1 shutdown steps 12 eip 0000100b efl 00000002 eax 9abcdef0 ecx 00000000 edx 00000000 ebx 00000000 esp 00000000 ebp 00000000 esi 00000000 edi 00000000 es 0010 cs 0008 ss 0010 ds 0010 fs 0010 gs 0010 ldt 0000 tr 0000 cr0 00000001 pending none\n";

#[test]
fn each_processor_has_its_line(rt: HostRuntime) -> Result<(), Fail> {
    let alloc = rt.alloc();
    let mut second = first_run();
    second.after.mode = Mode::Shutdown;
    second.after.regs[0] = 0x9abc_def0;
    second.steps = 12;
    let log = Record::new(alloc, Store::new(alloc, 16384)?);
    let mut sink = MemSink::new(alloc, 512, 4096, Vec::new(alloc))?;
    let ended = report(
        &image_of(alloc, 16384, 2),
        &log,
        &[first_run(), second],
        &Verdict::Static(4),
        &mut sink,
    );
    assert_eq!(rt; ended, Ok(()));
    let text = format!(in alloc;
        "m386 report 1\nmemory 00004000 cpus 2\n{FIRST_RUN}{SECOND_RUN}unclean rule 4\n"
    )?;
    assert_eq!(rt; sink.bytes(), text.as_bytes());
    Ok(())
}

/// What lies at 1008h: the descriptors 1 to 3 of a table, of a busy TSS at 1020h, of data, and of a TSS that isn't present, whose limit counts
/// pages and which lies past the end of memory; and then the 104 bytes of the first TSS, 80h and up.
const TASKS: [u8; 128] = [
    0x67, 0x00, 0x20, 0x10, 0x00, 0x8b, 0x00, 0x00, 0xff, 0xff, 0x00, 0x00, 0x00, 0x92, 0xcf, 0x00,
    0x12, 0x00, 0x40, 0xcd, 0xab, 0x09, 0x80, 0x00, 0x80, 0x81, 0x82, 0x83, 0x84, 0x85, 0x86, 0x87,
    0x88, 0x89, 0x8a, 0x8b, 0x8c, 0x8d, 0x8e, 0x8f, 0x90, 0x91, 0x92, 0x93, 0x94, 0x95, 0x96, 0x97,
    0x98, 0x99, 0x9a, 0x9b, 0x9c, 0x9d, 0x9e, 0x9f, 0xa0, 0xa1, 0xa2, 0xa3, 0xa4, 0xa5, 0xa6, 0xa7,
    0xa8, 0xa9, 0xaa, 0xab, 0xac, 0xad, 0xae, 0xaf, 0xb0, 0xb1, 0xb2, 0xb3, 0xb4, 0xb5, 0xb6, 0xb7,
    0xb8, 0xb9, 0xba, 0xbb, 0xbc, 0xbd, 0xbe, 0xbf, 0xc0, 0xc1, 0xc2, 0xc3, 0xc4, 0xc5, 0xc6, 0xc7,
    0xc8, 0xc9, 0xca, 0xcb, 0xcc, 0xcd, 0xce, 0xcf, 0xd0, 0xd1, 0xd2, 0xd3, 0xd4, 0xd5, 0xd6, 0xd7,
    0xd8, 0xd9, 0xda, 0xdb, 0xdc, 0xdd, 0xde, 0xdf, 0xe0, 0xe1, 0xe2, 0xe3, 0xe4, 0xe5, 0xe6, 0xe7,
];

/// The line of the first, by the places of the fields in the manual's figure 7-1.
const BUSY_TASK: &str =
    "t 0008 busy base 00001020 limit 00000067 link 8180 esp0 87868584 ss0 8988 esp1 8f8e8d8c ss1 9190 esp2 97969594 ss2 9998 cr3 9f9e9d9c eip a3a2a1a0 efl a7a6a5a4 eax abaaa9a8 ecx afaeadac edx b3b2b1b0 ebx b7b6b5b4 esp bbbab9b8 ebp bfbebdbc esi c3c2c1c0 edi c7c6c5c4 es c9c8 cs cdcc ss d1d0 ds d5d4 fs d9d8 gs dddc ldt e1e0 trap e5e4 map e7e6\n";

/// The line of the third.
const ABSENT_TASK: &str =
    "t 0018 free base 00abcd40 limit 00012fff link ffff esp0 ffffffff ss0 ffff esp1 ffffffff ss1 ffff esp2 ffffffff ss2 ffff cr3 ffffffff eip ffffffff efl ffffffff eax ffffffff ecx ffffffff edx ffffffff ebx ffffffff esp ffffffff ebp ffffffff esi ffffffff edi ffffffff es ffff cs ffff ss ffff ds ffff fs ffff gs ffff ldt ffff trap ffff map ffff\n";

#[test]
fn tasks_have_lines_by_the_places_of_their_fields(rt: HostRuntime) -> Result<(), Fail> {
    let mut store = Store::new(rt.alloc(), 16384)?;
    if store.size() < 16384 {
        return Err(Fail::new("a small store"));
    }
    store.fill(0x1008, &TASKS);
    let table = TableAt {
        base: 0x1000,
        limit: 0x1f,
    };
    let Some(busy) = task_line(&store, table, 1) else {
        return Err(Fail::new("no line of a busy TSS"));
    };
    assert_eq!(rt; busy.as_str(), BUSY_TASK);
    assert!(rt; task_line(&store, table, 2).is_none());
    let Some(absent) = task_line(&store, table, 3) else {
        return Err(Fail::new("no line of a TSS that isn't present"));
    };
    assert_eq!(rt; absent.as_str(), ABSENT_TASK);
    Ok(())
}

/// Roles of cycles that claim a task.
const CLAIMS: [Role; 4] = [
    Role::ClaimJmp,
    Role::ClaimCall,
    Role::ClaimStart,
    Role::ClaimLtr,
];

/// Roles of cycles that don't, those of a switch among them.
const NO_CLAIMS: [Role; 12] = [
    Role::Fetch,
    Role::Operand,
    Role::Gdt,
    Role::GdtAcc,
    Role::Tss,
    Role::Save,
    Role::Link,
    Role::Back,
    Role::RelJmp,
    Role::RelRet,
    Role::Load,
    Role::Map,
];

#[test]
fn claims_count_in_a_soak(rt: HostRuntime) {
    let tables: [(&[Role], &str); 2] = [
        (&CLAIMS, "soak 3 cpus 2 tasks 4 cycles 2 claims 1 clean\n"),
        (
            &NO_CLAIMS,
            "soak 3 cpus 2 tasks 4 cycles 2 claims 0 clean\n",
        ),
    ];
    for (roles, wanted) in tables {
        for role in roles {
            let cycles = [
                made(FETCH),
                made(Ask {
                    role: *role,
                    ..STORE
                }),
            ];
            assert_eq!(rt;
                soak_line(3, 2, 4, &cycles, &Verdict::Clean).as_str(),
                wanted,
                "{role:?}"
            );
        }
    }
}

#[test]
fn verdicts_of_soaks(rt: HostRuntime) {
    let lines = [
        (
            Verdict::Clean,
            "soak 18446744073709551615 cpus 8 tasks 0 cycles 0 claims 0 clean\n",
        ),
        (
            Verdict::Static(5),
            "soak 18446744073709551615 cpus 8 tasks 0 cycles 0 claims 0 unclean rule 5\n",
        ),
        (
            Verdict::At {
                rule: 7,
                index: 65_536,
            },
            "soak 18446744073709551615 cpus 8 tasks 0 cycles 0 claims 0 unclean rule 7 at 65536\n",
        ),
    ];
    for (verdict, wanted) in lines {
        assert_eq!(rt; soak_line(u64::MAX, 8, 0, &[], &verdict).as_str(), wanted);
    }
}
