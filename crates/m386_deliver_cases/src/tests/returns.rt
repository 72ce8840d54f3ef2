//! IRET, and which operations this crate takes.
use super::{
    CODE_0, CODE_3, DATA_3, Entry, Surroundings, bus_of, coded, flat, joined, kernel, makes, put,
    read, user, usual,
};
use arrayvec::ArrayVec;
use m386_base::ask::{Ask, Role};
use m386_base::fault::{Break, Fault};
use m386_base::number::{Flags, Width};
use m386_deliver::exec::{delivers, exec, takes};
use m386_deliver::iret::iret;
use m386_opmap::name::Name;
use m386_opmap::op::{Arg, Op, Rep};
use m386_state::proc::{Proc, unusable};
use std::process::Abort;

/// An operation without operands.
fn operation(name: Name, width: Width) -> Op {
    Op {
        name,
        width,
        args: ArrayVec::new(),
        lock: false,
        rep: Rep::Once,
    }
}

/// INT n.
fn int(number: u32) -> Op {
    let mut args = ArrayVec::new();
    args.push(Arg::Imm(number));
    Op {
        name: Name::Int,
        width: Width::W32,
        args,
        lock: false,
        rep: Rep::Once,
    }
}

/// The five doublewords at 280h.
#[derive(Clone, Copy)]
struct Frame {
    eip: u32,
    cs: u32,
    flags: u32,
    esp: u32,
    ss: u32,
}

/// IRET of 32 bits over a frame: so many cycles, and the state after it or its fault.
fn leaves(
    rt: &impl Abort,
    name: &str,
    w: &Surroundings,
    before: &Proc,
    f: Frame,
    cycles: usize,
    end: Result<Proc, Fault>,
) {
    let mut bus = bus_of(w);
    put(&mut bus, 0x280, f.eip);
    put(&mut bus, 0x284, f.cs);
    put(&mut bus, 0x288, f.flags);
    put(&mut bus, 0x28c, f.esp);
    put(&mut bus, 0x290, f.ss);
    let mut p = *before;
    let found = match iret(&mut p, &operation(Name::Iret, Width::W32), &mut bus) {
        Ok(()) => Ok(p),
        Err(Break::Fault(fault)) => {
            assert_eq!(rt; p, *before, "{name}");
            Err(fault)
        }
        Err(Break::Stop(stop)) => panic!(rt; "{name} stops: {stop:?}"),
    };
    assert_eq!(rt; found, end, "{name}");
    assert_eq!(rt; bus.cycles().len(), cycles, "{name}");
}

/// The state with these flags.
fn flagged(p: &Proc, flags: u32) -> Proc {
    let mut after = *p;
    after.eflags = Flags(flags);
    after
}

/// The state of a program at this EIP, with this ESP and these flags.
fn program(p: &Proc, eip: u32, esp: u32, flags: u32) -> Proc {
    let mut after = flagged(p, flags);
    after.eip = eip;
    after.regs[4] = esp;
    after
}

/// The level of a handler and its IOPL, an image of the flags, and the flags behind IRET to the same level. Before it they are 0202h
/// or 0002h with the IOPL.
const IMAGES: [(bool, u32, u32, u32); 10] = [
    (true, 0x0002, 0xffff_ffff, 0x7fd7),
    (true, 0x0202, 0x0000_0000, 0x0002),
    (true, 0x3202, 0x0000_0ed5, 0x0ed7),
    (false, 0x0002, 0xffff_ffff, 0x4dd7),
    (false, 0x0202, 0x0000_0000, 0x0202),
    (false, 0x2202, 0x0000_7000, 0x6202),
    (false, 0x2002, 0x0000_0300, 0x2102),
    (false, 0x3002, 0xffff_ffff, 0x7fd7),
    (false, 0x3202, 0x0000_0000, 0x3002),
    (false, 0x3202, 0x0000_4200, 0x7202),
];

#[test]
fn flags_change_as_the_handlers_level_may(rt: HostRuntime) {
    for (inner, before, image, after) in IMAGES {
        let p = if inner { kernel() } else { user() };
        let cs = if inner { 8 } else { 0x2b };
        let frame = Frame {
            eip: 0x8765_4321,
            cs,
            flags: image,
            esp: 0,
            ss: 0,
        };
        let end = program(&p, 0x8765_4321, 0x28c, after);
        leaves(
            &rt,
            "an image",
            &usual(),
            &flagged(&p, before),
            frame,
            5,
            Ok(end),
        );
    }
}

#[test]
fn a_return_to_an_outer_level_takes_its_stack(rt: HostRuntime) {
    let p = flagged(&kernel(), 0x0002);
    let frame = Frame {
        eip: 0x44,
        cs: 0xffff_002b,
        flags: 0x3302,
        esp: 0x1234_5678,
        ss: 0xffff_0033,
    };
    let mut end = program(&p, 0x44, 0x1234_5678, 0x3302);
    let null = unusable(0);
    end.segs = [null, flat(0x2b, 0xfb), flat(0x33, 0xf3), null, null, null];
    leaves(&rt, "to level 3", &usual(), &p, frame, 9, Ok(end));
    let short = Frame { ss: 0x30, ..frame };
    leaves(
        &rt,
        "SS of RPL 0",
        &usual(),
        &p,
        short,
        9,
        Err(coded(13, 0x30)),
    );
    let none = Frame { ss: 0, ..frame };
    leaves(&rt, "SS is null", &usual(), &p, none, 7, Err(coded(13, 0)));
}

#[test]
fn cs_passes_its_rules(rt: HostRuntime) {
    let p = flagged(&kernel(), 0x0002);
    let frame = Frame {
        eip: 0x44,
        cs: 0x18,
        flags: 2,
        esp: 0x300,
        ss: 0x33,
    };
    let w = usual();
    let at = |cs: u32| Frame { cs, ..frame };
    leaves(&rt, "null", &w, &p, at(3), 3, Err(coded(13, 0)));
    leaves(
        &rt,
        "past the GDT",
        &w,
        &p,
        at(0x38),
        3,
        Err(coded(13, 0x38)),
    );
    leaves(&rt, "data", &w, &p, at(0x10), 5, Err(coded(13, 0x10)));
    leaves(
        &rt,
        "of another DPL",
        &w,
        &p,
        at(0x28),
        5,
        Err(coded(13, 0x28)),
    );
    let q = flagged(&user(), 0x0002);
    leaves(
        &rt,
        "to an inner level",
        &w,
        &q,
        at(0x18),
        5,
        Err(coded(13, 0x18)),
    );
    let away = Surroundings {
        code: Entry {
            low: 0xffff,
            high: 0x00cf_1a00,
        },
        ..w
    };
    leaves(
        &rt,
        "not present",
        &away,
        &p,
        at(0x18),
        5,
        Err(coded(11, 0x18)),
    );
    let small = Surroundings {
        code: Entry {
            low: 0x0043,
            high: 0x0040_9a00,
        },
        ..w
    };
    leaves(
        &rt,
        "past its limit",
        &small,
        &p,
        at(0x18),
        6,
        Err(coded(13, 0)),
    );
    let nested = flagged(&kernel(), 0x4002);
    leaves(
        &rt,
        "with NT set, to a back link of 0",
        &w,
        &nested,
        at(8),
        1,
        Err(coded(10, 0)),
    );
}

#[test]
fn the_image_is_popped_by_a_role_of_its_own(rt: HostRuntime) {
    let mut bus = bus_of(&usual());
    put(&mut bus, 0x280, 0x0008_1234);
    put(&mut bus, 0x284, 0x0000_0dd5);
    let mut p = flagged(&kernel(), 0x3002);
    let done = exec(&mut p, &operation(Name::Iret, Width::W16), &mut bus);
    assert_eq!(rt; done, Ok(()));
    assert_eq!(rt; p, program(&kernel(), 0x1234, 0x286, 0x0dd7));
    let cycles = [
        read(Role::Pop, 0, 0x280, 3, 0x1234),
        read(Role::Pop, 0, 0x280, 12, 0x0008_0000),
        read(Role::Flags, 0, 0x284, 3, 0x0dd5),
        read(Role::Gdt, 0, 0x118, 15, 0xffff),
        joined(read(Role::Gdt, 0, 0x11c, 15, 0x00cf_9b00)),
    ];
    makes(&rt, "IRET of 16 bits", &bus, &cycles);
}

/// An operation at level 3 through a gate of DPL 3 for its vector, and where the pushed EIP and its cycles end: so many cycles.
fn enters(rt: &impl Abort, op: &Op, vector: u8, flags: u32, cycles: usize, entered: bool) {
    assert!(rt; takes(op));
    let p = flagged(&user(), flags);
    assert_eq!(rt; delivers(op, &p), entered);
    let w = Surroundings { vector, ..usual() };
    let mut bus = bus_of(&w);
    let mut after = p;
    assert_eq!(rt; exec(&mut after, op, &mut bus), Ok(()));
    assert_eq!(rt; bus.cycles().len(), cycles);
    assert_eq!(rt; after != p, entered);
}

#[test]
fn a_program_asks_for_events(rt: HostRuntime) {
    enters(&rt, &int(32), 32, 0x0002, 13, true);
    enters(&rt, &int(3), 3, 0x0002, 13, true);
    enters(&rt, &operation(Name::Int3, Width::W32), 3, 0x0002, 13, true);
    enters(&rt, &operation(Name::Into, Width::W32), 4, 0x0802, 13, true);
    enters(&rt, &operation(Name::Into, Width::W32), 4, 0x07d7, 0, false);
    assert!(rt; !takes(&operation(Name::Hlt, Width::W32)));
    assert!(rt; !delivers(&operation(Name::Iret, Width::W32), &kernel()));
    assert!(rt; !takes(&operation(Name::Int, Width::W32)));
}

/// The level of a handler, its IOPL, and the flags behind IRET of an image of all ones, where IF was clear, and of all zeros, where it
/// was set.
const LEVELS: [(u16, u32, u32, u32); 16] = [
    (0, 0x0000, 0x7fd7, 0x0002),
    (0, 0x1000, 0x7fd7, 0x0002),
    (0, 0x2000, 0x7fd7, 0x0002),
    (0, 0x3000, 0x7fd7, 0x0002),
    (1, 0x0000, 0x4dd7, 0x0202),
    (1, 0x1000, 0x5fd7, 0x1002),
    (1, 0x2000, 0x6fd7, 0x2002),
    (1, 0x3000, 0x7fd7, 0x3002),
    (2, 0x0000, 0x4dd7, 0x0202),
    (2, 0x1000, 0x5dd7, 0x1202),
    (2, 0x2000, 0x6fd7, 0x2002),
    (2, 0x3000, 0x7fd7, 0x3002),
    (3, 0x0000, 0x4dd7, 0x0202),
    (3, 0x1000, 0x5dd7, 0x1202),
    (3, 0x2000, 0x6dd7, 0x2202),
    (3, 0x3000, 0x7fd7, 0x3002),
];

#[test]
fn each_level_changes_its_flags(rt: HostRuntime) {
    for (level, iopl, ones, zeros) in LEVELS {
        // Conforming code runs at each level.
        let w = Surroundings {
            code: Entry {
                low: 0xffff,
                high: 0x00cf_9f00,
            },
            ..usual()
        };
        let data = flat(0x33, 0xf3);
        let code = flat(0x18 + level % 4, 0x9f);
        let mut p = kernel();
        p.segs = [data, code, data, data, data, data];
        let frame = Frame {
            eip: 0x44,
            cs: 0x18 + u32::from(level),
            flags: 0xffff_ffff,
            esp: 0,
            ss: 0,
        };
        let all = flagged(&p, iopl % 0x1_0000 + 2);
        let end = program(&p, 0x44, 0x28c, ones);
        leaves(&rt, "ones", &w, &all, frame, 5, Ok(end));
        let none = Frame { flags: 0, ..frame };
        let set = flagged(&p, iopl % 0x1_0000 + 0x202);
        let end = program(&p, 0x44, 0x28c, zeros);
        leaves(&rt, "zeros", &w, &set, none, 5, Ok(end));
    }
}
