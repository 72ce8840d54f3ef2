//! Worked cases of stacks as values, of what flags images change, and of operations that no instruction spells.
use arrayvec::ArrayVec;
use m386_base::ask::{Ask, Role, Space};
use m386_base::desc::Desc;
use m386_base::exception::{Exception, undefined_opcode};
use m386_base::fault::{Break, Stop};
use m386_base::number::Width::{W16, W32};
use m386_base::number::{Flags, Width};
use m386_base::probe::ProbeBus;
use m386_opmap::name::Name;
use m386_opmap::op::{Arg, Op, Rep};
use m386_stack::exec::{exec, takes};
use m386_stack::flags::{changed_bits, merged};
use m386_stack::names::size_of;
use m386_stack::stack::{
    Stack, at_pointer, lowered, moved, own_stack, pop, push, push_all, top, with_stack,
};
use m386_state::proc::{Proc, start_bare};
use m386_state::segment::{Seg, TableReg};
use std::process::Abort;

/// A bare processor.
fn bare() -> Proc {
    let none = TableReg { base: 0, limit: 0 };
    start_bare(0x1000, none, none)
}

/// A stack that can be used, with a limit in bytes.
fn stack(esp: u32, limit: u16, access: u8, big: bool) -> Stack {
    let desc = if big {
        Desc::new(0x1000, limit as u32, access, 4)
    } else {
        Desc::new(0x1000, limit as u32, access, 0)
    };
    Stack {
        ss: Seg {
            selector: 0x18,
            usable: true,
            desc,
        },
        esp,
    }
}

#[test]
fn a_pointer_is_esp_or_sp(rt: HostRuntime) {
    // B, ESP, by how much it is moved, the offset of the top before, and ESP after.
    for (big, esp, by, offset, after) in [
        (true, 0x1000, 4, 0x1000, 0x1004),
        (true, 0x0001_fffe, 4, 0x0001_fffe, 0x0002_0002),
        (true, 0xffff_fffe, 4, 0xffff_fffe, 2),
        (true, 0x7fff_1000, 0x0001_0004, 0x7fff_1000, 0x8000_1004),
        (false, 0x1000, 4, 0x1000, 0x1004),
        (false, 0x0001_fffe, 4, 0xfffe, 0x0001_0002),
        (false, 0xffff_fffe, 4, 0xfffe, 0xffff_0002),
        (false, 0x7fff_1000, 0x0001_0004, 0x1000, 0x7fff_1004),
    ] {
        let st = stack(esp, 0xffff, 0x93, big);
        assert_eq!(rt; top(&st), offset, "{esp:x}");
        assert_eq!(rt; moved(&st, by).esp, after, "{esp:x}");
        assert_eq!(rt; moved(&st, by).ss, st.ss, "{esp:x}");
    }
    // B, ESP, how many bytes room is made for, and ESP after.
    for (big, esp, len, after) in [
        (true, 0x0002_0002, 4, 0x0001_fffe),
        (true, 2, 4, 0xffff_fffe),
        (true, 0x0001_0000, 2, 0xfffe),
        (false, 0x0002_0002, 4, 0x0002_fffe),
        (false, 2, 4, 0xfffe),
        (false, 0x7fff_0000, 2, 0x7fff_fffe),
    ] {
        let st = stack(esp, 0xffff, 0x93, big);
        assert_eq!(rt; lowered(&st, len).esp, after, "{esp:x}");
        assert_eq!(rt; lowered(&st, len).ss, st.ss, "{esp:x}");
    }
    let big = stack(0x1234_5678, 0xffff, 0x93, true);
    let small = stack(0x1234_5678, 0xffff, 0x93, false);
    assert_eq!(rt; at_pointer(&big, 0x9abc_def0).esp, 0x9abc_def0);
    assert_eq!(rt; at_pointer(&small, 0x9abc_def0).esp, 0x1234_def0);
}

#[test]
fn a_processor_is_put_on_a_stack(rt: HostRuntime) {
    let p = bare();
    let other = stack(0x1234_5678, 0xffff, 0x93, false);
    let after = with_stack(&p, &other);
    assert_eq!(rt; own_stack(&after), other);
    assert_eq!(rt;
        own_stack(&p),
        Stack {
            ss: p.segs[2],
            esp: 0
        }
    );
    assert_eq!(rt; after.segs[3], p.segs[3]);
    assert_eq!(rt; with_stack(&after, &own_stack(&p)), p);
}

/// The first group of an access of the stack, at an offset of a segment that begins at 1000h.
fn group(role: Role, write: bool, offset: u32, enables: u8, value: u32) -> Ask {
    Ask {
        space: Space::Memory,
        write,
        joined: false,
        role,
        part: 0,
        addr: offset.wrapping_add(0x1000),
        enables,
        value,
    }
}

#[test]
fn each_test_of_an_access_fails_alone(rt: HostRuntime) {
    let fault = Err(Break::Fault(Exception::StackFault.coded_fault(0)));
    let mut unusable = stack(0x20, 0xffff, 0x93, true);
    unusable.ss.usable = false;
    // The stack, the width of the push, and the offset and the enables of the first group.
    for (st, width, found) in [
        (stack(0x20, 0x1f, 0x93, true), W32, Some((0x1c, 15))),
        (stack(0x20, 0x1f, 0x93, true), W16, Some((0x1c, 12))),
        (stack(0x20, 0x1e, 0x93, true), W32, None),
        (stack(0x20, 0x1e, 0x93, true), W16, None),
        (stack(0x20, 0x1d, 0x93, false), W16, None),
        (stack(0x1_0001, 0xffff, 0x93, false), W16, None),
        (
            stack(0x1_0000, 0xffff, 0x93, false),
            W16,
            Some((0xfffc, 12)),
        ),
        (stack(0x20, 0x1b, 0x97, true), W32, Some((0x1c, 15))),
        (stack(0x20, 0x1c, 0x97, true), W32, None),
        (stack(0x20, 0x1d, 0x97, true), W16, Some((0x1c, 12))),
        (stack(0x20, 0x1e, 0x97, true), W16, None),
        (stack(0x20, 0xffff, 0x91, true), W32, None),
        (stack(0x20, 0xffff, 0x9b, true), W32, None),
        (unusable, W32, None),
    ] {
        let mut bus = ProbeBus::new(&[]);
        let made = push(&mut bus, &st, size_of(width), 0xa1a2_a3a4);
        match found {
            Some((offset, enables)) => {
                let value = if width == W32 {
                    0xa1a2_a3a4
                } else {
                    0xa3a4_0000
                };
                let first = group(Role::Push, true, offset, enables, value);
                assert_eq!(rt; made, Err(Break::Stop(Stop::Paused)));
                assert_eq!(rt; bus.wanted(), Some(first));
            }
            None => {
                assert_eq!(rt; made, fault);
                assert_eq!(rt; bus.wanted(), None);
            }
        }
    }
    // The same of pops.
    for (st, width, found) in [
        (stack(0x1c, 0x1f, 0x93, true), W32, Some((0x1c, 15))),
        (stack(0x1c, 0x1e, 0x93, true), W32, None),
        (stack(0x1c, 0x1d, 0x93, true), W16, Some((0x1c, 3))),
        (stack(0x1c, 0x1c, 0x93, true), W16, None),
        (stack(0xffff, 0xffff, 0x93, false), W16, None),
        (
            stack(0x7fff_fffe, 0xffff, 0x93, false),
            W16,
            Some((0xfffc, 12)),
        ),
        (stack(0x1c, 0x1b, 0x97, true), W32, Some((0x1c, 15))),
        (stack(0x1c, 0x1c, 0x97, true), W32, None),
        (stack(0x1c, 0xffff, 0x91, true), W32, Some((0x1c, 15))),
        (stack(0x1c, 0xffff, 0x9b, true), W32, Some((0x1c, 15))),
        (stack(0x1c, 0xffff, 0x99, true), W32, None),
        (unusable, W32, None),
    ] {
        let mut bus = ProbeBus::new(&[]);
        let made = pop(&mut bus, Role::Inner, &st, size_of(width));
        match found {
            Some((offset, enables)) => {
                let first = group(Role::Inner, false, offset, enables, 0);
                assert_eq!(rt; made.err(), Some(Break::Stop(Stop::Paused)));
                assert_eq!(rt; bus.wanted(), Some(first));
            }
            None => {
                assert_eq!(rt; made.err(), fault.err());
                assert_eq!(rt; bus.wanted(), None);
            }
        }
    }
}

#[test]
fn pushes_of_several_are_tested_in_turn(rt: HostRuntime) {
    let values = [1, 2, 3];
    // The limit of a stack that expands down, the cycles that were made, and the ESP where none faults.
    for (limit, made, esp) in [
        (0x1c, 0, None),
        (0x18, 1, None),
        (0x14, 2, None),
        (0x13, 3, Some(0x14)),
    ] {
        let st = stack(0x20, limit, 0x97, true);
        let mut bus = ProbeBus::new(&[0; 3]);
        let pushed = push_all(&mut bus, &st, 4, &values);
        assert_eq!(rt; bus.made(), made, "limit {limit:x}");
        assert_eq!(rt; bus.wanted(), None, "limit {limit:x}");
        match esp {
            Some(esp) => assert_eq!(rt; pushed, Ok(Stack { ss: st.ss, esp })),
            None => assert_eq!(rt;
                pushed,
                Err(Break::Fault(Exception::StackFault.coded_fault(0)))
            ),
        }
    }
}

#[test]
fn flags_change_by_level_and_iopl(rt: HostRuntime) {
    // One row for each level, and in it one for each IOPL.
    let rows = [
        [0x7fd5, 0x7fd5, 0x7fd5, 0x7fd5],
        [0x4dd5, 0x4fd5, 0x4fd5, 0x4fd5],
        [0x4dd5, 0x4dd5, 0x4fd5, 0x4fd5],
        [0x4dd5, 0x4dd5, 0x4dd5, 0x4fd5],
    ];
    for (level, row) in rows.iter().enumerate() {
        for (iopl, bits) in row.iter().enumerate() {
            let mut p = bare();
            p.segs[1].selector = 8 | level as u16;
            p.eflags = Flags((iopl as u32) << 12 | 2);
            assert_eq!(rt; changed_bits(&p), *bits, "level {level}, IOPL {iopl}");
        }
    }
    // The mask, the flags, the image, and what they come to.
    for (mask, flags, image, after) in [
        (0x7fd5, 2, 0xffff_ffff, 0x7fd7),
        (0x7fd5, 0x7fd7, 0, 2),
        (0x4dd5, 0x7fd7, 0, 0x3202),
        (0x4dd5, 2, 0x3200, 2),
        (0, 0x1234_5678, 0xffff_ffff, 0x1234_567a),
        (0x0f0f, 0xffff_0000, 0x0000_ffff, 0xffff_0f0f),
    ] {
        assert_eq!(rt;
            merged(mask, flags, image),
            after,
            "{mask:x} {flags:x} {image:x}"
        );
    }
}

/// An operation by its name, width and operands.
fn operation(name: Name, width: Width, args: &[Arg]) -> Op {
    let mut list = ArrayVec::new();
    for arg in args {
        if !list.is_full() {
            list.push(*arg);
        }
    }
    Op {
        name,
        width,
        args: list,
        lock: false,
        rep: Rep::Once,
    }
}

/// An operation is #UD, with no cycle, and leaves the state.
fn is_undefined(rt: &impl Abort, op: &Op) {
    let mut p = bare();
    let mut bus = ProbeBus::new(&[]);
    let made = exec(&mut p, op, &mut bus);
    assert_eq!(rt;
        made,
        Err(Break::Fault(undefined_opcode())),
        "{:?}",
        op.name
    );
    assert_eq!(rt; bus.wanted(), None, "{:?}", op.name);
    assert_eq!(rt; p, bare(), "{:?}", op.name);
}

#[test]
fn operations_are_taken_by_name_and_width(rt: HostRuntime) {
    for name in [
        Name::Push,
        Name::Pop,
        Name::Pusha,
        Name::Popa,
        Name::Pushf,
        Name::Popf,
        Name::Leave,
    ] {
        assert!(rt; takes(&operation(name, W32, &[])), "{name:?}");
        assert!(rt; takes(&operation(name, W16, &[])), "{name:?}");
        let narrow = operation(name, Width::W8, &[]);
        assert!(rt; !takes(&narrow), "{name:?}");
        is_undefined(&rt, &narrow);
    }
    for name in [Name::Mov, Name::Ret, Name::Iret, Name::Call] {
        assert!(rt; !takes(&operation(name, W32, &[])), "{name:?}");
    }
}

#[test]
fn operands_that_no_instruction_has_are_undefined(rt: HostRuntime) {
    for args in [
        [Arg::Seg(1)].as_slice(),
        &[Arg::Imm(1)],
        &[Arg::Cr0],
        &[Arg::Reg(0), Arg::Reg(1)],
        &[],
    ] {
        is_undefined(&rt, &operation(Name::Pop, W32, args));
    }
    for args in [[Arg::Cr0].as_slice(), &[Arg::Reg(0), Arg::Reg(1)], &[]] {
        is_undefined(&rt, &operation(Name::Push, W32, args));
    }
}
