//! Deliveries that lead into their handlers, with each cycle.
use super::{
    CODE_3, Entry, Surroundings, accessed, comes_to, event, flat, joined, kernel, push, read, user,
    usual,
};
use m386_base::ask::{Ask, Role};
use m386_base::desc::Desc;
use m386_base::number::Flags;
use m386_state::event::{Cause, Event};
use m386_state::proc::Proc;
use m386_state::segment::Seg;
use std::process::Abort;

/// The two reads of the gate of vector 32.
fn gate_reads(low: u32, high: u32) -> [Ask; 2] {
    [
        read(Role::Idt, 0, 0x100, 15, low),
        joined(read(Role::Idt, 0, 0x104, 15, high)),
    ]
}

/// The state of a handler at 0018:00000044 on the stack of the program.
fn same_level(p: &Proc, code: Seg, esp: u32, flags: u32) -> Proc {
    let data = p.segs[0];
    let mut after = *p;
    after.regs[4] = esp;
    after.eip = 0x44;
    after.eflags = Flags(flags);
    after.segs = [data, code, p.segs[2], data, data, data];
    after
}

#[test]
fn a_handler_of_the_same_level_is_entered(rt: HostRuntime) {
    let p = kernel();
    let w = usual();
    let [first, second] = gate_reads(0x0018_0044, 0xee00);
    let cycles = [
        first,
        second,
        read(Role::Gdt, 0, 0x128, 15, 0xffff),
        joined(read(Role::Gdt, 0, 0x12c, 15, 0x00cf_9b00)),
        push(0x27c, 0x4303),
        push(0x278, 8),
        push(0x274, 0x1234_5678),
    ];
    let after = same_level(&p, flat(0x18, 0x9b), 0x274, 0x0003);
    for cause in [Cause::Soft, Cause::Exception, Cause::External] {
        comes_to(
            &rt,
            "without a code",
            &w,
            &p,
            event(cause, 32),
            &cycles,
            &after,
        );
    }
}

#[test]
fn a_trap_gate_leaves_if_and_a_code_is_pushed_last(rt: HostRuntime) {
    let p = kernel();
    let w = Surroundings {
        vector: 13,
        gate: Entry {
            low: 0x001b_0044,
            high: 0x8f00,
        },
        code: Entry {
            low: 0xffff,
            high: 0x00cf_9a00,
        },
        ..usual()
    };
    let cycles = [
        read(Role::Idt, 0, 0x68, 15, 0x001b_0044),
        joined(read(Role::Idt, 0, 0x6c, 15, 0x8f00)),
        read(Role::Gdt, 0, 0x128, 15, 0xffff),
        joined(read(Role::Gdt, 0, 0x12c, 15, 0x00cf_9a00)),
        accessed(0x12c, 0x9b00),
        push(0x27c, 0x4303),
        push(0x278, 8),
        push(0x274, 0x1234_5678),
        push(0x270, 0xabcd),
    ];
    let after = same_level(&p, flat(0x18, 0x9a), 0x270, 0x0203);
    let e = Event {
        vector: 13,
        code: Some(0xabcd),
        cause: Cause::Exception,
    };
    comes_to(&rt, "a trap gate", &w, &p, e, &cycles, &after);
}

#[test]
fn conforming_code_keeps_the_level(rt: HostRuntime) {
    let p = user();
    let w = Surroundings {
        gate: Entry {
            low: 0x0018_0044,
            high: 0x0000_8e00,
        },
        code: Entry {
            low: 0xffff,
            high: 0x00cf_9f00,
        },
        ..usual()
    };
    let [first, second] = gate_reads(0x0018_0044, 0x8e00);
    let cycles = [
        first,
        second,
        read(Role::Gdt, 0, 0x128, 15, 0xffff),
        joined(read(Role::Gdt, 0, 0x12c, 15, 0x00cf_9f00)),
        push(0x27c, 0x4303),
        push(0x278, 0x2b),
        push(0x274, 0x1234_5678),
    ];
    let after = same_level(&p, flat(0x1b, 0x9f), 0x274, 0x0003);
    comes_to(
        &rt,
        "conforming",
        &w,
        &p,
        event(Cause::External, 32),
        &cycles,
        &after,
    );
    let same = Surroundings { code: CODE_3, ..w };
    let cycles = [
        first,
        second,
        read(Role::Gdt, 0, 0x128, 15, 0xffff),
        joined(read(Role::Gdt, 0, 0x12c, 15, 0x00cf_fb00)),
        push(0x27c, 0x4303),
        push(0x278, 0x2b),
        push(0x274, 0x1234_5678),
    ];
    let after = same_level(&p, flat(0x1b, 0xfb), 0x274, 0x0003);
    comes_to(
        &rt,
        "of level 3",
        &same,
        &p,
        event(Cause::External, 32),
        &cycles,
        &after,
    );
}

#[test]
fn an_inner_level_has_its_own_stack(rt: HostRuntime) {
    let p = user();
    let w = Surroundings {
        gate: Entry {
            low: 0x001b_0044,
            high: 0x0012_ee00,
        },
        stack: Entry {
            low: 0xffff,
            high: 0x00cf_9200,
        },
        ss0: 0xffff_0020,
        ..usual()
    };
    let [first, second] = gate_reads(0x001b_0044, 0x0012_ee00);
    let cycles = [
        first,
        second,
        read(Role::Gdt, 0, 0x128, 15, 0xffff),
        joined(read(Role::Gdt, 0, 0x12c, 15, 0x00cf_9b00)),
        read(Role::Inner, 1, 0x184, 15, 0x300),
        read(Role::Inner, 2, 0x188, 3, 0x20),
        read(Role::Gdt, 0, 0x130, 15, 0xffff),
        joined(read(Role::Gdt, 0, 0x134, 15, 0x00cf_9200)),
        accessed(0x134, 0x9300),
        push(0x2fc, 0x33),
        push(0x2f8, 0x280),
        push(0x2f4, 0x4303),
        push(0x2f0, 0x2b),
        push(0x2ec, 0x1234_5678),
    ];
    let data = flat(0x33, 0xf3);
    let mut after = p;
    after.regs[4] = 0x2ec;
    after.eip = 0x12_0044;
    after.eflags = Flags(0x0003);
    after.segs = [data, flat(0x18, 0x9b), flat(0x20, 0x92), data, data, data];
    comes_to(
        &rt,
        "by INT n",
        &w,
        &p,
        event(Cause::Soft, 32),
        &cycles,
        &after,
    );
}

#[test]
fn an_inner_stack_of_16_bits_keeps_the_upper_half_of_esp(rt: HostRuntime) {
    let p = user();
    let w = Surroundings {
        stack: Entry {
            low: 0xffff,
            high: 0x9300,
        },
        esp0: 0xabcd_0300,
        ..usual()
    };
    let [first, second] = gate_reads(0x0018_0044, 0xee00);
    let cycles = [
        first,
        second,
        read(Role::Gdt, 0, 0x128, 15, 0xffff),
        joined(read(Role::Gdt, 0, 0x12c, 15, 0x00cf_9b00)),
        read(Role::Inner, 1, 0x184, 15, 0xabcd_0300),
        read(Role::Inner, 2, 0x188, 3, 0x20),
        read(Role::Gdt, 0, 0x130, 15, 0xffff),
        joined(read(Role::Gdt, 0, 0x134, 15, 0x9300)),
        push(0x2fc, 0x33),
        push(0x2f8, 0x280),
        push(0x2f4, 0x4303),
        push(0x2f0, 0x2b),
        push(0x2ec, 0x1234_5678),
        push(0x2e8, 0),
    ];
    let data = flat(0x33, 0xf3);
    let small = Seg {
        selector: 0x20,
        usable: true,
        desc: Desc::new(0, 0xffff, 0x93, 0),
    };
    let mut after = p;
    after.regs[4] = 0xabcd_02e8;
    after.eip = 0x44;
    after.eflags = Flags(0x0003);
    after.segs = [data, flat(0x18, 0x9b), small, data, data, data];
    let e = Event {
        vector: 32,
        code: Some(0),
        cause: Cause::Exception,
    };
    comes_to(&rt, "with a code of 0", &w, &p, e, &cycles, &after);
}
