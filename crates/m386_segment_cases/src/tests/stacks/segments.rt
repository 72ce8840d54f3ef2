//! POP to a segment register. The selector is popped from 1004h, and the descriptor of selector 10h lies at 1008h.
ghost use Rattle.std.specs.Prelude.{◌<◌};

use super::{behind, descriptor, flat, one, pop};
use crate::tests::{fetch, joined, pending, write};
use m386_base::ask::{Ask, Role};
use m386_base::desc::Desc;
use m386_state::proc::{Proc, unusable};
use m386_state::segment::{Seg, TableReg};

/// The state whose GDT ends with the descriptor of selector 10h.
fn with_table(p: &Proc) -> Proc {
    let mut after = *p;
    after.gdtr = TableReg {
        base: 0xff8,
        limit: 0x17,
    };
    after
}

/// The bytes of an instruction, the selector with a half that doesn't count, and a descriptor of FFFFh bytes and more.
fn bytes(code: u32, selector: u16, access: u8, size: u8) -> [u8; 16] {
    let code = u32::to_le_bytes(code);
    let selector = u16::to_le_bytes(selector);
    [
        code[0],
        code[1],
        code[2],
        code[3],
        selector[0],
        selector[1],
        0xbb,
        0xaa,
        0xff,
        0xff,
        0,
        0,
        0,
        access,
        size,
        0,
    ]
}

/// The accessed byte of the descriptor, written.
fn marked(access: u8) -> Ask {
    Ask {
        role: Role::GdtAcc,
        ..joined(write(0, 0x100c, 2, u32::from(access) << 8))
    }
}

/// A register where one of them is changed.
fn chosen(p: &Proc, seg: u8, value: Seg, number: u8) -> Seg
    requires { number < 6 }
{
    if number == seg {
        value
    } else {
        p.segs[number as usize]
    }
}

/// The state with a segment register changed. A load of SS casts a shadow.
fn with_register(p: &Proc, seg: u8, value: Seg) -> Proc {
    let mut after = *p;
    after.segs = [
        chosen(p, seg, value, 0),
        chosen(p, seg, value, 1),
        chosen(p, seg, value, 2),
        chosen(p, seg, value, 3),
        chosen(p, seg, value, 4),
        chosen(p, seg, value, 5),
    ];
    after.shadow = seg == 2;
    after
}

/// The register that selector 10h loads.
fn found(access: u8) -> Seg {
    Seg {
        selector: 0x10,
        usable: true,
        desc: Desc::new(0, 0xffff, access, 4),
    }
}

#[test]
fn segment_registers_are_popped_and_loaded(rt: HostRuntime) {
    let before = with_table(&flat(0x1004));
    for (name, code, eip, seg) in [
        ("POP ES", 0x07, 0x1001, 0),
        ("POP SS", 0x17, 0x1001, 2),
        ("POP DS", 0x1f, 0x1001, 3),
        ("POP FS", 0xa10f, 0x1002, 4),
        ("POP GS", 0xa90f, 0x1002, 5),
    ] {
        for (access, used) in [(0x92, 5), (0x93, 4)] {
            let high = 0x0040_0000 + u32::from(access) * 0x100;
            let loaded = with_register(&before, seg, found(access));
            let mut cycles = [
                fetch(0x1000, code),
                pop(0, 0x1004, 15, 0xaabb_0010),
                descriptor(0x1008, 0xffff),
                joined(descriptor(0x100c, high)),
                marked(0x93),
            ];
            one(
                &rt,
                name,
                &before,
                &bytes(code, 0x10, access, 0x40),
                &cycles[..used],
                behind(&loaded, eip, 0x1008),
            );
            let narrow = code << 8 | 0x66;
            cycles[0] = fetch(0x1000, narrow);
            cycles[1] = pop(0, 0x1004, 3, 0x10);
            one(
                &rt,
                name,
                &before,
                &bytes(narrow, 0x10, access, 0x40),
                &cycles[..used],
                behind(&loaded, eip + 1, 0x1006),
            );
        }
    }
}

#[test]
fn null_selectors_are_popped(rt: HostRuntime) {
    let before = with_table(&flat(0x1004));
    for (name, code, eip, seg, selector) in [
        ("POP DS of 0", 0x1f, 0x1001, 3, 0),
        ("POP ES of 3", 0x07, 0x1001, 0, 3),
        ("POP GS of 2", 0xa90f, 0x1002, 5, 2),
    ] {
        one(
            &rt,
            name,
            &before,
            &bytes(code, selector, 0x93, 0x40),
            &[
                fetch(0x1000, code),
                pop(0, 0x1004, 15, 0xaabb_0000 + u32::from(selector)),
            ],
            behind(
                &with_register(&before, seg, unusable(selector)),
                eip,
                0x1008,
            ),
        );
    }
}

#[test]
fn a_pop_stands_where_the_load_faults(rt: HostRuntime) {
    let before = with_table(&flat(0x1004));
    // The selector, the access byte, the fault, and how many cycles are made.
    for (name, code, selector, access, vector, error, used) in [
        ("POP SS of 0", 0x17, 0, 0x93, 13, 0, 2),
        ("POP SS of 3", 0x17, 3, 0x93, 13, 0, 2),
        ("POP SS outside the GDT", 0x17, 0x18, 0x93, 13, 0x18, 2),
        (
            "POP SS with an RPL that isn't CPL",
            0x17,
            0x11,
            0x93,
            13,
            0x10,
            4,
        ),
        (
            "POP SS that can't be written",
            0x17,
            0x10,
            0x91,
            13,
            0x10,
            4,
        ),
        (
            "POP SS with a DPL that isn't CPL",
            0x17,
            0x10,
            0xf3,
            13,
            0x10,
            4,
        ),
        ("POP SS that isn't present", 0x17, 0x10, 0x13, 12, 0x10, 4),
        ("POP DS outside the GDT", 0x1f, 0x18, 0x93, 13, 0x18, 2),
        ("POP DS that isn't present", 0x1f, 0x10, 0x12, 11, 0x10, 4),
        ("POP DS of an LDT", 0x1f, 0x10, 0x82, 13, 0x10, 4),
        ("POP DS that can't be read", 0x1f, 0x10, 0x99, 13, 0x10, 4),
    ] {
        let cycles = [
            fetch(0x1000, code),
            pop(0, 0x1004, 15, 0xaabb_0000 + u32::from(selector)),
            descriptor(0x1008, 0xffff),
            joined(descriptor(0x100c, 0x0040_0000 + u32::from(access) * 0x100)),
        ];
        one(
            &rt,
            name,
            &before,
            &bytes(code, selector, access, 0x40),
            &cycles[..used],
            pending(&before, vector, Some(error)),
        );
    }
}

/// POP SS from a stack of one width to one of the other.
pub(crate) const STACKS: &str = "\
start esp=1004 ss=18:0:1006:93:4 gdtr=ff8:17
POP SS from a stack of 32 bits to one of 16
 before esp=fffc ss=18:ffff1008:ffff:93:4
 bytes 17 00 00 00 10 00 bb aa ff ff 00 00 00 93 00 00
 r fetch 0 1000 f 17
 r pop 0 1004 f aabb0010
 r gdt 0 1008 f ffff
 r+ gdt 0 100c f 9300
 after eip=1001 esp=10000 ss=10:0:ffff:93:0 shadow=1
POP SS from a stack of 16 bits to one of 32
 before esp=7ffffffc ss=18:ffff1008:ffff:93:0
 bytes 17 00 00 00 10 00 bb aa ff ff 00 00 00 93 40 00
 r fetch 0 1000 f 17
 r pop 0 1004 f aabb0010
 r gdt 0 1008 f ffff
 r+ gdt 0 100c f 409300
 after eip=1001 esp=7fff0000 ss=10:0:ffff:93:4 shadow=1
POP SS with TF set, which is traced
 before flags=102 ss=10:0:fffff:93:c
 bytes 17 00 00 00 10 00 bb aa ff ff 00 00 00 93 40 00
 r fetch 0 1000 f 17
 r pop 0 1004 f aabb0010
 r gdt 0 1008 f ffff
 r+ gdt 0 100c f 409300
 after eip=1001 esp=1008 ss=10:0:ffff:93:4 pending=1 shadow=1
POP DS past the limit of the stack
 bytes 1f 00 00 00 10 00 bb aa ff ff 00 00 00 93 40 00
 r fetch 0 1000 f 1f
 after pending=c:0
";
