//! PUSHA, POPA and LEAVE.
use super::{DOWNWARD, EAX, EBP, WRITABLE, behind, big, one, pop, push, small, without_stack};
use crate::tests::{Case, fetch, pending, step_over_values};
use m386_base::ask::Ask;
use m386_state::proc::Proc;

/// The places of the other registers.
const ECX: usize = 1;

const EDX: usize = 2;

const EBX: usize = 3;

const ESI: usize = 6;

const EDI: usize = 7;

/// PUSHA in both widths, on stacks of both.
pub(crate) const PUSHES: &str = "\
start esp=ff0
PUSHA, with the ESP before it
 bytes 60
 r fetch 0 1000 f 60
 w push 0 fec f a0a1a2a3
 w push 0 fe8 f c0c1c2c3
 w push 0 fe4 f d0d1d2d3
 w push 0 fe0 f b0b1b2b3
 w push 0 fdc f ff0
 w push 0 fd8 f 50515253
 w push 0 fd4 f 60616263
 w push 0 fd0 f 70717273
 after eip=1001 esp=fd0
PUSHA of 16 bits
 bytes 66 60
 r fetch 0 1000 f 6066
 w push 0 fec c a2a30000
 w push 0 fec 3 c2c3
 w push 0 fe8 c d2d30000
 w push 0 fe8 3 b2b3
 w push 0 fe4 c ff00000
 w push 0 fe4 3 5253
 w push 0 fe0 c 62630000
 w push 0 fe0 3 7273
 after eip=1002 esp=fe0
PUSHA, each push split over two groups
 before esp=ff1
 bytes 60
 r fetch 0 1000 f 60
 w push 0 fec e a1a2a300
 w push 3 ff0 1 a0
 w push 0 fe8 e c1c2c300
 w push 3 fec 1 c0
 w push 0 fe4 e d1d2d300
 w push 3 fe8 1 d0
 w push 0 fe0 e b1b2b300
 w push 3 fe4 1 b0
 w push 0 fdc e ff100
 w push 3 fe0 1 0
 w push 0 fd8 e 51525300
 w push 3 fdc 1 50
 w push 0 fd4 e 61626300
 w push 3 fd8 1 60
 w push 0 fd0 e 71727300
 w push 3 fd4 1 70
 after eip=1001 esp=fd1
PUSHA on a stack of 16 bits, over 0
 before esp=7fff000c ss=18:0:ffff:93:0
 bytes 60
 r fetch 0 1000 f 60
 w push 0 8 f a0a1a2a3
 w push 0 4 f c0c1c2c3
 w push 0 0 f d0d1d2d3
 w push 0 fffc f b0b1b2b3
 w push 0 fff8 f 7fff000c
 w push 0 fff4 f 50515253
 w push 0 fff0 f 60616263
 w push 0 ffec f 70717273
 after eip=1001 esp=7fffffec
";

#[test]
fn each_push_of_all_is_tested_as_it_is_made(rt: HostRuntime) {
    let cycles = [
        fetch(0x1000, 0x60),
        push(0, 0xfec, 15, 0xa0a1_a2a3),
        push(0, 0xfe8, 15, 0xc0c1_c2c3),
        push(0, 0xfe4, 15, 0xd0d1_d2d3),
        push(0, 0xfe0, 15, 0xb0b1_b2b3),
        push(0, 0xfdc, 15, 0xff0),
        push(0, 0xfd8, 15, 0x5051_5253),
        push(0, 0xfd4, 15, 0x6061_6263),
        push(0, 0xfd0, 15, 0x7071_7273),
    ];
    // The lowest offset is one above the limit.
    for (limit, pushed) in [(0xfec, 0), (0xfe8, 1), (0xfdf, 4), (0xfdb, 5), (0xfd3, 7)] {
        let before = big(0xff0, limit, DOWNWARD);
        one(
            &rt,
            "PUSHA",
            &before,
            &[0x60],
            &cycles[..pushed + 1],
            pending(&before, 12, Some(0)),
        );
    }
    let before = big(0xff0, 0xfcf, DOWNWARD);
    one(
        &rt,
        "PUSHA to the lowest offset",
        &before,
        &[0x60],
        &cycles,
        behind(&before, 0x1001, 0xfd0),
    );
    let none = without_stack();
    one(
        &rt,
        "PUSHA on a stack that can't be used",
        &none,
        &[0x60],
        &cycles[..1],
        pending(&none, 12, Some(0)),
    );
}

/// The state with EDI, ESI, EBP, EBX, EDX, ECX and EAX as they were popped.
fn popped(p: &Proc, registers: [u32; 7]) -> Proc {
    let mut after = *p;
    after.regs[EDI] = registers[0];
    after.regs[ESI] = registers[1];
    after.regs[EBP] = registers[2];
    after.regs[EBX] = registers[3];
    after.regs[EDX] = registers[4];
    after.regs[ECX] = registers[5];
    after.regs[EAX] = registers[6];
    after
}

/// The cycles of POPA at ESP 2000h, whose registers are each of one digit.
fn cycles_of_popa() -> [Ask; 8] {
    [
        fetch(0x1000, 0x61),
        pop(0, 0x2000, 15, 0x7777_7777),
        pop(0, 0x2004, 15, 0x6666_6666),
        pop(0, 0x2008, 15, 0x5555_5555),
        pop(0, 0x2010, 15, 0x3333_3333),
        pop(0, 0x2014, 15, 0x2222_2222),
        pop(0, 0x2018, 15, 0x1111_1111),
        pop(0, 0x201c, 15, 0xaaaa_aaaa),
    ]
}

/// These registers.
const DIGITS: [u32; 7] = [
    0x7777_7777,
    0x6666_6666,
    0x5555_5555,
    0x3333_3333,
    0x2222_2222,
    0x1111_1111,
    0xaaaa_aaaa,
];

/// POPA in both widths.
pub(crate) const POPS: &str = "\
start esp=ff8
POPA from bytes around its own
 bytes 61 01 02 03 04 05 06 07 18 19 1a 1b 1c 1d 1e 1f
 r fetch 0 1000 f 3020161
 r pop 0 ff8 f 0
 r pop 0 ffc f 0
 r pop 0 1000 f 3020161
 r pop 0 1008 f 1b1a1918
 r pop 0 100c f 1f1e1d1c
 r pop 0 1010 f 44332211
 r pop 0 1014 f 88776655
 after eip=1001 eax=88776655 ecx=44332211 edx=1f1e1d1c ebx=1b1a1918 esp=1018 ebp=3020161 esi=0 edi=0
POPA of 16 bits
 before esp=1008
 bytes 66 61 02 03 04 05 06 07 18 19 1a 1b 1c 1d 1e 1f
 r fetch 0 1000 f 3026166
 r pop 0 1008 3 1918
 r pop 0 1008 c 1b1a0000
 r pop 0 100c 3 1d1c
 r pop 0 1010 3 2211
 r pop 0 1010 c 44330000
 r pop 0 1014 3 6655
 r pop 0 1014 c 88770000
 after eip=1002 eax=a0a18877 ecx=c0c16655 edx=d0d14433 ebx=b0b12211 esp=1018 ebp=50511d1c esi=60611b1a edi=70711918
POPA
 before esp=2000
 r fetch 0 1000 f 61
 r pop 0 2000 f 77777777
 r pop 0 2004 f 66666666
 r pop 0 2008 f 55555555
 r pop 0 2010 f 33333333
 r pop 0 2014 f 22222222
 r pop 0 2018 f 11111111
 r pop 0 201c f aaaaaaaa
 after eip=1001 eax=aaaaaaaa ecx=11111111 edx=22222222 ebx=33333333 esp=2020 ebp=55555555 esi=66666666 edi=77777777
";

#[test]
fn each_pop_of_all_is_tested_as_it_is_made(rt: HostRuntime) {
    let cycles = cycles_of_popa();
    // The place of ESP is that from 200Ch to 200Fh.
    for (limit, read) in [
        (0x2002, 0),
        (0x2003, 1),
        (0x200b, 3),
        (0x200c, 3),
        (0x2012, 3),
        (0x2013, 4),
        (0x201e, 6),
    ] {
        let before = big(0x2000, limit, WRITABLE);
        let case = Case {
            name: "POPA",
            before,
            code: &[],
            cycles: &cycles[..read + 1],
            after: pending(&before, 12, Some(0)),
        };
        step_over_values(&rt, &case);
    }
    let before = big(0x2000, 0x201f, WRITABLE);
    let whole = Case {
        name: "POPA to the limit",
        before,
        code: &[],
        cycles: &cycles,
        after: popped(&behind(&before, 0x1001, 0x2020), DIGITS),
    };
    step_over_values(&rt, &whole);
}

#[test]
fn the_place_of_esp_is_not_tested(rt: HostRuntime) {
    // It reaches over the end of a stack of 16 bits, and all other places lie inside.
    let before = small(0x7fff_fff2, 0xffff, WRITABLE);
    let case = Case {
        name: "POPA over 0",
        before,
        code: &[],
        cycles: &[
            fetch(0x1000, 0x61),
            pop(0, 0xfff0, 12, 0x7777_0000),
            pop(2, 0xfff4, 3, 0x7777),
            pop(0, 0xfff4, 12, 0x6666_0000),
            pop(2, 0xfff8, 3, 0x6666),
            pop(0, 0xfff8, 12, 0x5555_0000),
            pop(2, 0xfffc, 3, 0x5555),
            pop(0, 0, 12, 0x3333_0000),
            pop(2, 4, 3, 0x3333),
            pop(0, 4, 12, 0x2222_0000),
            pop(2, 8, 3, 0x2222),
            pop(0, 8, 12, 0x1111_0000),
            pop(2, 0xc, 3, 0x1111),
            pop(0, 0xc, 12, 0xaaaa_0000),
            pop(2, 0x10, 3, 0xaaaa),
        ],
        after: popped(&behind(&before, 0x1001, 0x7fff_0012), DIGITS),
    };
    step_over_values(&rt, &case);
}

/// LEAVE in both widths, on stacks of both.
pub(crate) const LEAVES: &str = "\
start ebp=1010
LEAVE
 bytes c9
 r fetch 0 1000 f c9
 r pop 0 1010 f 44332211
 after eip=1001 esp=1014 ebp=44332211
LEAVE of 16 bits, with ESP from EBP
 bytes 66 c9
 r fetch 0 1000 f c966
 r pop 0 1010 3 2211
 after eip=1002 esp=1012 ebp=2211
LEAVE on a stack of 16 bits, with SP from BP
 before ebp=50511010 ss=18:0:ffff:93:0
 bytes c9
 r fetch 0 1000 f c9
 r pop 0 1010 f 44332211
 after eip=1001 esp=40411014 ebp=44332211
LEAVE of 16 bits on a stack of 16 bits
 before ebp=50511010 ss=18:0:ffff:93:0
 bytes 66 c9
 r fetch 0 1000 f c966
 r pop 0 1010 3 2211
 after eip=1002 esp=40411012 ebp=50512211
LEAVE past the end of a stack of 16 bits
 before ebp=5051fffd ss=18:0:ffff:93:0
 bytes c9
 r fetch 0 1000 f c9
 after pending=c:0
LEAVE on a stack of 32 bits, whose EBP is past the limit
 before esp=1010 ebp=50511010 ss=18:0:ffff:93:4
 bytes c9
 r fetch 0 1000 f c9
 after pending=c:0
LEAVE, the last byte past the limit
 before esp=1000 ss=18:0:1012:93:4
 bytes c9
 r fetch 0 1000 f c9
 after pending=c:0
LEAVE of 16 bits to the limit
 before esp=1000 ss=18:0:1012:93:4
 bytes 66 c9
 r fetch 0 1000 f c966
 r pop 0 1010 3 2211
 after eip=1002 esp=1012 ebp=2211
";
