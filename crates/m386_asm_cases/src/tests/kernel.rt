//! The text of a kernel with three tasks, with each pair of codes and each other change that cases run it with.
use super::behind;
use m386_asm::assemble::assemble;
use m386_base::fault::NoMemory;
use std::alloc::Global;
use std::test::Fail;

/// The text. `(A)` and `(B)` stand for the codes of the first and the second task.
const TEXT: &str = ".memory 65536
.cpus 1
.gdt 0x1000 0x3f
.idt 0x2000 0x107
.task 0 0x18
.org 0x1000
.desc 0 0 0 0
.desc 0 0xfffff 0x9a 0xc
.desc 0 0xfffff 0x92 0xc
.desc 0x3000 0x67 0x89 0
.desc 0x3080 0x67 0x89 0
.desc 0x3100 0x67 0x89 0
.desc 0 0xfffff 0xf2 0xc
.desc 0 0xfffff 0xfa 0xc
.org 0x2040
.gate 0x20 0 0x85 0
.org 0x2068
.gate 8 0x4200 0x0e 0
.org 0x2100
.gate 8 0x4200 0x8e 0
.org 0x3000
.tss eip=0x4000 efl=2 esp=0x5000 cs=8 ss=0x10 ds=0x10
.org 0x3080
.tss eip=0x4100 efl=2 esp=0x6000 cs=8 ss=0x10 ds=0x10
.org 0x3100
.tss eip=0x4180 efl=2 esp=0x7000 cs=8 ss=0x10 ds=0x10
.org 0x4000
(A)
.org 0x4100
(B)
.org 0x4180
hlt
.org 0x4200
iret";

/// The image's header, with the descriptor tables, the eight places of processors and the number of sections, by docs/MACHINE.md.
const HEADER: [u8; 64] = [
    0x4d, 0x33, 0x38, 0x36, 0x01, 0, 0x01, 0x01, 0, 0, 0x01, 0, 0, 0x10, 0, 0, 0x3f, 0, 0x07, 0x01,
    0, 0x20, 0, 0, 0, 0, 0, 0, 0x0b, 0, 0, 0, 0x18, 0, 0, 0, 0, 0, 0, 0, 0, 0, 0, 0, 0, 0, 0, 0, 0,
    0, 0, 0, 0, 0, 0, 0, 0, 0, 0, 0, 0, 0, 0, 0,
];

/// The sections of descriptors and gates, each with its address: Intel 80386 Programmer's Reference Manual, figures 5-3, 7-2 and 9-3.
const TABLES: [(u32, &[u8]); 4] = [
    (
        0x1000,
        &[
            0, 0, 0, 0, 0, 0, 0, 0, 0xff, 0xff, 0, 0, 0, 0x9a, 0xcf, 0, 0xff, 0xff, 0, 0, 0, 0x92,
            0xcf, 0, 0x67, 0, 0, 0x30, 0, 0x89, 0, 0, 0x67, 0, 0x80, 0x30, 0, 0x89, 0, 0, 0x67, 0,
            0, 0x31, 0, 0x89, 0, 0, 0xff, 0xff, 0, 0, 0, 0xf2, 0xcf, 0, 0xff, 0xff, 0, 0, 0, 0xfa,
            0xcf, 0,
        ],
    ),
    (0x2040, &[0, 0, 0x20, 0, 0, 0x85, 0, 0]),
    (0x2068, &[0, 0x42, 0x08, 0, 0, 0x0e, 0, 0]),
    (0x2100, &[0, 0x42, 0x08, 0, 0, 0x8e, 0, 0]),
];

/// The three task state segments' addresses, each with its EIP and its ESP.
const TASKS: [(u32, u32, u32); 3] = [
    (0x3000, 0x4000, 0x5000),
    (0x3080, 0x4100, 0x6000),
    (0x3100, 0x4180, 0x7000),
];

/// Where the fields stand that are alike in the three tasks, each with its value: EFLAGS, CS, SS and DS, by figure 7-1.
const ALIKE: [(usize, u8); 4] = [(36, 0x02), (76, 0x08), (80, 0x10), (84, 0x10)];

/// The image behind the second task's code.
const END: [u8; 18] = [
    0x80, 0x41, 0, 0, 0x01, 0, 0, 0, 0xf4, 0, 0x42, 0, 0, 0x01, 0, 0, 0, 0xcf,
];

/// A case's text and image.
struct Case {
    /// Lines of the text, each with what stands in its place.
    lines: &'static [(&'static str, &'static str)],
    /// Bytes of the image's start, each with its place in it and its value.
    bytes: &'static [(usize, u8)],
    /// The bytes of the first task's code.
    first: &'static [u8],
    /// The bytes of the second task's code.
    second: &'static [u8],
}

/// The second processor starts in the second task.
const SECOND: (&str, &str) = (".cpus 1", ".cpus 2\n.task 1 0x20");

const CASES: [Case; 14] = [
    Case {
        lines: &[("(A)", "hlt"), ("(B)", "hlt")],
        bytes: &[],
        first: &[0xf4],
        second: &[0xf4],
    },
    Case {
        lines: &[("(A)", "jmp 0x20:0"), ("(B)", "hlt")],
        bytes: &[],
        first: &[0xea, 0, 0, 0, 0, 0x20, 0],
        second: &[0xf4],
    },
    Case {
        lines: &[("(A)", "call 0x20:0\nhlt"), ("(B)", "iret")],
        bytes: &[],
        first: &[0x9a, 0, 0, 0, 0, 0x20, 0, 0xf4],
        second: &[0xcf],
    },
    Case {
        lines: &[("(A)", "call 0x20:0\nhlt"), ("(B)", "int 0x20\niret")],
        bytes: &[],
        first: &[0x9a, 0, 0, 0, 0, 0x20, 0, 0xf4],
        second: &[0xcd, 0x20, 0xcf],
    },
    Case {
        lines: &[("(A)", "call 0x18:0"), ("(B)", "hlt")],
        bytes: &[],
        first: &[0x9a, 0, 0, 0, 0, 0x18, 0],
        second: &[0xf4],
    },
    Case {
        lines: &[("(A)", "int 0x40"), ("(B)", "hlt")],
        bytes: &[],
        first: &[0xcd, 0x40],
        second: &[0xf4],
    },
    // The third task's limit is too small.
    Case {
        lines: &[
            ("(A)", "jmp 0x28:0"),
            ("(B)", "hlt"),
            (".desc 0x3100 0x67 0x89 0", ".desc 0x3100 0x66 0x89 0"),
        ],
        bytes: &[(112, 0x66)],
        first: &[0xea, 0, 0, 0, 0, 0x28, 0],
        second: &[0xf4],
    },
    // The second task's stack has the wrong level.
    Case {
        lines: &[
            ("(A)", "jmp 0x20:0"),
            ("(B)", "hlt"),
            (
                ".tss eip=0x4100 efl=2 esp=0x6000 cs=8 ss=0x10 ds=0x10",
                ".tss eip=0x4100 efl=2 esp=0x6000 cs=8 ss=0x30 ds=0x10",
            ),
        ],
        bytes: &[(384, 0x30)],
        first: &[0xea, 0, 0, 0, 0, 0x20, 0],
        second: &[0xf4],
    },
    // The second task's T bit is set.
    Case {
        lines: &[
            ("(A)", "jmp 0x20:0"),
            ("(B)", "hlt"),
            (
                ".tss eip=0x4100 efl=2 esp=0x6000 cs=8 ss=0x10 ds=0x10",
                ".tss eip=0x4100 efl=2 esp=0x6000 cs=8 ss=0x10 ds=0x10 trap=1",
            ),
        ],
        bytes: &[(404, 0x01)],
        first: &[0xea, 0, 0, 0, 0, 0x20, 0],
        second: &[0xf4],
    },
    Case {
        lines: &[SECOND, ("(A)", "jmp 0x20:0"), ("(B)", "hlt")],
        bytes: &[(6, 2), (7, 3), (36, 0x20)],
        first: &[0xea, 0, 0, 0, 0, 0x20, 0],
        second: &[0xf4],
    },
    Case {
        lines: &[SECOND, ("(A)", "jmp 0x28:0"), ("(B)", "jmp 0x28:0")],
        bytes: &[(6, 2), (7, 3), (36, 0x20)],
        first: &[0xea, 0, 0, 0, 0, 0x28, 0],
        second: &[0xea, 0, 0, 0, 0, 0x28, 0],
    },
    // Two descriptors of one task state segment.
    Case {
        lines: &[
            SECOND,
            ("(A)", "hlt"),
            ("(B)", "hlt"),
            (".desc 0x3080 0x67 0x89 0", ".desc 0x3000 0x67 0x89 0"),
        ],
        bytes: &[(6, 2), (7, 3), (36, 0x20), (106, 0x00)],
        first: &[0xf4],
        second: &[0xf4],
    },
    // The first task has an I/O map, and no rights to each port but by it.
    Case {
        lines: &[
            ("(A)", "out 7, al"),
            ("(B)", "hlt"),
            (".desc 0x3000 0x67 0x89 0", ".desc 0x3000 0x68 0x89 0"),
            (
                ".tss eip=0x4000 efl=2 esp=0x5000 cs=8 ss=0x10 ds=0x10",
                ".tss eip=0x4000 efl=2 esp=0x5000 cs=0x3b ss=0x33 ds=0x33 map=0x68",
            ),
        ],
        bytes: &[
            (96, 0x68),
            (268, 0x3b),
            (272, 0x33),
            (276, 0x33),
            (294, 0x68),
        ],
        first: &[0xe6, 0x07],
        second: &[0xf4],
    },
    Case {
        lines: &[("(A)", "out 8, al"), ("(B)", "hlt")],
        bytes: &[],
        first: &[0xe6, 0x08],
        second: &[0xf4],
    },
];

/// What stands in a line's place.
fn said(case: &Case, line: &'static str) -> &'static str {
    for (old, new) in case.lines {
        if *old == line {
            return new;
        }
    }
    line
}

/// The text of a case.
fn text_of(alloc: Global, case: &Case) -> Result<Vec<u8>, NoMemory> {
    let mut text = Vec::new(alloc);
    for line in TEXT.split('\n') {
        text.extend_from_slice(said(case, line).as_bytes())?;
        text.push(b'\n')?;
    }
    Ok(text)
}

/// Puts a section behind an image's bytes.
fn put_section(image: &mut Vec<u8>, address: u32, bytes: &[u8]) -> Result<(), NoMemory> {
    image.extend_from_slice(&address.to_le_bytes())?;
    image.extend_from_slice(&bytes.len().to_le_bytes()[..4])?;
    image.extend_from_slice(bytes)?;
    Ok(())
}

/// Puts bytes in their places.
fn put_bytes(image: &mut [u8], bytes: &[(usize, u8)]) {
    for (place, value) in bytes {
        if let Some(byte) = image.get_mut(*place) {
            *byte = *value;
        }
    }
}

/// A task state segment, of 104 bytes: EIP is at 32 and ESP at 56, by figure 7-1.
fn task_state(eip: u32, esp: u32) -> [u8; 104] {
    let mut bytes = [0; 104];
    put_bytes(&mut bytes, &ALIKE);
    let [a, b, c, d] = eip.to_le_bytes();
    put_bytes(&mut bytes, &[(32, a), (33, b), (34, c), (35, d)]);
    let [a, b, c, d] = esp.to_le_bytes();
    put_bytes(&mut bytes, &[(56, a), (57, b), (58, c), (59, d)]);
    bytes
}

/// The image of a case.
fn image_of(alloc: Global, case: &Case) -> Result<Vec<u8>, NoMemory> {
    let mut image = Vec::new(alloc);
    image.extend_from_slice(&HEADER)?;
    for (address, bytes) in TABLES {
        put_section(&mut image, address, bytes)?;
    }
    for (address, eip, esp) in TASKS {
        put_section(&mut image, address, &task_state(eip, esp))?;
    }
    put_bytes(image.as_mut_slice(), case.bytes);
    put_section(&mut image, 0x4000, case.first)?;
    put_section(&mut image, 0x4100, case.second)?;
    image.extend_from_slice(&END)?;
    Ok(image)
}

#[test]
fn the_kernel_is_its_image_in_each_case(rt: HostRuntime) -> Result<(), Fail> {
    for (number, case) in CASES.iter().enumerate() {
        let text = text_of(rt.alloc(), case)?;
        let wanted = image_of(rt.alloc(), case)?;
        let image = assemble(rt.alloc(), text.as_slice());
        assert_eq!(rt; behind(&image, 0), Some(wanted.as_slice()), "case {number}");
    }
    Ok(())
}
