//! Directives, and whole images.
use super::{BEFORE, HEAD, behind, laid_out};
use std::test::Fail;

/// Directives at 0x1000, each with its bytes.
const DIRECTIVES: [(&str, &[u8]); 15] = [
    (".byte 1, -1, 255, -128", &[0x01, 0xff, 0xff, 0x80]),
    (".word 0x1234, -1", &[0x34, 0x12, 0xff, 0xff]),
    (".long 0x12345678", &[0x78, 0x56, 0x34, 0x12]),
    (".long -1 + 1", &[0x00, 0x00, 0x00, 0x00]),
    (".hex 0aFf", &[0x0a, 0xff]),
    (".zero 3", &[0x00, 0x00, 0x00]),
    (".zero 0", &[]),
    // Intel 80386 Programmer's Reference Manual, 5.1.1: the limit and the base stand in parts.
    (
        ".desc 0x12345678 0xabcde 0x9a 0xc",
        &[0xde, 0xbc, 0x78, 0x56, 0x34, 0x9a, 0xca, 0x12],
    ),
    (
        ".desc -1 -1 -1 -1",
        &[0xff, 0xff, 0xff, 0xff, 0xff, 0xff, 0xff, 0xff],
    ),
    // Intel 80386 Programmer's Reference Manual, 9.5: the offset stands in halves.
    (
        ".gate 8 0x12344200 0x8e 3",
        &[0x00, 0x42, 0x08, 0x00, 0x03, 0x8e, 0x34, 0x12],
    ),
    (".byte 1 ; the rest is none: .byte 2", &[0x01]),
    (".byte 1 ; from ! to ~\t", &[0x01]),
    ("here: .byte 7", &[0x07]),
    ("\t.byte\t7 ,\t8", &[0x07, 0x08]),
    ("", &[]),
];

#[test]
fn each_directive_has_its_bytes(rt: HostRuntime) -> Result<(), Fail> {
    for (line, wanted) in DIRECTIVES {
        let image = laid_out(rt.alloc(), BEFORE, line)?;
        assert_eq!(rt; behind(&image, HEAD), Some(wanted), "{line}");
    }
    Ok(())
}

/// Bytes of a task state segment, for each field, and for two: Intel 80386 Programmer's Reference Manual, figure 7-1.
const FIELDS: [(&str, u8, &[u8]); 29] = [
    (".tss link=-1", 0x00, &[0xff, 0xff, 0x00, 0x00]),
    (".tss esp0=-1", 0x04, &[0xff, 0xff, 0xff, 0xff]),
    (".tss ss0=-1", 0x08, &[0xff, 0xff, 0x00, 0x00]),
    (".tss esp1=-1", 0x0c, &[0xff, 0xff, 0xff, 0xff]),
    (".tss ss1=-1", 0x10, &[0xff, 0xff, 0x00, 0x00]),
    (".tss esp2=-1", 0x14, &[0xff, 0xff, 0xff, 0xff]),
    (".tss ss2=-1", 0x18, &[0xff, 0xff, 0x00, 0x00]),
    (".tss cr3=-1", 0x1c, &[0xff, 0xff, 0xff, 0xff]),
    (".tss eip=-1", 0x20, &[0xff, 0xff, 0xff, 0xff]),
    (".tss efl=-1", 0x24, &[0xff, 0xff, 0xff, 0xff]),
    (".tss eax=-1", 0x28, &[0xff, 0xff, 0xff, 0xff]),
    (".tss ecx=-1", 0x2c, &[0xff, 0xff, 0xff, 0xff]),
    (".tss edx=-1", 0x30, &[0xff, 0xff, 0xff, 0xff]),
    (".tss ebx=-1", 0x34, &[0xff, 0xff, 0xff, 0xff]),
    (".tss esp=-1", 0x38, &[0xff, 0xff, 0xff, 0xff]),
    (".tss ebp=-1", 0x3c, &[0xff, 0xff, 0xff, 0xff]),
    (".tss esi=-1", 0x40, &[0xff, 0xff, 0xff, 0xff]),
    (".tss edi=-1", 0x44, &[0xff, 0xff, 0xff, 0xff]),
    (".tss es=-1", 0x48, &[0xff, 0xff, 0x00, 0x00]),
    (".tss cs=-1", 0x4c, &[0xff, 0xff, 0x00, 0x00]),
    (".tss ss=-1", 0x50, &[0xff, 0xff, 0x00, 0x00]),
    (".tss ds=-1", 0x54, &[0xff, 0xff, 0x00, 0x00]),
    (".tss fs=-1", 0x58, &[0xff, 0xff, 0x00, 0x00]),
    (".tss gs=-1", 0x5c, &[0xff, 0xff, 0x00, 0x00]),
    (".tss ldt=-1", 0x60, &[0xff, 0xff, 0x00, 0x00]),
    (".tss trap=-1", 0x64, &[0xff, 0xff, 0x00, 0x00]),
    (".tss map=-1", 0x66, &[0xff, 0xff]),
    (
        ".tss eip=0x4000 efl=2",
        0x20,
        &[0x00, 0x40, 0x00, 0x00, 0x02, 0x00, 0x00, 0x00],
    ),
    (
        ".tss cs=8 ss=0x10",
        0x4c,
        &[0x08, 0x00, 0x00, 0x00, 0x10, 0x00, 0x00, 0x00],
    ),
];

#[test]
fn each_field_stands_in_its_place(rt: HostRuntime) -> Result<(), Fail> {
    for (line, offset, wanted) in FIELDS {
        let image = laid_out(rt.alloc(), BEFORE, line)?;
        let bytes = behind(&image, HEAD + usize::from(offset));
        assert_eq!(rt;
            bytes.and_then(|bytes| bytes.get(..wanted.len())),
            Some(wanted),
            "{line}"
        );
        assert_eq!(rt; behind(&image, HEAD).map(<[u8]>::len), Some(104), "{line}");
    }
    Ok(())
}

/// Sections, each with its address, how many bytes it has, and these.
const SECTIONS: [(&str, &[u8]); 5] = [
    (
        "hlt",
        &[0x00, 0x00, 0x00, 0x00, 0x01, 0x00, 0x00, 0x00, 0xf4],
    ),
    (
        "hlt\n.org 0x10\nhlt",
        &[
            0x00, 0x00, 0x00, 0x00, 0x01, 0x00, 0x00, 0x00, 0xf4, 0x10, 0x00, 0x00, 0x00, 0x01,
            0x00, 0x00, 0x00, 0xf4,
        ],
    ),
    (
        ".org 0x10\n.org 0x20\nhlt",
        &[
            0x10, 0x00, 0x00, 0x00, 0x00, 0x00, 0x00, 0x00, 0x20, 0x00, 0x00, 0x00, 0x01, 0x00,
            0x00, 0x00, 0xf4,
        ],
    ),
    // Each `.org` begins a section, also where the bytes before it end.
    (
        "hlt\n.org 1\nhlt",
        &[
            0x00, 0x00, 0x00, 0x00, 0x01, 0x00, 0x00, 0x00, 0xf4, 0x01, 0x00, 0x00, 0x00, 0x01,
            0x00, 0x00, 0x00, 0xf4,
        ],
    ),
    ("; nothing", &[]),
];

#[test]
fn sections_begin_at_their_addresses(rt: HostRuntime) -> Result<(), Fail> {
    for (lines, wanted) in SECTIONS {
        let image = laid_out(rt.alloc(), ".memory 65536\n.cpus 1\n", lines)?;
        assert_eq!(rt; behind(&image, HEAD - 8), Some(wanted), "{lines}");
    }
    Ok(())
}

/// Whole texts, with their images.
const IMAGES: [(&str, &[u8]); 2] = [
    (
        ".memory 16384\n.cpus 1\n.bare 0 0x1000\n.org 0x1000\nmov eax, 0x12345678\nmov [0x2000], eax\nhlt\n",
        &[
            0x4d, 0x33, 0x38, 0x36, 1, 0, 1, 0, 0x00, 0x40, 0, 0, 0, 0, 0, 0, 0, 0, 0, 0, 0, 0, 0,
            0, 0, 0, 0, 0, 1, 0, 0, 0, 0x00, 0x10, 0, 0, 0, 0, 0, 0, 0, 0, 0, 0, 0, 0, 0, 0, 0, 0,
            0, 0, 0, 0, 0, 0, 0, 0, 0, 0, 0, 0, 0, 0, 0x00, 0x10, 0, 0, 0x0b, 0, 0, 0, 0xb8, 0x78,
            0x56, 0x34, 0x12, 0xa3, 0x00, 0x20, 0x00, 0x00, 0xf4,
        ],
    ),
    (
        ".cpus 2\n.memory 4096\n.gdt 0x100 0x3f\n.idt 0x200 0x107\n.task 1 0x18\n.plan 0 5 0x21\n.plan 1 2 255\n",
        &[
            0x4d, 0x33, 0x38, 0x36, 1, 0, 2, 2, 0x00, 0x10, 0, 0, 0x00, 0x01, 0, 0, 0x3f, 0, 0x07,
            0x01, 0x00, 0x02, 0, 0, 2, 0, 0, 0, 0, 0, 0, 0, 0, 0, 0, 0, 0x18, 0, 0, 0, 0, 0, 0, 0,
            0, 0, 0, 0, 0, 0, 0, 0, 0, 0, 0, 0, 0, 0, 0, 0, 0, 0, 0, 0, 5, 0, 0, 0, 0, 0x21, 0, 0,
            2, 0, 0, 0, 1, 0xff, 0, 0,
        ],
    ),
];

#[test]
fn a_text_is_its_image(rt: HostRuntime) -> Result<(), Fail> {
    for (text, wanted) in IMAGES {
        let image = laid_out(rt.alloc(), "", text)?;
        assert_eq!(rt; behind(&image, 0), Some(wanted), "{text}");
    }
    Ok(())
}

/// Texts with a start of each processor, with bytes of their images from a place on: the bits of those that start in a task, and the starts.
const STARTS: [(&str, usize, &[u8]); 3] = [
    (
        ".memory 4096\n.cpus 8\n.task 0 0x11\n.bare 1 0x22\n.task 2 0x33\n.bare 3 0x44\n.bare 4 0x55\n.task 5 0x66\n.bare 6 0x77\n.task 7 0x88\n",
        7,
        &[0xa5],
    ),
    (
        ".memory 4096\n.cpus 8\n.bare 0 0x11\n.task 1 0x22\n.bare 2 0x33\n.task 3 0x44\n.task 4 0x55\n.bare 5 0x66\n.task 6 0x77\n.bare 7 0x88\n",
        7,
        &[0x5a],
    ),
    (
        ".memory 4096\n.cpus 8\n.task 0 0x11\n.bare 1 0x22\n.task 2 0x33\n.bare 3 0x44\n.bare 4 0x55\n.task 5 0x66\n.bare 6 0x77\n.task 7 0x88\n",
        0x20,
        &[
            0x11, 0, 0, 0, 0x22, 0, 0, 0, 0x33, 0, 0, 0, 0x44, 0, 0, 0, 0x55, 0, 0, 0, 0x66, 0, 0,
            0, 0x77, 0, 0, 0, 0x88, 0, 0, 0,
        ],
    ),
];

#[test]
fn each_processor_has_its_start(rt: HostRuntime) -> Result<(), Fail> {
    for (text, offset, wanted) in STARTS {
        let image = laid_out(rt.alloc(), "", text)?;
        let bytes = behind(&image, offset);
        assert_eq!(rt;
            bytes.and_then(|bytes| bytes.get(..wanted.len())),
            Some(wanted),
            "{text}"
        );
    }
    Ok(())
}
