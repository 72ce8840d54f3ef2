//! Names, and how far a jump reaches.
use super::{BEFORE, HEAD, behind, fault_in, joined_image, laid_out};
use m386_lines::kind::AsmKind;
use std::test::Fail;

/// Lines at 0x1000 with names of their own, and their bytes. An operand with a name is spelled in full.
const NAMED: [(&str, &[u8]); 18] = [
    ("x = 5\npush x", &[0x68, 0x05, 0x00, 0x00, 0x00]),
    ("push x\nx = 5", &[0x68, 0x05, 0x00, 0x00, 0x00]),
    ("push x - 6\nx = 5", &[0x68, 0xff, 0xff, 0xff, 0xff]),
    ("x = -1\nadd ecx, x", &[0x81, 0xc1, 0xff, 0xff, 0xff, 0xff]),
    (
        "mov al, [ebx+x]\nx = 1",
        &[0x8a, 0x83, 0x01, 0x00, 0x00, 0x00],
    ),
    ("shl eax, x\nx = 1", &[0xc1, 0xe0, 0x01]),
    // The displacement that isn't written has its full size too.
    (
        "add dword [ecx], x\nx = 1",
        &[0x81, 0x81, 0x00, 0x00, 0x00, 0x00, 0x01, 0x00, 0x00, 0x00],
    ),
    ("jmp x\nx:", &[0xe9, 0x00, 0x00, 0x00, 0x00]),
    ("x: jmp x", &[0xe9, 0xfb, 0xff, 0xff, 0xff]),
    ("je x\nx:", &[0x0f, 0x84, 0x00, 0x00, 0x00, 0x00]),
    (
        "call x\nhlt\nx: hlt",
        &[0xe8, 0x01, 0x00, 0x00, 0x00, 0xf4, 0xf4],
    ),
    ("x: loop x", &[0xe2, 0xfe]),
    ("jecxz x\nx:", &[0xe3, 0x00]),
    ("jmp 8:x\nx:", &[0xea, 0x07, 0x10, 0x00, 0x00, 0x08, 0x00]),
    (".byte x\nx = 7", &[0x07]),
    (".word x+1, X\nx:\nX = 2", &[0x05, 0x10, 0x02, 0x00]),
    (".long x - 0x1000\nhlt\nx:", &[0x05, 0x00, 0x00, 0x00, 0xf4]),
    // A name before `.org` is the end of what stands before it. The other section has its address and its length before its bytes.
    (
        "hlt\nx: .org 0x2000\n.long x",
        &[
            0xf4, 0x00, 0x20, 0x00, 0x00, 0x04, 0x00, 0x00, 0x00, 0x01, 0x10, 0x00, 0x00,
        ],
    ),
];

#[test]
fn a_name_is_known_before_and_behind_its_line(rt: HostRuntime) -> Result<(), Fail> {
    for (lines, wanted) in NAMED {
        let image = laid_out(rt.alloc(), BEFORE, lines)?;
        assert_eq!(rt; behind(&image, HEAD), Some(wanted), "{lines}");
    }
    Ok(())
}

/// Lines with names, for each of the numbers below.
const DEFINED: &str = "a = 0x1000\nb = 0x3f\nc = 1\nd = 0x12345678\n";

/// Lines with numbers in each place where an expression may stand, and the same lines with names.
const PLACES: [(&str, &str); 35] = [
    (".gdt 0x1000 0x3f", ".gdt a b"),
    (".idt 0x1001 0x3e", ".idt a+1 b-1"),
    (".bare 1 0x1000", ".bare c a"),
    (".task 1 0x3f", ".task c b"),
    (".plan 1 0x1000 0x3f", ".plan c a b"),
    (".byte 1, 0x3f, 0", ".byte c, b, c - 1"),
    (".word 0x1000, 1", ".word a, c"),
    (".long 0x12345678, 0x1004", ".long d, a + 4"),
    (".desc 0x12345678 0x1000 0x3f 1", ".desc d a b c"),
    (".gate 0x1000 0x12345678 0x3f 1", ".gate a d b c"),
    (".tss eip=0x1000 ldt=0x3f trap=1", ".tss eip=a ldt=b trap=c"),
    ("mov al, 1", "mov al, c"),
    ("mov ax, 0x1000", "mov ax, a"),
    ("mov ecx, 0x12345679", "mov ecx, d+1"),
    ("mov eax, [0x12345678]", "mov eax, [d]"),
    ("mov [0x12345678], al", "mov [d], al"),
    ("add dword [0x12345678], 0x12345678", "add dword [d], d"),
    ("mov ecx, [ebx+esi*4+0x12345678]", "mov ecx, [ebx+esi*4+d]"),
    ("lea edx, [es:ebp+0x12345670]", "lea edx, [es:ebp+d-8]"),
    ("push 0x12345678", "push d"),
    ("imul eax, ebx, 0x12345678", "imul eax, ebx, d"),
    ("shl dword [0x12345678], 0x3f", "shl dword [d], b"),
    ("shld eax, ebx, 0x3f", "shld eax, ebx, b"),
    ("bt eax, 0x3f", "bt eax, b"),
    ("int 0x3f", "int b"),
    ("ret 0x1000", "ret a"),
    ("in al, 0x3f", "in al, b"),
    ("out 0x3f, eax", "out b, eax"),
    ("jmp 0x1000:0x12345678", "jmp a:d"),
    ("call 0x3f:1", "call b:c"),
    ("call 0x12345678", "call d"),
    ("jmp 0x12345678", "jmp d"),
    ("jg 0x12345678", "jg d"),
    ("loop 1", "loop c"),
    ("jecxz 0x3f", "jecxz b"),
];

#[test]
fn a_name_stands_wherever_an_expression_may(rt: HostRuntime) -> Result<(), Fail> {
    let named = ".memory a\n.cpus c+1\n";
    for (numbers, names) in PLACES {
        let wanted = laid_out(rt.alloc(), ".memory 4096\n.cpus 2\n", numbers)?;
        let backward = joined_image(rt.alloc(), &[DEFINED, named, names])?;
        let forward = joined_image(rt.alloc(), &[named, names, "\n", DEFINED])?;
        assert!(rt; wanted.is_ok(), "{numbers}");
        assert_eq!(rt; behind(&backward, 0), behind(&wanted, 0), "{names}");
        assert_eq!(rt; behind(&forward, 0), behind(&wanted, 0), "{names}");
    }
    Ok(())
}

/// Lines with the name `x` in each place where an expression may stand, and with no other.
const UNKNOWN: [&str; 25] = [
    ".gdt x 0",
    ".gdt 0 x",
    ".idt x 0",
    ".idt 0 x",
    ".bare x 0",
    ".bare 0 x",
    ".task x 0",
    ".task 0 x",
    ".plan x 0 0",
    ".plan 0 x 0",
    ".plan 0 0 x",
    ".byte 0, x",
    ".desc x 0 0 0",
    ".desc 0 x 0 0",
    ".desc 0 0 x 0",
    ".desc 0 0 0 x",
    ".gate x 0 0 0",
    ".gate 0 x 0 0",
    ".gate 0 0 x 0",
    ".gate 0 0 0 x",
    ".tss eip=0 map=x",
    "jmp x",
    "jmp x:0",
    "jmp 0:x",
    "mov dword [ebx+x], 1",
];

#[test]
fn a_name_that_no_line_defines_is_told_wherever_it_stands(rt: HostRuntime) -> Result<(), Fail> {
    for line in UNKNOWN {
        let image = laid_out(rt.alloc(), BEFORE, line)?;
        assert_eq!(rt; fault_in(&image), Some((4, AsmKind::UnknownName)), "{line}");
    }
    for text in [".memory x\n.cpus 1", ".cpus x\n.memory 4096"] {
        let image = laid_out(rt.alloc(), "", text)?;
        assert_eq!(rt; fault_in(&image), Some((1, AsmKind::UnknownName)), "{text}");
    }
    Ok(())
}

/// Jumps at 0x1000 to the ends of a short one's reach, 127 bytes behind its own end and 128 before it, and to the next place.
const REACHED: [(&str, &[u8]); 12] = [
    ("loop 0x1081", &[0xe2, 0x7f]),
    ("loop 0xf82", &[0xe2, 0x80]),
    ("loopz 0x1081", &[0xe1, 0x7f]),
    ("loopnz 0xf82", &[0xe0, 0x80]),
    ("jecxz 0x1081", &[0xe3, 0x7f]),
    ("jmp 0x1081", &[0xeb, 0x7f]),
    ("jmp 0x1082", &[0xe9, 0x7d, 0x00, 0x00, 0x00]),
    ("jmp 0xf81", &[0xe9, 0x7c, 0xff, 0xff, 0xff]),
    ("je 0x1081", &[0x74, 0x7f]),
    ("je 0x1082", &[0x0f, 0x84, 0x7c, 0x00, 0x00, 0x00]),
    ("je 0xf82", &[0x74, 0x80]),
    ("je 0xf81", &[0x0f, 0x84, 0x7b, 0xff, 0xff, 0xff]),
];

#[test]
fn a_short_jump_reaches_as_far_as_a_byte_says(rt: HostRuntime) -> Result<(), Fail> {
    for (line, wanted) in REACHED {
        let image = laid_out(rt.alloc(), BEFORE, line)?;
        assert_eq!(rt; behind(&image, HEAD), Some(wanted), "{line}");
    }
    for line in [
        "loop 0x1082",
        "loop 0xf81",
        "loopz 0x1082",
        "loopnz 0xf81",
        "jecxz 0xf81",
        "x = 0x1082\nloop x",
    ] {
        let image = laid_out(rt.alloc(), BEFORE, line)?;
        assert_eq!(rt;
            fault_in(&image).map(|fault| fault.1),
            Some(AsmKind::Range),
            "{line}"
        );
    }
    Ok(())
}
