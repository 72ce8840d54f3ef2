//! Faulty lines, each with its number and its kind.
use super::{fault_in, laid_out};
use m386_lines::kind::AsmKind;
use std::test::Fail;

/// The headers of a text, in two lines.
const HEADERS: &str = ".memory 4096\n.cpus 2\n";

/// Lines behind the headers, one for each kind and more.
const FAULTS: [(&str, u32, AsmKind); 37] = [
    ("hlt\u{7f}", 3, AsmKind::Ascii),
    ("hlt ; \u{e9}", 3, AsmKind::Ascii),
    ("hlt\r", 3, AsmKind::Ascii),
    ("mov eax, #1", 3, AsmKind::Token),
    ("mov eax, 0x", 3, AsmKind::Number),
    ("mov eax, 08", 3, AsmKind::Number),
    ("mov eax, 0x100000000", 3, AsmKind::Number),
    (".byte 1x", 3, AsmKind::Number),
    ("frob eax", 3, AsmKind::Mnemonic),
    ("x: y: hlt", 3, AsmKind::Mnemonic),
    ("rep", 3, AsmKind::Mnemonic),
    ("mov eax", 3, AsmKind::Operands),
    ("mov al, ebx", 3, AsmKind::Operands),
    ("mov [ebx], 1", 3, AsmKind::Operands),
    ("rep add eax, 1", 3, AsmKind::Operands),
    ("hlt eax", 3, AsmKind::Operands),
    ("mov eax, x", 3, AsmKind::UnknownName),
    (".byte x", 3, AsmKind::UnknownName),
    ("x:\nx = 1", 4, AsmKind::NameTwice),
    ("x: hlt\nx: hlt", 4, AsmKind::NameTwice),
    (".foo 1", 3, AsmKind::Directive),
    (".byte", 3, AsmKind::Arguments),
    (".hex 1", 3, AsmKind::Arguments),
    (".org x", 3, AsmKind::Arguments),
    (".tss eip=1 eip=1", 3, AsmKind::Arguments),
    ("x = y", 3, AsmKind::Arguments),
    (".memory 4096", 3, AsmKind::HeaderTwice),
    (".cpus 2", 3, AsmKind::HeaderTwice),
    (".gdt 0 7\n.gdt 0 7", 4, AsmKind::HeaderTwice),
    (".idt 0 7\n.idt 0 7", 4, AsmKind::HeaderTwice),
    (".bare 0 1\n.task 0 8", 4, AsmKind::HeaderTwice),
    (".byte 256", 3, AsmKind::Range),
    ("mov al, 256", 3, AsmKind::Range),
    (".org 4095\n.byte 1, 2", 4, AsmKind::Range),
    (".org 16\n.org 15", 4, AsmKind::Overlap),
    (".plan 0 5 33\n.plan 0 5 33", 4, AsmKind::PlanOrder),
    (".plan 1 1 1\n.plan 0 2 1", 4, AsmKind::PlanOrder),
];

#[test]
fn each_kind_is_told_with_its_line(rt: HostRuntime) -> Result<(), Fail> {
    for (lines, number, kind) in FAULTS {
        let image = laid_out(rt.alloc(), HEADERS, lines)?;
        assert_eq!(rt; fault_in(&image), Some((number, kind)), "{lines}");
    }
    Ok(())
}

/// Lines behind the headers of which the last has two kinds: each pair that one line can have, by the lesser of them.
const PAIRS: [(&str, u32, AsmKind); 26] = [
    // Ascii, and Token, Number, Mnemonic, Operands, Directive, Arguments.
    ("hlt \u{7f}", 3, AsmKind::Ascii),
    ("mov eax, 08 ; \u{7f}", 3, AsmKind::Ascii),
    ("frob ; \u{7f}", 3, AsmKind::Ascii),
    ("mov eax ; \u{7f}", 3, AsmKind::Ascii),
    (".foo ; \u{7f}", 3, AsmKind::Ascii),
    (".byte ; \u{7f}", 3, AsmKind::Ascii),
    // Token, and Number, Mnemonic, Operands, Directive, Arguments.
    ("mov eax, 08 #", 3, AsmKind::Token),
    ("frob #", 3, AsmKind::Token),
    ("mov eax #", 3, AsmKind::Token),
    (".foo #", 3, AsmKind::Token),
    (".byte #", 3, AsmKind::Token),
    // Number, and Mnemonic, Operands, Directive, Arguments.
    ("frob 0x", 3, AsmKind::Number),
    ("mov 0x", 3, AsmKind::Number),
    (".foo 0x", 3, AsmKind::Number),
    (".byte 0x", 3, AsmKind::Number),
    // UnknownName, and NameTwice, HeaderTwice, Range, PlanOrder.
    ("x:\nx: .byte y", 4, AsmKind::UnknownName),
    (".gdt 0 7\n.gdt y 7", 4, AsmKind::UnknownName),
    (".byte y, 256", 3, AsmKind::UnknownName),
    (".plan 0 5 33\n.plan 0 4 y", 4, AsmKind::UnknownName),
    // NameTwice, and HeaderTwice, Range, Overlap, PlanOrder.
    ("x:\nx: .memory 4096", 4, AsmKind::NameTwice),
    ("x:\nx: .byte 256", 4, AsmKind::NameTwice),
    ("x: .org 16\nx: .org 15", 4, AsmKind::NameTwice),
    ("x: .plan 0 5 33\nx: .plan 0 5 33", 4, AsmKind::NameTwice),
    // HeaderTwice, and Range.
    (".memory 5", 3, AsmKind::HeaderTwice),
    // Range, and Overlap, PlanOrder.
    (".org 16\n.org -4294967295", 4, AsmKind::Range),
    (".plan 0 5 33\n.plan 0 4 256", 4, AsmKind::Range),
];

#[test]
fn the_least_kind_of_a_line_is_told(rt: HostRuntime) -> Result<(), Fail> {
    for (lines, number, kind) in PAIRS {
        let image = laid_out(rt.alloc(), HEADERS, lines)?;
        assert_eq!(rt; fault_in(&image), Some((number, kind)), "{lines}");
    }
    Ok(())
}

/// Lines behind the headers of which two are faulty, and of which the first is told. A line that is faulty by itself defines no name, another does.
const LINES: [(&str, u32, AsmKind); 10] = [
    ("frob\nmov eax, 08", 3, AsmKind::Mnemonic),
    (".byte 256\nfrob", 3, AsmKind::Range),
    (
        ".plan 0 5 33\n.plan 0 4 33\nhlt \u{7f}",
        4,
        AsmKind::PlanOrder,
    ),
    ("jmp x\nx: frob", 3, AsmKind::UnknownName),
    ("jmp x\nx = y", 3, AsmKind::UnknownName),
    ("jmp x\nx: .byte 256", 4, AsmKind::Range),
    ("jmp x\nx:\nx:", 5, AsmKind::NameTwice),
    (".byte x\nx = 1\nx = 256", 5, AsmKind::NameTwice),
    // Of two lines that set a header the first is its limit.
    (".org 8192\n.memory 16384", 3, AsmKind::Range),
    (".bare 2 0\n.cpus 3", 3, AsmKind::Range),
];

#[test]
fn the_first_faulty_line_is_told(rt: HostRuntime) -> Result<(), Fail> {
    for (lines, number, kind) in LINES {
        let image = laid_out(rt.alloc(), HEADERS, lines)?;
        assert_eq!(rt; fault_in(&image), Some((number, kind)), "{lines}");
    }
    Ok(())
}

/// Whole texts without a header, or with one that isn't valid. No limit hangs on a header that is missing, but one hangs on a wrong one.
const HEADLESS: [(&str, u32, AsmKind); 17] = [
    ("", 1, AsmKind::HeaderMissing),
    ("hlt", 2, AsmKind::HeaderMissing),
    ("hlt\n", 2, AsmKind::HeaderMissing),
    (".memory 4096", 2, AsmKind::HeaderMissing),
    (".cpus 1\n", 2, AsmKind::HeaderMissing),
    (
        ".cpus 1\n.zero 4294967295\n.zero 4294967295",
        4,
        AsmKind::HeaderMissing,
    ),
    (".memory 4096\n.bare 300 0", 3, AsmKind::HeaderMissing),
    (
        ".memory 4096\n.bare 300 0\n.task 300 0",
        3,
        AsmKind::HeaderTwice,
    ),
    (".cpus 9\n.memory 4096", 1, AsmKind::Range),
    (".cpus 0\n.memory 4096", 1, AsmKind::Range),
    (".cpus 1\n.memory 6144", 2, AsmKind::Range),
    (".cpus 1\n.memory 16781312", 2, AsmKind::Range),
    (".cpus 1\n.memory 0", 2, AsmKind::Range),
    (".cpus 1\n.memory y", 2, AsmKind::UnknownName),
    (".org 8192\n.memory 4097\n.cpus 1", 1, AsmKind::Range),
    (".org 8192\n.memory y\n.cpus 1", 2, AsmKind::UnknownName),
    (".bare 3 0\n.cpus 3\n.memory 4096", 1, AsmKind::Range),
];

#[test]
fn a_text_has_both_headers(rt: HostRuntime) -> Result<(), Fail> {
    for (text, number, kind) in HEADLESS {
        let image = laid_out(rt.alloc(), "", text)?;
        assert_eq!(rt; fault_in(&image), Some((number, kind)), "{text}");
    }
    Ok(())
}

/// Lines at the limits of what they may say.
const WITHIN: [&str; 15] = [
    ".byte 255, -128",
    ".word 65535, -32768",
    ".long 0xffffffff, -2147483648",
    ".gdt 0xffffffff 65535",
    ".idt -2147483648 -32768",
    ".bare 1 0xffffffff",
    ".task 1 65535",
    ".desc 0 0xfffff 255 15",
    ".desc -2147483648 -524288 -128 -8",
    ".gate 0xffff 0xffffffff 255 31",
    ".gate -32768 -2147483648 -128 -16",
    ".tss eip=0xffffffff esp=-2147483648 cs=65535 map=-32768",
    ".org 4096",
    ".zero 4096",
    ".plan 0 0xffffffff 255\n.plan 1 0 0",
];

/// Headers at the limits of what they may say.
const HEADERS_WITHIN: [&str; 3] = [
    ".memory 4096\n.cpus 1",
    ".memory 8192\n.cpus 2",
    ".memory 16777216\n.cpus 8",
];

#[test]
fn limits_are_within(rt: HostRuntime) -> Result<(), Fail> {
    for lines in WITHIN {
        let image = laid_out(rt.alloc(), HEADERS, lines)?;
        assert!(rt; image.is_ok(), "{lines}");
    }
    for text in HEADERS_WITHIN {
        let image = laid_out(rt.alloc(), "", text)?;
        assert!(rt; image.is_ok(), "{text}");
    }
    Ok(())
}

/// Lines behind the headers with a number beside a limit, on its far side.
const BEYOND: [&str; 42] = [
    ".byte 256",
    ".byte -129",
    ".word 65536",
    ".word -32769",
    ".long 4294967295+1",
    ".long -2147483649",
    ".gdt 4294967295+1 0",
    ".gdt 0 65536",
    ".idt -2147483649 0",
    ".idt 0 -32769",
    ".bare 2 0",
    ".bare -1 0",
    ".bare 0 4294967295+1",
    ".task 2 0",
    ".task 0 65536",
    ".plan 2 0 0",
    ".plan -1 0 0",
    ".plan 0 4294967295+1 0",
    ".plan 0 0 256",
    ".org 4097",
    ".org -1",
    ".zero 4097",
    ".zero -1",
    ".desc 4294967295+1 0 0 0",
    ".desc 0 0x100000 0 0",
    ".desc 0 -524289 0 0",
    ".desc 0 0 256 0",
    ".desc 0 0 0 16",
    ".desc 0 0 0 -9",
    ".gate 65536 0 0 0",
    ".gate 0 4294967295+1 0 0",
    ".gate 0 0 256 0",
    ".gate 0 0 0 32",
    ".gate 0 0 0 -17",
    ".tss eip=4294967295+1",
    ".tss cs=65536",
    "mov al, -129",
    "mov ax, 65536",
    "mov eax, [-2147483649]",
    "jmp 65536:0",
    "int 256",
    "ret 65536",
];

#[test]
fn what_is_beyond_a_limit_is_out_of_range(rt: HostRuntime) -> Result<(), Fail> {
    for line in BEYOND {
        let image = laid_out(rt.alloc(), HEADERS, line)?;
        assert_eq!(rt; fault_in(&image), Some((3, AsmKind::Range)), "{line}");
    }
    Ok(())
}

/// Instructions behind the headers with a number beside a limit, on its far side. Modulo 2^32 each target is near.
const INSTRUCTIONS_BEYOND: [&str; 8] = [
    "jmp 4294967295+1",
    "call 4294967295+1",
    "je -4294967295",
    "loop 4294967295+1",
    "jmp 0:4294967295+1",
    "call -32769:0",
    "mov ecx, 4294967295+1",
    "inc dword [ebx-2147483649]",
];

#[test]
fn what_is_beyond_a_limit_in_an_instruction_is_out_of_range(rt: HostRuntime) -> Result<(), Fail> {
    for line in INSTRUCTIONS_BEYOND {
        let image = laid_out(rt.alloc(), HEADERS, line)?;
        assert_eq!(rt; fault_in(&image), Some((3, AsmKind::Range)), "{line}");
    }
    Ok(())
}
