//! Operands in memory, what other forms of operands are spelled as, and what is none.
use super::{BEFORE, HEAD, behind, fault_in, joined_image, laid_out};
use m386_lines::kind::AsmKind;
use std::test::Fail;

// A table is no longer than what a test's proof takes.

/// Places without an index, each with the bytes of `inc dword` before it: FFh /0, and Intel 80386 Programmer's Reference Manual, table 17-3.
const PLAIN_PLACES: [(&str, &[u8]); 21] = [
    ("[]", &[0xff, 0x05, 0x00, 0x00, 0x00, 0x00]),
    ("[0x7f]", &[0xff, 0x05, 0x7f, 0x00, 0x00, 0x00]),
    ("[-1]", &[0xff, 0x05, 0xff, 0xff, 0xff, 0xff]),
    ("[eax]", &[0xff, 0x00]),
    ("[ecx]", &[0xff, 0x01]),
    ("[edx]", &[0xff, 0x02]),
    ("[ebx]", &[0xff, 0x03]),
    ("[esp]", &[0xff, 0x04, 0x24]),
    ("[ebp]", &[0xff, 0x45, 0x00]),
    ("[esi]", &[0xff, 0x06]),
    ("[edi]", &[0xff, 0x07]),
    ("[eax+127]", &[0xff, 0x40, 0x7f]),
    ("[eax+128]", &[0xff, 0x80, 0x80, 0x00, 0x00, 0x00]),
    ("[eax-128]", &[0xff, 0x40, 0x80]),
    ("[eax-129]", &[0xff, 0x80, 0x7f, 0xff, 0xff, 0xff]),
    ("[eax+-4]", &[0xff, 0x40, 0xfc]),
    ("[eax+0xffffffff]", &[0xff, 0x40, 0xff]),
    ("[esp+8]", &[0xff, 0x44, 0x24, 0x08]),
    ("[ebp+0x1000]", &[0xff, 0x85, 0x00, 0x10, 0x00, 0x00]),
    ("[eax-5-2]", &[0xff, 0x40, 0xf9]),
    ("[ebx+4+4]", &[0xff, 0x43, 0x08]),
];

#[test]
fn places_without_an_index_are_spelled(rt: HostRuntime) -> Result<(), Fail> {
    for (place, wanted) in PLAIN_PLACES {
        let image = joined_image(rt.alloc(), &[BEFORE, "inc dword ", place])?;
        assert_eq!(rt; behind(&image, HEAD), Some(wanted), "{place}");
    }
    Ok(())
}

/// Places with an index or a segment, each with the bytes of `inc dword` before it: FFh /0, and Intel 80386 Programmer's Reference Manual, tables 17-3 and 17-4.
const OTHER_PLACES: [(&str, &[u8]); 16] = [
    ("[ecx*2]", &[0xff, 0x04, 0x4d, 0x00, 0x00, 0x00, 0x00]),
    ("[edx*4+1]", &[0xff, 0x04, 0x95, 0x01, 0x00, 0x00, 0x00]),
    ("[ebx*8]", &[0xff, 0x04, 0xdd, 0x00, 0x00, 0x00, 0x00]),
    ("[esi+edi*1]", &[0xff, 0x04, 0x3e]),
    ("[esp+eax*2]", &[0xff, 0x04, 0x44]),
    ("[ebp+ecx*4]", &[0xff, 0x44, 0x8d, 0x00]),
    ("[ebp+ebp*8-128]", &[0xff, 0x44, 0xed, 0x80]),
    (
        "[ebx+edx*4+0x12345678]",
        &[0xff, 0x84, 0x93, 0x78, 0x56, 0x34, 0x12],
    ),
    ("[es:eax]", &[0x26, 0xff, 0x00]),
    ("[cs:0x10]", &[0x2e, 0xff, 0x05, 0x10, 0x00, 0x00, 0x00]),
    ("[ss:ebp]", &[0x36, 0xff, 0x45, 0x00]),
    ("[ds:ebp]", &[0x3e, 0xff, 0x45, 0x00]),
    ("[fs:ebx+4]", &[0x64, 0xff, 0x43, 0x04]),
    (
        "[gs:ecx*2]",
        &[0x65, 0xff, 0x04, 0x4d, 0x00, 0x00, 0x00, 0x00],
    ),
    (
        "[ fs : ebx + esi * 2 - 4 ]",
        &[0x64, 0xff, 0x44, 0x73, 0xfc],
    ),
    ("[eax*1]", &[0xff, 0x04, 0x05, 0x00, 0x00, 0x00, 0x00]),
];

#[test]
fn places_with_an_index_or_a_segment_are_spelled(rt: HostRuntime) -> Result<(), Fail> {
    for (place, wanted) in OTHER_PLACES {
        let image = joined_image(rt.alloc(), &[BEFORE, "inc dword ", place])?;
        assert_eq!(rt; behind(&image, HEAD), Some(wanted), "{place}");
    }
    Ok(())
}

/// Instructions at 0x1000, each with the bytes that the manual's opcode tables give it, the shortest and of these the least: moves, and the stack.
const MOVES: [(&str, &[u8]); 22] = [
    ("mov eax, ebx", &[0x89, 0xd8]),
    ("mov al, cl", &[0x88, 0xc8]),
    ("mov si, di", &[0x66, 0x89, 0xfe]),
    ("nop", &[0x90]),
    ("xchg eax, ebx", &[0x93]),
    ("mov [0x2000], ds", &[0x8c, 0x1d, 0x00, 0x20, 0x00, 0x00]),
    ("mov es, [ebx]", &[0x8e, 0x03]),
    ("mov ds, ax", &[0x8e, 0xd8]),
    ("mov ax, fs", &[0x8c, 0xe0]),
    ("mov gs, di", &[0x8e, 0xef]),
    ("movzx ecx, word [eax]", &[0x0f, 0xb7, 0x08]),
    ("movsx dx, byte [esi]", &[0x66, 0x0f, 0xbe, 0x16]),
    ("push ax", &[0x66, 0x50]),
    ("push word [eax]", &[0x66, 0xff, 0x30]),
    ("pop ds", &[0x1f]),
    ("push gs", &[0x0f, 0xa8]),
    ("lgs edi, [eax]", &[0x0f, 0xb5, 0x38]),
    ("mov dword [eax], 5", &[0xc7, 0x00, 0x05, 0x00, 0x00, 0x00]),
    ("mov [0x1000], al", &[0xa2, 0x00, 0x10, 0x00, 0x00]),
    ("mov ax, [0x1000]", &[0x66, 0xa1, 0x00, 0x10, 0x00, 0x00]),
    ("lea cx, [eax+ebx*2]", &[0x66, 0x8d, 0x0c, 0x58]),
    ("movzx ax, [eax]", &[0x66, 0x0f, 0xb7, 0x00]),
];

#[test]
fn operands_of_moves_are_spelled(rt: HostRuntime) -> Result<(), Fail> {
    for (line, wanted) in MOVES {
        let image = laid_out(rt.alloc(), BEFORE, line)?;
        assert_eq!(rt; behind(&image, HEAD), Some(wanted), "{line}");
    }
    Ok(())
}

/// Instructions at 0x1000, each with the bytes that the manual's opcode tables give it, the shortest and of these the least: arithmetic and bits.
const ARITHMETIC: [(&str, &[u8]); 18] = [
    ("add ax, 5", &[0x66, 0x05, 0x05, 0x00]),
    ("lock lock inc dword [eax]", &[0xf0, 0xff, 0x00]),
    ("test byte [eax], 1", &[0xf6, 0x00, 0x01]),
    ("bt [eax], cx", &[0x66, 0x0f, 0xa3, 0x08]),
    ("btr word [eax], 3", &[0x66, 0x0f, 0xba, 0x30, 0x03]),
    ("sar byte [eax], 1", &[0xd0, 0x38]),
    ("rcl word [eax], 3", &[0x66, 0xc1, 0x10, 0x03]),
    ("imul bx, [eax], -3", &[0x66, 0x6b, 0x18, 0xfd]),
    ("imul byte [eax]", &[0xf6, 0x28]),
    ("idiv cx", &[0x66, 0xf7, 0xf9]),
    ("sbb [eax], bl", &[0x18, 0x18]),
    ("cmp esi, [edi]", &[0x3b, 0x37]),
    ("or byte [eax], 0x80", &[0x80, 0x08, 0x80]),
    ("and eax, -128", &[0x83, 0xe0, 0x80]),
    ("xor ecx, 127", &[0x83, 0xf1, 0x7f]),
    ("adc edx, 128", &[0x81, 0xd2, 0x80, 0x00, 0x00, 0x00]),
    ("seta byte [eax]", &[0x0f, 0x97, 0x00]),
    ("shrd [eax], bx, 5", &[0x66, 0x0f, 0xac, 0x18, 0x05]),
];

#[test]
fn operands_of_arithmetic_are_spelled(rt: HostRuntime) -> Result<(), Fail> {
    for (line, wanted) in ARITHMETIC {
        let image = laid_out(rt.alloc(), BEFORE, line)?;
        assert_eq!(rt; behind(&image, HEAD), Some(wanted), "{line}");
    }
    Ok(())
}

/// Instructions at 0x1000, each with the bytes that the manual's opcode tables give it, the shortest and of these the least: transfers, ports, strings and the rest.
const OTHERS: [(&str, &[u8]); 17] = [
    ("rep rep movsb", &[0xf3, 0xa4]),
    ("rep repnz scasb", &[0xf2, 0xae]),
    ("repnz repz cmpsd", &[0xf3, 0xa7]),
    ("str dx", &[0x0f, 0x00, 0xca]),
    ("sldt word [eax]", &[0x0f, 0x00, 0x00]),
    ("smsw cx", &[0x0f, 0x01, 0xe1]),
    ("jmp eax", &[0xff, 0xe0]),
    ("call ax", &[0x66, 0xff, 0xd0]),
    ("jmp word [ebx]", &[0x66, 0xff, 0x23]),
    ("call far [ebx+8]", &[0xff, 0x5b, 0x08]),
    ("lsl ecx, dx", &[0x0f, 0x03, 0xca]),
    ("verr ax", &[0x0f, 0x00, 0xe0]),
    ("arpl [eax], si", &[0x63, 0x30]),
    ("sgdt [0x100]", &[0x0f, 0x01, 0x05, 0x00, 0x01, 0x00, 0x00]),
    ("in ax, 0x10", &[0x66, 0xe5, 0x10]),
    ("out dx, al", &[0xee]),
    ("lmsw word [eax]", &[0x0f, 0x01, 0x30]),
];

#[test]
fn operands_of_other_instructions_are_spelled(rt: HostRuntime) -> Result<(), Fail> {
    for (line, wanted) in OTHERS {
        let image = laid_out(rt.alloc(), BEFORE, line)?;
        assert_eq!(rt; behind(&image, HEAD), Some(wanted), "{line}");
    }
    Ok(())
}

/// Operands that aren't of the language, that no opcode has, or whose width is missing or said twice: of moves.
const NO_MOVES: [&str; 28] = [
    "inc dword [eax*3]",
    "inc dword [eax+esp*2]",
    "inc dword [eax+ebx]",
    "inc dword [2*eax]",
    "inc dword [eax*2+ebx]",
    "inc dword [ax]",
    "inc dword [eax+x+y]",
    "inc dword [eax",
    "inc dword eax]",
    "inc dword [cs:ds:eax]",
    "inc dword [al:eax]",
    "inc [eax]",
    "inc byte al",
    "mov word [eax], ds",
    "mov eax, ds",
    "mov al, ds",
    "mov cs, ax",
    "pop cs",
    "movzx eax, [ebx]",
    "movzx al, byte [ebx]",
    "mov eax, dword [ebx]",
    "mov eax, word [ebx]",
    "mov al, ebx",
    "mov [eax], [ebx]",
    "mov 5, eax",
    "mov cr0, 5",
    "mov cr0, [eax]",
    "mov eax, 8:0",
];

#[test]
fn other_operands_of_moves_are_refused(rt: HostRuntime) -> Result<(), Fail> {
    for line in NO_MOVES {
        let image = laid_out(rt.alloc(), BEFORE, line)?;
        assert_eq!(rt; fault_in(&image), Some((4, AsmKind::Operands)), "{line}");
    }
    Ok(())
}

/// Operands that aren't of the language, that no opcode has, or whose width is missing or said twice: of loads and transfers.
const NO_TRANSFERS: [&str; 20] = [
    "lea eax, dword [ebx]",
    "lea eax, ebx",
    "lea al, [ebx]",
    "bound eax, ebx",
    "lgdt dword [eax]",
    "lgdt eax",
    "les eax, far [ebx]",
    "jmp [eax]",
    "jmp byte [eax]",
    "jmp al",
    "jmp dword far [eax]",
    "call far eax",
    "jmp word 8:0",
    "loop eax",
    "loop [eax]",
    "jecxz 8:0",
    "je far [eax]",
    "push [eax]",
    "push al",
    "push byte 5",
];

#[test]
fn other_operands_of_transfers_are_refused(rt: HostRuntime) -> Result<(), Fail> {
    for line in NO_TRANSFERS {
        let image = laid_out(rt.alloc(), BEFORE, line)?;
        assert_eq!(rt; fault_in(&image), Some((4, AsmKind::Operands)), "{line}");
    }
    Ok(())
}

/// Operands that aren't of the language, that no opcode has, or whose width is missing or said twice: of arithmetic, bits, selectors and ports.
const NO_ARITHMETIC: [&str; 21] = [
    "xchg eax, [ebx]",
    "xchg eax, 5",
    "test eax, [ebx]",
    "shl [eax], cl",
    "shl eax, cx",
    "shl eax, ecx",
    "shld al, bl, 5",
    "bt al, 3",
    "bsf al, bl",
    "imul al, bl",
    "imul eax, 5",
    "arpl eax, ebx",
    "lar ax, ebx",
    "sldt eax",
    "str eax",
    "ltr eax",
    "setne ax",
    "in eax, 5, 6",
    "in al, bx",
    "in bl, dx",
    "out dx, bl",
];

#[test]
fn other_operands_of_arithmetic_are_refused(rt: HostRuntime) -> Result<(), Fail> {
    for line in NO_ARITHMETIC {
        let image = laid_out(rt.alloc(), BEFORE, line)?;
        assert_eq!(rt; fault_in(&image), Some((4, AsmKind::Operands)), "{line}");
    }
    Ok(())
}

/// Operands that are too many or no expressions, and words before what can't have them.
const NO_OPERANDS: [&str; 27] = [
    "int eax",
    "int3 3",
    "ret 1, 2",
    "ret eax",
    "hlt 0",
    "add eax",
    "add eax, ebx, ecx",
    "add eax ebx",
    "add , eax",
    "add eax,",
    "add eax, , ebx",
    "mov eax, -x",
    "mov eax, 5+x",
    "mov eax, x+",
    "mov eax, --5",
    "mov eax, 1+2+3",
    "mov EAX, 5",
    "rep add eax, 1",
    "rep hlt",
    "repz lock movsb",
    "lock repz movsb",
    "lock repnz scasb",
    "lock mov [eax], ebx",
    "lock add eax, ebx",
    "lock cmp [eax], ebx",
    "lock inc eax",
    "lock hlt",
];

#[test]
fn what_is_no_operand_is_refused(rt: HostRuntime) -> Result<(), Fail> {
    for line in NO_OPERANDS {
        let image = laid_out(rt.alloc(), BEFORE, line)?;
        assert_eq!(rt; fault_in(&image), Some((4, AsmKind::Operands)), "{line}");
    }
    Ok(())
}

/// What is no mnemonic, or has no mnemonic in its place.
const STRANGE: [&str; 20] = [
    "callf 8:0",
    "jmpf 8:0",
    "esc",
    "MOV eax, 1",
    "enter 1, 2",
    "lock",
    "rep repz",
    "x: y: hlt",
    "x: y = 5",
    "5 hlt",
    "eax: hlt",
    ": hlt",
    "byte",
    "cr0: hlt",
    "[eax]",
    "movs",
    "jz 5",
    "cmovne eax, ebx",
    "rep x: hlt",
    "x.y: hlt",
];

#[test]
fn what_is_no_mnemonic_is_refused(rt: HostRuntime) -> Result<(), Fail> {
    for line in STRANGE {
        let image = laid_out(rt.alloc(), BEFORE, line)?;
        assert_eq!(rt; fault_in(&image), Some((4, AsmKind::Mnemonic)), "{line}");
    }
    Ok(())
}
