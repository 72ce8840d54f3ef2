//! One instruction for each mnemonic that no other table has, so that no two of them change places.
use super::{BEFORE, HEAD, behind, laid_out};
use std::test::Fail;

// The bytes are another assembler's, but for jumps, which have two here: 70h and the condition, and the distance from their end.

/// Instructions at 0x1000 that have a condition: Intel 80386 Programmer's Reference Manual, 17.2.2.11, Jcc and SETcc.
const CONDITIONS: [(&str, &[u8]); 28] = [
    ("jo 0x1010", &[0x70, 0x0e]),
    ("jno 0x1010", &[0x71, 0x0e]),
    ("jb 0x1010", &[0x72, 0x0e]),
    ("jae 0x1010", &[0x73, 0x0e]),
    ("jne 0x1010", &[0x75, 0x0e]),
    ("jbe 0x1010", &[0x76, 0x0e]),
    ("ja 0x1010", &[0x77, 0x0e]),
    ("js 0x1010", &[0x78, 0x0e]),
    ("jns 0x1010", &[0x79, 0x0e]),
    ("jp 0x1010", &[0x7a, 0x0e]),
    ("jnp 0x1010", &[0x7b, 0x0e]),
    ("jl 0x1010", &[0x7c, 0x0e]),
    ("jge 0x1010", &[0x7d, 0x0e]),
    ("jle 0x1010", &[0x7e, 0x0e]),
    ("seto al", &[0x0f, 0x90, 0xc0]),
    ("setno al", &[0x0f, 0x91, 0xc0]),
    ("setb al", &[0x0f, 0x92, 0xc0]),
    ("setae al", &[0x0f, 0x93, 0xc0]),
    ("sete al", &[0x0f, 0x94, 0xc0]),
    ("setbe al", &[0x0f, 0x96, 0xc0]),
    ("sets al", &[0x0f, 0x98, 0xc0]),
    ("setns al", &[0x0f, 0x99, 0xc0]),
    ("setp al", &[0x0f, 0x9a, 0xc0]),
    ("setnp al", &[0x0f, 0x9b, 0xc0]),
    ("setl al", &[0x0f, 0x9c, 0xc0]),
    ("setge al", &[0x0f, 0x9d, 0xc0]),
    ("setle al", &[0x0f, 0x9e, 0xc0]),
    ("setg al", &[0x0f, 0x9f, 0xc0]),
];

#[test]
fn each_condition_has_its_number(rt: HostRuntime) -> Result<(), Fail> {
    for (line, wanted) in CONDITIONS {
        let image = laid_out(rt.alloc(), BEFORE, line)?;
        assert_eq!(rt; behind(&image, HEAD), Some(wanted), "{line}");
    }
    Ok(())
}

/// Instructions at 0x1000 without operands.
const ALONE: [(&str, &[u8]); 23] = [
    ("movsw", &[0x66, 0xa5]),
    ("cmpsb", &[0xa6]),
    ("cmpsw", &[0x66, 0xa7]),
    ("stosb", &[0xaa]),
    ("stosw", &[0x66, 0xab]),
    ("stosd", &[0xab]),
    ("lodsb", &[0xac]),
    ("lodsw", &[0x66, 0xad]),
    ("lodsd", &[0xad]),
    ("scasw", &[0x66, 0xaf]),
    ("scasd", &[0xaf]),
    ("clc", &[0xf8]),
    ("stc", &[0xf9]),
    ("cmc", &[0xf5]),
    ("cld", &[0xfc]),
    ("std", &[0xfd]),
    ("cli", &[0xfa]),
    ("sti", &[0xfb]),
    ("lahf", &[0x9f]),
    ("wait", &[0x9b]),
    ("popa", &[0x61]),
    ("pushf", &[0x9c]),
    ("into", &[0xce]),
];

#[test]
fn each_word_without_operands_has_its_opcode(rt: HostRuntime) -> Result<(), Fail> {
    for (line, wanted) in ALONE {
        let image = laid_out(rt.alloc(), BEFORE, line)?;
        assert_eq!(rt; behind(&image, HEAD), Some(wanted), "{line}");
    }
    Ok(())
}

/// Instructions at 0x1000 with operands, three of them with a full displacement behind 66h.
const WITH_OPERANDS: [(&str, &[u8]); 14] = [
    ("div ecx", &[0xf7, 0xf1]),
    ("rol eax, 5", &[0xc1, 0xc0, 0x05]),
    ("ror eax, 5", &[0xc1, 0xc8, 0x05]),
    ("rcr eax, 5", &[0xc1, 0xd8, 0x05]),
    ("btc eax, 3", &[0x0f, 0xba, 0xf8, 0x03]),
    ("bsr ecx, edx", &[0x0f, 0xbd, 0xca]),
    ("les eax, [ebx]", &[0xc4, 0x03]),
    ("lfs eax, [ebx]", &[0x0f, 0xb4, 0x03]),
    ("verw ax", &[0x0f, 0x00, 0xe8]),
    ("lldt ax", &[0x0f, 0x00, 0xd0]),
    ("lidt [ebx]", &[0x0f, 0x01, 0x1b]),
    (
        "mov ax, [ebx+0x1000]",
        &[0x66, 0x8b, 0x83, 0x00, 0x10, 0x00, 0x00],
    ),
    (
        "mov [es:ecx*4+0x12345678], ax",
        &[0x26, 0x66, 0x89, 0x04, 0x8d, 0x78, 0x56, 0x34, 0x12],
    ),
    (
        "add word [edx-300], 5",
        &[0x66, 0x83, 0x82, 0xd4, 0xfe, 0xff, 0xff, 0x05],
    ),
];

#[test]
fn each_word_with_operands_has_its_opcode(rt: HostRuntime) -> Result<(), Fail> {
    for (line, wanted) in WITH_OPERANDS {
        let image = laid_out(rt.alloc(), BEFORE, line)?;
        assert_eq!(rt; behind(&image, HEAD), Some(wanted), "{line}");
    }
    Ok(())
}
