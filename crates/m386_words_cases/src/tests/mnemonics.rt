//! Mnemonics.
use m386_base::number::Width;
use m386_opmap::name::Name;
use m386_words::mnemonic::{is_mnemonic, word_of};

/// The machine's mnemonics.
const WORDS: [&str; 9] = [
    "add or adc sbb and sub xor cmp test inc dec not neg mul imul div idiv",
    "rol ror rcl rcr shl shr sar shld shrd bt bts btr btc bsf bsr",
    "mov movzx movsx xchg lea cwde cdq xlat les lds lss lfs lgs push pop pusha popa pushf popf leave",
    "movsb movsw movsd cmpsb cmpsw cmpsd stosb stosw stosd lodsb lodsw lodsd scasb scasw scasd",
    "jmp call ret retf iret int int3 into loopnz loopz loop jecxz bound arpl in out",
    "jo jno jb jae je jne jbe ja js jns jp jnp jl jge jle jg",
    "seto setno setb setae sete setne setbe seta sets setns setp setnp setl setge setle setg",
    "clc stc cmc cld std cli sti sahf lahf hlt nop wait clts",
    "lar lsl verr verw sldt lldt str ltr sgdt lgdt sidt lidt smsw lmsw",
];

/// Words of other assemblers or processors, of other cases, and of other places in a line.
const OTHERS: [&str; 7] = [
    "jz jnz jc jnc jnae jnb jna jnbe jpe jpo jnge jnl jng jnle jcxz jmpf",
    "setz setnz setc setnc loope loopne sal callf retn iretd iretw pushfd popfd pushad popad",
    "movs cmps stos lods scas insb outsb ins outs movsq xlatb enter cbw cwd",
    "fwait esc int1 icebp bswap cpuid cmpxchg syscall ud2",
    "lock rep repz repe repnz repne",
    "MOV Mov mo movv",
    "eax cr0 byte .byte x 5",
];

#[test]
fn each_operation_has_a_word(rt: HostRuntime) {
    for words in WORDS {
        for word in words.split(' ') {
            assert!(rt; is_mnemonic(word.as_bytes()), "{word}");
        }
    }
    for words in OTHERS {
        for word in words.split(' ') {
            assert!(rt; !is_mnemonic(word.as_bytes()), "{word}");
        }
    }
}

#[test]
fn a_word_is_that_of_its_operation(rt: HostRuntime) {
    let cases: [(Name, Width, Option<&str>); 14] = [
        (Name::Add, Width::W8, Some("add")),
        (Name::Movzx8, Width::W32, Some("movzx")),
        (Name::Movzx16, Width::W32, Some("movzx")),
        (Name::Movsx8, Width::W16, Some("movsx")),
        (Name::Movs, Width::W8, Some("movsb")),
        (Name::Movs, Width::W16, Some("movsw")),
        (Name::Movs, Width::W32, Some("movsd")),
        (Name::Cmps, Width::W16, Some("cmpsw")),
        (Name::Scas, Width::W32, Some("scasd")),
        (Name::Jmpf, Width::W32, Some("jmp")),
        (Name::Callf, Width::W32, Some("call")),
        (Name::Retf, Width::W32, Some("retf")),
        (Name::Setnp, Width::W8, Some("setnp")),
        (Name::Esc, Width::W32, None),
    ];
    for (name, width, wanted) in cases {
        assert_eq!(rt;
            word_of(name, width),
            wanted.map(str::as_bytes),
            "{name:?} {width:?}"
        );
    }
}
