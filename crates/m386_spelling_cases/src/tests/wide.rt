//! Wide spellings compared with those worked out by hand from the opcode map; no assembler made them.

use m386_encode::wide::encode_wide;
use m386_opmap::outcome::Reading;
use m386_opmap::reading::reading;
use std::test::Fail;

/// An operation as an assembler writes it, a spelling of it, and its wide one.
const CASES: [(&str, &[u8], &[u8]); 15] = [
    ("add eax, 1", &[0x83, 0xc0, 0x01], &[0x05, 0x01, 0, 0, 0]),
    (
        "add ax, -1",
        &[0x66, 0x83, 0xc0, 0xff],
        &[0x66, 0x05, 0xff, 0xff],
    ),
    (
        "mov eax, [0x2000]",
        &[0x8b, 0x05, 0, 0x20, 0, 0],
        &[0xa1, 0, 0x20, 0, 0],
    ),
    ("mov eax, [ebx]", &[0x8b, 0x03], &[0x8b, 0x83, 0, 0, 0, 0]),
    (
        "mov ecx, [ebp - 4]",
        &[0x8b, 0x4d, 0xfc],
        &[0x8b, 0x8d, 0xfc, 0xff, 0xff, 0xff],
    ),
    (
        "mov ecx, [esp + eax * 2]",
        &[0x8b, 0x0c, 0x44],
        &[0x8b, 0x8c, 0x44, 0, 0, 0, 0],
    ),
    ("shl eax, 1", &[0xd1, 0xe0], &[0xc1, 0xe0, 0x01]),
    (
        "rol byte [eax], 1",
        &[0xd0, 0x00],
        &[0xc0, 0x80, 0, 0, 0, 0, 0x01],
    ),
    ("push 1", &[0x6a, 0x01], &[0x68, 0x01, 0, 0, 0]),
    (
        "imul eax, ebx, -2",
        &[0x6b, 0xc3, 0xfe],
        &[0x69, 0xc3, 0xfe, 0xff, 0xff, 0xff],
    ),
    ("jmp by 2", &[0xeb, 0x02], &[0xe9, 0x02, 0, 0, 0]),
    (
        "je by -4",
        &[0x74, 0xfc],
        &[0x0f, 0x84, 0xfc, 0xff, 0xff, 0xff],
    ),
    ("jecxz by 2", &[0xe3, 0x02], &[0xe3, 0x02]),
    ("in al, 60h", &[0xe4, 0x60], &[0xe4, 0x60]),
    ("xchg eax, ebx", &[0x87, 0xd8], &[0x93]),
];

#[test]
fn the_wanted_wide_spelling_is_written(rt: HostRuntime) -> Result<(), Fail> {
    for (name, spelling, wanted) in CASES {
        match reading(spelling) {
            Reading::Spelled { op, .. } => match encode_wide(&op) {
                Some(bytes) => assert_eq!(rt; bytes.as_slice(), wanted, "{name}"),
                None => panic!(rt; "{name}"),
            },
            _ => panic!(rt; "{name}"),
        }
    }
    Ok(())
}

#[test]
fn lock_mov_has_no_wide_spelling(rt: HostRuntime) -> Result<(), Fail> {
    match reading(&[0x89, 0x03]) {
        Reading::Spelled { op, .. } => {
            let mut op = op;
            op.lock = true;
            assert!(rt; encode_wide(&op).is_none());
        }
        _ => panic!(rt; "mov [ebx], eax"),
    }
    Ok(())
}
