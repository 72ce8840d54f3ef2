//! Spellings compared with those worked out by hand from the opcode map; no assembler made them.

use super::bytes_of;
use m386_encode::encode::encode;
use m386_opmap::outcome::Reading;
use m386_opmap::reading::reading;
use std::test::Fail;

/// A spelling, and what is wanted for the same operation.
const CASES: &str = "05 01 00 00 00 = 83 c0 01
83 c0 01 = 83 c0 01
81 c0 01 00 00 00 = 83 c0 01
66 83 c0 05 = 66 05 05 00
66 81 c0 05 00 = 66 05 05 00
8b c3 = 89 d8
89 d8 = 89 d8
8b 05 00 20 00 00 = a1 00 20 00 00
c1 e0 01 = d1 e0
3e 8b 84 24 04 00 00 00 = 3e 8b 44 24 04
8b 04 4d 00 00 00 00 = 8b 04 4d 00 00 00 00
8b 04 25 10 00 00 00 = a1 10 00 00 00
8b 84 20 80 00 00 00 = 8b 80 80 00 00 00
8b 43 00 = 8b 03
8b 85 00 00 00 00 = 8b 45 00
8b 84 24 00 00 00 00 = 8b 04 24
8b 84 4b 00 00 00 00 = 8b 04 4b
8b 84 8b 04 00 00 00 = 8b 44 8b 04
8b 84 cb 00 00 00 00 = 8b 04 cb
66 66 2e 26 f0 01 58 7f = 26 66 f0 01 58 7f
66 66 66 66 66 66 66 66 66 66 66 66 66 66 66 66 01 d8 = 66 01 d8
f2 f3 a4 = f3 a4
e9 03 00 00 00 = eb 03
0f 84 fc ff ff ff = 74 fc
68 ff ff ff ff = 6a ff
df = d8
0f 94 f8 = 0f 94 c0";

#[test]
fn the_wanted_spelling_is_written(rt: HostRuntime) -> Result<(), Fail> {
    for line in CASES.lines() {
        let (spelling, wanted) = line.split_once(" = ").ok_or("no spelling")?;
        let spelling = bytes_of(rt.alloc(), spelling)?;
        let wanted = bytes_of(rt.alloc(), wanted)?;
        match reading(spelling.as_slice()) {
            Reading::Spelled { op, .. } => match encode(&op) {
                Some(bytes) => assert_eq!(rt; bytes.as_slice(), wanted.as_slice(), "{line}"),
                None => panic!(rt; "{line}"),
            },
            _ => panic!(rt; "{line}"),
        }
    }
    Ok(())
}

#[test]
fn lock_mov_has_no_spelling(rt: HostRuntime) -> Result<(), Fail> {
    match reading(&[0x89, 0x03]) {
        Reading::Spelled { op, .. } => {
            let mut op = op;
            op.lock = true;
            assert!(rt; encode(&op).is_none());
        }
        _ => panic!(rt; "mov [ebx], eax"),
    }
    Ok(())
}
