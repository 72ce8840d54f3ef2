//! One operation of each row of the opcode table, through both ways: decoded, written, and decoded again.

use arrayvec::ArrayVec;
use m386_decode::bytes::decode_bytes;
use m386_encode::encode::encode;
use m386_opmap::op::Op;
use m386_opmap::row::Row;
use m386_opmap::rows::OPCODE_ROWS;
use std::process::Abort;
use std::test::Fail;

/// The prefixes that are tried, one at a time: the segment FS, the operand size, LOCK and a repetition.
const PREFIXES: [Option<u8>; 5] = [None, Some(0x64), Some(0x66), Some(0xf0), Some(0xf3)];

/// A ModRM byte that names memory at EBP + 12h, and one that names register 3. Their middle bits are 0.
const PLACES: [u8; 2] = [0x45, 0xc3];

/// A displacement, an immediate, a distance or a far pointer, and bytes behind them.
const TAIL: [u8; 10] = [0x12, 0x34, 0x56, 0x78, 0x1a, 0x2b, 0x3c, 0x4d, 0x5e, 0x6f];

/// A row's first opcode and `/n`, behind a prefix and before a tail. Where the row has no ModRM byte, that is of the tail.
fn bytes_by(row: &Row, prefix: Option<u8>, place: u8) -> Option<ArrayVec<u8, 14>> {
    let mut bytes = ArrayVec::new();
    if let Some(prefix) = prefix {
        bytes.push(prefix);
    }
    let opcode = row.low / 8;
    if opcode >= 0xf00 {
        bytes.push(0x0f);
    }
    bytes.push((opcode % 256) as u8);
    bytes.push(place | (row.low % 8 * 8) as u8);
    match bytes.try_extend_from_slice(&TAIL) {
        Ok(()) => Some(bytes),
        Err(_) => None,
    }
}

/// What is written for an operation is decoded to it, whatever byte follows.
fn goes_both_ways(rt: &impl Abort, op: &Op) {
    let Some(written) = encode(op) else {
        panic!(rt; "nothing is written for {op:?}");
    };
    for behind in [0x00, 0x90, 0xf0, 0xff] {
        let mut bytes = [behind; 24];
        for (byte, own) in bytes.iter_mut().zip(written.as_slice()) {
            *byte = *own;
        }
        match decode_bytes(&bytes) {
            Ok(decoded) => {
                assert_eq!(rt; decoded.op, *op);
                assert_eq!(rt; decoded.len as usize, written.len(), "{op:?}");
            }
            Err(end) => panic!(rt; "{op:?}: {end:?}"),
        }
    }
}

/// Whether the row has an operation with the prefix. Each of them goes both ways.
fn is_with(rt: &impl Abort, row: &Row, prefix: Option<u8>) -> bool {
    let mut found = false;
    for place in PLACES {
        let Some(bytes) = bytes_by(row, prefix, place) else {
            panic!(rt; "{row:?}");
        };
        if let Ok(decoded) = decode_bytes(bytes.as_slice()) {
            assert_eq!(rt; decoded.op.name, row.name, "{row:?}");
            goes_both_ways(rt, &decoded.op);
            found = true;
        }
    }
    found
}

#[test]
fn an_operation_of_each_row_is_written_and_decoded_again(rt: HostRuntime) -> Result<(), Fail> {
    let mut rows = 0;
    for (place, row) in OPCODE_ROWS.iter().enumerate() {
        for prefix in PREFIXES {
            let refused = prefix == Some(0xf0) && !row.lock;
            assert_eq!(rt; is_with(&rt, row, prefix), !refused, "{row:?} {prefix:?}");
        }
        rows = place + 1;
    }
    assert_eq!(rt; rows, 327);
    Ok(())
}
