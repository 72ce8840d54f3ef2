//! Decoding over listed bytes: what is spelled, what is refused, and how many bytes were taken.

use m386_base::fault::{Break, Fault, Stop};
use m386_decode::bytes::decode_bytes;
use m386_decode::decode::decode;
use m386_decode::slice_source::SliceSource;
use m386_decode::source::ByteSource;
use m386_opmap::name::Name;
use std::process::Abort;
use std::test::Fail;

const UNDEFINED_OPCODE: Break = Break::Fault(Fault {
    vector: 6,
    code: None,
});

const GENERAL_PROTECTION: Break = Break::Fault(Fault {
    vector: 13,
    code: Some(0),
});

/// A source that gives a byte, then meets an exception once, and then gives bytes again.
#[derive(Drop)]
struct FailingSource {
    calls: u8,
}

impl ByteSource for FailingSource {
    ghost use Rattle.std.specs.Prelude.{◌≡◌, ◌∷◌, [], ⊤, IfOk, IfErr, false};

    ghost counts_newer = { λ s. false };

    ghost gave = { λ s t bytes. ⊤ };

    ghost broke = { λ s t b. ⊤ };

    ghost gave_nothing = { λ s. tt };

    ghost gave_more = { λ s t u bytes more first then. tt };

    fn next(&mut self) -> Result<u8, Break> {
        self.calls = self.calls.saturating_add(1);
        if self.calls == 2 {
            return Err(Break::Fault(Fault {
                vector: 13,
                code: Some(8),
            }));
        }
        Ok(0x05)
    }

    fn newer(&self) -> bool {
        false
    }
}

/// The bytes spell this operation, and this many are left behind it.
fn is_spelled(rt: &impl Abort, bytes: &[u8], name: Name, len: u8, left: usize) {
    let mut source = SliceSource::new(bytes);
    match decode(&mut source) {
        Ok(decoded) => {
            assert_eq!(rt; decoded.op.name, name, "{bytes:?}");
            assert_eq!(rt; decoded.len, len, "{bytes:?}");
        }
        Err(end) => panic!(rt; "{bytes:?}: {end:?}"),
    }
    assert_eq!(rt; source.left().len(), left, "{bytes:?}");
}

/// Decoding the bytes ends so, and this many are left.
fn is_broken(rt: &impl Abort, bytes: &[u8], end: Break, left: usize) {
    let mut source = SliceSource::new(bytes);
    assert_eq!(rt; decode(&mut source), Err(end), "{bytes:?}");
    assert_eq!(rt; source.left().len(), left, "{bytes:?}");
}

/// Prefixes 66h, and behind them these bytes.
fn prefixed(count: usize, behind: [u8; 2]) -> [u8; 18] {
    let mut bytes = [0; 18];
    for (at, byte) in bytes.iter_mut().enumerate() {
        *byte = if at < count { 0x66 } else { behind[at % 2] };
    }
    bytes
}

#[test]
fn an_operation_is_taken_and_nothing_behind_it(rt: HostRuntime) -> Result<(), Fail> {
    is_spelled(&rt, &[0x83, 0xc0, 0x01, 0xf4], Name::Add, 3, 1);
    is_spelled(&rt, &[0x05, 0x01, 0x00, 0x00, 0x00], Name::Add, 5, 0);
    is_spelled(&rt, &[0x89, 0xd8, 0x90], Name::Mov, 2, 1);
    is_spelled(&rt, &[0xa1, 0x00, 0x20, 0x00, 0x00], Name::Mov, 5, 0);
    is_spelled(&rt, &prefixed(14, [0x90, 0x90]), Name::Nop, 15, 3);
    Ok(())
}

#[test]
fn a_refused_byte_is_the_last_taken(rt: HostRuntime) -> Result<(), Fail> {
    // LOCK before MOV is refused at the opcode, whatever its operands are.
    is_broken(&rt, &[0xf0, 0x89, 0xd8], UNDEFINED_OPCODE, 1);
    is_broken(&rt, &[0x0f, 0xff, 0x00], UNDEFINED_OPCODE, 1);
    is_broken(&rt, &prefixed(14, [0xd6, 0xd6]), UNDEFINED_OPCODE, 3);
    Ok(())
}

#[test]
fn fifteen_bytes_are_the_most(rt: HostRuntime) -> Result<(), Fail> {
    is_broken(&rt, &prefixed(15, [0x90, 0x90]), GENERAL_PROTECTION, 3);
    is_broken(&rt, &prefixed(14, [0x05, 0x05]), GENERAL_PROTECTION, 3);
    is_broken(&rt, &prefixed(18, [0x90, 0x90]), GENERAL_PROTECTION, 3);
    Ok(())
}

#[test]
fn a_break_of_the_source_is_answered(rt: HostRuntime) -> Result<(), Fail> {
    let mut source = FailingSource { calls: 0 };
    let end = decode(&mut source);
    assert_eq!(rt;
        end,
        Err(Break::Fault(Fault {
            vector: 13,
            code: Some(8)
        }))
    );
    assert_eq!(rt; source.calls, 2);
    Ok(())
}

#[test]
fn fewer_bytes_pause(rt: HostRuntime) -> Result<(), Fail> {
    let paused = Break::Stop(Stop::Paused);
    is_broken(&rt, &[], paused, 0);
    is_broken(&rt, &[0x05, 0x01], paused, 0);
    assert_eq!(rt; decode_bytes(&[0x05, 0x01]), Err(paused));
    let source = SliceSource::new(&[]);
    assert_eq!(rt; source.newer(), false);
    Ok(())
}
