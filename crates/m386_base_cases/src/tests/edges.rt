//! What the sources and sinks give and take, and what the loops make of them.
use m386_edge::failed::Failed;
use m386_edge::gate::{Gate, OpenGate};
use m386_edge::mem_sink::MemSink;
use m386_edge::mem_source::MemSource;
use m386_edge::reading::{ReadEnd, read_whole};
use m386_edge::sink::Sink;
use m386_edge::source::Source;
use m386_edge::std_sink::StdSink;
use m386_edge::std_source::StdSource;
use m386_edge::writing::write_whole;
use std::io;
use std::io::Read;
use std::test::Fail;

#[test]
fn open_gate_lets_pass() {
    OpenGate.pass(0, 0);
}

#[test]
fn source_gives_pieces_and_fails_where_told(rt: HostRuntime) -> Result<(), Fail> {
    let bytes = b"abcde".to_vec(rt.alloc())?;
    let fail_at = [2, 2, 5, 9].to_vec(rt.alloc())?;
    let mut source = MemSource::new(bytes, 2, fail_at);
    let mut seen = Vec::new(rt.alloc());
    for want in [Ok(2), Err(Failed), Ok(2), Ok(1), Err(Failed), Ok(0)] {
        let mut buf = [0; 3];
        let got = source.read(&mut buf);
        assert_eq!(rt; got, want);
        if let Ok(count) = got {
            seen.extend_from_slice(&buf[..count])?;
        }
    }
    assert_eq!(rt; seen.as_slice(), b"abcde".as_slice());
    Ok(())
}

#[test]
fn sink_takes_pieces_until_it_is_full(rt: HostRuntime) -> Result<(), Fail> {
    let fail_at = [2].to_vec(rt.alloc())?;
    let mut sink = MemSink::new(rt.alloc(), 2, 5, fail_at)?;
    for want in [Ok(2), Err(Failed), Ok(2), Ok(1), Err(Failed), Err(Failed)] {
        assert_eq!(rt; sink.write(b"xyz"), want);
    }
    assert_eq!(rt; sink.bytes(), b"xyxyx".as_slice());
    Ok(())
}

#[test]
fn whole_is_written_up_to_the_failure(rt: HostRuntime) -> Result<(), Fail> {
    // The write that fails, what comes of it, and what the sink took.
    let cases = [
        (0, Ok(()), "abcdefg"),
        (1, Err(Failed), ""),
        (3, Err(Failed), "abcd"),
        (5, Ok(()), "abcdefg"),
    ];
    for (fails, want, held) in cases {
        let fail_at = [fails].to_vec(rt.alloc())?;
        let mut sink = MemSink::new(rt.alloc(), 2, 7, fail_at)?;
        assert_eq!(rt;
            write_whole(&mut sink, b"abcdefg"),
            want,
            "where write {fails} fails"
        );
        assert_eq!(rt; sink.bytes(), held.as_bytes());
    }
    Ok(())
}

#[test]
fn whole_is_read_up_to_the_limit(rt: HostRuntime) -> Result<(), Fail> {
    // How many bytes there are, the limit, the read that fails, and what comes of it.
    let cases = [
        (0, 0, 9, Ok(0)),
        (7, 7, 9, Ok(7)),
        (7, 6, 9, Err(ReadEnd::TooLong)),
        (7, 7, 2, Err(ReadEnd::Failed)),
        (7, 6, 4, Err(ReadEnd::TooLong)),
        (9000, 9000, 99, Err(ReadEnd::Failed)),
        (9000, 8999, 9999, Err(ReadEnd::TooLong)),
        (9000, 10000, 9999, Ok(9000)),
    ];
    for (len, limit, fails, want) in cases {
        let bytes = vec![in rt.alloc(); 7u8; len]?;
        let fail_at = [fails].to_vec(rt.alloc())?;
        let mut source = MemSource::new(bytes, 3, fail_at);
        let got = read_whole(rt.alloc(), &mut source, limit);
        assert_eq!(rt;
            got.map(|bytes| bytes.len()),
            want,
            "{len} bytes, at most {limit}"
        );
    }
    Ok(())
}

#[test]
fn std_adapters_move_the_bytes(rt: HostRuntime) -> Result<(), Fail> {
    let mut input: &[u8] = b"some input";
    let bytes = read_whole(rt.alloc(), &mut StdSource::new(&mut input), 10);
    let Ok(bytes) = bytes else {
        return Err(Fail::new("not read"));
    };
    assert_eq!(rt; bytes.as_slice(), b"some input".as_slice());
    let mut output = Vec::new(rt.alloc());
    assert_eq!(rt; write_whole(&mut StdSink::new(&mut output), &bytes), Ok(()));
    assert_eq!(rt; output.as_slice(), b"some input".as_slice());
    Ok(())
}

/// A reader whose reads fail.
#[derive(Drop)]
struct BrokenReader;

impl Read for BrokenReader {
    fn read(&mut self, _buf: &mut [u8]) -> io::Result<usize> {
        Err(io::Error::from(io::ErrorKind::Other))
    }
}

#[test]
fn std_adapters_count_what_fails(rt: HostRuntime) -> Result<(), Fail> {
    let mut source = StdSource::new(BrokenReader);
    assert_eq!(rt; source.read(&mut [0; 4]), Err(Failed));
    let mut small = [0; 4];
    let mut room: &mut [u8] = &mut small;
    let mut sink = StdSink::new(&mut room);
    assert_eq!(rt; sink.write(b"abcdef"), Ok(4));
    assert_eq!(rt; sink.write(b"ef"), Err(Failed));
    Ok(())
}
