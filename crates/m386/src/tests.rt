//! What calls of the program answer where an edge fails, and the texts of statuses. `tools/check_program.py` has whole runs of the built program.
mod several;
mod soak;
mod threads;

ghost use Rattle.std.specs.Prelude.{◌≤◌};

use crate::status::Status;
use crate::tell::tell;
use crate::top::{top, top_plain};
use m386_calls::usage::UsageKind;
use m386_edge::gate::OpenGate;
use m386_edge::mem_sink::MemSink;
use m386_edge::mem_source::MemSource;
use m386_image::fault::ImageFault;
use std::alloc::Global;
use std::test::Fail;

/// One bare processor, 16,384 bytes of memory, and at 1000h MOV EAX, 12345678h; MOV [2000h], EAX; HLT.
const FIRST: [u8; 83] = [
    0x4d, 0x33, 0x38, 0x36, 0x01, 0x00, 0x01, 0x00, 0x00, 0x40, 0x00, 0x00, 0x00, 0x00, 0x00, 0x00,
    0x00, 0x00, 0x00, 0x00, 0x00, 0x00, 0x00, 0x00, 0x00, 0x00, 0x00, 0x00, 0x01, 0x00, 0x00, 0x00,
    0x00, 0x10, 0x00, 0x00, 0x00, 0x00, 0x00, 0x00, 0x00, 0x00, 0x00, 0x00, 0x00, 0x00, 0x00, 0x00,
    0x00, 0x00, 0x00, 0x00, 0x00, 0x00, 0x00, 0x00, 0x00, 0x00, 0x00, 0x00, 0x00, 0x00, 0x00, 0x00,
    0x00, 0x10, 0x00, 0x00, 0x0b, 0x00, 0x00, 0x00, 0xb8, 0x78, 0x56, 0x34, 0x12, 0xa3, 0x00, 0x20,
    0x00, 0x00, 0xf4,
];

/// The words that run it to its end.
const THREE_STEPS: [&str; 3] = ["run", "--order=round", "--steps=3"];

/// Which call of the source, of the output and of err fails, counted from 1. None is 0.
#[derive(Clone, Copy)]
struct Fails {
    read: u32,
    write: u32,
    err: u32,
}

const NO_FAILURE: Fails = Fails {
    read: 0,
    write: 0,
    err: 0,
};

/// What came of a call: its status, and what the output and err hold.
#[derive(Drop)]
struct Outcome {
    status: Status,
    out: MemSink,
    err: MemSink,
}

/// Texts as the words of a call.
fn words_of(alloc: Global, texts: &[&str]) -> Result<Vec<String>, Fail> {
    let mut words = Vec::new(alloc);
    for text in texts {
        words.push(String::from_str(alloc, text)?)?;
    }
    Ok(words)
}

/// An empty sink in pieces of 512 bytes, one of whose writes fails.
fn sink_failing(alloc: Global, write: u32) -> Result<MemSink, Fail> {
    let fail_at = [write].to_vec(alloc)?;
    Ok(MemSink::new(alloc, 512, 4096, fail_at)?)
}

/// Calls `top_plain` over an input in pieces of `piece` bytes.
fn call(
    alloc: Global,
    texts: &[&str],
    input: Vec<u8>,
    piece: usize,
    fails: Fails,
) -> Result<Outcome, Fail>
    requires { 1 ≤ piece }
{
    let words = words_of(alloc, texts)?;
    let fail_at = [fails.read].to_vec(alloc)?;
    let mut source = MemSource::new(input, piece, fail_at);
    let mut out = sink_failing(alloc, fails.write)?;
    let mut err = sink_failing(alloc, fails.err)?;
    let status = top_plain(alloc, words.as_slice(), &mut source, &mut out, &mut err);
    Ok(Outcome { status, out, err })
}

#[test]
fn call_with_a_gate_is_the_same(rt: HostRuntime) -> Result<(), Fail> {
    let words = words_of(rt.alloc(), &THREE_STEPS)?;
    let mut source = MemSource::new(FIRST.to_vec(rt.alloc())?, 16, Vec::new(rt.alloc()));
    let mut out = sink_failing(rt.alloc(), 0)?;
    let mut err = sink_failing(rt.alloc(), 0)?;
    let status = top(
        &rt,
        rt.alloc(),
        words.as_slice(),
        &mut source,
        &mut out,
        &mut err,
        &OpenGate,
    );
    let plain = call(
        rt.alloc(),
        &THREE_STEPS,
        FIRST.to_vec(rt.alloc())?,
        16,
        NO_FAILURE,
    )?;
    assert_eq!(rt; (status, plain.status), (Status::Done, Status::Done));
    assert_eq!(rt; out.bytes(), plain.out.bytes());
    assert!(rt; err.bytes().is_empty());
    Ok(())
}

#[test]
fn names_the_edge_that_failed(rt: HostRuntime) -> Result<(), Fail> {
    // Which call of the source, of the output and of err fails, and what comes of it.
    let rows = [
        (1, 0, 0, Status::ReadFault, "", "m386: read fault\n"),
        (2, 0, 0, Status::ReadFault, "", "m386: read fault\n"),
        (7, 0, 0, Status::ReadFault, "", "m386: read fault\n"),
        (2, 1, 1, Status::ReadFault, "", ""),
        (0, 1, 0, Status::WriteFault, "", "m386: write fault\n"),
        (
            0,
            2,
            0,
            Status::WriteFault,
            "m386 report 1\n",
            "m386: write fault\n",
        ),
        (0, 2, 1, Status::WriteFault, "m386 report 1\n", ""),
    ];
    for (read, write, err, status, out, line) in rows {
        let input = FIRST.to_vec(rt.alloc())?;
        let fails = Fails { read, write, err };
        let came = call(rt.alloc(), &THREE_STEPS, input, 16, fails)?;
        assert_eq!(rt;
            came.status,
            status,
            "read {read}, write {write}, err {err}"
        );
        assert_eq!(rt; came.out.bytes(), out.as_bytes());
        assert_eq!(rt; came.err.bytes(), line.as_bytes());
    }
    Ok(())
}

#[test]
fn refusal_stays_where_err_fails(rt: HostRuntime) -> Result<(), Fail> {
    // Which of the five writes of the line fails, and what err took before it.
    let rows = [
        (1, ""),
        (2, "m386: image fault "),
        (3, "m386: image fault 1"),
        (5, "m386: image fault 1 ShortHeader"),
    ];
    for (fails, line) in rows {
        let fails = Fails {
            err: fails,
            ..NO_FAILURE
        };
        let came = call(rt.alloc(), &THREE_STEPS, Vec::new(rt.alloc()), 16, fails)?;
        assert_eq!(rt; came.status, Status::Image(ImageFault::ShortHeader));
        assert_eq!(rt; came.err.bytes(), line.as_bytes());
        assert!(rt; came.out.bytes().is_empty());
    }
    Ok(())
}

#[test]
fn statuses_have_numbers_and_texts(rt: HostRuntime) -> Result<(), Fail> {
    let rows = [
        (Status::Done, 0, ""),
        (Status::Memory, 1, "m386: out of memory\n"),
        (
            Status::Usage(UsageKind::Cpus),
            2,
            "m386: usage fault 4 Cpus\n",
        ),
        (
            Status::Usage(UsageKind::Budget),
            2,
            "m386: usage fault 5 Budget\n",
        ),
        (Status::ReadFault, 3, "m386: read fault\n"),
        (Status::WriteFault, 4, "m386: write fault\n"),
        (
            Status::Image(ImageFault::Trailing),
            5,
            "m386: image fault 10 Trailing\n",
        ),
        (Status::TooLong, 7, "m386: input too long\n"),
    ];
    for (status, number, line) in rows {
        let mut err = sink_failing(rt.alloc(), 0)?;
        assert_eq!(rt; tell(&mut err, status), Ok(()));
        assert_eq!(rt; status.number(), number);
        assert_eq!(rt; err.bytes(), line.as_bytes());
    }
    Ok(())
}
