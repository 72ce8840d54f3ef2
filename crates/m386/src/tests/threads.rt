//! Two processors in threads of their own, which wait for each other.
use super::{sink_failing, words_of};
use crate::status::Status;
use crate::top::top;
use m386_edge::gate::Gate;
use m386_edge::mem_sink::MemSink;
use m386_edge::mem_source::MemSource;
use std::str;
use std::sync::atomic::{AtomicBool, Ordering};
use std::test::Fail;

/// Two bare processors, 16,384 bytes of memory, and at 1000h a JMP to itself.
const LOOPS: [u8; 74] = [
    0x4d, 0x33, 0x38, 0x36, 0x01, 0x00, 0x02, 0x00, 0x00, 0x40, 0x00, 0x00, 0x00, 0x00, 0x00, 0x00,
    0x00, 0x00, 0x00, 0x00, 0x00, 0x00, 0x00, 0x00, 0x00, 0x00, 0x00, 0x00, 0x01, 0x00, 0x00, 0x00,
    0x00, 0x10, 0x00, 0x00, 0x00, 0x10, 0x00, 0x00, 0x00, 0x00, 0x00, 0x00, 0x00, 0x00, 0x00, 0x00,
    0x00, 0x00, 0x00, 0x00, 0x00, 0x00, 0x00, 0x00, 0x00, 0x00, 0x00, 0x00, 0x00, 0x00, 0x00, 0x00,
    0x00, 0x10, 0x00, 0x00, 0x02, 0x00, 0x00, 0x00, 0xeb, 0xfe,
];

/// The most looks at whether the other has come.
const LOOKS: u32 = 100_000_000;

/// A gate at which each of two processors, when it has made four cycles, waits until the other has come there too.
#[derive(Drop)]
struct Meeting {
    came: [AtomicBool; 2],
    given_up: AtomicBool,
}

impl Meeting {
    /// Whether both came, and neither gave up.
    fn was_met(&self) -> bool {
        let [zero, one] = &self.came;
        zero.load(Ordering::SeqCst)
            && one.load(Ordering::SeqCst)
            && !self.given_up.load(Ordering::SeqCst)
    }
}

impl Gate for Meeting {
    fn pass(&self, cpu: u8, made: u32) {
        if made != 4 || cpu > 1 {
            return;
        }
        self.came[usize::from(cpu)].store(true, Ordering::SeqCst);
        for _ in 0..LOOKS {
            if self.came[usize::from(1 - cpu)].load(Ordering::SeqCst) {
                return;
            }
        }
        self.given_up.store(true, Ordering::SeqCst);
    }
}

/// How many lines of a report are this one.
fn lines_of(out: &MemSink, wanted: &str) -> u32 {
    let mut found = 0u32;
    let Ok(text) = str::from_utf8(out.bytes()) else {
        return 0;
    };
    for line in text.lines() {
        if line == wanted {
            found = found.wrapping_add(1);
        }
    }
    found
}

#[test]
fn two_processors_meet_at_a_gate(rt: HostRuntime) -> Result<(), Fail> {
    let words = words_of(rt.alloc(), &["run", "--steps=10"])?;
    let mut source = MemSource::new(LOOPS.to_vec(rt.alloc())?, 512, Vec::new(rt.alloc()));
    let mut out = sink_failing(rt.alloc(), 0)?;
    let mut err = sink_failing(rt.alloc(), 0)?;
    let gate = Meeting {
        came: [AtomicBool::new(false), AtomicBool::new(false)],
        given_up: AtomicBool::new(false),
    };
    let status = top(
        &rt,
        rt.alloc(),
        words.as_slice(),
        &mut source,
        &mut out,
        &mut err,
        &gate,
    );
    assert_eq!(rt; status, Status::Done);
    assert!(rt; gate.was_met());
    for line in [
        "c 0 m r . fetch 00 00001000 f 0000feeb",
        "c 1 m r . fetch 00 00001000 f 0000feeb",
    ] {
        assert_eq!(rt; lines_of(&out, line), 10, "{line}");
    }
    Ok(())
}
