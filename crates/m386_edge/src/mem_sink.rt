//! A sink that keeps its bytes in memory.
ghost use Rattle.std.specs.Prelude.{◌≡◌, ◌<◌, ◌≤◌, [], Some, IfOk, OnErr, length};
ghost use Rattle.m386_base.specs.Bus.{Rose};
ghost use Rattle.m386_edge.specs.Edge.{Writes};
ghost use Rattle.m386_edge.specs.Memory.{MemOutput, MemWrites};

use crate::failed::Failed;
use crate::failures::Failures;
use crate::sink::Sink;
use m386_base::fault::NoMemory;
use std::alloc::Global;
use std::marker::Model;

/// A sink that takes bytes in pieces as long as it has room, and fails exactly the writes that it is told to fail and
/// those that find it full. It tells the bytes that it holds.
#[derive(Debug, Drop)]
pub struct MemSink {
    bytes: Vec<u8>,
    piece: usize,
    room: usize,
    failures: Failures,
}

impl Model for MemSink {
    ghost use Rattle.std.specs.Prelude.{◌≤◌, length, vec_capacity};
    ghost use Rattle.m386_edge.specs.Memory.{MemOutput};

    ghost Value = { MemOutput };

    ghost view = { λ s. record { held = s.bytes.items; piece = s.piece; room = s.room; fail_at = s.failures.fail_at.items; writes = s.failures.calls; faults = s.failures.faults } };

    ghost invariant = { λ s. (length s.bytes.items ≤ s.room) × (s.room ≤ vec_capacity s.bytes) × (1 ≤ s.piece) };
}

impl MemSink {
    /// An empty sink that holds at most `room` bytes, takes at most `piece` of them in one write, and fails the writes
    /// whose numbers, counted from 1, stand in `fail_at`. All its room is taken here.
    pub fn new(
        alloc: Global,
        piece: usize,
        room: usize,
        fail_at: Vec<u32>,
    ) -> Result<MemSink, NoMemory>
        requires { 1 ≤ piece }
        ensures { IfOk result (λ s. s ≡ record { held = []; piece = piece; room = room; fail_at = fail_at.items; writes = 0; faults = 0 }) }
    {
        Ok(MemSink {
            bytes: Vec::with_capacity(alloc, room)?,
            piece,
            room,
            failures: Failures::new(fail_at),
        })
    }

    /// The bytes that it holds.
    pub fn bytes(&self) -> &[u8]
        ensures { result.now ≡ self.now.held }
    {
        self.bytes.as_slice()
    }
}

impl Sink for MemSink {
    ghost held = { λ s. Some s.held };

    ghost faults = { λ s. s.faults };

    #[tactic(auto, using(crate::proofs::Edge::writes_told))]
    fn write(&mut self, piece: &[u8]) -> Result<usize, Failed>
        requires { 0 < length piece.now }
        ensures wrote { IfOk result (λ n. Writes (Some self.old.held) (Some self.new.held) piece.now n) }
        ensures failed { OnErr result (Rose self.old.faults self.new.faults) }
        ensures stays { OnErr result (Some self.new.held ≡ Some self.old.held) }
        ensures never_falls { self.old.faults ≤ self.new.faults }
        ensures exact { MemWrites self.old self.new piece.now result }
    {
        let free = self.room - self.bytes.len();
        if self.failures.next_is_listed() || free == 0 {
            return Err(self.failures.fail());
        }
        let count = piece.len().min(self.piece).min(free);
        match self.bytes.extend_from_slice(&piece[..count]) {
            Ok(()) => Ok(count),
            // All the room was taken when the sink was made.
            Err(_) => unreachable!(),
        }
    }
}
