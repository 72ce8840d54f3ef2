//! A source over bytes in memory.
ghost use Rattle.std.specs.Prelude.{◌≡◌, ◌<◌, ◌≤◌, Some, IfOk, OnErr, length, min, take};
ghost use Rattle.m386_base.specs.Bus.{Rose};
ghost use Rattle.m386_edge.specs.Edge.{Reads};
ghost use Rattle.m386_edge.specs.Memory.{MemInput, MemReads};

use crate::failed::Failed;
use crate::failures::Failures;
use crate::source::Source;
use std::marker::Model;

/// A source that gives listed bytes in pieces, and fails exactly the reads that it is told to fail. It tells the bytes
/// that are left.
#[derive(Debug, Drop)]
pub struct MemSource {
    bytes: Vec<u8>,
    at: usize,
    piece: usize,
    failures: Failures,
}

impl Model for MemSource {
    ghost use Rattle.std.specs.Prelude.{◌≤◌, length, drop};
    ghost use Rattle.m386_edge.specs.Memory.{MemInput};

    ghost Value = { MemInput };

    ghost view = { λ s. record { left = drop s.at s.bytes.items; piece = s.piece; fail_at = s.failures.fail_at.items; reads = s.failures.calls; faults = s.failures.faults } };

    ghost invariant = { λ s. (s.at ≤ length s.bytes.items) × (1 ≤ s.piece) };
}

impl MemSource {
    /// A source of `bytes` that gives at most `piece` of them in one read and fails the reads whose numbers, counted
    /// from 1, stand in `fail_at`. It takes no memory.
    pub fn new(bytes: Vec<u8>, piece: usize, fail_at: Vec<u32>) -> MemSource
        requires { 1 ≤ piece }
        ensures { result ≡ record { left = bytes.items; piece = piece; fail_at = fail_at.items; reads = 0; faults = 0 } }
    {
        MemSource {
            bytes,
            at: 0,
            piece,
            failures: Failures::new(fail_at),
        }
    }
}

impl Source for MemSource {
    ghost left = { λ s. Some s.left };

    ghost faults = { λ s. s.faults };

    #[tactic(auto, using(crate::proofs::Edge::reads_told))]
    fn read(&mut self, buf: &mut [u8]) -> Result<usize, Failed>
        requires { 0 < length buf.old }
        ensures read { IfOk result (λ n. Reads (Some self.old.left) (Some self.new.left) (length buf.old) buf.new n) }
        ensures failed { OnErr result (Rose self.old.faults self.new.faults) }
        ensures stays { OnErr result (Some self.new.left ≡ Some self.old.left) }
        ensures never_falls { self.old.faults ≤ self.new.faults }
        ensures exact { MemReads self.old self.new (length buf.old) result }
    {
        if self.failures.next_is_listed() {
            return Err(self.failures.fail());
        }
        let count = copy_front(&self.bytes[self.at..], buf, self.piece);
        self.at += count;
        Ok(count)
    }
}

/// Copies the front of `from` to the front of `to`, as many bytes as both have and `most` allows, and answers how many.
fn copy_front(from: &[u8], to: &mut [u8], most: usize) -> usize
    ensures count { result ≡ min (min (length from.now) (length to.old)) most }
    ensures copied { take result to.new ≡ take result from.now }
{
    let count = from.len().min(to.len()).min(most);
    to[..count].copy_from_slice(&from[..count]);
    count
}
