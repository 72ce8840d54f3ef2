//! A source over a reader of the standard library.
ghost use Rattle.std.specs.Prelude.{◌≡◌, ◌<◌, ◌≤◌, None, IfOk, OnErr, if◌then◌else◌, is_ok, length};
ghost use Rattle.std.specs.Io.KnownBytes.{ReadConsumes};
ghost use Rattle.m386_base.specs.Bus.{Rose};
ghost use Rattle.m386_edge.specs.Edge.{Reads, counted};

use crate::failed::Failed;
use crate::source::Source;
use std::io::Read;

/// A source over a reader. It counts the reads that failed, keeps no buffer, and tells no bytes.
#[derive(Debug, Drop)]
pub struct StdSource<R> {
    inner: R,
    faults: u64,
}

impl<R: Read> StdSource<R> {
    /// A source that gives what `inner` reads.
    pub fn new(inner: R) -> StdSource<R>
        ensures inner { result.inner ≡ inner }
        ensures faults { ⟦<StdSource<R> as Source>⟧.faults result ≡ 0 }
    {
        StdSource { inner, faults: 0 }
    }
}

impl<R: Read> Source for StdSource<R> {
    ghost left = { λ _. None };

    ghost faults = { λ s. s.faults };

    #[tactic(auto, using(crate::proofs::Edge::reads_untold))]
    fn read(&mut self, buf: &mut [u8]) -> Result<usize, Failed>
        requires { 0 < length buf.old }
        ensures read { IfOk result (λ n. Reads None None (length buf.old) buf.new n) }
        ensures failed { OnErr result (Rose self.old.faults self.new.faults) }
        ensures never_falls { self.old.faults ≤ self.new.faults }
        ensures counts { self.new.faults ≡ (if is_ok result then self.old.faults else counted self.old.faults) }
        ensures passes_on { ReadConsumes (R.remaining self.old.inner) (R.remaining self.new.inner) result buf.new }
    {
        match self.inner.read(buf) {
            Ok(count) => Ok(count),
            Err(_) => {
                self.faults = self.faults.saturating_add(1);
                Err(Failed)
            }
        }
    }
}
