//! A sink over a writer of the standard library.
ghost use Rattle.std.specs.Prelude.{◌≡◌, ◌<◌, ◌≤◌, None, IfOk, OnErr, if◌then◌else◌, is_ok, length};
ghost use Rattle.std.specs.Io.KnownBytes.{WriteAppends};
ghost use Rattle.m386_base.specs.Bus.{Rose};
ghost use Rattle.m386_edge.specs.Edge.{Writes, counted};

use crate::failed::Failed;
use crate::sink::Sink;
use std::io::Write;

/// A sink over a writer. It counts the writes that failed, and takes a write of 0 bytes as one of them. It keeps no
/// buffer, and tells no bytes.
#[derive(Debug, Drop)]
pub struct StdSink<W> {
    inner: W,
    faults: u64,
}

impl<W: Write> StdSink<W> {
    /// A sink that writes what it is given to `inner`.
    pub fn new(inner: W) -> StdSink<W>
        ensures inner { result.inner ≡ inner }
        ensures faults { ⟦<StdSink<W> as Sink>⟧.faults result ≡ 0 }
    {
        StdSink { inner, faults: 0 }
    }
}

impl<W: Write> Sink for StdSink<W> {
    ghost held = { λ _. None };

    ghost faults = { λ s. s.faults };

    #[tactic(auto, using(crate::proofs::Edge::writes_untold))]
    fn write(&mut self, piece: &[u8]) -> Result<usize, Failed>
        requires { 0 < length piece.now }
        ensures wrote { IfOk result (λ n. Writes None None piece.now n) }
        ensures failed { OnErr result (Rose self.old.faults self.new.faults) }
        ensures never_falls { self.old.faults ≤ self.new.faults }
        ensures counts { self.new.faults ≡ (if is_ok result then self.old.faults else counted self.old.faults) }
        ensures passes_on { WriteAppends (W.contents self.old.inner) (W.contents self.new.inner) result piece.now }
    {
        match self.inner.write(piece) {
            Ok(count) if count > 0 => Ok(count),
            _ => {
                self.faults = self.faults.saturating_add(1);
                Err(Failed)
            }
        }
    }
}
