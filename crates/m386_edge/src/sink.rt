//! Where bytes go.
ghost use Rattle.std.specs.Prelude.{◌≡◌, ◌<◌, ◌≤◌, ℕ, List, Option, IfOk, OnErr, length};
ghost use Rattle.m386_base.specs.Bus.{Rose};
ghost use Rattle.m386_edge.specs.Edge.{Writes};

use crate::failed::Failed;

/// Something that takes bytes, one after another.
pub trait Sink {
    /// The bytes taken so far, where the sink tells them.
    ghost held: { Self → Option (List ℕ) };

    /// How many writes have failed.
    ghost faults: { Self → ℕ };

    /// Takes bytes from the front of `piece`, which isn't empty, and answers how many, at least one. A write that
    /// failed took nothing and is counted.
    fn write(&mut self, piece: &[u8]) -> Result<usize, Failed>
        requires { 0 < length piece.now }
        ensures wrote { IfOk result (λ n. Writes (held self.old) (held self.new) piece.now n) }
        ensures failed { OnErr result (Rose (faults self.old) (faults self.new)) }
        ensures stays { OnErr result (held self.new ≡ held self.old) }
        ensures never_falls { faults self.old ≤ faults self.new };
}
