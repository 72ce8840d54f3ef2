//! Writes that end only when all bytes are taken.
ghost use Rattle.std.specs.Prelude.{◌≤◌, OnOk, OnErr};
ghost use Rattle.m386_base.specs.Bus.{Rose};
ghost use Rattle.m386_edge.specs.Edge.{Grows, GrowsByFront};

use crate::failed::Failed;
use crate::sink::Sink;

/// Gives all of the bytes to a sink, in as many writes as it takes. Where a write fails, the sink took a front of them.
#[tactic(auto, using(crate::proofs::Whole::grows_more))]
pub fn write_whole<K: Sink>(out: &mut K, bytes: &[u8]) -> Result<(), Failed>
    ensures ok { OnOk result (Grows (K.held out.old) (K.held out.new) bytes.now) }
    ensures err { OnErr result (GrowsByFront (K.held out.old) (K.held out.new) bytes.now) }
    ensures failed { OnErr result (Rose (K.faults out.old) (K.faults out.new)) }
    ensures never_falls { K.faults out.old ≤ K.faults out.new }
{
    let mut done = 0;
    while done < bytes.len() {
        done += out.write(&bytes[done..])?;
    }
    Ok(())
}
