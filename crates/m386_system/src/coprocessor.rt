//! WAIT and the operations for a coprocessor, of which there is none.
ghost use Rattle.std.specs.Prelude.{◌≡◌, false};
ghost use Rattle.m386_base.specs.Phrase.{Performs, it};
ghost use Rattle.m386_system.specs.Coprocessor.{is_switched_away, wait_phrase, escape_phrase};

use m386_base::bus::Bus;
use m386_base::exception::Exception;
use m386_base::fault::Break;
use m386_base::flags::has_bit;
use m386_state::proc::Proc;

/// The place of MP in CR0.
const MONITOR_PLACE: u32 = 1;

/// The place of TS in CR0.
const SWITCHED_PLACE: u32 = 3;

/// Whether WAIT finds that a task switch was made: MP and TS are both set.
fn is_switched_away(cr0: u32) -> bool
    ensures { result ≡ is_switched_away cr0 }
{
    has_bit(cr0, MONITOR_PLACE) && has_bit(cr0, SWITCHED_PLACE)
}

/// WAIT. Exception 7 exactly where MP and TS of CR0 are both set.
#[tactic(auto, using(m386_base::proofs::Phrases::calls), unfolding(crate::specs::Coprocessor::wait_phrase))]
pub(crate) fn wait<B: Bus>(p: &Proc, bus: &mut B) -> Result<Proc, Break>
    requires free { (B.view bus.old).kept ≡ false }
    ensures cycles { Performs (wait_phrase p.now) (B.view bus.old) (B.view bus.new) it result }
    ensures free { (B.view bus.new).kept ≡ false }
{
    if is_switched_away(p.cr0) {
        return Err(Break::Fault(Exception::CoprocessorNotAvailable.fault()));
    }
    Ok(*p)
}

/// An operation for a coprocessor: exception 7.
#[tactic(auto, using(m386_base::proofs::Phrases::calls), unfolding(crate::specs::Coprocessor::escape_phrase))]
pub(crate) fn escape<B: Bus>(bus: &mut B) -> Result<Proc, Break>
    requires free { (B.view bus.old).kept ≡ false }
    ensures cycles { Performs escape_phrase (B.view bus.old) (B.view bus.new) it result }
    ensures free { (B.view bus.new).kept ≡ false }
{
    Err(Break::Fault(Exception::CoprocessorNotAvailable.fault()))
}
