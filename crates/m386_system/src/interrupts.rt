//! CLI and STI.
ghost use Rattle.std.specs.Prelude.{◌≡◌, false};
ghost use Rattle.m386_base.specs.Phrase.{Performs, it};
ghost use Rattle.m386_system.specs.Interrupts.{may_put_interrupts, interrupts_put, put_interrupts_phrase};

use m386_base::bus::Bus;
use m386_base::exception::general_protection;
use m386_base::fault::Break;
use m386_base::flags::{Flag, has_flag, put_flag};
use m386_state::proc::Proc;

/// Whether IF may be changed: CPL is at most IOPL.
fn may_put_interrupts(p: &Proc) -> bool
    ensures { result ≡ may_put_interrupts p.now }
{
    u32::from(p.cpl()) <= p.eflags.0 / 0x1000 % 4
}

/// The state with IF put to a value. Where that sets it, requests are held back for one step.
#[tactic(auto, unfolding(crate::specs::Interrupts::interrupts_put))]
fn interrupts_put(p: &Proc, value: bool) -> Proc
    ensures { result ≡ interrupts_put p.now value }
{
    let mut after = *p;
    after.eflags = put_flag(Flag::Interrupt, value, p.eflags);
    after.shadow = p.shadow || value && !has_flag(Flag::Interrupt, p.eflags);
    after
}

/// STI or CLI. #GP(0) exactly where CPL is above IOPL.
#[tactic(auto, using(m386_base::proofs::Phrases::calls), unfolding(crate::specs::Interrupts::put_interrupts_phrase))]
pub(crate) fn put_interrupts<B: Bus>(p: &Proc, bus: &mut B, value: bool) -> Result<Proc, Break>
    requires free { (B.view bus.old).kept ≡ false }
    ensures cycles { Performs (put_interrupts_phrase p.now value) (B.view bus.old) (B.view bus.new) it result }
    ensures free { (B.view bus.new).kept ≡ false }
{
    if !may_put_interrupts(p) {
        return Err(Break::Fault(general_protection()));
    }
    Ok(interrupts_put(p, value))
}
