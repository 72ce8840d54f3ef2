//! PUSHF and POPF.
ghost use Rattle.std.specs.Prelude.{◌≡◌, ◌<◌, false};
ghost use Rattle.m386_base.specs.Phrase.{Performs, it};
ghost use Rattle.m386_stack.specs.Flags.{changed_bits, merged, popped_flags, pop_flags_phrase};

use crate::names::size_of;
use crate::single::behind_pop;
use crate::stack::{own_stack, pop};
use m386_access::after::with_flags;
use m386_base::ask::Role;
use m386_base::bus::Bus;
use m386_base::fault::Break;
use m386_base::number::{Flags, Width};
use m386_state::proc::Proc;

/// The two bits of IOPL.
const IOPL: u32 = 0x3000;

/// IF.
const INTERRUPT: u32 = 0x200;

/// The bits of the flags register that POPF and IRET change in a state: IOPL where CPL is 0 alone, and IF where CPL is at most IOPL
/// (PRM 8.3.1). All of them lie below bit 16, so images of 16 and of 32 bits change the same.
pub fn changed_bits(p: &Proc) -> u32
    ensures { result ≡ changed_bits p.now }
{
    let bits = p.flag_bits();
    if p.cpl() == 0 {
        bits
    } else if u32::from(p.cpl()) <= p.eflags.0 >> 12 & 3 {
        bits & !IOPL
    } else {
        bits & !(IOPL | INTERRUPT)
    }
}

/// The flags register with the bits of a mask as an image has them. Bit 1 is 1 always.
pub fn merged(mask: u32, flags: u32, image: u32) -> u32
    ensures { result ≡ merged mask flags image }
{
    flags & !mask | image & mask | 2
}

/// The flags behind an image that was popped, as the level of a state may change them.
pub fn popped_flags(p: &Proc, image: u32) -> Flags
    ensures { result ≡ popped_flags p.now image }
{
    Flags(merged(changed_bits(p), p.eflags.0, image))
}

/// POPF (PRM 17.2.2.11).
#[tactic(auto, using(m386_base::proofs::Phrases::calls), unfolding(crate::specs::Flags::pop_flags_phrase))]
pub(crate) fn pop_flags<B: Bus>(p: &Proc, bus: &mut B, width: Width) -> Result<Proc, Break>
    requires free { (B.view bus.old).kept ≡ false }
    ensures cycles { Performs (pop_flags_phrase p.now width) (B.view bus.old) (B.view bus.new) it result }
    ensures free { (B.view bus.new).kept ≡ false }
{
    let image = pop(bus, Role::Flags, &own_stack(p), size_of(width))?;
    Ok(with_flags(&behind_pop(p, width), popped_flags(p, image)))
}
