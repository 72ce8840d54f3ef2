//! Far pointers in memory.
ghost use Rattle.std.specs.Prelude.{◌≡◌, false};
ghost use Rattle.m386_base.specs.Phrase.{Performs, it};
ghost use Rattle.m386_segload.specs.Pointer.{read_pointer_phrase};

use m386_access::access::read;
use m386_access::address::address;
use m386_access::after::len_of;
use m386_base::ask::Role;
use m386_base::bus::Bus;
use m386_base::fault::Break;
use m386_base::number::Width;
use m386_opmap::op::Addr;
use m386_state::proc::Proc;

/// A far pointer.
#[derive(Clone, Copy, Debug, PartialEq, Eq)]
pub struct FarPointer {
    /// The selector.
    pub selector: u16,
    /// The offset in its segment, of 16 bits where the operation has 16.
    pub offset: u32,
}

/// A far pointer in memory: its offset, of 2 or 4 bytes by the width, and its selector right behind it. Each part is tested when it is
/// read, so the cycles of the first stand where the second faults.
#[tactic(auto, using(m386_base::proofs::Phrases::calls), unfolding(crate::specs::Pointer::read_pointer_phrase))]
pub fn read_pointer<B: Bus>(
    p: &Proc,
    bus: &mut B,
    width: Width,
    a: &Addr,
) -> Result<FarPointer, Break>
    requires free { (B.view bus.old).kept ≡ false }
    ensures cycles { Performs (read_pointer_phrase p.now width a.now) (B.view bus.old) (B.view bus.new) it result }
    ensures free { (B.view bus.new).kept ≡ false }
{
    let (seg, at) = address(p, a);
    let len = len_of(width);
    let offset = read(p, bus, Role::Operand, seg, at, len)?;
    let behind = at.wrapping_add(u32::from(len));
    let selector = read(p, bus, Role::Operand, seg, behind, 2)?;
    Ok(FarPointer {
        selector: (selector % 0x1_0000) as u16,
        offset,
    })
}
