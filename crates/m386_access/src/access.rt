//! Operands in memory, through their segments.
ghost use Rattle.std.specs.Prelude.{◌≡◌, false, ◌⊎◌};
ghost use Rattle.m386_base.specs.Phrase.{Performs, it};
ghost use Rattle.m386_access.specs.Access.{read_phrase, write_phrase, read_at_phrase, write_at_phrase, reads, writes, memory_pieces};

use crate::address::{access_fault, address, linear, may_read, may_write, segment};
use m386_base::ask::{Ask, Role, Space};
use m386_base::bus::{Bus, cycle_or_fault};
use m386_base::fault::Break;
use m386_base::split::{gather, split, spread};
use m386_opmap::op::Addr;
use m386_state::proc::Proc;

/// The bytes of an access, read group by group.
#[tactic(auto, using(m386_base::proofs::Phrases::calls, m386_base::proofs::Groups::group_at, crate::proofs::Pieces::read_steps))]
pub fn read_groups<B: Bus>(bus: &mut B, role: Role, offset: u32, len: u8) -> Result<u32, Break>
    requires free { (B.view bus.old).kept ≡ false }
    requires len { (len ≡ 1) ⊎ (len ≡ 2) ⊎ (len ≡ 4) }
    ensures cycles { Performs (reads role 0 (memory_pieces offset len)) (B.view bus.old) (B.view bus.new) it result }
    ensures free { (B.view bus.new).kept ≡ false }
{
    let groups = split(Space::Memory, offset, len);
    let mut value = 0;
    for piece in groups.as_slice() {
        let ask = Ask {
            space: Space::Memory,
            write: false,
            joined: false,
            role,
            part: piece.place,
            addr: piece.addr,
            enables: piece.enables,
            value: 0,
        };
        let found = cycle_or_fault(bus, ask, false)?;
        value |= gather(*piece, found);
    }
    Ok(value)
}

/// The bytes of an access, written group by group.
#[tactic(auto, using(m386_base::proofs::Phrases::calls, m386_base::proofs::Groups::group_at, crate::proofs::Pieces::write_steps))]
pub fn write_groups<B: Bus>(
    bus: &mut B,
    role: Role,
    offset: u32,
    len: u8,
    value: u32,
) -> Result<(), Break>
    requires free { (B.view bus.old).kept ≡ false }
    requires len { (len ≡ 1) ⊎ (len ≡ 2) ⊎ (len ≡ 4) }
    ensures cycles { Performs (writes role value (memory_pieces offset len)) (B.view bus.old) (B.view bus.new) it result }
    ensures free { (B.view bus.new).kept ≡ false }
{
    let groups = split(Space::Memory, offset, len);
    for piece in groups.as_slice() {
        let ask = Ask {
            space: Space::Memory,
            write: true,
            joined: false,
            role,
            part: piece.place,
            addr: piece.addr,
            enables: piece.enables,
            value: spread(*piece, value),
        };
        cycle_or_fault(bus, ask, false)?;
    }
    Ok(())
}

/// Reads 1, 2 or 4 bytes through a segment register. A fault, with no cycle, exactly where a test of section 6.3.1 fails: the
/// segment is usable, may be read, and has each of the bytes. It is #SS(0) for SS and #GP(0) for the others.
#[tactic(auto, using(m386_base::proofs::Phrases::calls), unfolding(crate::specs::Access::read_phrase))]
pub fn read<B: Bus>(
    p: &Proc,
    bus: &mut B,
    role: Role,
    seg: u8,
    offset: u32,
    len: u8,
) -> Result<u32, Break>
    requires free { (B.view bus.old).kept ≡ false }
    requires len { (len ≡ 1) ⊎ (len ≡ 2) ⊎ (len ≡ 4) }
    ensures cycles { Performs (read_phrase p.now role seg offset len) (B.view bus.old) (B.view bus.new) it result }
    ensures free { (B.view bus.new).kept ≡ false }
{
    let s = segment(p, seg);
    if !may_read(&s, offset, len) {
        return Err(Break::Fault(access_fault(seg)));
    }
    read_groups(bus, role, linear(&s, offset), len)
}

/// Writes 1, 2 or 4 bytes through a segment register. A fault, with no cycle, exactly where a test of section 6.3.1 fails: the
/// segment is usable, may be written, and has each of the bytes. It is #SS(0) for SS and #GP(0) for the others.
#[tactic(auto, using(m386_base::proofs::Phrases::calls), unfolding(crate::specs::Access::write_phrase))]
pub fn write<B: Bus>(
    p: &Proc,
    bus: &mut B,
    role: Role,
    seg: u8,
    offset: u32,
    len: u8,
    value: u32,
) -> Result<(), Break>
    requires free { (B.view bus.old).kept ≡ false }
    requires len { (len ≡ 1) ⊎ (len ≡ 2) ⊎ (len ≡ 4) }
    ensures cycles { Performs (write_phrase p.now role seg offset len value) (B.view bus.old) (B.view bus.new) it result }
    ensures free { (B.view bus.new).kept ≡ false }
{
    let s = segment(p, seg);
    if !may_write(&s, offset, len) {
        return Err(Break::Fault(access_fault(seg)));
    }
    write_groups(bus, role, linear(&s, offset), len, value)
}

/// Reads a memory operand of 1, 2 or 4 bytes.
#[tactic(auto, using(m386_base::proofs::Phrases::calls))]
pub fn read_at<B: Bus>(p: &Proc, a: &Addr, len: u8, bus: &mut B) -> Result<u32, Break>
    requires free { (B.view bus.old).kept ≡ false }
    requires len { (len ≡ 1) ⊎ (len ≡ 2) ⊎ (len ≡ 4) }
    ensures cycles { Performs (read_at_phrase p.now a.now len) (B.view bus.old) (B.view bus.new) it result }
    ensures free { (B.view bus.new).kept ≡ false }
{
    let (seg, offset) = address(p, a);
    read(p, bus, Role::Operand, seg, offset, len)
}

/// Writes a memory operand of 1, 2 or 4 bytes.
#[tactic(auto, using(m386_base::proofs::Phrases::calls))]
pub fn write_at<B: Bus>(p: &Proc, a: &Addr, len: u8, value: u32, bus: &mut B) -> Result<(), Break>
    requires free { (B.view bus.old).kept ≡ false }
    requires len { (len ≡ 1) ⊎ (len ≡ 2) ⊎ (len ≡ 4) }
    ensures cycles { Performs (write_at_phrase p.now a.now len value) (B.view bus.old) (B.view bus.new) it result }
    ensures free { (B.view bus.new).kept ≡ false }
{
    let (seg, offset) = address(p, a);
    write(p, bus, Role::Operand, seg, offset, len, value)
}
