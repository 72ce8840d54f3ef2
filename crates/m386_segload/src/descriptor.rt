//! Descriptors on the bus: read in locked groups, and their access byte written.
ghost use Rattle.std.specs.Prelude.{◌≡◌, false, true, ◌<◌, ◌+◌, ◌%◌, ◌^◌, IfOk, OnErr, length};
ghost use Rattle.m386_base.specs.Phrase.{PerformsOrStops, it};
ghost use Rattle.m386_base.specs.Split.{AreGroups};
ghost use Rattle.m386_base.specs.declared.ask.Space.TheVariants as spaces;
ghost use Rattle.m386_segload.specs.Descriptors.{word_reads, descriptor_phrase, byte_piece, access_byte_phrase};

use m386_base::ask::{Ask, Role, Space};
use m386_base::bus::{Bus, cycle};
use m386_base::desc::Desc;
use m386_base::fault::Stop;
use m386_base::split::{Piece, gather, split, spread};
use m386_desc::bytes::desc_of;

/// A doubleword of a descriptor, read group by group in a locked group, which stays open.
#[tactic(auto, using(m386_base::proofs::Phrases::calls, m386_base::proofs::Groups::group_at, crate::proofs::Loops::word_read_steps))]
fn read_word<B: Bus>(bus: &mut B, role: Role, begun: bool, groups: &[Piece]) -> Result<u32, Stop>
    requires kept { (B.view bus.old).kept ≡ begun }
    requires groups { AreGroups spaces.Memory groups.now }
    requires some { 0 < length groups.now }
    ensures cycles { PerformsOrStops (word_reads role begun 0 groups.now) (B.view bus.old) (B.view bus.new) it result }
    ensures kept { IfOk result (λ _. (B.view bus.new).kept ≡ true) }
    ensures err { OnErr result ((B.view bus.new).kept ≡ false) }
{
    let mut value = 0;
    let mut joined = begun;
    for piece in groups {
        let ask = Ask {
            space: Space::Memory,
            write: false,
            joined,
            role,
            part: piece.place,
            addr: piece.addr,
            enables: piece.enables,
            value: 0,
        };
        let found = cycle(bus, ask, true)?;
        value |= gather(*piece, found);
        joined = true;
    }
    Ok(value)
}

/// The descriptor at an address, read in a locked group, which stays open at `Ok` (PRM 5.1.1).
#[tactic(auto, using(m386_base::proofs::Phrases::calls, m386_access::proofs::Phrases::some_pieces), unfolding(crate::specs::Descriptors::descriptor_phrase))]
pub fn read_descriptor<B: Bus>(bus: &mut B, role: Role, address: u32) -> Result<Desc, Stop>
    requires free { (B.view bus.old).kept ≡ false }
    ensures cycles { PerformsOrStops (descriptor_phrase role address) (B.view bus.old) (B.view bus.new) it result }
    ensures kept { IfOk result (λ _. (B.view bus.new).kept ≡ true) }
    ensures err { OnErr result ((B.view bus.new).kept ≡ false) }
{
    let low = split(Space::Memory, address, 4);
    let high = split(Space::Memory, address.wrapping_add(4), 4);
    let lo = read_word(bus, role, false, low.as_slice())?;
    let hi = read_word(bus, role, true, high.as_slice())?;
    Ok(desc_of(lo, hi))
}

/// The group of one byte in memory.
#[tactic(auto, using(crate::proofs::Bytes::one_byte))]
pub fn byte_group(address: u32) -> Piece
    ensures exact { result ≡ byte_piece address }
    ensures some { 0 < result.enables }
    ensures group { result.enables < 16 }
    ensures aligned { result.addr % 4 ≡ 0 }
{
    Piece {
        addr: address - address % 4,
        enables: 1 << (address % 4),
        place: 0,
    }
}

/// The access byte of the descriptor at this address, byte 5, written as the end of a locked group (PRM 5.1.1).
#[tactic(auto, unfolding(crate::specs::Descriptors::access_byte_phrase))]
pub fn write_access<B: Bus>(bus: &mut B, role: Role, address: u32, value: u8) -> Result<u32, Stop>
    requires kept { (B.view bus.old).kept ≡ true }
    ensures cycles { PerformsOrStops (access_byte_phrase role address value) (B.view bus.old) (B.view bus.new) it result }
    ensures free { (B.view bus.new).kept ≡ false }
{
    let piece = byte_group(address.wrapping_add(5));
    let ask = Ask {
        space: Space::Memory,
        write: true,
        joined: true,
        role,
        part: 0,
        addr: piece.addr,
        enables: piece.enables,
        value: spread(piece, u32::from(value)),
    };
    cycle(bus, ask, false)
}
