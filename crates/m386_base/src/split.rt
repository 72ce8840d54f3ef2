//! The aligned groups of an access, and the bytes of an access in and out of a group.
ghost use Rattle.std.specs.Prelude.{◌≡◌, ℕ, ◌+◌, ◌-◌, ◌*◌, ◌<◌, ◌≤◌, ◌^◌, ◌⊎◌};
ghost use Rattle.m386_base.specs.Bus.{mask, IsEnabled};
ghost use Rattle.m386_base.specs.Split.{pieces, wrapped, ones_at, lowest, spread_of, gather_of, AreGroups, IsAccess};

use crate::ask::Space;
use arrayvec::ArrayVec;

/// One aligned group of an access.
#[derive(Clone, Copy, Debug, Default, PartialEq, Eq)]
pub struct Piece {
    /// The address of the group, a multiple of 4.
    pub addr: u32,
    /// Bit k says that byte k of the group belongs to the access.
    pub enables: u8,
    /// The place in the access of the group's first byte that belongs to it.
    pub place: u8,
}

/// The bits of the enabled bytes of a group.
pub fn mask_of(enables: u8) -> u32
    requires { enables < 16 }
    ensures { result ≡ mask enables }
{
    let byte_0 = if enables & 1 == 0 { 0 } else { 0xff };
    let byte_1 = if enables & 2 == 0 { 0 } else { 0xff00 };
    let byte_2 = if enables & 4 == 0 { 0 } else { 0xff_0000 };
    let byte_3 = if enables & 8 == 0 { 0 } else { 0xff00_0000 };
    byte_0 + byte_1 + byte_2 + byte_3
}

/// The enables of `count` bytes of a group, from byte `at` on.
fn enables_of(at: u8, count: u8) -> u8
    requires { at + count ≤ 4 }
    ensures { result ≡ ones_at at count }
{
    ((1 << count) - 1) << at
}

/// An address taken modulo the size of its space.
fn within(space: Space, addr: u32) -> u32
    ensures { result ≡ wrapped space addr }
{
    match space {
        Space::Memory => addr,
        Space::Port => addr % 0x1_0000,
    }
}

/// The one or two aligned groups that hold the `len` bytes from `addr` on, the group of the first byte first. `len` is 1,
/// 2 or 4. Addresses go on modulo 2^32 in memory and modulo 65,536 among the ports (PRM 2.1).
#[tactic(auto, using(crate::proofs::Groups::groups_of))]
pub fn split(space: Space, addr: u32, len: u8) -> ArrayVec<Piece, 2>
    requires { (len ≡ 1) ⊎ (len ≡ 2) ⊎ (len ≡ 4) }
    ensures pieces { result.items ≡ pieces space addr len }
    ensures groups { AreGroups space result.items }
    ensures access { IsAccess space addr len result.items }
{
    pieces_of(space, addr, len)
}

/// The groups of an access.
#[tactic(auto, unfolding(crate::specs::Split::pieces))]
fn pieces_of(space: Space, addr: u32, len: u8) -> ArrayVec<Piece, 2>
    requires { (len ≡ 1) ⊎ (len ≡ 2) ⊎ (len ≡ 4) }
    ensures { result.items ≡ pieces space addr len }
{
    let first = within(space, addr);
    let at = (first % 4) as u8;
    let group = first - first % 4;
    let mut groups = ArrayVec::new();
    if at + len <= 4 {
        groups.push(Piece {
            addr: group,
            enables: enables_of(at, len),
            place: 0,
        });
    } else {
        groups.push(Piece {
            addr: group,
            enables: enables_of(at, 4 - at),
            place: 0,
        });
        groups.push(Piece {
            addr: within(space, group.wrapping_add(4)),
            enables: enables_of(0, at + len - 4),
            place: 4 - at,
        });
    }
    groups
}

/// The place in the group of its first enabled byte.
fn lowest_of(enables: u8) -> u8
    ensures exact { result ≡ lowest enables }
    ensures small { result < 4 }
{
    if enables & 1 == 1 {
        0
    } else if enables & 2 == 2 {
        1
    } else if enables & 4 == 4 {
        2
    } else {
        3
    }
}

/// The bytes of an access that stand in this group, put at their places there. The other bytes are 0.
#[tactic(auto, unfolding(crate::specs::Split::spread_of), using(crate::proofs::Masks::and_twice))]
pub fn spread(piece: Piece, value: u32) -> u32
    requires { (piece.enables < 16) × (piece.place < 4) }
    ensures exact { result ≡ spread_of piece value }
    ensures enabled { IsEnabled piece.enables result }
{
    let moved = if piece.place == 0 {
        value << (8 * lowest_of(piece.enables))
    } else {
        value >> (8 * piece.place)
    };
    moved & mask_of(piece.enables)
}

/// The bytes of this group that belong to the access, put at their places there. The other bytes are 0.
#[tactic(auto, unfolding(crate::specs::Split::gather_of))]
pub fn gather(piece: Piece, cycle_value: u32) -> u32
    requires { (piece.enables < 16) × (piece.place < 4) }
    ensures { result ≡ gather_of piece cycle_value }
{
    let bytes = cycle_value & mask_of(piece.enables);
    if piece.place == 0 {
        bytes >> (8 * lowest_of(piece.enables))
    } else {
        bytes << (8 * piece.place)
    }
}
