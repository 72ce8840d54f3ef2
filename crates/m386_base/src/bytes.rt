//! The bytes of a cycle, each with its place.
ghost use Rattle.std.specs.Prelude.{◌≡◌, ◌+◌, ◌-◌, ◌<◌, ◌≤◌, ◌++◌, ◌==◌};
ghost use Rattle.arrayvec.specs.ArrayVec.{array_vec_len};
ghost use Rattle.m386_base.specs.Bytes.{byte_of, bytes_of, first_place, has_nt, is_nt_byte, place_in_access};

use crate::ask::Ask;
use arrayvec::ArrayVec;

/// A byte with its place in its space, which for the last group lies past 32 bits where the group isn't aligned.
pub type PlacedByte = (u64, u8);

/// Appends byte `k` of a group, where it is enabled.
fn push_byte(bytes: &mut ArrayVec<PlacedByte, 4>, ask: &Ask, k: u8)
    requires place { k < 4 }
    requires room { array_vec_len bytes.old ≤ k }
    ensures bytes { bytes.new.items ≡ bytes.old.items ++ byte_of ask.now k }
    ensures room { array_vec_len bytes.new ≤ k + 1 }
{
    if ask.enables & (1 << k) != 0 {
        let byte = ((ask.value >> (8 * k)) & 0xff) as u8;
        bytes.push((u64::from(ask.addr) + u64::from(k), byte));
    }
}

/// The enabled bytes of a cycle, rising by their places.
#[tactic(auto, unfolding(crate::specs::Bytes::bytes_of))]
pub fn bytes_of(ask: &Ask) -> ArrayVec<PlacedByte, 4>
    ensures { result.items ≡ bytes_of ask.now }
{
    let mut bytes = ArrayVec::new();
    push_byte(&mut bytes, ask, 0);
    push_byte(&mut bytes, ask, 1);
    push_byte(&mut bytes, ask, 2);
    push_byte(&mut bytes, ask, 3);
    bytes
}

/// The place of the first of some bytes.
fn first_place(bytes: &[PlacedByte]) -> u64
    ensures { result ≡ first_place bytes.now }
{
    match bytes {
        [] => 0,
        [first, ..] => first.0,
    }
}

/// Whether this is the second byte of an access to the flags, with NT set.
fn is_nt_byte(part: u8, first: u64, byte: PlacedByte) -> bool
    ensures { result ≡ is_nt_byte part first byte }
{
    let above = byte.0.saturating_sub(first);
    above <= 1 && u64::from(part) + above == 1 && byte.1 & 0x40 != 0
}

/// Whether a byte of this cycle sets NT, where it is a part of an image of the flags (PRM 2.3.4.1).
#[tactic(auto, unfolding(crate::specs::Bytes::has_nt))]
pub fn has_nt(ask: &Ask) -> bool
    ensures { result ≡ has_nt ask.now }
{
    let bytes = bytes_of(ask);
    let first = first_place(bytes.as_slice());
    bytes
        .as_slice()
        .iter()
        .any(|byte| is_nt_byte(ask.part, first, *byte))
}
