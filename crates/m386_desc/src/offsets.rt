//! The limit of a segment, and which offsets lie in it.
ghost use Rattle.std.specs.Prelude.{◌≡◌, ℕ, ◌+◌, ◌<◌, ◌≤◌, ◌↔◌, IsTrue};
ghost use Rattle.m386_desc.specs.Offsets.{limit_of, is_offset, are_offsets};

use crate::access::{big, kind};
use crate::kind::Kind;
use m386_base::desc::Desc;

/// The limit in bytes, with bit G applied (PRM 5.1.1).
#[tactic(auto, unfolding(crate::specs::Offsets::limit_of))]
pub fn limit(d: &Desc) -> u32
    ensures { result ≡ limit_of d.now }
{
    if d.flags >> 3 & 1 == 1 {
        d.raw_limit * 4096 + 4095
    } else {
        d.raw_limit
    }
}

/// Whether each of the `len` offsets from `offset` on, with no wrap past 2^32, lies in the segment (PRM 6.3.1.2).
/// `len` is at least 1.
pub fn allows(d: &Desc, offset: u32, len: u32) -> bool
    requires { 1 ≤ len }
    ensures exact { result ≡ are_offsets d.now offset len }
    ensures each { IsTrue result ↔ ((k : ℕ) → k < len → IsTrue (is_offset d.now (offset + k))) }
{
    allows_each(d, offset, len)
}

/// The last offset tells for all, and the first too where the segment expands downward.
#[tactic(auto, unfolding(crate::specs::Offsets::is_offset))]
fn allows_each(d: &Desc, offset: u32, len: u32) -> bool
    requires { 1 ≤ len }
    ensures { IsTrue result ↔ ((k : ℕ) → k < len → IsTrue (is_offset d.now (offset + k))) }
{
    let Some(last) = offset.checked_add(len - 1) else {
        return false;
    };
    if let Kind::DataSeg { down: true, .. } = kind(d) {
        let top = if big(d) { u32::MAX } else { 0xffff };
        limit(d) < offset && last <= top
    } else {
        last <= limit(d)
    }
}
