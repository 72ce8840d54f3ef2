//! A descriptor in and out of its eight bytes.
ghost use Rattle.std.specs.Prelude.{◌≡◌, ◌<◌, ◌^◌};
ghost use Rattle.m386_desc.specs.Bytes.{descriptor_in, descriptor_bytes, two_doublewords};

use m386_base::desc::Desc;

/// The descriptor that stands in two doublewords, the low one first (PRM 5.1.1).
#[tactic(auto, unfolding(crate::specs::Bytes::descriptor_in, crate::specs::Bytes::descriptor_bytes, crate::specs::Bytes::two_doublewords))]
pub fn desc_of(lo: u32, hi: u32) -> Desc
    ensures exact { result ≡ descriptor_in (two_doublewords lo hi) }
    ensures inverse { descriptor_bytes result ≡ two_doublewords lo hi }
{
    let base = (lo >> 16) + ((hi & 0xff) << 16) + ((hi >> 24) << 24);
    let raw_limit = (lo & 0xffff) + ((hi >> 16 & 0xf) << 16);
    let access = (hi >> 8 & 0xff) as u8;
    let flags = (hi >> 20 & 0xf) as u8;
    Desc::new(base, raw_limit, access, flags)
}

/// The eight bytes in which a descriptor stands (PRM 5.1.1).
#[tactic(auto, using(crate::proofs::Inverse::inverse))]
pub fn desc_bytes(d: &Desc) -> [u8; 8]
    ensures exact { result ≡ descriptor_bytes d.now }
    ensures inverse { descriptor_in result ≡ d.now }
{
    laid_out(d)
}

/// The base, limit, access byte and flags, each in its place.
#[tactic(auto, unfolding(crate::specs::Bytes::descriptor_bytes))]
fn laid_out(d: &Desc) -> [u8; 8]
    ensures bytes { result ≡ descriptor_bytes d.now }
    ensures fits { d.now.base < 2 ^ 32 }
{
    let limit = d.raw_limit;
    let base = d.base;
    [
        (limit & 0xff) as u8,
        (limit >> 8 & 0xff) as u8,
        (base & 0xff) as u8,
        (base >> 8 & 0xff) as u8,
        (base >> 16 & 0xff) as u8,
        d.access,
        (limit >> 16) as u8 + (d.flags << 4),
        (base >> 24) as u8,
    ]
}
