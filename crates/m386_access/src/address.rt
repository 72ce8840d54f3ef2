//! Where an operand in memory lies, and when it may be reached through its segment.
ghost use Rattle.std.specs.Prelude.{◌≡◌, ◌≤◌};
ghost use Rattle.m386_state.specs.Start.{seg_at};
ghost use Rattle.m386_access.specs.Address.{default_segment, segment_number, part_of, offset_of, address_of, may_read, may_write, access_fault_of, linear_of};

use crate::after::register_of;
use crate::registers::{EBP, ESP};
use m386_base::exception::{Exception, general_protection};
use m386_base::fault::Fault;
use m386_base::segments::{DS, SS};
use m386_desc::access::kind;
use m386_desc::offsets::allows;
use m386_opmap::op::Addr;
use m386_state::proc::{Proc, unusable};
use m386_state::segment::Seg;

/// The segment register that serves without a prefix.
fn default_segment(base: Option<u8>) -> u8
    ensures { result ≡ default_segment base }
{
    match base {
        Some(base) => if base == ESP || base == EBP { SS } else { DS },
        None => DS,
    }
}

/// The number of the segment register of an operand.
pub fn segment_number(a: &Addr) -> u8
    ensures { result ≡ segment_number a.now.seg a.now.base }
{
    match a.seg {
        Some(seg) => seg,
        None => default_segment(a.base),
    }
}

/// A segment register by its number.
pub fn segment(p: &Proc, number: u8) -> Seg
    ensures { result ≡ seg_at p.now number }
{
    match p.segs.get(number as usize) {
        Some(seg) => *seg,
        None => unusable(0),
    }
}

/// A register that may be missing.
fn part_of(p: &Proc, register: Option<u8>) -> u32
    ensures { result ≡ part_of p.now register }
{
    match register {
        Some(register) => register_of(p, register),
        None => 0,
    }
}

/// The offset of an operand.
#[tactic(auto, unfolding(crate::specs::Address::offset_of))]
pub fn offset(p: &Proc, a: &Addr) -> u32
    ensures { result ≡ offset_of p.now a.now }
{
    part_of(p, a.base)
        .wrapping_add(part_of(p, a.index).wrapping_mul(u32::from(a.scale)))
        .wrapping_add(a.disp)
}

/// The number of the segment register and the offset of an operand (PRM 2.5.3.2).
pub fn address(p: &Proc, a: &Addr) -> (u8, u32)
    ensures { result ≡ address_of p.now a.now }
{
    (segment_number(a), offset(p, a))
}

/// Whether a read of so many bytes passes the tests.
pub fn may_read(s: &Seg, offset: u32, len: u8) -> bool
    requires { 1 ≤ len }
    ensures { result ≡ may_read s.now offset len }
{
    s.usable && kind(&s.desc).is_readable() && allows(&s.desc, offset, u32::from(len))
}

/// Whether a write of so many bytes passes the tests.
pub fn may_write(s: &Seg, offset: u32, len: u8) -> bool
    requires { 1 ≤ len }
    ensures { result ≡ may_write s.now offset len }
{
    s.usable && kind(&s.desc).is_writable() && allows(&s.desc, offset, u32::from(len))
}

/// The fault of an access through a segment register.
pub fn access_fault(seg: u8) -> Fault
    ensures { result ≡ access_fault_of seg }
{
    if seg == SS {
        Exception::StackFault.coded_fault(0)
    } else {
        general_protection()
    }
}

/// The linear address of an offset.
pub fn linear(s: &Seg, offset: u32) -> u32
    ensures { result ≡ linear_of s.now offset }
{
    s.desc.base.wrapping_add(offset)
}
