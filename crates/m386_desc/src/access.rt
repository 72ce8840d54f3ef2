//! What the access byte and the flags of a descriptor say.
ghost use Rattle.std.specs.Prelude.{◌≡◌, ◌<◌};
ghost use Rattle.m386_desc.specs.Access.{dpl_of, is_present, is_big, is_code_32, kind_of, system_kind_of};

use crate::kind::Kind;
use m386_base::desc::Desc;

/// The descriptor's privilege level, 0 to 3 (PRM 6.3.1.3).
#[tactic(auto, unfolding(crate::specs::Access::dpl_of))]
pub fn dpl(d: &Desc) -> u8
    ensures exact { result ≡ dpl_of d.now }
    ensures small { result < 4 }
{
    d.access >> 5 & 3
}

/// Whether the segment is present (PRM 5.1.1).
#[tactic(auto, unfolding(crate::specs::Access::is_present))]
pub fn present(d: &Desc) -> bool
    ensures { result ≡ is_present d.now }
{
    d.access >> 7 & 1 == 1
}

/// Bit D of code and bit B of data: offsets, or the stack pointer, have 32 bits (PRM 16.1).
#[tactic(auto, unfolding(crate::specs::Access::is_big))]
pub fn big(d: &Desc) -> bool
    ensures { result ≡ is_big d.now }
{
    d.flags >> 2 & 1 == 1
}

/// What the descriptor describes (PRM 6.3.1.1).
#[tactic(auto, unfolding(crate::specs::Access::kind_of))]
pub fn kind(d: &Desc) -> Kind
    ensures { result ≡ kind_of d.now }
{
    let access = d.access;
    if access >> 4 & 1 == 0 {
        system_kind(access & 0xf)
    } else if access >> 3 & 1 == 0 {
        Kind::DataSeg {
            down: access >> 2 & 1 == 1,
            writable: access >> 1 & 1 == 1,
        }
    } else {
        Kind::CodeSeg {
            conforming: access >> 2 & 1 == 1,
            readable: access >> 1 & 1 == 1,
        }
    }
}

/// Whether CS may take it: a code segment whose D bit is set, as no other code runs on this machine.
#[tactic(auto, unfolding(crate::specs::Access::is_code_32))]
pub fn code_32(d: &Desc) -> bool
    ensures { result ≡ is_code_32 d.now }
{
    matches!(kind(d), Kind::CodeSeg { .. }) && big(d)
}

/// What a system type is.
fn system_kind(system_type: u8) -> Kind
    ensures { result ≡ system_kind_of system_type }
{
    match system_type {
        2 => Kind::Ldt,
        5 => Kind::TaskGate,
        9 => Kind::Tss { busy: false },
        11 => Kind::Tss { busy: true },
        12 => Kind::CallGate,
        14 => Kind::IntGate,
        15 => Kind::TrapGate,
        _ => Kind::Wrong,
    }
}
