//! Which operations this crate has.
ghost use Rattle.std.specs.Prelude.{◌≡◌};
ghost use Rattle.m386_segments.specs.Names.{segment_work_of, segment_move_of, is_own};

use m386_access::operands::Place;
use m386_base::segments::{DS, ES, FS, GS, SS};
use m386_opmap::name::Name;
use m386_opmap::op::Arg;
use m386_segload::wanted::Look;

/// What an operation does with a segment register or a selector.
#[derive(Clone, Copy)]
pub enum SegmentWork {
    /// MOV, where an operand is a segment register.
    Move,
    /// LDS, LES, LFS, LGS or LSS, with the number of the segment register.
    Pointer(u8),
    /// LAR or LSL: what is found in a descriptor goes into a register.
    Show(Look),
    /// VERR or VERW.
    Verify(Look),
    /// ARPL.
    Adjust,
}

/// What the operation of a name does, where this crate has it.
pub fn segment_work_of(name: Name) -> Option<SegmentWork>
    ensures { result ≡ segment_work_of name }
{
    Some(match name {
        Name::Mov => SegmentWork::Move,
        Name::Les => SegmentWork::Pointer(ES),
        Name::Lss => SegmentWork::Pointer(SS),
        Name::Lds => SegmentWork::Pointer(DS),
        Name::Lfs => SegmentWork::Pointer(FS),
        Name::Lgs => SegmentWork::Pointer(GS),
        Name::Lar => SegmentWork::Show(Look::Lar),
        Name::Lsl => SegmentWork::Show(Look::Lsl),
        Name::Verr => SegmentWork::Verify(Look::Verr),
        Name::Verw => SegmentWork::Verify(Look::Verw),
        Name::Arpl => SegmentWork::Adjust,
        _ => return None,
    })
}

/// A MOV with a segment register, by its number.
#[derive(Clone, Copy)]
pub enum SegmentMove {
    /// To the segment register.
    To(u8, Place),
    /// From it.
    From(Place, u8),
}

/// The move of a segment register that these operands make.
pub(crate) fn segment_move_of(args: &[Arg]) -> Option<SegmentMove>
    ensures { result ≡ segment_move_of args.now }
{
    match args {
        [Arg::Seg(seg), Arg::Reg(register)] => {
            Some(SegmentMove::To(*seg, Place::Register(*register)))
        }
        [Arg::Seg(seg), Arg::Mem(a)] => Some(SegmentMove::To(*seg, Place::Memory(*a))),
        [Arg::Reg(register), Arg::Seg(seg)] => {
            Some(SegmentMove::From(Place::Register(*register), *seg))
        }
        [Arg::Mem(a), Arg::Seg(seg)] => Some(SegmentMove::From(Place::Memory(*a), *seg)),
        _ => None,
    }
}

/// Whether an operation with these operands is one of this crate's: a MOV only where an operand is a segment register.
pub(crate) fn is_own(work: Option<SegmentWork>, args: &[Arg]) -> bool
    ensures { result ≡ is_own work args.now }
{
    match work {
        Some(SegmentWork::Move) => segment_move_of(args).is_some(),
        Some(SegmentWork::Pointer(_)) => true,
        Some(SegmentWork::Show(_)) => true,
        Some(SegmentWork::Verify(_)) => true,
        Some(SegmentWork::Adjust) => true,
        None => false,
    }
}
