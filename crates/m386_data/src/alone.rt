//! Operations without operands, on flags and the accumulator.
ghost use Rattle.std.specs.Prelude.{◌≡◌};
ghost use Rattle.m386_data.specs.Alone.{alone_of, with_low_flags, half, done_alone};
ghost use Rattle.m386_data.specs.declared.alone.Alone.TheVariants.{Widen, SpreadSign};

use crate::change::low;
use crate::moves::extended;
use m386_access::after::{register_at, with_flags, with_register_at};
use m386_access::registers::{AH, EAX, EDX};
use m386_alu::width::{has_sign, max_of};
use m386_base::flags::{Flag, has_bit, has_flag, put_flag};
use m386_base::number::{Flags, Width};
use m386_opmap::name::Name;
use m386_state::proc::Proc;

/// An operation without operands.
#[derive(Clone, Copy)]
pub enum Alone {
    /// NOP.
    Nothing,
    /// CLC.
    ClearCarry,
    /// STC.
    SetCarry,
    /// CMC.
    TurnCarry,
    /// CLD.
    ClearDirection,
    /// STD.
    SetDirection,
    /// SAHF: AH into the flags.
    StoreFlags,
    /// LAHF: the flags into AH.
    LoadFlags,
    /// CWDE, and CBW with 16 bits: the lower half of the accumulator with its sign.
    Widen,
    /// CDQ, and CWD with 16 bits: the accumulator's sign into each bit of the data register.
    SpreadSign,
}

/// What the operation of a name does, where it is one of this group.
pub fn alone_of(name: Name) -> Option<Alone>
    ensures { result ≡ alone_of name }
{
    Some(match name {
        Name::Nop => Alone::Nothing,
        Name::Clc => Alone::ClearCarry,
        Name::Stc => Alone::SetCarry,
        Name::Cmc => Alone::TurnCarry,
        Name::Cld => Alone::ClearDirection,
        Name::Std => Alone::SetDirection,
        Name::Sahf => Alone::StoreFlags,
        Name::Lahf => Alone::LoadFlags,
        Name::Cwde => Alone::Widen,
        Name::Cdq => Alone::SpreadSign,
        _ => return None,
    })
}

/// CF, PF, AF, ZF and SF as a byte has them.
fn with_low_flags(byte: u32, flags: Flags) -> Flags
    ensures { result ≡ with_low_flags byte flags }
{
    let flags = put_flag(Flag::Sign, has_bit(byte, 7), flags);
    let flags = put_flag(Flag::Zero, has_bit(byte, 6), flags);
    let flags = put_flag(Flag::Adjust, has_bit(byte, 4), flags);
    let flags = put_flag(Flag::Parity, has_bit(byte, 2), flags);
    put_flag(Flag::Carry, has_bit(byte, 0), flags)
}

/// Half as wide.
fn half(width: Width) -> Width
    ensures { result ≡ half width }
{
    match width {
        Width::W8 | Width::W16 => Width::W8,
        Width::W32 => Width::W16,
    }
}

/// The state with the lower half of the accumulator widened by its sign.
fn widened(width: Width, p: &Proc) -> Proc
    ensures { result ≡ done_alone Widen width p.now }
{
    let narrow = half(width);
    let found = low(narrow, register_at(narrow, p, EAX));
    with_register_at(width, p, EAX, extended(true, narrow, found))
}

/// The state with the accumulator's sign in each bit of the data register.
fn sign_spread(width: Width, p: &Proc) -> Proc
    ensures { result ≡ done_alone SpreadSign width p.now }
{
    let negative = has_sign(width, register_at(width, p, EAX));
    let found = if negative { max_of(width) } else { 0 };
    with_register_at(width, p, EDX, found)
}

/// The state after an operation without operands.
pub fn done_alone(alone: Alone, width: Width, p: &Proc) -> Proc
    ensures { result ≡ done_alone alone width p.now }
{
    let flags = p.eflags;
    match alone {
        Alone::Nothing => *p,
        Alone::ClearCarry => with_flags(p, put_flag(Flag::Carry, false, flags)),
        Alone::SetCarry => with_flags(p, put_flag(Flag::Carry, true, flags)),
        Alone::TurnCarry => with_flags(
            p,
            put_flag(Flag::Carry, !has_flag(Flag::Carry, flags), flags),
        ),
        Alone::ClearDirection => with_flags(p, put_flag(Flag::Direction, false, flags)),
        Alone::SetDirection => with_flags(p, put_flag(Flag::Direction, true, flags)),
        Alone::StoreFlags => with_flags(p, with_low_flags(register_at(Width::W8, p, AH), flags)),
        Alone::LoadFlags => with_register_at(Width::W8, p, AH, flags.0 % 256),
        Alone::Widen => widened(width, p),
        Alone::SpreadSign => sign_spread(width, p),
    }
}
