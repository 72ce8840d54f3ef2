//! The state behind an instruction.
ghost use Rattle.std.specs.Prelude.{◌≡◌};
ghost use Rattle.m386_base.specs.Split.{IsLength};
ghost use Rattle.m386_access.specs.After.{at_eip, register_of, with_register, with_flags, len_of, byte_register_of, register_at, with_byte_register, with_register_at};

use m386_base::number::{Flags, Width};
use m386_state::proc::Proc;

/// The state at another EIP.
pub fn at_eip(p: &Proc, eip: u32) -> Proc
    ensures { result ≡ at_eip p.now eip }
{
    let mut after = *p;
    after.eip = eip;
    after
}

/// A general register by its number, of which three bits count.
pub fn register_of(p: &Proc, register: u8) -> u32
    ensures { result ≡ register_of p.now register }
{
    p.regs[(register % 8) as usize]
}

/// The state with a general register changed.
pub fn with_register(p: &Proc, register: u8, value: u32) -> Proc
    ensures { result ≡ with_register p.now register value }
{
    let mut after = *p;
    after.regs[(register % 8) as usize] = value;
    after
}

/// The state with other flags.
pub fn with_flags(p: &Proc, flags: Flags) -> Proc
    ensures { result ≡ with_flags p.now flags }
{
    let mut after = *p;
    after.eflags = flags;
    after
}

/// How many bytes an operand has.
pub fn len_of(width: Width) -> u8
    ensures exact { result ≡ len_of width }
    ensures length { IsLength result }
{
    match width {
        Width::W8 => 1,
        Width::W16 => 2,
        Width::W32 => 4,
    }
}

/// A register of 8 bits, by its number: the low bytes of EAX, ECX, EDX and EBX, and then the bytes above those.
fn byte_register_of(p: &Proc, register: u8) -> u32
    ensures { result ≡ byte_register_of p.now register }
{
    let whole = register_of(p, register % 4);
    if register / 4 % 2 == 0 {
        whole % 256
    } else {
        whole / 256 % 256
    }
}

/// A register by its width.
pub fn register_at(width: Width, p: &Proc, register: u8) -> u32
    ensures { result ≡ register_at width p.now register }
{
    match width {
        Width::W32 => register_of(p, register),
        Width::W16 => register_of(p, register) % 65536,
        Width::W8 => byte_register_of(p, register),
    }
}

/// The state with a register of 8 bits changed.
fn with_byte_register(p: &Proc, register: u8, value: u32) -> Proc
    ensures { result ≡ with_byte_register p.now register value }
{
    let whole = register_of(p, register % 4);
    if register / 4 % 2 == 0 {
        with_register(p, register % 4, whole / 256 * 256 + value % 256)
    } else {
        with_register(
            p,
            register % 4,
            whole / 65536 * 65536 + value % 256 * 256 + whole % 256,
        )
    }
}

/// The state with a register changed, by its width. The other bits of the whole register stay.
pub fn with_register_at(width: Width, p: &Proc, register: u8, value: u32) -> Proc
    ensures { result ≡ with_register_at width p.now register value }
{
    match width {
        Width::W32 => with_register(p, register, value),
        Width::W16 => with_register(
            p,
            register,
            register_of(p, register) / 65536 * 65536 + value % 65536,
        ),
        Width::W8 => with_byte_register(p, register, value),
    }
}
