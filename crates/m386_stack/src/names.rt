//! Which operations this crate has, and how wide they are.
ghost use Rattle.std.specs.Prelude.{◌≡◌, ◌⊎◌};
ghost use Rattle.m386_stack.specs.Names.{size_of, stack_op_named, stack_op_of};

use m386_base::number::Width;
use m386_opmap::name::Name;

/// What an operation does.
#[derive(Clone, Copy)]
pub enum StackOp {
    /// PUSH.
    Push,
    /// POP.
    Pop,
    /// PUSHA.
    PushAll,
    /// POPA.
    PopAll,
    /// PUSHF.
    PushFlags,
    /// POPF.
    PopFlags,
    /// LEAVE.
    Leave,
}

/// What the operation of a name does, where it is one of this crate's.
fn stack_op_named(name: Name) -> Option<StackOp>
    ensures { result ≡ stack_op_named name }
{
    match name {
        Name::Push => Some(StackOp::Push),
        Name::Pop => Some(StackOp::Pop),
        Name::Pusha => Some(StackOp::PushAll),
        Name::Popa => Some(StackOp::PopAll),
        Name::Pushf => Some(StackOp::PushFlags),
        Name::Popf => Some(StackOp::PopFlags),
        Name::Leave => Some(StackOp::Leave),
        _ => None,
    }
}

/// The same by name and width: none of them has 8 bits.
pub fn stack_op_of(name: Name, width: Width) -> Option<StackOp>
    ensures { result ≡ stack_op_of name width }
{
    match width {
        Width::W8 => None,
        Width::W16 | Width::W32 => stack_op_named(name),
    }
}

/// How many bytes a push or a pop of this width moves.
pub fn size_of(width: Width) -> u8
    ensures exact { result ≡ size_of width }
    ensures len { (result ≡ 2) ⊎ (result ≡ 4) }
{
    match width {
        Width::W16 => 2,
        Width::W8 | Width::W32 => 4,
    }
}
