//! An instruction whose numbers may have names.

use arrayvec::ArrayVec;
use m386_base::number::Width;
use m386_opmap::name::Name;
use m386_opmap::op::{Arg, Rep};
use m386_words::expression::Expression;
use m386_words::operand::Place;

/// What the words before a mnemonic say (PRM 17.2.2.11).
#[derive(Clone, Copy, Debug, PartialEq, Eq)]
pub struct Prefixing {
    /// Whether `lock` stands there.
    pub lock: bool,
    /// Which word of a repetition stands there last.
    pub rep: Rep,
}

/// An operand.
#[derive(Clone, Copy, Debug)]
pub enum Argument<'a> {
    /// One without a number.
    Fixed(Arg),
    /// An immediate with the width of its field.
    Immediate(Width, Expression<'a>),
    /// The target of a jump or a call.
    Target(Expression<'a>),
    /// A far pointer: its selector and its offset.
    Far(Expression<'a>, Expression<'a>),
    /// Memory.
    At(Place<'a>),
}

impl Default for Argument<'_> {
    fn default() -> Self {
        Argument::Fixed(Arg::Cr0)
    }
}

/// The operands of an instruction, the destination first.
pub type Arguments<'a> = ArrayVec<Argument<'a>, 3>;

/// An instruction.
#[derive(Drop)]
pub struct Instruction<'a> {
    /// What it does.
    pub name: Name,
    /// How wide its operands are.
    pub width: Width,
    /// Its operands.
    pub args: Arguments<'a>,
    /// Whether it has the prefix LOCK.
    pub lock: bool,
    /// How it is repeated.
    pub rep: Rep,
}
