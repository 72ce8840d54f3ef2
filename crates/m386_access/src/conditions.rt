//! Conditions on the flags, as the conditional jumps and SETcc have them (PRM appendix D).
ghost use Rattle.std.specs.Prelude.{◌≡◌};
ghost use Rattle.m386_access.specs.Conditions.{holds, when, unless, meets};

use m386_base::flags::{Flag, has_flag};
use m386_base::number::Flags;

/// What the flags may say of the operation that set them, as of a comparison of two operands.
#[derive(Clone, Copy, Debug, PartialEq, Eq)]
pub enum Relation {
    /// OF is 1.
    Overflow,
    /// CF is 1: the first operand is below the second, without a sign.
    Below,
    /// ZF is 1.
    Equal,
    /// CF or ZF is 1.
    BelowOrEqual,
    /// SF is 1.
    Sign,
    /// PF is 1.
    Parity,
    /// SF isn't OF: the first operand is less than the second, with a sign.
    Less,
    /// ZF is 1, or SF isn't OF.
    LessOrEqual,
}

/// One of the sixteen conditions.
#[derive(Clone, Copy, Debug, PartialEq, Eq)]
pub struct Condition {
    /// The relation that it speaks of.
    pub relation: Relation,
    /// Whether it says that this doesn't hold.
    pub negated: bool,
}

/// The condition that a relation holds.
pub fn when(relation: Relation) -> Condition
    ensures { result ≡ when relation }
{
    Condition {
        relation,
        negated: false,
    }
}

/// The condition that a relation doesn't hold.
pub fn unless(relation: Relation) -> Condition
    ensures { result ≡ unless relation }
{
    Condition {
        relation,
        negated: true,
    }
}

/// Whether a relation holds.
fn holds(relation: Relation, flags: Flags) -> bool
    ensures { result ≡ holds relation flags }
{
    let sign = has_flag(Flag::Sign, flags);
    let overflow = has_flag(Flag::Overflow, flags);
    let zero = has_flag(Flag::Zero, flags);
    let carry = has_flag(Flag::Carry, flags);
    match relation {
        Relation::Overflow => overflow,
        Relation::Below => carry,
        Relation::Equal => zero,
        Relation::BelowOrEqual => carry || zero,
        Relation::Sign => sign,
        Relation::Parity => has_flag(Flag::Parity, flags),
        Relation::Less => sign != overflow,
        Relation::LessOrEqual => zero || sign != overflow,
    }
}

/// Whether the flags meet a condition.
pub fn meets(condition: Condition, flags: Flags) -> bool
    ensures { result ≡ meets condition flags }
{
    let holds = holds(condition.relation, flags);
    if condition.negated { !holds } else { holds }
}
