//! What the operation of each name does, by groups.
ghost use Rattle.std.specs.Prelude.{◌≡◌};
ghost use Rattle.m386_data.specs.Action.{first_action, action_of};

use crate::alone::{Alone, alone_of};
use crate::bit_strings::bit_op_of;
use crate::compare::{Comparison, comparison_of};
use crate::moves::{Moves, moves_of};
use crate::products::{Products, products_of};
use crate::update::{Update, update_of};
use m386_alu::bit_tests::BitOp;
use m386_opmap::name::Name;

/// What an operation does, by groups.
#[derive(Clone, Copy)]
pub enum Action {
    /// It changes one operand, which is read and written.
    Update(Update),
    /// It reads operands for their flags, looks for a bit, or tests bounds.
    Comparison(Comparison),
    /// A product or a quotient.
    Products(Products),
    /// A test of one bit, which may change it.
    BitTest(BitOp),
    /// A move or an exchange.
    Moves(Moves),
    /// An operation without operands.
    Alone(Alone),
}

/// The action of the group that has it. A name is in one group at most.
fn first_action(
    update: Option<Update>,
    comparison: Option<Comparison>,
    products: Option<Products>,
    bit: Option<BitOp>,
    moves: Option<Moves>,
    alone: Option<Alone>,
) -> Option<Action>
    ensures { result ≡ first_action update comparison products bit moves alone }
{
    if let Some(update) = update {
        return Some(Action::Update(update));
    }
    if let Some(comparison) = comparison {
        return Some(Action::Comparison(comparison));
    }
    if let Some(products) = products {
        return Some(Action::Products(products));
    }
    if let Some(bit) = bit {
        return Some(Action::BitTest(bit));
    }
    if let Some(moves) = moves {
        return Some(Action::Moves(moves));
    }
    match alone {
        Some(alone) => Some(Action::Alone(alone)),
        None => None,
    }
}

/// What the operation of a name does, where it is one of this crate's.
pub fn action_of(name: Name) -> Option<Action>
    ensures { result ≡ action_of name }
{
    first_action(
        update_of(name),
        comparison_of(name),
        products_of(name),
        bit_op_of(name),
        moves_of(name),
        alone_of(name),
    )
}
