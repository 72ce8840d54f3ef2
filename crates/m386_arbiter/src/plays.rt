//! What each step on the table tells, and how seats are cut and joined.
ghost use Rattle.m386_arbiter.specs.Rule.{Drew, Looked, Passed, rest_of, first_of, joined, spent};

use crate::rule::View;
use atomic_table::{Join, Play, Split};
use m386_memory::history::Record;

/// A ticket is drawn.
pub struct Draw;

impl Play<Record, View> for Draw {
    ghost then = { Drew };
}

/// The number that is served is read. Where it is the seat's ticket, the seat has the record.
pub struct Look;

impl Play<Record, View> for Look {
    ghost then = { Looked };
}

/// The record is given back, and the next ticket is served.
pub struct Pass;

impl Play<Record, View> for Pass {
    ghost then = { Passed };
}

/// The share of the first number becomes a seat of its own, or is joined again.
pub struct FirstShare;

impl Split<View> for FirstShare {
    ghost left = { rest_of };

    ghost right = { first_of };
}

impl Join<View> for FirstShare {
    ghost both = { joined };

    ghost spent = { spent };
}
