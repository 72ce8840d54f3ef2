//! The arbiter with its table, and the seats at it.
ghost use Rattle.std.specs.Prelude.{◌≡◌, ◌<◌, ◌≤◌};
ghost use Rattle.m386_arbiter.specs.Seats.{IsIdle};

use crate::rule::{Opening, Tickets, View};
use atomic_table::{Seat, Table};
use m386_memory::history::Record;
use std::alloc::Global;

/// A seat at the table: a token of no bytes.
pub(crate) type Shares = Seat<Record, View>;

/// Hands one record round.
#[derive(Drop)]
pub struct Arbiter {
    pub(crate) table: Table<Record, View, Opening, Tickets, Global>,
    pub(crate) cpus: u8,
    ghost sized: { (table.shared.table_id.words ≡ 2) × (table.shared.table_id.slots ≡ 1) },
    ghost opened: { table.shared.key.count ≡ cpus },
    ghost few: { (0 < cpus) × (cpus ≤ 8) },
}

/// One processor's seat, out of its turn.
#[derive(Drop)]
pub struct BusSeat {
    pub(crate) number: u8,
    pub(crate) seat: Shares,
    ghost idle: { IsIdle number seat.me },
}

impl BusSeat {
    pub(crate) fn new(number: u8, seat: Shares) -> BusSeat
        requires { IsIdle number seat.me }
        ensures { (result.number ≡ number) × (result.seat ≡ seat) }
    {
        BusSeat { number, seat }
    }
}
