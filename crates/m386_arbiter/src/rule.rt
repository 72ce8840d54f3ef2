//! The rule of the table: the tickets, whose turn it is, and what each seat knows.
use atomic_table::TableRule;
use m386_base::ask::{Ask, Cycle};
use m386_memory::history::Record;
use m386_memory::store::Store;
use std::collections::LinkedList;
use std::snapshot::Snapshot;

/// What the table is told once: how many processors there are, and the record that it is made with.
#[derive(Drop)]
pub struct Opening {
    pub count: u64,
    pub first: Snapshot<Record>,
}

/// Whether a seat has a ticket, and whether it has the record, with the history that it found. No value of it is made.
pub enum Stage {
    Idle,
    Queued(u64),
    Holding(u64, LinkedList<Cycle>),
}

/// What a seat knows: the numbers from `low` on that it stands for, with the cycles of each, its stage, and what the table
/// was told. No value of it is made.
pub struct View {
    pub low: u64,
    pub turns: LinkedList<LinkedList<Ask>>,
    pub stage: Stage,
    pub count: u64,
    pub first: Store,
}

/// The rule by which the record is handed round.
pub struct Tickets;

impl TableRule<Record, View, Opening> for Tickets {
    ghost use Rattle.m386_arbiter.specs.Rule.{Ruled, first_view};

    ghost holds = { Ruled };

    ghost first = { first_view };
}
