//! A seat's turn, step by step, and the arbiter's calls.
ghost use Rattle.std.specs.Prelude.{◌≡◌, ◌+◌, ◌<◌, ◌≤◌, ◌++◌, [], ◌∷◌, length, map, true, false, MatchResult, IfOk, OnOk};
ghost use Rattle.m386_base.specs.Bus.{IsAsk, IsEnabled, cycle_of};
ghost use Rattle.m386_arbiter.specs.Seats.{IsIdle, IsBusy, EndsIn, Sits, own_cycles};
ghost use Rattle.m386_arbiter.specs.Below.{AllBelow};
ghost use Rattle.m386_arbiter.specs.Ends.{AreSeats, AllOwn, NoneYet, table_of, contents_of, made_by};
ghost use Rattle.m386_arbiter.specs.Dealt.{IsDealer, IsGathered};

use crate::plays::{Draw, FirstShare, Look, Pass};
use crate::rule::{Opening, Tickets, View};
use crate::seats::{Arbiter, BusSeat, Shares};
use atomic_table::{Shared, Table};
use m386_base::ask::Ask;
use m386_base::fault::NoMemory;
use m386_memory::history::Record;
use std::alloc::Global;
use std::snapshot::Snapshot;
use std::sync::Wait;
use std::thread::yield_now;

/// What all threads step on.
pub(crate) type Board = Shared<Record, View, Opening, Tickets>;

/// The word from which tickets are drawn.
const NEXT: usize = 0;

/// The word that says which ticket is served.
const SERVING: usize = 1;

/// Draws a ticket, and waits for the seat's turn.
fn enter<R: Wait>(rt: &R, board: &Board, seat: &mut Shares, _number: u8)
    requires board { (seat.old.table_id ≡ board.now.table_id) × (board.now.table_id.words ≡ 2) × (board.now.table_id.slots ≡ 1) }
    requires idle { IsIdle _number seat.old.me }
    ensures board { (seat.new.table_id ≡ seat.old.table_id) × (seat.new.id ≡ seat.old.id) }
    ensures busy { IsBusy _number seat.new.me }
    ensures own { own_cycles seat.new.me ≡ own_cycles seat.old.me }
{
    let ticket = board.fetch_add::<Draw>(seat, NEXT, 1);
    for _ in rt.forever() {
        if board.load::<Look>(seat, SERVING) == ticket {
            return;
        }
        yield_now();
    }
    unreachable!()
}

/// One cycle of the seat that has the record.
fn write(board: &Board, seat: &mut Shares, number: u8, ask: Ask) -> Result<u32, NoMemory>
    requires board { seat.old.table_id ≡ board.now.table_id }
    requires busy { IsBusy number seat.old.me }
    requires lawful { IsAsk ask }
    requires joined { ask.joined ≡ true → EndsIn number seat.old.me.1 }
    ensures board { (seat.new.table_id ≡ seat.old.table_id) × (seat.new.id ≡ seat.old.id) }
    ensures ends { OnOk result (EndsIn number seat.new.me.1) }
    ensures busy { IsBusy number seat.new.me }
    ensures own { MatchResult result (λ v. own_cycles seat.new.me ≡ own_cycles seat.old.me ++ cycle_of ask v ∷ []) (λ _. own_cycles seat.new.me ≡ own_cycles seat.old.me) }
    ensures none { IfOk result (λ v. ask.write ≡ true → v ≡ 0) }
    ensures enabled { IfOk result (λ v. IsEnabled ask.enables v) }
{
    let record = seat.slot_mut(board, 0);
    record.put(number, ask)
}

/// Gives the record back, and passes the turn on.
pub(crate) fn leave(board: &Board, seat: &mut Shares, _number: u8)
    requires board { (seat.old.table_id ≡ board.now.table_id) × (board.now.table_id.words ≡ 2) }
    requires busy { IsBusy _number seat.old.me }
    ensures board { (seat.new.table_id ≡ seat.old.table_id) × (seat.new.id ≡ seat.old.id) }
    ensures idle { IsIdle _number seat.new.me }
    ensures own { own_cycles seat.new.me ≡ own_cycles seat.old.me }
{
    board.fetch_add::<Pass>(seat, SERVING, 1);
}

/// One cycle, which begins the seat's turn where it isn't joined, and ends it where nothing is to be joined. Where there is no
/// memory the turn ends too.
pub(crate) fn turn<R: Wait>(
    rt: &R,
    board: &Board,
    seat: &mut Shares,
    number: u8,
    ask: Ask,
    keep: bool,
) -> Result<u32, NoMemory>
    requires board { (seat.old.table_id ≡ board.now.table_id) × (board.now.table_id.words ≡ 2) × (board.now.table_id.slots ≡ 1) }
    requires sits { Sits ask.joined number seat.old.me }
    requires lawful { IsAsk ask }
    ensures board { (seat.new.table_id ≡ seat.old.table_id) × (seat.new.id ≡ seat.old.id) }
    ensures sits { MatchResult result (λ _. Sits keep number seat.new.me) (λ _. Sits false number seat.new.me) }
    ensures own { MatchResult result (λ v. own_cycles seat.new.me ≡ own_cycles seat.old.me ++ cycle_of ask v ∷ []) (λ _. own_cycles seat.new.me ≡ own_cycles seat.old.me) }
    ensures none { IfOk result (λ v. ask.write ≡ true → v ≡ 0) }
    ensures enabled { IfOk result (λ v. IsEnabled ask.enables v) }
{
    if !ask.joined {
        enter(rt, board, seat, number);
    }
    match write(board, seat, number, ask) {
        Ok(value) => {
            if !keep {
                leave(board, seat, number);
            }
            Ok(value)
        }
        Err(error) => {
            leave(board, seat, number);
            Err(error)
        }
    }
}

/// The seat of the first number that is left.
fn deal(board: &Board, seat: &mut Shares, number: u8) -> BusSeat
    requires board { (seat.old.table_id ≡ board.now.table_id) × (0 < board.now.table_id.words) }
    requires dealer { IsDealer number seat.old.me }
    ensures board { (seat.new.table_id ≡ seat.old.table_id) × (result.seat.table_id ≡ seat.old.table_id) }
    ensures dealer { (0 < length seat.new.me.0.turns → IsDealer (number + 1) seat.new.me) × (length seat.old.me.0.turns ≡ length seat.new.me.0.turns + 1) }
    ensures seat { (result.number ≡ number) × (made_by result ≡ []) }
{
    let first = board.split_seat::<FirstShare>(seat);
    BusSeat::new(number, first)
}

/// Joins all seats into one.
fn gather(board: &Board, mut seats: Vec<BusSeat>) -> Shares
    requires board { 0 < board.now.table_id.words }
    requires seats { (0 < length seats.items) × AreSeats board.now.table_id 0 seats.items }
    ensures board { result.table_id ≡ board.now.table_id }
    ensures all { IsGathered 0 (map made_by seats.items) result.me }
{
    let Some(last) = seats.pop() else {
        unreachable!()
    };
    let BusSeat {
        number: _,
        seat: mut all,
    } = last;
    while let Some(next) = seats.pop() {
        let BusSeat {
            number: _,
            mut seat,
        } = next;
        board.join_seat::<FirstShare>(&mut seat, all);
        all = seat;
    }
    all
}

/// A seat for each number.
fn deal_all(
    alloc: Global,
    board: &Board,
    mut dealer: Shares,
    cpus: u8,
) -> Result<Vec<BusSeat>, NoMemory>
    requires board { (dealer.table_id ≡ board.now.table_id) × (0 < board.now.table_id.words) }
    requires dealer { IsDealer 0 dealer.me × (length dealer.me.0.turns ≡ cpus) }
    ensures { IfOk result (λ r. (length r.items ≡ cpus) × AreSeats board.now.table_id 0 r.items × NoneYet r.items) }
{
    let mut seats = Vec::new(alloc);
    for number in 0..cpus - 1 {
        seats.push(deal(board, &mut dealer, number))?;
    }
    seats.push(BusSeat::new(cpus - 1, dealer))?;
    Ok(seats)
}

impl Arbiter {
    /// An arbiter over a record that has no cycle yet, and a seat for each of 1 to 8 processors, in the order of their numbers.
    /// No seat has made a cycle.
    pub fn make(alloc: Global, first: Record, cpus: u8) -> Result<(Arbiter, Vec<BusSeat>), NoMemory>
        requires cpus { (0 < cpus) × (cpus ≤ 8) }
        requires empty { first.cycles ≡ [] }
        ensures contents { IfOk result (λ r. contents_of r.0 ≡ first.first) }
        ensures cpus { IfOk result (λ r. r.0.cpus ≡ cpus) }
        ensures seats { IfOk result (λ r. (length r.1.items ≡ cpus) × AreSeats (table_of r.0) 0 r.1.items × NoneYet r.1.items) }
    {
        let about = Opening {
            count: u64::from(cpus),
            first: Snapshot::of(&first),
        };
        let mut slots = Vec::new(alloc);
        slots.push(first)?;
        let (table, dealer) = match Table::new(alloc, &[0, 0], slots, &about) {
            Ok(made) => made,
            Err(_) => return Err(NoMemory),
        };
        let seats = deal_all(alloc, &table.shared, dealer, cpus)?;
        Ok((Arbiter { table, cpus }, seats))
    }

    /// The record, in which each seat's own cycles are the cycles of its number. The seats are all that `make` gave, in order.
    pub fn close(self, seats: Vec<BusSeat>) -> Record
        requires seats { (length seats.items ≡ self.cpus) × AreSeats (table_of self) 0 seats.items }
        ensures contents { result.first ≡ contents_of self }
        ensures below { AllBelow self.cpus result.cycles }
        ensures own { AllOwn result.cycles 0 (map made_by seats.items) }
    {
        let Arbiter { table, cpus: _ } = self;
        let all = gather(&table.shared, seats);
        let mut closed = table.close_with(all);
        let record = closed.take(0);
        closed.free();
        record
    }
}
