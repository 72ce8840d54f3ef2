//! Worked cases of the arbiter.
ghost use Rattle.std.specs.Prelude.{◌≡◌, ◌<◌, ℕ, [], ◌∷◌, false, length, vec_len, slice_index_or, IfOk, IfSome};
ghost use Rattle.m386_base.specs.Bus.{IsAsk};
ghost use Rattle.m386_arbiter.specs.Ends.{AreSeats, IsOf, table_of};

use m386_arbiter::seats::{Arbiter, BusSeat};
use m386_base::ask::{Ask, Cycle, Role, Space};
use m386_base::bus::Bus;
use m386_base::fault::{NoMemory, Stop};
use m386_base::split::{Piece, spread};
use m386_memory::history::Record;
use m386_memory::store::Store;
use std::alloc::{AllocError, Global};
use std::sync::Wait;
use std::test::Fail;
use std::thread::{self, Threads};

/// An ask for the first two bytes of memory.
fn word(write: bool, joined: bool, value: u32) -> Ask
    ensures lawful { IsAsk result }
    ensures joined { result.joined ≡ joined }
{
    let piece = Piece {
        addr: 0,
        enables: 3,
        place: 0,
    };
    Ask {
        space: Space::Memory,
        write,
        joined,
        role: Role::Operand,
        part: 0,
        addr: 0,
        enables: 3,
        value: spread(piece, value),
    }
}

/// A record of 4,096 bytes, all 0.
fn empty(alloc: Global) -> Result<Record, NoMemory>
    ensures { IfOk result (λ r. r.cycles ≡ []) }
{
    Ok(Record::new(alloc, Store::new(alloc, 4096)?))
}

/// One locked pair: reads a word, and writes one more.
fn add_one<B: Bus>(bus: &mut B) -> Result<(), Stop>
    requires free { (B.view bus.old).kept ≡ false }
    ensures free { (B.view bus.new).kept ≡ false }
    ensures origin { (B.view bus.new).origin ≡ (B.view bus.old).origin }
{
    let count = bus.cycle(word(false, false, 0), true)?;
    bus.cycle(word(true, true, count.wrapping_add(1)), false)?;
    Ok(())
}

/// So many locked pairs, or fewer where there is no memory.
fn add<B: Bus>(bus: &mut B, pairs: u32)
    requires free { (B.view bus.old).kept ≡ false }
    ensures free { (B.view bus.new).kept ≡ false }
    ensures origin { (B.view bus.new).origin ≡ (B.view bus.old).origin }
{
    for _ in 0..pairs {
        if add_one(bus).is_err() {
            return;
        }
    }
}

/// The same at a seat.
fn add_at<R: Wait>(rt: &R, arbiter: &Arbiter, seat: BusSeat, pairs: u32) -> BusSeat
    requires { seat.seat.table_id ≡ table_of arbiter.now }
    ensures { IsOf seat result }
{
    let mut bus = seat.bus(rt, arbiter);
    add(&mut bus, pairs);
    bus.seat()
}

/// The same at each seat, in a thread of its own.
fn add_at_each<R: Threads + Wait + Sync>(
    rt: &R,
    arbiter: &Arbiter,
    seats: Vec<BusSeat>,
    pairs: u32,
) -> Result<Vec<BusSeat>, AllocError>
    requires { AreSeats (table_of arbiter.now) 0 seats.items }
    ensures len { IfOk result (λ v. vec_len v ≡ vec_len seats) }
    ensures each { IfOk result (λ v. (i : ℕ) (d : _) → i < vec_len seats → IsOf (slice_index_or seats.items i d) (slice_index_or v.items i d)) }
{
    thread::map_vec(
        rt,
        seats,
        &|seat| -> BusSeat
            requires { seat.seat.table_id ≡ table_of arbiter.now }
            ensures { IsOf seat result }
        { add_at(rt, arbiter, seat, pairs) },
    )
}

/// The same, where the seats that come back are the arbiter's again.
fn add_in_threads<R: Threads + Wait + Sync>(
    rt: &R,
    arbiter: &Arbiter,
    seats: Vec<BusSeat>,
    pairs: u32,
) -> Result<Vec<BusSeat>, AllocError>
    requires { AreSeats (table_of arbiter.now) 0 seats.items }
    ensures { IfOk result (λ r. (length r.items ≡ length seats.items) × AreSeats (table_of arbiter.now) 0 r.items) }
{
    let done = add_at_each(rt, arbiter, seats, pairs)?;
    Ok(done)
}

/// The record of so many locked pairs of each of so many processors.
fn added<R: Threads + Wait + Sync>(
    rt: &R,
    alloc: Global,
    cpus: u8,
    pairs: u32,
) -> Result<Record, NoMemory>
    requires { (0 < cpus) × (cpus < 9) }
{
    let (arbiter, seats) = Arbiter::make(alloc, empty(alloc)?, cpus)?;
    let seats = add_in_threads(rt, &arbiter, seats, pairs)?;
    Ok(arbiter.close(seats))
}

#[test]
fn eight_threads_add_a_thousand_each(rt: HostRuntime) -> Result<(), Fail> {
    let record = added(&rt, rt.alloc(), 8, 1000)?;
    assert_eq!(rt; record.cycles().len(), 16_000);
    assert_eq!(rt; record.store().read(Space::Memory, 0, 15), 8000);
    let mut made = [0u32; 8];
    for cycle in record.cycles() {
        if let Some(count) = made.get_mut(usize::from(cycle.cpu)) {
            *count = count.wrapping_add(1);
        }
    }
    assert_eq!(rt; made, [2000; 8]);
    Ok(())
}

/// What was answered to four cycles of two processors: 5 is written, and read by the other; then 6 is written in one group with a
/// read.
fn exchange<B: Bus>(zero: &mut B, one: &mut B) -> Result<[u32; 4], Stop>
    requires free { ((B.view zero.old).kept ≡ false) × ((B.view one.old).kept ≡ false) }
    ensures free { ((B.view zero.new).kept ≡ false) × ((B.view one.new).kept ≡ false) }
    ensures origin { ((B.view zero.new).origin ≡ (B.view zero.old).origin) × ((B.view one.new).origin ≡ (B.view one.old).origin) }
{
    let written = zero.cycle(word(true, false, 5), false)?;
    let read = one.cycle(word(false, false, 0), false)?;
    let again = zero.cycle(word(false, false, 0), true)?;
    let changed = zero.cycle(word(true, true, 6), false)?;
    Ok([written, read, again, changed])
}

/// The same at two seats, from one thread.
fn exchange_at<R: Wait>(
    rt: &R,
    arbiter: &Arbiter,
    zero: BusSeat,
    one: BusSeat,
) -> Result<([u32; 4], BusSeat, BusSeat), Stop>
    requires { (zero.seat.table_id ≡ table_of arbiter.now) × (one.seat.table_id ≡ table_of arbiter.now) }
    ensures { IfOk result (λ r. IsOf zero r.1 × IsOf one r.2) }
{
    let mut first = zero.bus(rt, arbiter);
    let mut second = one.bus(rt, arbiter);
    let answers = exchange(&mut first, &mut second)?;
    Ok((answers, first.seat(), second.seat()))
}

/// The two seats of an arbiter.
fn both(mut seats: Vec<BusSeat>, _arbiter: &Arbiter) -> Option<(BusSeat, BusSeat)>
    requires { (length seats.items ≡ 2) × AreSeats (table_of _arbiter.now) 0 seats.items }
    ensures { IfSome result (λ r. AreSeats (table_of _arbiter.now) 0 (r.0 ∷ r.1 ∷ [])) }
{
    let one = seats.pop()?;
    let zero = seats.pop()?;
    Some((zero, one))
}

/// Two seats as a list.
fn listed(alloc: Global, zero: BusSeat, one: BusSeat) -> Result<Vec<BusSeat>, NoMemory>
    ensures { IfOk result (λ v. v.items ≡ zero ∷ one ∷ []) }
{
    let mut seats = Vec::new(alloc);
    seats.push(zero)?;
    seats.push(one)?;
    Ok(seats)
}

/// The cycle that an ask becomes, where this value is read or written.
fn made(cpu: u8, ask: Ask, value: u32) -> Cycle {
    Cycle {
        cpu,
        ask: Ask { value, ..ask },
    }
}

#[test]
fn two_seats_from_one_thread(rt: HostRuntime) -> Result<(), Fail> {
    let (arbiter, seats) = Arbiter::make(rt.alloc(), empty(rt.alloc())?, 2)?;
    let (zero, one) = both(seats, &arbiter).ok_or(NoMemory)?;
    let (answers, zero, one) = exchange_at(&rt, &arbiter, zero, one)?;
    assert_eq!(rt; answers, [0, 5, 5, 0]);
    let record = arbiter.close(listed(rt.alloc(), zero, one)?);
    let (read, write, joined) = (
        word(false, false, 0),
        word(true, false, 0),
        word(true, true, 0),
    );
    assert_eq!(rt;
        record.cycles(),
        [
            made(0, write, 5),
            made(1, read, 5),
            made(0, read, 5),
            made(0, joined, 6)
        ]
        .as_slice()
    );
    Ok(())
}

/// What was answered where a processor reads with the bus kept and leaves it, and the other writes.
fn take_turns<B: Bus>(zero: &mut B, one: &mut B) -> Result<[u32; 3], Stop>
    requires free { ((B.view zero.old).kept ≡ false) × ((B.view one.old).kept ≡ false) }
{
    let before = zero.cycle(word(false, false, 0), true)?;
    zero.leave();
    let written = one.cycle(word(true, false, 7), false)?;
    let after = zero.cycle(word(false, false, 0), false)?;
    Ok([before, written, after])
}

/// The same at two seats, from one thread.
fn take_turns_at<R: Wait>(
    rt: &R,
    arbiter: &Arbiter,
    zero: BusSeat,
    one: BusSeat,
) -> Result<[u32; 3], Stop>
    requires { (zero.seat.table_id ≡ table_of arbiter.now) × (one.seat.table_id ≡ table_of arbiter.now) }
{
    let mut first = zero.bus(rt, arbiter);
    let mut second = one.bus(rt, arbiter);
    take_turns(&mut first, &mut second)
}

#[test]
fn a_seat_that_leaves_lets_another_in(rt: HostRuntime) -> Result<(), Fail> {
    let (arbiter, seats) = Arbiter::make(rt.alloc(), empty(rt.alloc())?, 2)?;
    let (zero, one) = both(seats, &arbiter).ok_or(NoMemory)?;
    assert_eq!(rt; take_turns_at(&rt, &arbiter, zero, one)?, [0, 0, 7]);
    Ok(())
}

/// One read at each seat, one after another.
fn read_at_each<R: Wait>(rt: &R, arbiter: &Arbiter, mut seats: Vec<BusSeat>) -> Option<Vec<BusSeat>>
    requires { (length seats.items ≡ 1) × AreSeats (table_of arbiter.now) 0 seats.items }
    ensures { IfSome result (λ v. (length v.items ≡ 1) × AreSeats (table_of arbiter.now) 0 v.items) }
{
    let seat = seats.pop()?;
    let mut bus = seat.bus(rt, arbiter);
    bus.cycle(word(false, false, 0), false).ok()?;
    seats.push(bus.seat()).ok()?;
    Some(seats)
}

#[test]
fn one_seat_makes_one_cycle(rt: HostRuntime) -> Result<(), Fail> {
    let (arbiter, seats) = Arbiter::make(rt.alloc(), empty(rt.alloc())?, 1)?;
    let seats = read_at_each(&rt, &arbiter, seats).ok_or(NoMemory)?;
    let record = arbiter.close(seats);
    assert_eq!(rt;
        record.cycles(),
        [made(0, word(false, false, 0), 0)].as_slice()
    );
    Ok(())
}
