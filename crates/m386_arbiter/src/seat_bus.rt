//! A processor's bus, which waits for its turn.
ghost use Rattle.std.specs.Prelude.{◌≡◌, false, None};
ghost use Rattle.m386_arbiter.specs.Ends.{table_of, made_by, origin_of};

use crate::arbiter::{leave, turn};
use crate::seats::{Arbiter, BusSeat, Shares};
use m386_base::ask::Ask;
use m386_base::bus::Bus;
use m386_base::fault::Stop;
use std::marker::Model;
use std::sync::Wait;

/// The bus of the seat's processor. It has the record while it is kept. It doesn't pause: it stops where there is no memory for
/// a cycle.
#[derive(Drop)]
pub struct SeatBus<'a, R: Wait> {
    rt: &'a R,
    arbiter: &'a Arbiter,
    number: u8,
    seat: Shares,
    kept: bool,
    stops: u64,
    wanted: Option<Ask>,
}

impl<'a, R: Wait> Model for SeatBus<'a, R> {
    ghost use Rattle.std.specs.Prelude.{◌≡◌, false};
    ghost use Rattle.m386_base.specs.Bus.{BusView};
    ghost use Rattle.m386_arbiter.specs.Seats.{own_cycles, Sits};
    ghost use Rattle.m386_arbiter.specs.Ends.{table_of, origin_of};

    ghost Value = { BusView };

    ghost view = { λ s. record { cycles = own_cycles s.seat.me; kept = s.kept; stops = s.stops; pauses = false; origin = origin_of s.seat.table_id s.number; wanted = s.wanted } };

    ghost invariant = { λ s. (table_of s.arbiter.now ≡ s.seat.table_id) × Sits s.kept s.number s.seat.me };
}

impl BusSeat {
    /// The bus of this seat, which begins with the seat's cycles and isn't kept. The seat is one of this arbiter's.
    pub fn bus<'a, R: Wait>(self, rt: &'a R, arbiter: &'a Arbiter) -> SeatBus<'a, R>
        requires { self.seat.table_id ≡ table_of arbiter.now }
        ensures { result
            ≡ record { cycles = made_by self; kept = false; stops = 0; pauses = false; origin = origin_of self.seat.table_id self.number; wanted = None } }
    {
        let BusSeat { number, seat } = self;
        SeatBus {
            rt,
            arbiter,
            number,
            seat,
            kept: false,
            stops: 0,
            wanted: None,
        }
    }
}

impl<'a, R: Wait> SeatBus<'a, R> {
    /// The seat again, with all its cycles. The bus isn't kept.
    pub fn seat(self) -> BusSeat
        requires { self.kept ≡ false }
        ensures origin { origin_of result.seat.table_id result.number ≡ self.entry.origin }
        ensures cycles { made_by result ≡ self.entry.cycles }
    {
        let SeatBus {
            rt: _,
            arbiter: _,
            number,
            seat,
            kept: _,
            stops: _,
            wanted: _,
        } = self;
        BusSeat::new(number, seat)
    }
}

impl<'a, R: Wait> Bus for SeatBus<'a, R> {
    ghost view = { λ b. b };

    fn cycle(&mut self, ask: Ask, keep: bool) -> Result<u32, Stop> {
        let SeatBus {
            rt,
            arbiter,
            number,
            seat,
            kept,
            stops,
            wanted,
        } = self;
        match turn(*rt, &arbiter.table.shared, seat, *number, ask, keep) {
            Ok(value) => {
                *kept = keep;
                Ok(value)
            }
            Err(_) => {
                *kept = false;
                *stops = stops.saturating_add(1);
                *wanted = Some(ask);
                Err(Stop::Memory)
            }
        }
    }

    fn leave(&mut self) {
        if self.kept {
            let arbiter = self.arbiter;
            leave(&arbiter.table.shared, &mut self.seat, self.number);
            self.kept = false;
        }
    }
}
