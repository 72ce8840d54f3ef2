//! A case of a step, its memory, and what compares the step with it.
ghost use Rattle.std.specs.Prelude.{◌≡◌, ◌≤◌, [], false, length};

use m386_base::ask::{Ask, Cycle};
use m386_base::bus::Bus;
use m386_base::fault::Stop;
use m386_base::probe::ProbeBus;
use m386_memory::fixed::FixedBus;
use m386_state::proc::{Mode, Proc};
use m386_step::alone::step_alone;
use m386_step::answer::Probe;
use m386_step::probe::probe;
use m386_step::step::step;

/// The bytes at 1010h in each case. Those at 1000h are its code, and all others are 0.
const DATA: [u8; 8] = [0x11, 0x22, 0x33, 0x44, 0x55, 0x66, 0x77, 0x88];

/// The most cycles of a case.
const MOST: usize = 64;

/// A step: the state before it, the bytes at 1000h, its cycles with what they read, and the state after it.
#[derive(Clone, Copy)]
pub struct Case<'a> {
    /// What it shows.
    pub name: &'a str,
    /// The state before it, which isn't shut down.
    pub before: Proc,
    /// The bytes at 1000h, at most 16.
    pub code: &'a [u8],
    /// Its cycles, at most 64, in their order.
    pub cycles: &'a [Ask],
    /// The state after it.
    pub after: Proc,
}

/// What a step does that its case doesn't say.
#[derive(Clone, Copy, Debug, PartialEq, Eq)]
pub enum Difference {
    /// The case begins in shutdown, or has too many bytes or cycles.
    Unfit,
    /// It comes to this state.
    State(Proc),
    /// It makes so many cycles.
    Cycles(usize),
    /// It makes this cycle.
    Made(Cycle),
    /// So many values come to this.
    Probed(usize, Probe),
    /// Where it is told so many values, it ends or stops otherwise.
    Stopped(usize, Result<(), Stop>),
    /// Where it is told so many values, it refuses this.
    Wanted(usize, Option<Ask>),
}

/// The answer where a fact holds, and else a difference.
fn where_so(holds: bool, difference: Difference) -> Result<(), Difference> {
    if holds { Ok(()) } else { Err(difference) }
}

/// A bus that holds the bytes of a case.
pub fn bus_of(code: &[u8]) -> FixedBus<0x1018>
    requires { length code.now ≤ 16 }
    ensures free { (⟦<FixedBus<0x1018> as Bus>⟧.view result).kept ≡ false }
    ensures none { (⟦<FixedBus<0x1018> as Bus>⟧.view result).cycles ≡ [] }
{
    let mut bus = FixedBus::<0x1018>::new();
    for (i, byte) in code.iter().enumerate() {
        bus.poke(0x1000 + i as u32, *byte);
    }
    for (i, byte) in DATA.iter().enumerate() {
        bus.poke(0x1010 + i as u32, *byte);
    }
    bus.clear();
    bus
}

/// Puts a doubleword into memory. `None`: it doesn't fit.
pub fn put(bus: &mut FixedBus<0x1018>, addr: u32, value: u32) -> Option<()> {
    if addr > 0x1014 {
        return None;
    }
    for (i, byte) in value.to_le_bytes().iter().enumerate() {
        bus.poke(addr + i as u32, *byte);
    }
    Some(())
}

/// Makes the step of a case over this bus, whose cycles so far don't count, and compares the state.
fn made_over(case: &Case<'_>, bus: &mut FixedBus<0x1018>) -> Result<(), Difference> {
    let mut p = case.before;
    if p.mode == Mode::Shutdown {
        return Err(Difference::Unfit);
    }
    bus.clear();
    step_alone(&mut p, bus);
    where_so(p == case.after, Difference::State(p))
}

/// Makes the step over this bus, whose cycles so far don't count. It answers the first difference.
pub fn over_bus(case: &Case<'_>, bus: &mut FixedBus<0x1018>) -> Result<(), Difference> {
    made_over(case, bus)?;
    are_made(bus.cycles(), case.cycles)
}

/// The same, where the case says only how many cycles are made.
pub fn counted(
    case: &Case<'_>,
    bus: &mut FixedBus<0x1018>,
    count: usize,
) -> Result<(), Difference> {
    made_over(case, bus)?;
    let made = bus.cycles().len();
    where_so(made == count, Difference::Cycles(made))
}

/// Makes the step over a bus that holds the bytes of the case. It answers the first difference.
pub fn over_bytes(case: &Case<'_>) -> Result<(), Difference> {
    if case.code.len() > 16 {
        return Err(Difference::Unfit);
    }
    let mut bus = bus_of(case.code);
    over_bus(case, &mut bus)
}

/// Compares the cycles that were made with those of a case. It answers the first difference.
pub fn are_made(made: &[Cycle], wanted: &[Ask]) -> Result<(), Difference> {
    for (cycle, ask) in made.iter().zip(wanted) {
        where_so(
            *cycle == Cycle { cpu: 0, ask: *ask },
            Difference::Made(*cycle),
        )?;
    }
    where_so(made.len() == wanted.len(), Difference::Cycles(made.len()))
}

/// Makes the step where all that it is told are these values, and it wants a further cycle.
fn wants(case: &Case<'_>, values: &[u32], next: Ask) -> Result<(), Difference> {
    let mut p = case.before;
    let told = values.len();
    if p.mode == Mode::Shutdown || told > 192 {
        return Err(Difference::Unfit);
    }
    let probed = probe(&p, values);
    where_so(
        probed == Probe::Wants(next),
        Difference::Probed(told, probed),
    )?;
    let mut bus = ProbeBus::new(values);
    let ended = step(&mut p, &mut bus);
    where_so(ended == Err(Stop::Paused), Difference::Stopped(told, ended))?;
    where_so(p == case.before, Difference::State(p))?;
    where_so(
        bus.wanted() == Some(next),
        Difference::Wanted(told, bus.wanted()),
    )?;
    where_so(bus.made() == told, Difference::Cycles(bus.made()))
}

/// Makes the step over each front of what it reads: it wants the next cycle, and at the end it is whole, with further values too. It
/// answers the first difference.
pub fn over_values(case: &Case<'_>) -> Result<(), Difference> {
    let mut values = [0; MOST];
    for (i, ask) in case.cycles.iter().enumerate() {
        if i >= MOST {
            return Err(Difference::Unfit);
        }
        let mut next = *ask;
        if !ask.write {
            next.value = 0;
        }
        wants(case, &values[..i], next)?;
        values[i] = if ask.write { 0 } else { ask.value };
    }
    let used = case.cycles.len();
    if used > MOST {
        return Err(Difference::Unfit);
    }
    is_whole(case, &values[..used], used)?;
    is_whole(case, &values, used)
}

/// Makes the step over these values, of which it uses so many. It answers the difference.
fn is_whole(case: &Case<'_>, values: &[u32], used: usize) -> Result<(), Difference> {
    if case.before.mode == Mode::Shutdown || values.len() > 192 || used > MOST {
        return Err(Difference::Unfit);
    }
    let probed = probe(&case.before, values);
    let whole = Probe::Whole {
        after: case.after,
        used: used as u8,
    };
    where_so(probed == whole, Difference::Probed(values.len(), probed))
}
