//! The values of options.
ghost use Rattle.std.specs.Prelude.{◌≡◌, ◌≤◌, IfOk, option_map};
ghost use Rattle.std.specs.Option.{ForSome};
ghost use Rattle.m386_calls.specs.Words.{IsAsked, IsReading, asked_of, cpus_in, schedule_in, schedule_named, seed_in, steps_in};

use crate::call::{Asked, Schedule};
use crate::number::number;
use crate::stop::CallStop;
use crate::usage::UsageKind;
use m386_core::order::Order;

/// The most processors.
const MOST_CPUS: u64 = 8;

/// The most steps that a processor may be given.
const MOST_STEPS: u64 = 65_536;

/// The steps of a processor where no word bounds them.
const STEPS_UNASKED: u32 = 1_000;

/// The seed where no word gives one.
const SEED_UNASKED: u64 = 1;

/// How many processors the option's value asks for: `None` for all that the image has.
pub fn read_cpus(value: Option<&str>) -> Option<Option<u8>>
    ensures value { result ≡ cpus_in (option_map (λ v. v.now) value.entry) }
    ensures some { ForSome result (λ asked. ForSome asked (λ count. 1 ≤ count)) }
{
    let Some(text) = value else {
        return Some(None);
    };
    match number(text.as_bytes(), MOST_CPUS)? {
        0 => None,
        count => Some(Some(count as u8)),
    }
}

/// How many steps the option's value asks for.
pub fn read_steps(value: Option<&str>) -> Option<u32>
    ensures value { result ≡ steps_in (option_map (λ v. v.now) value.entry) }
    ensures most { ForSome result (λ steps. steps ≤ 65536) }
{
    let Some(text) = value else {
        return Some(STEPS_UNASKED);
    };
    Some(number(text.as_bytes(), MOST_STEPS)? as u32)
}

/// The seed that the option's value gives.
pub fn read_seed(value: Option<&str>) -> Option<u64>
    ensures { result ≡ seed_in (option_map (λ v. v.now) value.entry) }
{
    let Some(text) = value else {
        return Some(SEED_UNASKED);
    };
    number(text.as_bytes(), u64::MAX)
}

/// The schedule of a name.
fn schedule_of(name: &str, seed: u64) -> Option<Schedule>
    ensures { result ≡ schedule_named name.now seed }
{
    if name == "threads" {
        Some(Schedule::Threads)
    } else if name == "round" {
        Some(Schedule::Named(Order::Round))
    } else if name == "seed" {
        Some(Schedule::Named(Order::Seed(seed)))
    } else {
        None
    }
}

/// The schedule that the values of the order's option and of the seed's ask for: threads where no word says.
pub fn read_schedule(value: Option<&str>, seed: Option<u64>) -> Option<Schedule>
    ensures { result ≡ schedule_in (option_map (λ v. v.now) value.entry) seed }
{
    let seed = seed?;
    match value {
        None => Some(Schedule::Threads),
        Some(name) => schedule_of(name, seed),
    }
}

/// What these values ask for.
pub fn all_asked(
    cpus: Option<Option<u8>>,
    steps: Option<u32>,
    schedule: Option<Schedule>,
) -> Result<Asked, CallStop>
    requires some { ForSome cpus (λ asked. ForSome asked (λ count. 1 ≤ count)) }
    requires most { ForSome steps (λ n. n ≤ 65536) }
    ensures value { IsReading (asked_of cpus steps schedule) result }
    ensures kept { IfOk result IsAsked }
{
    match (cpus, steps, schedule) {
        (Some(cpus), Some(steps), Some(schedule)) => Ok(Asked {
            cpus,
            steps,
            schedule,
        }),
        _ => Err(CallStop::Refused(UsageKind::Value)),
    }
}
