//! The run of an image that is made from a number, told in one line.
ghost use Rattle.std.specs.Prelude.{◌≡◌};
ghost use Rattle.m386_gen.specs.Generated.{generated};
ghost use Rattle.m386_trace.specs.Soak.{tasks_of};
ghost use Rattle.m386.specs.Top.{IsSoaked, at_out};

use crate::perform::verdict_on;
use crate::run::run_image;
use crate::status::Status;
use m386_core::order::Order;
use m386_edge::failed::Failed;
use m386_edge::sink::Sink;
use m386_edge::writing::write_whole;
use m386_gen::generate::{generate, schedulers, workers};
use m386_trace::soak::soak_line;
use std::alloc::Global;

/// The most steps of each processor.
const STEPS: u32 = 1_000;

/// How many tasks the image of a number has.
fn tasks_in(number: u64) -> u8
    ensures { result ≡ tasks_of (generated number) }
{
    schedulers(number) + workers(number)
}

/// Runs the image of a number, all its processors in the order that the number gives, and writes the line of that run.
pub fn soak<K: Sink>(alloc: Global, number: u64, out: &mut K) -> Status
    ensures { IsSoaked number (at_out (K.held out.old) (K.faults out.old)) (at_out (K.held out.new) (K.faults out.new)) result }
{
    let Ok(image) = generate(alloc, number) else {
        return Status::Memory;
    };
    let Ok(ended) = run_image(alloc, &image, image.cpus, STEPS, &Order::Seed(number)) else {
        return Status::Memory;
    };
    let Ok(verdict) = verdict_on(alloc, &image, &ended) else {
        return Status::Memory;
    };
    let line = soak_line(
        number,
        image.cpus,
        tasks_in(number),
        ended.log.cycles(),
        &verdict,
    );
    match write_whole(out, line.as_bytes()) {
        Ok(()) => Status::Done,
        Err(Failed) => Status::WriteFault,
    }
}
