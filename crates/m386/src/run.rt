//! The run of an image.
ghost use Rattle.std.specs.Prelude.{◌≡◌, ◌↔◌, ◌<◌, ◌≤◌, true, IfOk, All, length};
ghost use Rattle.m386_image.specs.Format.{IsValid};
ghost use Rattle.m386_step.specs.Run.{BeginsWith, Run};
ghost use Rattle.m386_core.specs.Order.{InOrder};

use crate::same::is_same_image;
use m386_base::fault::NoMemory;
use m386_core::counted::Counted;
use m386_core::machine::Machine;
use m386_core::order::Order;
use m386_edge::gate::Gate;
use m386_image::image::Image;
use m386_memory::ended::Ended;
use m386_run::locked::run_locked;
use m386_state::proc::Proc;
use std::alloc::Global;
use std::sync::Wait;
use std::thread::Threads;

/// Runs the first processors of an image, in an order, until each has made its steps or has shut down.
pub fn run_image(
    alloc: Global,
    image: &Image,
    cpus: u8,
    steps: u32,
    order: &Order,
) -> Result<Ended<Proc>, NoMemory>
    requires valid { IsValid image.now }
    requires some { 1 ≤ cpus }
    requires most { cpus ≤ image.now.cpus }
    requires budget { steps ≤ 65536 }
    ensures begins { IfOk result (λ e. BeginsWith image.now e.log.first) }
    ensures run { IfOk result (λ e. Run image.now cpus steps e.log.cycles e.procs) }
    ensures in_order { IfOk result (λ e. InOrder image.now cpus steps order.now e.log.cycles) }
    ensures below { IfOk result (λ e. All (λ c. c.cpu < 8) e.log.cycles) }
    ensures few { IfOk result (λ e. length e.procs ≤ 8) }
{
    let mut machine = Machine::new(alloc, image, cpus, steps)?;
    machine.run_order(order)?;
    Ok(machine.ended())
}

/// Whether a machine is of this image, with so many processors that have so many steps each.
fn is_machine_of(machine: &Machine, image: &Image, cpus: u8, steps: u32) -> bool
    ensures { (result ≡ true) ↔ (machine.now.image ≡ image.now) × (machine.now.cpus ≡ cpus) × (machine.now.budget ≡ steps) }
{
    machine.cpus() == cpus && machine.budget() == steps && is_same_image(machine.image(), image)
}

/// Runs the first processors of an image, each in a thread of its own, until each has made its steps or has shut down. Each passes
/// the gate before each turn.
///
/// Nothing is known of what was under a lock but its type. So the machine that the threads leave tells which run it is of, and were
/// it another, the image would be run anew, in turn.
pub fn run_in_threads<G: Gate + Sync, R: Threads + Wait + Sync>(
    rt: &R,
    alloc: Global,
    image: &Image,
    cpus: u8,
    steps: u32,
    gate: &G,
) -> Result<Ended<Proc>, NoMemory>
    requires valid { IsValid image.now }
    requires some { 1 ≤ cpus }
    requires most { cpus ≤ image.now.cpus }
    requires budget { steps ≤ 65536 }
    ensures begins { IfOk result (λ e. BeginsWith image.now e.log.first) }
    ensures run { IfOk result (λ e. Run image.now cpus steps e.log.cycles e.procs) }
    ensures below { IfOk result (λ e. All (λ c. c.cpu < 8) e.log.cycles) }
    ensures few { IfOk result (λ e. length e.procs ≤ 8) }
{
    let shared = Counted::new(Machine::new(alloc, image, cpus, steps)?);
    let machine = run_locked(rt, shared, cpus, gate)?.into_machine();
    if is_machine_of(&machine, image, cpus, steps) {
        Ok(machine.ended())
    } else {
        run_image(alloc, image, cpus, steps, &Order::Round)
    }
}
