//! Whether a run of two processors is clean and switches tasks.
ghost use Rattle.std.specs.Prelude.{◌<◌, ◌≤◌, ◌↔◌, All, IfOk, IsTrue};
ghost use Rattle.std.specs.List.{Any};
ghost use Rattle.m386_image.specs.Format.{IsValid};
ghost use Rattle.m386_step.specs.Run.{Run};
ghost use Rattle.m386_exclusion_cases.specs.CleanRuns.{ClaimsByJmp, CleanRunWithASwitch};

use m386_base::ask::{Cycle, Role};
use m386_base::fault::NoMemory;
use m386_book::clean::clean;
use m386_book::verdict::Verdict;
use m386_core::machine::Machine;
use m386_core::order::Order;
use m386_image::image::Image;
use m386_memory::ended::Ended;
use m386_state::proc::Proc;
use std::alloc::Global;

/// Whether a cycle is the claim of a JMP.
fn claims_by_jmp(cycle: &Cycle) -> bool
    ensures { IsTrue result ↔ ClaimsByJmp cycle.now }
{
    matches!(cycle.ask.role, Role::ClaimJmp) && cycle.ask.write
}

/// Whether one of these cycles is the claim of a JMP.
fn has_switch(cycles: &[Cycle]) -> bool
    ensures { IsTrue result → Any ClaimsByJmp cycles.now }
{
    cycles.iter().any(claims_by_jmp)
}

/// The run of the first two processors of an image in an order.
fn run_of_two(
    alloc: Global,
    image: &Image,
    steps: u32,
    order: &Order,
) -> Result<Ended<Proc>, NoMemory>
    requires valid { IsValid image.now }
    requires two { 2 ≤ image.now.cpus }
    requires budget { steps ≤ 65536 }
    ensures run { IfOk result (λ e. Run image.now 2 steps e.log.cycles e.procs) }
    ensures below { IfOk result (λ e. All (λ c. c.cpu < 8) e.log.cycles) }
{
    let mut machine = Machine::new(alloc, image, 2, steps)?;
    machine.run_order(order)?;
    Ok(machine.ended())
}

/// Whether the run of the first two processors of an image, in an order and with so many steps each, keeps the nine rules and
/// has a task switch of a JMP in it. Where it answers true, the law of exclusion speaks of that run.
pub fn is_clean_with_a_switch(
    alloc: Global,
    image: &Image,
    steps: u32,
    order: &Order,
) -> Result<bool, NoMemory>
    requires valid { IsValid image.now }
    requires two { 2 ≤ image.now.cpus }
    requires budget { steps ≤ 65536 }
    ensures { IfOk result (λ b. IsTrue b → CleanRunWithASwitch image.now steps) }
{
    let ended = run_of_two(alloc, image, steps, order)?;
    let cycles = ended.log.cycles();
    match clean(alloc, image, cycles)? {
        Verdict::Clean => Ok(has_switch(cycles)),
        Verdict::Static(_) | Verdict::At { .. } => Ok(false),
    }
}
