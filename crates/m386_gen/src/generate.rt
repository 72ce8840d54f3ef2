//! The image of a number.
ghost use Rattle.std.specs.Prelude.{◌≡◌, ◌+◌, ◌*◌, ◌≤◌, ◌<◌, ◌++◌, map, OnOk, IfOk};
ghost use Rattle.std.specs.List.{flat_map, range_with_len};
ghost use Rattle.m386_image.specs.Format.{image_text, ImageOf, IsValid};
ghost use Rattle.m386_gen.specs.Generated.{generated, image_with, schedulers_of, start_for, ticks_of, workers_of};

use crate::sections::sections_for;
use crate::tables::selector_of;
use m386_base::fault::NoMemory;
use m386_base::list::List;
use m386_image::image::{Image, Planned, TableAt};
use m386_image::writing::write_image;
use std::alloc::Global;

/// Adds the timer of a processor.
fn add_ticks(plan: &mut List<Planned>, cpu: u8) -> Result<(), NoMemory>
    ensures { OnOk result (plan.new ≡ plan.old ++ ticks_of cpu) }
{
    for tick in 1..11 {
        plan.push(Planned {
            step: 50 * tick,
            cpu,
            vector: 32,
        })?;
    }
    Ok(())
}

/// The timers of so many processors.
fn plan_for(alloc: Global, cpus: u8) -> Result<List<Planned>, NoMemory>
    ensures { IfOk result (λ plan. plan ≡ flat_map ticks_of (range_with_len 0 cpus)) }
{
    let mut plan = List::new(alloc);
    for cpu in 0..cpus {
        add_ticks(&mut plan, cpu)?;
    }
    Ok(plan)
}

/// Where a processor starts: in the task of its scheduler, if there is one.
fn start_for(schedulers: u16, cpu: u16) -> u32
    requires { cpu < 8 }
    ensures { result ≡ start_for schedulers cpu }
{
    if cpu < schedulers {
        u32::from(selector_of(cpu))
    } else {
        0
    }
}

/// Where each processor starts.
fn starts_for(schedulers: u16) -> [u32; 8]
    ensures { result ≡ map (start_for schedulers) (range_with_len 0 8) }
{
    [
        start_for(schedulers, 0),
        start_for(schedulers, 1),
        start_for(schedulers, 2),
        start_for(schedulers, 3),
        start_for(schedulers, 4),
        start_for(schedulers, 5),
        start_for(schedulers, 6),
        start_for(schedulers, 7),
    ]
}

/// The image with so many schedulers and workers.
#[tactic(auto, unfolding(crate::specs::Generated::image_with))]
fn image_with(alloc: Global, schedulers: u8, workers: u8) -> Result<Image, NoMemory>
    requires schedulers { schedulers ≤ 4 }
    requires workers { workers ≤ 4 }
    ensures { IfOk result (λ image. image ≡ image_with schedulers workers) }
{
    let (schedulers_wide, workers_wide) = (u16::from(schedulers), u16::from(workers));
    Ok(Image {
        memory: 65_536,
        cpus: schedulers,
        flags: (1 << schedulers) - 1,
        gdt: TableAt {
            base: 0x1000,
            limit: 8 * (3 + (schedulers_wide + workers_wide)) - 1,
        },
        idt: TableAt {
            base: 0x2000,
            limit: 0x107,
        },
        starts: starts_for(schedulers_wide),
        plan: plan_for(alloc, schedulers)?,
        sections: sections_for(alloc, schedulers_wide, workers_wide)?,
    })
}

/// How many schedulers the image of a number has, and so how many processors: 2 to 4.
pub fn schedulers(number: u64) -> u8
    ensures value { result ≡ schedulers_of number }
    ensures most { result ≤ 4 }
{
    2 + (number % 3) as u8
}

/// How many workers the image of a number has: 1 to 4.
pub fn workers(number: u64) -> u8
    ensures value { result ≡ workers_of number }
    ensures most { result ≤ 4 }
{
    1 + (number / 3 % 4) as u8
}

/// The image that is made from a number: 2 to 4 processors, each of which starts in the task of a scheduler, and 1 to 4 tasks that
/// the schedulers call.
pub fn generate(alloc: Global, number: u64) -> Result<Image, NoMemory>
    ensures image { IfOk result (λ image. image ≡ generated number) }
    ensures valid { IfOk result IsValid }
{
    image_with(alloc, schedulers(number), workers(number))
}

/// The bytes of the image that is made from a number.
pub fn image_from(alloc: Global, number: u64) -> Result<Vec<u8>, NoMemory>
    ensures text { IfOk result (λ v. v.items ≡ image_text (generated number)) }
    ensures image { IfOk result (λ v. ImageOf v.items (generated number)) }
{
    write_image(alloc, &generate(alloc, number)?)
}
