//! The verdict on a run.
ghost use Rattle.std.specs.Prelude.{◌<◌, All, IfOk};
ghost use Rattle.m386_book.specs.Segments.{AreSegments};
ghost use Rattle.m386_book.specs.Verdict.{IsFirstFailure, NoneStatic};

use crate::rules::{failed_rule, failed_static, gdt_is_outside};
use crate::segments::{Segments, segments_of};
use crate::table::gdt_bytes;
use crate::tasks::Tasks;
use crate::verdict::Verdict;
use m386_base::ask::Cycle;
use m386_base::fault::NoMemory;
use m386_image::image::Image;
use std::alloc::Global;

/// The first failure of a run: the least of the rules 1 to 5 that the image fails, else the first cycle that fails one of
/// the rules 6 to 9, else none. It takes time in proportion to the cycles, and memory for the image's TSSs and for the tasks
/// that are held and wait.
pub fn clean(alloc: Global, image: &Image, cycles: &[Cycle]) -> Result<Verdict, NoMemory>
    requires { All (λ c. c.cpu < 8) cycles.now }
    ensures { IfOk result (IsFirstFailure image.now cycles.now) }
{
    if gdt_is_outside(image) {
        return Ok(Verdict::Static(1));
    }
    let table = gdt_bytes(alloc, image)?;
    let segments = segments_of(alloc, image, &table)?;
    if let Some(rule) = failed_static(image, &segments) {
        return Ok(Verdict::Static(rule));
    }
    first_failed_cycle(alloc, image, &segments, cycles)
}

/// The first failure of a run whose image fails no rule.
fn first_failed_cycle(
    alloc: Global,
    image: &Image,
    segments: &Segments,
    cycles: &[Cycle],
) -> Result<Verdict, NoMemory>
    requires cpus { All (λ c. c.cpu < 8) cycles.now }
    requires none { NoneStatic image.now }
    requires segments { AreSegments image.now segments.now }
    ensures { IfOk result (IsFirstFailure image.now cycles.now) }
{
    let mut tasks = Tasks::new(alloc);
    for (index, cycle) in cycles.iter().enumerate() {
        if let Some(rule) = failed_rule(image, segments, &tasks, cycle) {
            return Ok(Verdict::At {
                rule,
                index: index as u64,
            });
        }
        tasks.follow(image, cycle)?;
    }
    Ok(Verdict::Clean)
}
