//! The sections of the image.
ghost use Rattle.std.specs.Prelude.{◌≡◌, ◌+◌, ◌*◌, ◌≤◌, ◌<◌, ◌++◌, ◌∷◌, [], map, OnOk, IfOk};
ghost use Rattle.std.specs.List.{range_with_len};
ghost use Rattle.m386_gen.specs.Generated.{code_of, gates, handlers, scheduler_section, section_at, sections_for, tables, tss_section, worker_section};

use crate::code::{FAULT_CODE, TIMER_CODE, scheduler_code, worker_code};
use crate::tables::{gate_bytes, gdt_bytes, tss_bytes, tss_of};
use m386_base::fault::NoMemory;
use m386_base::list::List;
use m386_image::image::Section;
use std::alloc::Global;

/// Adds a section.
fn add(sections: &mut List<Section>, addr: u32, bytes: Vec<u8>) -> Result<(), NoMemory>
    ensures { OnOk result (sections.new ≡ sections.old ++ section_at addr bytes.items ∷ []) }
{
    sections.push(Section {
        addr,
        bytes: List::of(bytes),
    })
}

/// Adds the gates of the IDT: a trap gate for the general protection fault, and an interrupt gate for the timer.
#[tactic(auto, using(std::proofs::lemmas::List::append_assoc))]
fn add_gates(alloc: Global, sections: &mut List<Section>) -> Result<(), NoMemory>
    ensures { OnOk result (sections.new ≡ sections.old ++ gates) }
{
    add(
        sections,
        0x2068,
        Vec::from_slice(alloc, &gate_bytes(0x5000, 0x8f))?,
    )?;
    add(
        sections,
        0x2100,
        Vec::from_slice(alloc, &gate_bytes(0x5100, 0x8e))?,
    )
}

/// Adds the GDT, and the gates of the IDT.
#[tactic(auto, using(std::proofs::lemmas::List::append_assoc))]
fn add_tables(alloc: Global, sections: &mut List<Section>, tasks: u32) -> Result<(), NoMemory>
    requires { tasks ≤ 8 }
    ensures { OnOk result (sections.new ≡ sections.old ++ tables tasks) }
{
    add(sections, 0x1000, gdt_bytes(alloc, tasks)?)?;
    add_gates(alloc, sections)
}

/// Where the code of a task begins, of which the first are schedulers.
fn code_of(schedulers: u32, task: u32) -> u32
    requires { task < 8 }
    ensures { result ≡ code_of schedulers task }
{
    if task < schedulers {
        0x4000 + 0x100 * task
    } else {
        0x4800 + 0x100 * (task - schedulers)
    }
}

/// Adds the TSS of each task.
fn add_tasks(
    alloc: Global,
    sections: &mut List<Section>,
    schedulers: u32,
    tasks: u32,
) -> Result<(), NoMemory>
    requires { tasks ≤ 8 }
    ensures { OnOk result (sections.new ≡ sections.old ++ map (tss_section schedulers) (range_with_len 0 tasks)) }
{
    for task in 0..tasks {
        let bytes = tss_bytes(alloc, code_of(schedulers, task), 0x9000 + 0x400 * task)?;
        add(sections, tss_of(task), bytes)?;
    }
    Ok(())
}

/// Adds the code of each scheduler.
fn add_schedulers(
    alloc: Global,
    sections: &mut List<Section>,
    schedulers: u16,
    workers: u16,
) -> Result<(), NoMemory>
    requires { schedulers + workers ≤ 8 }
    ensures { OnOk result (sections.new ≡ sections.old ++ map (scheduler_section schedulers workers) (range_with_len 0 schedulers)) }
{
    for number in 0..schedulers {
        let code = scheduler_code(alloc, schedulers, workers)?;
        add(sections, 0x4000 + 0x100 * u32::from(number), code)?;
    }
    Ok(())
}

/// Adds the code of each worker.
fn add_workers(alloc: Global, sections: &mut List<Section>, workers: u32) -> Result<(), NoMemory>
    requires { workers ≤ 8 }
    ensures { OnOk result (sections.new ≡ sections.old ++ map worker_section (range_with_len 0 workers)) }
{
    for number in 0..workers {
        let code = worker_code(alloc, 0x8004 + 4 * number)?;
        add(sections, 0x4800 + 0x100 * number, code)?;
    }
    Ok(())
}

/// Adds what the gates lead to.
#[tactic(auto, using(std::proofs::lemmas::List::append_assoc))]
fn add_handlers(alloc: Global, sections: &mut List<Section>) -> Result<(), NoMemory>
    ensures { OnOk result (sections.new ≡ sections.old ++ handlers) }
{
    add(sections, 0x5000, Vec::from_slice(alloc, &FAULT_CODE)?)?;
    add(sections, 0x5100, Vec::from_slice(alloc, &TIMER_CODE)?)
}

/// Adds the code of all tasks, and of the handlers.
#[tactic(auto, using(std::proofs::lemmas::List::append_assoc))]
fn add_code(
    alloc: Global,
    sections: &mut List<Section>,
    schedulers: u16,
    workers: u16,
) -> Result<(), NoMemory>
    requires { schedulers + workers ≤ 8 }
    ensures { OnOk result (sections.new ≡ sections.old ++ (map (scheduler_section schedulers workers) (range_with_len 0 schedulers) ++ (map worker_section (range_with_len 0 workers) ++ handlers))) }
{
    add_schedulers(alloc, sections, schedulers, workers)?;
    add_workers(alloc, sections, u32::from(workers))?;
    add_handlers(alloc, sections)
}

/// The sections of an image with so many schedulers and workers.
#[tactic(auto, using(std::proofs::lemmas::List::append_assoc))]
pub fn sections_for(alloc: Global, schedulers: u16, workers: u16) -> Result<List<Section>, NoMemory>
    requires { schedulers + workers ≤ 8 }
    ensures { IfOk result (λ sections. sections ≡ sections_for schedulers workers) }
{
    let tasks = u32::from(schedulers + workers);
    let mut sections = List::new(alloc);
    add_tables(alloc, &mut sections, tasks)?;
    add_tasks(alloc, &mut sections, u32::from(schedulers), tasks)?;
    add_code(alloc, &mut sections, schedulers, workers)?;
    Ok(sections)
}
