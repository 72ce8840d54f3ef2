//! Books and verdicts of small histories, against what the rules say in words.

mod book;
mod cycles;
mod image;

ghost use Rattle.std.specs.Prelude.{◌<◌, All, IsTrue};

use m386_base::ask::{Ask, Cycle, Role, Space};
use m386_base::fault::NoMemory;
use m386_base::list::List;
use m386_book::clean::clean;
use m386_book::holding::{Holding, book};
use m386_book::verdict::Verdict;
use m386_image::image::{Image, Section, TableAt};
use std::alloc::Global;

/// An image of two processors over 16,384 bytes, with this GDT and nothing in memory.
fn empty_image(alloc: Global, base: u32, limit: u16) -> Image {
    Image {
        memory: 16384,
        cpus: 2,
        flags: 0,
        gdt: TableAt { base, limit },
        idt: TableAt { base: 0, limit: 0 },
        starts: [0; 8],
        plan: List::new(alloc),
        sections: List::new(alloc),
    }
}

/// A section of these bytes.
fn section(alloc: Global, addr: u32, bytes: &[u8]) -> Result<Section, NoMemory> {
    Ok(Section {
        addr,
        bytes: List::of(Vec::from_slice(alloc, bytes)?),
    })
}

/// A cycle of a processor in memory.
fn cycle_of(cpu: u8, write: bool, role: Role, addr: u32, enables: u8, value: u32) -> Cycle {
    Cycle {
        cpu,
        ask: Ask {
            space: Space::Memory,
            write,
            joined: false,
            role,
            part: 0,
            addr,
            enables,
            value,
        },
    }
}

/// A write of one byte in memory.
fn byte_written(cpu: u8, role: Role, place: u32) -> Cycle {
    cycle_of(cpu, true, role, place & 0xffff_fffc, 1 << (place & 3), 0)
}

/// Whether each cycle is of a processor that there may be.
fn are_of_processors(cycles: &[Cycle]) -> bool
    ensures { IsTrue result → All (λ c. c.cpu < 8) cycles.now }
{
    cycles.iter().all(|cycle| cycle.cpu < 8)
}

/// The verdict on cycles of the processors 0 to 7.
fn judged(alloc: Global, image: &Image, cycles: &[Cycle]) -> Result<Verdict, NoMemory> {
    if are_of_processors(cycles) {
        clean(alloc, image, cycles)
    } else {
        Err(NoMemory)
    }
}

/// The book of cycles of the processors 0 to 7.
fn booked(alloc: Global, image: &Image, cycles: &[Cycle]) -> Result<Holding, NoMemory> {
    if are_of_processors(cycles) {
        book(alloc, image, cycles)
    } else {
        Err(NoMemory)
    }
}

/// What is said where a rule fails: one of the image up to 5, and one of the cycles from 6 on, at this cycle. 0 stands for
/// none.
fn failure(rule: u8, index: u64) -> Result<Verdict, NoMemory> {
    match rule {
        0 => Ok(Verdict::Clean),
        1..=5 => Ok(Verdict::Static(rule)),
        _ => Ok(Verdict::At { rule, index }),
    }
}
