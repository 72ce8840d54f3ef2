//! An image from bytes.
ghost use Rattle.std.specs.Prelude.{◌≡◌, ◌↔◌, ◌⊎◌, ◌+◌, ◌*◌, ◌<◌, ◌≤◌, length, Result, Ok, Err, IsTrue, IfOk, MatchResult};
ghost use Rattle.m386_image.specs.Fault.{FirstFault};
ghost use Rattle.m386_image.specs.Format.{IsMemorySize, HasHeader, ImageOf, plan_end, cpus_of, plan_in, are_ordered, flags_of, starts_of, start_in, start_word, u32_at};
ghost use Rattle.m386_image.specs.declared.fault.ImageFault.{ImageFault};
ghost use Rattle.m386_image.specs.declared.fault.ReadStop.TheVariants.{Memory, Bad};
ghost use Rattle.m386_image.specs.declared.image.Image.{Image};

use crate::fault::{ImageFault, ReadStop};
use crate::image::{Image, Planned, TableAt};
use crate::number::{read_u16, read_u32};
use crate::plan::{is_ordered, plan_of};
use crate::section::{sections_of, walk_sections};
use m386_base::fault::NoMemory;
use m386_base::list::List;
use std::alloc::Global;

/// How many bytes the header has.
const HEADER: usize = 64;

// The places of its fields.
const VERSION: usize = 4;

const CPUS: usize = 6;

const FLAGS: usize = 7;

const MEMORY: usize = 8;

const GDT_BASE: usize = 12;

const GDT_LIMIT: usize = 16;

const IDT_LIMIT: usize = 18;

const IDT_BASE: usize = 20;

const PLAN_COUNT: usize = 24;

const SECTION_COUNT: usize = 28;

const STARTS: usize = 32;

/// Whether a machine may have so much memory.
fn is_memory_size(bytes: u32) -> bool
    ensures { IsTrue result ↔ IsMemorySize bytes }
{
    (4_096..=16_777_216).contains(&bytes) && bytes % 4_096 == 0
}

/// The faults of the header.
fn check_header(bytes: &[u8]) -> Result<(), ImageFault>
    ensures { MatchResult result (λ _. HasHeader bytes.now) (FirstFault bytes.now) }
{
    if bytes.len() < HEADER {
        return Err(ImageFault::ShortHeader);
    }
    if &bytes[..4] != b"M386".as_slice() {
        return Err(ImageFault::Magic);
    }
    if read_u16(bytes, VERSION) != 1 {
        return Err(ImageFault::Version);
    }
    if !is_memory_size(read_u32(bytes, MEMORY)) {
        return Err(ImageFault::MemorySize);
    }
    if bytes[CPUS] == 0 || bytes[CPUS] > 8 {
        return Err(ImageFault::Processors);
    }
    if u16::from(bytes[FLAGS]) >> bytes[CPUS] != 0 {
        return Err(ImageFault::Flags);
    }
    Ok(())
}

/// The place behind the plan.
fn plan_end_of(bytes: &[u8]) -> usize
    requires { HasHeader bytes.now }
    ensures { result ≡ plan_end bytes.now }
{
    HEADER + 8 * read_u32(bytes, PLAN_COUNT) as usize
}

/// Whether the plan's entries are of processors that there are, and rise.
#[tactic(auto, unfolding(crate::specs::Format::plan_in))]
fn is_plan_ordered(bytes: &[u8]) -> bool
    requires header { HasHeader bytes.now }
    requires room { plan_end bytes.now ≤ length bytes.now }
    ensures { result ≡ are_ordered (cpus_of bytes.now) 0 (plan_in bytes.now) }
{
    let (_, behind) = bytes.split_at(HEADER);
    is_ordered(behind, read_u32(bytes, PLAN_COUNT), bytes[CPUS])
}

/// The plan.
#[tactic(auto, unfolding(crate::specs::Format::plan_in))]
fn read_plan(alloc: Global, bytes: &[u8]) -> Result<List<Planned>, NoMemory>
    requires header { HasHeader bytes.now }
    requires room { plan_end bytes.now ≤ length bytes.now }
    ensures { IfOk result (λ plan. plan ≡ plan_in bytes.now) }
{
    let (_, behind) = bytes.split_at(HEADER);
    plan_of(alloc, behind, read_u32(bytes, PLAN_COUNT))
}

/// The faults of what follows the header.
fn check_body(bytes: &[u8]) -> Result<(), ImageFault>
    requires { HasHeader bytes.now }
    ensures { MatchResult result (λ _. (image : Image) × ImageOf bytes.now image) (FirstFault bytes.now) }
{
    let at = plan_end_of(bytes);
    if bytes.len() < at {
        return Err(ImageFault::Truncated);
    }
    let Some(walk) = walk_sections(
        &bytes[at..],
        read_u32(bytes, SECTION_COUNT),
        read_u32(bytes, MEMORY),
    ) else {
        return Err(ImageFault::Truncated);
    };
    if !is_plan_ordered(bytes) {
        return Err(ImageFault::PlanOrder);
    }
    if !walk.placed {
        return Err(ImageFault::Section);
    }
    if !walk.rest.is_empty() {
        return Err(ImageFault::Trailing);
    }
    Ok(())
}

/// The first fault, or that the bytes are an image.
pub(crate) fn check_image(bytes: &[u8]) -> Result<(), ImageFault>
    ensures { MatchResult result (λ _. (image : Image) × ImageOf bytes.now image) (FirstFault bytes.now) }
{
    check_header(bytes)?;
    check_body(bytes)
}

/// Where a processor starts: of a start word that is a selector the high half is ignored.
fn start_of(bytes: &[u8], cpu: usize) -> u32
    requires long { 64 ≤ length bytes.now }
    requires below { cpu < 8 }
    ensures { result ≡ start_in (flags_of bytes.now) cpu (u32_at (32 + 4 * cpu) bytes.now) }
{
    let word = read_u32(bytes, STARTS + 4 * cpu);
    if (bytes[FLAGS] >> cpu) % 2 == 0 {
        word
    } else {
        word % 0x1_0000
    }
}

/// Where each processor starts.
fn read_starts(bytes: &[u8]) -> [u32; 8]
    requires { HasHeader bytes.now }
    ensures { result ≡ starts_of bytes.now }
{
    let cpus = bytes[CPUS] as usize;
    let mut starts = [0; 8];
    for (cpu, start) in starts.iter_mut().enumerate() {
        if cpu < cpus {
            *start = start_of(bytes, cpu);
        }
    }
    starts
}

/// The image that the bytes are.
fn image_in(alloc: Global, bytes: &[u8]) -> Result<Image, NoMemory>
    requires { (image : Image) × ImageOf bytes.now image }
    ensures { IfOk result (ImageOf bytes.now) }
{
    let at = plan_end_of(bytes);
    let plan = read_plan(alloc, bytes)?;
    let sections = sections_of(alloc, &bytes[at..], read_u32(bytes, SECTION_COUNT))?;
    Ok(Image {
        memory: read_u32(bytes, MEMORY),
        cpus: bytes[CPUS],
        flags: bytes[FLAGS],
        gdt: TableAt {
            base: read_u32(bytes, GDT_BASE),
            limit: read_u16(bytes, GDT_LIMIT),
        },
        idt: TableAt {
            base: read_u32(bytes, IDT_BASE),
            limit: read_u16(bytes, IDT_LIMIT),
        },
        starts: read_starts(bytes),
        plan,
        sections,
    })
}

/// The image that the bytes are, or the first of their faults. The work takes time in proportion to the bytes.
pub fn read_image(alloc: Global, bytes: &[u8]) -> Result<Image, ReadStop>
    ensures ok { IfOk result (ImageOf bytes.now) }
    // Bytes that are an image are read, unless memory runs out.
    ensures only { (image : Image) → ImageOf bytes.now image → (result ≡ Ok image) ⊎ (result ≡ Err Memory) }
    ensures bad { (f : ImageFault) → (result ≡ Err (Bad f)) ↔ FirstFault bytes.now f }
    ensures memory { result ≡ Err Memory → (image : Image) × ImageOf bytes.now image }
{
    check_image(bytes)?;
    Ok(image_in(alloc, bytes)?)
}
