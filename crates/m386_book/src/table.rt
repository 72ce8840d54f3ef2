//! The bytes of an image's GDT.
ghost use Rattle.std.specs.Prelude.{◌≡◌, ◌+◌, ◌-◌, ◌<◌, ℕ, IfOk, length, slice_index, if◌then◌else◌};
ghost use Rattle.m386_image.specs.Memory.{covers};
ghost use Rattle.m386_book.specs.Tss.{IsTable};

use m386_base::fault::NoMemory;
use m386_image::image::{Image, Section};
use std::alloc::Global;

/// Puts into bytes, which stand from an address on, what a section has of them.
fn copy_section(section: &Section, base: u32, bytes: &mut [u8])
    ensures len { length bytes.new ≡ length bytes.old }
    ensures bytes { (i : ℕ) → i < length bytes.old → slice_index bytes.new i
        ≡ (if covers section.now (base + i) then slice_index section.now.bytes (base + i - section.now.addr) else slice_index bytes.old i) }
{
    let content = section.bytes.as_slice();
    let base = base as usize;
    let addr = section.addr as usize;
    let start = base.max(addr);
    let end = (base + bytes.len()).min(addr + content.len());
    for place in start..end {
        bytes[place - base] = content[place - addr];
    }
}

/// The bytes of the GDT that an image begins with: those of the sections that cover them, and zeros.
pub(crate) fn gdt_bytes(alloc: Global, image: &Image) -> Result<Vec<u8>, NoMemory>
    ensures { IfOk result (λ table. IsTable image.now table.items) }
{
    let mut table = vec![in alloc; 0; image.gdt.limit as usize + 1]?;
    let sections = image.sections.as_slice();
    let mut left = sections.len();
    while left > 0 {
        left -= 1;
        copy_section(&sections[left], image.gdt.base, &mut table);
    }
    Ok(table)
}
