//! An image as bytes.
ghost use Rattle.std.specs.Prelude.{◌≡◌, ◌++◌, ◌^◌, ◌<◌, length, OnOk, IfOk};
ghost use Rattle.m386_image.specs.Format.{HasText, u16_bytes, u32_bytes, head_text, tables_text, counts_text, entry_text, section_text, image_text, HasImageText, IsValid, ImageOf};
ghost use Rattle.std.specs.List.{flat_map, AllByRecursion};

use crate::image::{Image, Planned, Section};
use byteorder::{ByteOrder, LittleEndian};
use m386_base::fault::NoMemory;
use std::alloc::Global;

/// Appends the two bytes of a number.
#[tactic(auto, unfolding(crate::specs::Format::u16_bytes))]
fn put_u16(out: &mut Vec<u8>, number: u16) -> Result<(), NoMemory>
    ensures { OnOk result (out.new.items ≡ out.old.items ++ u16_bytes number) }
{
    let mut field = [0; 2];
    LittleEndian::write_u16(&mut field, number);
    out.extend_from_slice(&field)?;
    Ok(())
}

/// Appends the four bytes of a number.
#[tactic(auto, unfolding(crate::specs::Format::u32_bytes))]
fn put_u32(out: &mut Vec<u8>, number: u32) -> Result<(), NoMemory>
    ensures { OnOk result (out.new.items ≡ out.old.items ++ u32_bytes number) }
{
    let mut field = [0; 4];
    LittleEndian::write_u32(&mut field, number);
    out.extend_from_slice(&field)?;
    Ok(())
}

/// Appends what the header says of the machine.
#[tactic(auto, using(std::proofs::lemmas::List::append_assoc))]
fn put_machine(out: &mut Vec<u8>, image: &Image) -> Result<(), NoMemory>
    ensures { OnOk result (out.new.items ≡ out.old.items ++ head_text image.now) }
{
    out.extend_from_slice(b"M386")?;
    put_u16(out, 1)?;
    out.extend_from_slice(&[image.cpus, image.flags])?;
    put_u32(out, image.memory)
}

/// Appends where the descriptor tables lie.
#[tactic(auto, using(std::proofs::lemmas::List::append_assoc))]
fn put_tables(out: &mut Vec<u8>, image: &Image) -> Result<(), NoMemory>
    ensures { OnOk result (out.new.items ≡ out.old.items ++ tables_text image.now) }
{
    put_u32(out, image.gdt.base)?;
    put_u16(out, image.gdt.limit)?;
    put_u16(out, image.idt.limit)?;
    put_u32(out, image.idt.base)
}

/// Appends how many plan entries and sections there are.
#[tactic(auto, using(std::proofs::lemmas::List::append_assoc))]
fn put_counts(out: &mut Vec<u8>, image: &Image) -> Result<(), NoMemory>
    requires plan { length image.now.plan < 2 ^ 32 }
    requires sections { length image.now.sections < 2 ^ 32 }
    ensures { OnOk result (out.new.items ≡ out.old.items ++ counts_text image.now) }
{
    put_u32(out, image.plan.as_slice().len() as u32)?;
    put_u32(out, image.sections.as_slice().len() as u32)
}

/// Appends where each processor starts.
fn put_starts(out: &mut Vec<u8>, starts: &[u32]) -> Result<(), NoMemory>
    ensures { OnOk result (out.new.items ≡ out.old.items ++ flat_map u32_bytes starts.now) }
{
    for &start in starts {
        put_u32(out, start)?;
    }
    Ok(())
}

/// Appends an entry of the plan. The last two of its bytes are 0.
#[tactic(auto, using(std::proofs::lemmas::List::append_assoc))]
fn put_entry(out: &mut Vec<u8>, entry: &Planned) -> Result<(), NoMemory>
    ensures { OnOk result (out.new.items ≡ out.old.items ++ entry_text entry.now) }
{
    put_u32(out, entry.step)?;
    out.extend_from_slice(&[entry.cpu, entry.vector, 0, 0])?;
    Ok(())
}

/// Appends the plan.
fn put_plan(out: &mut Vec<u8>, plan: &[Planned]) -> Result<(), NoMemory>
    ensures { OnOk result (out.new.items ≡ out.old.items ++ flat_map entry_text plan.now) }
{
    for entry in plan {
        put_entry(out, entry)?;
    }
    Ok(())
}

/// Appends a section.
#[tactic(auto, using(std::proofs::lemmas::List::append_assoc))]
fn put_section(out: &mut Vec<u8>, section: &Section) -> Result<(), NoMemory>
    requires { length section.now.bytes < 2 ^ 32 }
    ensures { OnOk result (out.new.items ≡ out.old.items ++ section_text section.now) }
{
    let bytes = section.bytes.as_slice();
    put_u32(out, section.addr)?;
    put_u32(out, bytes.len() as u32)?;
    out.extend_from_slice(bytes)?;
    Ok(())
}

/// Appends sections.
fn put_sections(out: &mut Vec<u8>, sections: &[Section]) -> Result<(), NoMemory>
    requires { AllByRecursion HasText sections.now }
    ensures { OnOk result (out.new.items ≡ out.old.items ++ flat_map section_text sections.now) }
{
    for section in sections {
        put_section(out, section)?;
    }
    Ok(())
}

/// The bytes of an image that need not be valid, with 0 in each word and byte that a reader ignores. Only its counts of plan entries
/// and of sections, and the numbers of each section, have to fit their places. A reader tells the first fault of an image that isn't
/// valid, such as one with a flag of a processor that there is not. The work takes time in proportion to the bytes.
#[tactic(auto, using(std::proofs::lemmas::List::append_assoc), unfolding(crate::specs::Format::image_text))]
pub fn text_of(alloc: Global, image: &Image) -> Result<Vec<u8>, NoMemory>
    requires { HasImageText image.now }
    ensures { IfOk result (λ v. v.items ≡ image_text image.now) }
{
    let mut out = Vec::new(alloc);
    put_machine(&mut out, image)?;
    put_tables(&mut out, image)?;
    put_counts(&mut out, image)?;
    put_starts(&mut out, &image.starts)?;
    put_plan(&mut out, image.plan.as_slice())?;
    put_sections(&mut out, image.sections.as_slice())?;
    Ok(out)
}

/// The bytes of a valid image: those that are read as this image, with 0 in each word and byte that a reader ignores. The work
/// takes time in proportion to the bytes.
pub fn write_image(alloc: Global, image: &Image) -> Result<Vec<u8>, NoMemory>
    requires { IsValid image.now }
    ensures text { IfOk result (λ v. v.items ≡ image_text image.now) }
    ensures ok { IfOk result (λ v. ImageOf v.items image.now) }
{
    text_of(alloc, image)
}
