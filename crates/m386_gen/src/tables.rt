//! The descriptor tables, and the task state segments.
ghost use Rattle.std.specs.Prelude.{◌≡◌, ◌+◌, ◌*◌, ◌≤◌, ◌<◌, ◌++◌, IfOk, OnOk};
ghost use Rattle.std.specs.List.{flat_map, range_with_len};
ghost use Rattle.m386_desc.specs.Bytes.{descriptor_bytes};
ghost use Rattle.m386_image.specs.Format.{u32_bytes};
ghost use Rattle.m386_gen.specs.Generated.{gate_bytes, gdt_bytes, selector_of, task_descriptor, tss_doublewords, tss_of};

use m386_base::desc::Desc;
use m386_base::fault::NoMemory;
use m386_desc::bytes::desc_bytes;
use std::alloc::Global;

/// The selector of a task.
pub fn selector_of(task: u16) -> u16
    requires { task < 8 }
    ensures { result ≡ selector_of task }
{
    0x18 + 8 * task
}

/// Where the TSS of a task lies.
pub fn tss_of(task: u32) -> u32
    requires { task < 8 }
    ensures { result ≡ tss_of task }
{
    0x3000 + 0x80 * task
}

/// Appends the descriptor of a segment.
fn put_descriptor(out: &mut Vec<u8>, desc: &Desc) -> Result<(), NoMemory>
    ensures { OnOk result (out.new.items ≡ out.old.items ++ descriptor_bytes desc.now) }
{
    out.extend_from_slice(&desc_bytes(desc))?;
    Ok(())
}

/// Appends the descriptor of each task's TSS.
fn put_tasks(out: &mut Vec<u8>, tasks: u32) -> Result<(), NoMemory>
    requires { tasks ≤ 8 }
    ensures { OnOk result (out.new.items ≡ out.old.items ++ flat_map task_descriptor (range_with_len 0 tasks)) }
{
    for task in 0..tasks {
        put_descriptor(out, &Desc::new(tss_of(task), 0x67, 0x89, 0))?;
    }
    Ok(())
}

/// The GDT.
#[tactic(auto, using(std::proofs::lemmas::List::append_assoc))]
pub fn gdt_bytes(alloc: Global, tasks: u32) -> Result<Vec<u8>, NoMemory>
    requires { tasks ≤ 8 }
    ensures { IfOk result (λ v. v.items ≡ gdt_bytes tasks) }
{
    let mut out = Vec::new(alloc);
    put_descriptor(&mut out, &Desc::new(0, 0, 0, 0))?;
    put_descriptor(&mut out, &Desc::new(0, 0xfffff, 0x9a, 0xc))?;
    put_descriptor(&mut out, &Desc::new(0, 0xfffff, 0x92, 0xc))?;
    put_tasks(&mut out, tasks)?;
    Ok(out)
}

/// A gate that leads to an offset in the code segment (PRM 9.5).
#[tactic(auto, unfolding(crate::specs::Generated::gate_bytes))]
pub fn gate_bytes(offset: u32, access: u8) -> [u8; 8]
    ensures { result ≡ gate_bytes offset access }
{
    [
        (offset % 0x100) as u8,
        (offset / 0x100 % 0x100) as u8,
        8,
        0,
        0,
        access,
        (offset / 0x1_0000 % 0x100) as u8,
        (offset / 0x100_0000 % 0x100) as u8,
    ]
}

/// Doublewords as bytes.
#[tactic(auto, unfolding(m386_image::specs::Format::u32_bytes))]
fn bytes_of(alloc: Global, doublewords: &[u32]) -> Result<Vec<u8>, NoMemory>
    ensures { IfOk result (λ v. v.items ≡ flat_map u32_bytes doublewords.now) }
{
    let mut out = Vec::new(alloc);
    for doubleword in doublewords {
        out.extend_from_slice(&doubleword.to_le_bytes())?;
    }
    Ok(out)
}

/// The TSS of a task, by its EIP and ESP.
pub fn tss_bytes(alloc: Global, eip: u32, esp: u32) -> Result<Vec<u8>, NoMemory>
    ensures { IfOk result (λ v. v.items ≡ flat_map u32_bytes (tss_doublewords eip esp)) }
{
    bytes_of(
        alloc,
        &[
            0, 0, 0, 0, 0, 0, 0, 0, eip, 0x202, 0, 0, 0, 0, esp, 0, 0, 0, 0, 8, 0x10, 0x10, 0, 0,
            0, 0,
        ],
    )
}
