//! What a run of an image begins with: the state of each processor, and the bytes.
ghost use Rattle.std.specs.Prelude.{◌≡◌, ◌<◌, IfOk};
ghost use Rattle.m386_image.specs.Format.{IsValid};
ghost use Rattle.m386_step.specs.Run.{table_reg, start_of, BeginsWith};

use m386_base::fault::NoMemory;
use m386_image::image::{Image, TableAt};
use m386_memory::store::Store;
use m386_state::proc::{Proc, start_bare, start_task};
use m386_state::segment::TableReg;
use std::alloc::Global;

/// The register of a descriptor table.
fn register_of(table: &TableAt) -> TableReg
    ensures { result ≡ table_reg table.now }
{
    TableReg {
        base: table.base,
        limit: table.limit,
    }
}

/// The state in which a processor of an image begins. It takes no memory.
pub fn start(image: &Image, cpu: u8) -> Proc
    requires { cpu < 8 }
    ensures { result ≡ start_of image.now cpu }
{
    let at = image.starts[cpu as usize];
    let gdtr = register_of(&image.gdt);
    let idtr = register_of(&image.idt);
    if (image.flags >> cpu) % 2 == 0 {
        start_bare(at, gdtr, idtr)
    } else {
        start_task((at % 0x1_0000) as u16, gdtr, idtr)
    }
}

/// The memory and the ports with which a run of an image begins.
#[tactic(auto, using(crate::proofs::Beginnings::fills_none, crate::proofs::Beginnings::fits_next, crate::proofs::Beginnings::fills_next, crate::proofs::Beginnings::fills_all))]
pub fn first_store(alloc: Global, image: &Image) -> Result<Store, NoMemory>
    requires { IsValid image.now }
    ensures { IfOk result (BeginsWith image.now) }
{
    let mut store = Store::new(alloc, image.memory)?;
    for section in image.sections.as_slice() {
        store.fill(section.addr, section.bytes.as_slice());
    }
    Ok(store)
}
