//! The bytes of memory and of the ports, all of them kept.
ghost use Rattle.std.specs.Prelude.{◌≡◌, ◌≤◌, ◌+◌, ◌%◌, IfOk, length};
ghost use Rattle.m386_base.specs.Bus.{IsEnabled};
ghost use Rattle.m386_memory.specs.Contents.{IsSized, zeros, filled, byte_in, group_in, group_bytes, with_written, Stand};

use crate::group;
use m386_base::ask::Space;
use m386_base::fault::NoMemory;
use std::alloc::Global;
use std::marker::Model;

/// The number of byte ports.
const PORTS: usize = 0x1_0000;

/// Memory of whole pages, from 4,096 to 16,777,216 bytes, and the 65,536 byte ports. Contracts see the bytes.
#[derive(Debug, Drop)]
pub struct Store {
    memory: Vec<u8>,
    ports: Vec<u8>,
}

impl Model for Store {
    ghost use Rattle.m386_memory.specs.Contents.{Contents, IsSized};

    ghost Value = { Contents };

    ghost view = { λ s. record { memory = s.memory.items; ports = s.ports.items } };

    ghost invariant = { λ s. IsSized (record { memory = s.memory.items; ports = s.ports.items }) };
}

/// This many bytes of 0.
#[tactic(auto, unfolding(crate::specs::Contents::zeros))]
fn zeros_of(alloc: Global, count: usize) -> Result<Vec<u8>, NoMemory>
    ensures { IfOk result (λ v. v.items ≡ zeros count) }
{
    Ok(vec![in alloc; 0; count]?)
}

impl Store {
    /// Memory of `size` bytes and the ports, with every byte 0. `size` is a multiple of 4,096 from 4,096 to 16,777,216.
    pub fn new(alloc: Global, size: u32) -> Result<Store, NoMemory>
        requires pages { size % 4096 ≡ 0 }
        requires least { 4096 ≤ size }
        requires most { size ≤ 16777216 }
        ensures memory { IfOk result (λ s. s.memory ≡ zeros size) }
        ensures ports { IfOk result (λ s. s.ports ≡ zeros 65536) }
    {
        let memory = zeros_of(alloc, size as usize)?;
        let ports = zeros_of(alloc, PORTS)?;
        Ok(Store { memory, ports })
    }

    /// How many bytes the memory has.
    pub fn size(&self) -> u32
        ensures size { result ≡ length self.now.memory }
        ensures sized { IsSized self.now }
    {
        self.memory.len() as u32
    }

    /// Puts bytes at an address of memory and on. They all lie in memory.
    pub fn fill(&mut self, addr: u32, bytes: &[u8])
        requires { addr + length bytes.now ≤ length self.old.memory }
        ensures { self.new ≡ record self.old { memory = filled self.old.memory addr bytes.now } }
    {
        let at = addr as usize;
        self.memory[at..at + bytes.len()].copy_from_slice(bytes);
    }

    /// The enabled bytes of the aligned group at `addr`, with zeros in the others. Each byte past the end of memory reads as FF.
    pub fn read(&self, space: Space, addr: u32, enables: u8) -> u32
        ensures value { result ≡ group_in self.now space addr enables }
        ensures enabled { IsEnabled enables result }
        ensures bytes { Stand (byte_in self.now space) (group_bytes addr enables result) }
    {
        match space {
            Space::Memory => group::read(&self.memory, 0xff, addr, enables),
            Space::Port => group::read(&self.ports, 0, addr, enables),
        }
    }

    /// Writes the enabled bytes of the aligned group at `addr`. What lies past the end of memory is lost.
    pub fn write(&mut self, space: Space, addr: u32, enables: u8, value: u32)
        ensures { self.new ≡ with_written self.old space (group_bytes addr enables value) }
    {
        match space {
            Space::Memory => group::write(&mut self.memory, addr, enables, value),
            Space::Port => group::write(&mut self.ports, addr, enables, value),
        }
    }
}
