//! What a machine begins with, as a plain value.

use m386_base::list::List;

/// The memory, the processors, where they start, and what happens to them.
#[derive(Debug, Drop)]
pub struct Image {
    /// The size of the memory in bytes: 4,096 to 16,777,216, a multiple of 4,096.
    pub memory: u32,
    /// How many processors there are: 1 to 8.
    pub cpus: u8,
    /// Bit p is 1 where processor p starts in a task. For a processor that there is not it is 0.
    pub flags: u8,
    /// The global descriptor table that each processor starts with (PRM 5.1.2).
    pub gdt: TableAt,
    /// The interrupt descriptor table that each processor starts with (PRM 9.4).
    pub idt: TableAt,
    /// Where each processor starts: the EIP of a bare processor, or the selector of a task state segment, with zeros in the high
    /// 16 bits. For a processor that there is not it is 0.
    pub starts: [u32; 8],
    /// The interrupts that come from outside, rising by processor, and those of one processor by step.
    pub plan: List<Planned>,
    /// What stands in memory at the start, rising and apart. Every other byte is 0.
    pub sections: List<Section>,
}

/// Where a descriptor table lies.
#[derive(Clone, Copy, Debug, PartialEq, Eq)]
pub struct TableAt {
    /// The linear address of its first byte.
    pub base: u32,
    /// The offset of its last byte.
    pub limit: u16,
}

/// An interrupt from outside.
#[derive(Clone, Copy, Debug, PartialEq, Eq)]
pub struct Planned {
    /// Before which of the processor's steps it comes.
    pub step: u32,
    /// The processor that takes it.
    pub cpu: u8,
    /// Its vector.
    pub vector: u8,
}

/// Bytes that stand in memory at the start.
#[derive(Debug, Drop)]
pub struct Section {
    /// The address of the first byte.
    pub addr: u32,
    /// The bytes.
    pub bytes: List<u8>,
}
