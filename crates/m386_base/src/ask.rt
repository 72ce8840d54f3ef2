//! One bus cycle: what a processor asks of its bus, and the ask with its answer as a history keeps it.
ghost use Rattle.std.specs.Prelude.{◌≡◌};
ghost use Rattle.m386_base.specs.Bus.{cycle_of};

/// The space that an address lies in.
#[derive(Clone, Copy, Debug, Default, PartialEq, Eq)]
pub enum Space {
    /// The 32-bit physical memory.
    #[default]
    Memory,
    /// The 65,536 byte ports.
    Port,
}

/// What a cycle is made for. The report prints one word for each.
#[derive(Clone, Copy, Debug, Default, PartialEq, Eq)]
pub enum Role {
    /// Code, one whole aligned group at a time.
    #[default]
    Fetch,
    /// An operand in memory, or a port transfer.
    Operand,
    /// A write to the stack.
    Push,
    /// A read from the stack.
    Pop,
    /// The flags image that POPF or IRET pops.
    Flags,
    /// A descriptor read from the GDT.
    Gdt,
    /// A descriptor read from an LDT.
    Ldt,
    /// A gate read from the IDT.
    Idt,
    /// The accessed byte of a descriptor in the GDT, written.
    GdtAcc,
    /// The accessed byte of a descriptor in an LDT, written.
    LdtAcc,
    /// The TSS descriptor read of a task switch or of a start.
    Tss,
    /// The busy bit set by a switch of a JMP.
    ClaimJmp,
    /// The busy bit set by a switch of a CALL or of an event.
    ClaimCall,
    /// The busy bit set by a start.
    ClaimStart,
    /// The busy bit set by LTR.
    ClaimLtr,
    /// A field of the old TSS, written.
    Save,
    /// The back link of the new TSS, written.
    Link,
    /// The back link, read by IRET.
    Back,
    /// The old busy bit cleared by a switch of a JMP, its read and its write.
    RelJmp,
    /// The old busy bit cleared by a switch of an IRET, its read and its write.
    RelRet,
    /// A field of the new TSS, read.
    Load,
    /// ESPn or SSn of the TSS, read for a change of stack.
    Inner,
    /// The I/O map base or a byte of the I/O map.
    Map,
    /// The operand of LGDT.
    Lgdt,
    /// The operand of LIDT.
    Lidt,
}

/// What a processor asks of its bus: one cycle on one aligned group of four bytes.
#[derive(Clone, Copy, Debug, Default, PartialEq, Eq)]
pub struct Ask {
    /// Memory or ports.
    pub space: Space,
    /// Whether the enabled bytes are written. Else they are read.
    pub write: bool,
    /// Whether this cycle belongs to one locked group with the cycle before it.
    pub joined: bool,
    /// What the cycle is made for.
    pub role: Role,
    /// A TSS field's number or the place in the access of the cycle's first byte, below 100.
    pub part: u8,
    /// The address of the group, a multiple of 4.
    pub addr: u32,
    /// Bit k enables byte k of the group: 1 to 15.
    pub enables: u8,
    /// What is written, with zeros in the bytes that aren't enabled. 0 in a read. In a history the value of a read is
    /// what was read.
    pub value: u32,
}

/// One cycle of a history: the processor that made it, and what it asked. The value of a read is what was read.
#[derive(Clone, Copy, Debug, Default, PartialEq, Eq)]
pub struct Cycle {
    /// The processor's number, from 0.
    pub cpu: u8,
    /// The ask, a read with the value that was read.
    pub ask: Ask,
}

/// The ask as a history keeps it once this value was answered: a write as it is, a read with the value.
#[tactic(auto, unfolding(crate::specs::Bus::cycle_of))]
pub fn answered(ask: Ask, value: u32) -> Ask
    ensures { result ≡ cycle_of ask value }
{
    if ask.write { ask } else { Ask { value, ..ask } }
}
