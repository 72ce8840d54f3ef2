//! The state of a processor and the two ways to begin.
ghost use Rattle.std.specs.Prelude.{◌≡◌};
ghost use Rattle.m386_state.specs.Start.{bare, task, cpl_of, unusable_seg, flat_seg};

use crate::event::Event;
use crate::segment::{Seg, TableReg};
use m386_base::desc::Desc;
use m386_base::number::Flags;
use m386_base::segments::CS;

/// What a processor does next, as long as no event comes.
#[derive(Clone, Copy, Debug, PartialEq, Eq)]
pub enum Mode {
    /// It executes instructions.
    Running,
    /// It executed HLT and waits for an event.
    Halted,
    /// A fault met while a double fault was delivered, or a start that failed. It does nothing any more.
    Shutdown,
}

/// The state of a processor. Its register part is `regs` to `cr0`; its turn part, `mode` to `start`, says where the next
/// step begins.
#[derive(Clone, Copy, Debug, PartialEq, Eq)]
pub struct Proc {
    /// EAX, ECX, EDX, EBX, ESP, EBP, ESI, EDI (PRM 2.3.1). At first 0.
    pub regs: [u32; 8],
    /// The offset in CS of the next instruction (PRM 2.3.4.2).
    pub eip: u32,
    /// EFLAGS (PRM 2.3.4.1). At first 00000002.
    pub eflags: Flags,
    /// ES, CS, SS, DS, FS, GS (PRM 2.3.2, 5.1.4).
    pub segs: [Seg; 6],
    /// LDTR (PRM 4.1.2). At first unusable.
    pub ldtr: Seg,
    /// TR, the task that runs (PRM 7.3). At first unusable.
    pub tr: Seg,
    /// GDTR, as the image has it at first.
    pub gdtr: TableReg,
    /// IDTR, as the image has it at first.
    pub idtr: TableReg,
    /// CR0: bits PE, MP, EM and TS (PRM 4.1.3). At first 00000001.
    pub cr0: u32,
    /// Whether it runs, is halted or is shut down. At first it runs.
    pub mode: Mode,
    /// The event that the next step delivers.
    pub pending: Option<Event>,
    /// Whether the instruction before holds requests back for one step (PRM 9.2.4). At first not.
    pub shadow: bool,
    /// The vector of an interrupt that was requested and not yet taken.
    pub request: Option<u8>,
    /// The TSS selector of a task that hasn't been started.
    pub start: Option<u16>,
}

/// The selector of code in a processor that starts bare.
const BARE_CODE: u16 = 0x0008;

/// The selector of data in a processor that starts bare.
const BARE_DATA: u16 = 0x0010;

/// A segment that can't be used, with this selector.
pub fn unusable(selector: u16) -> Seg
    ensures { result ≡ unusable_seg selector }
{
    Seg {
        selector,
        usable: false,
        desc: Desc::new(0, 0, 0, 0),
    }
}

/// A segment of the whole 4 GiB, with CPL 0 and this access byte.
fn flat(selector: u16, access: u8) -> Seg
    ensures { result ≡ flat_seg selector access }
{
    Seg {
        selector,
        usable: true,
        desc: Desc::new(0, 0xf_ffff, access, 0xc),
    }
}

/// The state of a processor that starts with no task: CPL 0 and flat segments (own choice). It takes no memory.
pub fn start_bare(eip: u32, gdtr: TableReg, idtr: TableReg) -> Proc
    ensures { result ≡ bare eip gdtr idtr }
{
    let code = flat(BARE_CODE, 0x9b);
    let data = flat(BARE_DATA, 0x93);
    let none = unusable(0);
    Proc {
        regs: [0; 8],
        eip,
        eflags: Flags(2),
        segs: [data, code, data, data, data, data],
        ldtr: none,
        tr: none,
        gdtr,
        idtr,
        cr0: 1,
        mode: Mode::Running,
        pending: None,
        shadow: false,
        request: None,
        start: None,
    }
}

/// The state of a processor whose first step starts the task of this TSS selector (own choice). It takes no memory.
pub fn start_task(selector: u16, gdtr: TableReg, idtr: TableReg) -> Proc
    ensures { result ≡ task selector gdtr idtr }
{
    let none = unusable(0);
    Proc {
        regs: [0; 8],
        eip: 0,
        eflags: Flags(2),
        segs: [none; 6],
        ldtr: none,
        tr: none,
        gdtr,
        idtr,
        cr0: 1,
        mode: Mode::Running,
        pending: None,
        shadow: false,
        request: None,
        start: Some(selector),
    }
}

impl Proc {
    /// The current privilege level, 0 to 3: the RPL of CS (PRM 6.3.1).
    pub fn cpl(&self) -> u8
        ensures { result ≡ cpl_of self.now }
    {
        (self.segs[CS as usize].selector & 3) as u8
    }

    /// The bits of EFLAGS that a load may change: CF, PF, AF, ZF, SF, TF, IF, DF, OF, IOPL and NT. Bit 1 is 1 always.
    pub fn flag_bits(&self) -> u32
        ensures { result ≡ 0x7fd5 }
    {
        0x7fd5
    }

    /// The bits of CR0 that the processor has: PE, MP, EM and TS.
    pub fn cr0_bits(&self) -> u32
        ensures { result ≡ 0xf }
    {
        0xf
    }
}
