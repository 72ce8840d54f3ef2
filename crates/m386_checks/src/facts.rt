//! What is known of a task switch when its checks are made, and how a check fails.
use m386_base::desc::Desc;
use m386_base::fault::Fault;
pub use m386_base::kind::SwitchKind;

/// All that the checks of one switch read. A descriptor is `None` where its selector is null or lies outside its table.
#[derive(Clone, Copy, Debug, PartialEq, Eq)]
pub struct Facts {
    /// What makes the switch.
    pub kind: SwitchKind,
    /// Whether the selector of the TSS was named itself, through no gate.
    pub direct: bool,
    /// The privilege level that the switch is made at, 0 to 3.
    pub cpl: u8,
    /// The requested privilege level of the selector that was named, 0 to 3.
    pub rpl: u8,
    /// The EXT bit of the codes of its faults: an event from outside the program led here.
    pub ext: bool,
    /// Whether TR holds a task.
    pub tr_usable: bool,
    /// The selector of the new TSS.
    pub selector: u16,
    /// Whether that selector lies inside the limit of the GDT.
    pub in_gdt: bool,
    /// The new TSS's descriptor.
    pub tss: Option<Desc>,
    /// The new task's LDT selector.
    pub ldt: u16,
    /// The descriptor of the new task's LDT.
    pub ldt_desc: Option<Desc>,
    /// The new task's selectors, in the order ES, CS, SS, DS, FS, GS.
    pub segs: [u16; 6],
    /// The descriptors of these selectors.
    pub seg_descs: [Option<Desc>; 6],
    /// The new task's EIP.
    pub eip: u32,
}

/// The task in which a failed check is reported.
#[derive(Clone, Copy, Debug, PartialEq, Eq)]
pub enum Context {
    /// The old task: nothing has been changed.
    Old,
    /// The new task, before its first instruction.
    New,
}

/// A check that failed.
#[derive(Clone, Copy, Debug, PartialEq, Eq)]
pub struct Fail {
    /// The number of its row in the table, 1 to 19.
    pub row: u8,
    /// The number of the segment register that it speaks of in rows 10 to 18, and 0 in all others.
    pub seg: u8,
    /// The exception that it raises.
    pub fault: Fault,
    /// The task in which that is raised.
    pub context: Context,
}
