//! What a processor keeps of a segment and of a descriptor table.
use m386_base::desc::Desc;

/// A segment register, LDTR or TR: the selector with the descriptor that was loaded with it (PRM 5.1.4).
#[derive(Clone, Copy, Debug, PartialEq, Eq)]
pub struct Seg {
    /// The visible selector: RPL, table indicator and index.
    pub selector: u16,
    /// Whether an access through it may be made. A null selector leaves it unusable.
    pub usable: bool,
    /// The descriptor behind it, all zeros where it isn't usable.
    pub desc: Desc,
}

/// GDTR or IDTR (PRM 4.1.2).
#[derive(Clone, Copy, Debug, PartialEq, Eq)]
pub struct TableReg {
    /// The linear address of the table's first byte.
    pub base: u32,
    /// The offset of the table's last byte.
    pub limit: u16,
}
