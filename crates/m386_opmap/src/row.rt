//! The form of a row of the opcode table.

use crate::name::Name;

/// Where an operand stands, by the codes of the opcode map (PRM appendix A) where that has one.
#[derive(Clone, Copy, Debug, PartialEq, Eq)]
pub enum Operand {
    /// There is no operand here.
    Absent,
    /// The register or memory of the ModRM byte.
    E,
    /// The memory of the ModRM byte, which names no register.
    M,
    /// The register of the ModRM byte, which names no memory.
    R,
    /// The register of the ModRM byte's middle bits.
    G,
    /// The segment register of the ModRM byte's middle bits.
    S,
    /// The register of the opcode's low three bits.
    Low,
    /// An immediate of the operation's width.
    I,
    /// An immediate byte.
    Ib,
    /// An immediate word.
    Iw,
    /// An immediate byte, its sign extended to the operation's width.
    SignedByte,
    /// A distance of one byte.
    Jb,
    /// A distance of the operation's width.
    J,
    /// Memory, whose offset is in the instruction.
    O,
    /// A far pointer in the instruction.
    A,
    /// Memory at DS:ESI, the source of a string operation. A segment prefix replaces DS.
    X,
    /// Memory at DS:EBX, the table of XLAT. A segment prefix replaces DS.
    Table,
    /// AL, AX or EAX.
    Eax,
    /// CL as a count.
    Cl,
    /// DX as a port.
    Dx,
    /// The number 1 as a count.
    One,
    /// ES.
    Es,
    /// CS.
    Cs,
    /// SS.
    Ss,
    /// DS.
    Ds,
    /// FS.
    Fs,
    /// GS.
    Gs,
    /// CR0.
    Cr0,
}

/// How wide the operands of a row are.
#[derive(Clone, Copy, Debug, PartialEq, Eq)]
pub enum Size {
    /// 8 bits.
    Byte,
    /// 16 bits.
    Word,
    /// 32 bits, also where the row has neither operands nor a size.
    Double,
    /// 16 bits with the prefix 66h, else 32 (PRM 17.1).
    Either,
}

/// A row of the opcode table. The number of a one-byte opcode is that byte, that of the opcode 0Fh xx is 0F00h + xx. A
/// key is 8 times the opcode's number plus the middle bits of the ModRM byte, the `/n` of the manual. A row whose operands
/// have no `/n` covers all eight keys of its opcodes.
#[derive(Clone, Copy, Debug, PartialEq, Eq)]
pub struct Row {
    /// The first key that the row covers.
    pub low: u16,
    /// The last key that the row covers.
    pub high: u16,
    /// The operation.
    pub name: Name,
    /// How wide its operands are.
    pub size: Size,
    /// The first operand, the destination where there is one.
    pub first: Operand,
    /// The second operand.
    pub second: Operand,
    /// The third operand.
    pub third: Operand,
    /// Whether LOCK may stand before it, where its ModRM byte names memory.
    pub lock: bool,
    /// Whether the row is of a processor newer than the 80386.
    pub newer: bool,
}
