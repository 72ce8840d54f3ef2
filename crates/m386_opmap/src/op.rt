//! An operation with its operands, as a plain value.

use crate::name::Name;
use arrayvec::ArrayVec;
use m386_base::number::Width;

/// How a string operation is repeated (PRM 17.2.2.11). Every other operation is done once.
#[derive(Clone, Copy, Debug, PartialEq, Eq)]
pub enum Rep {
    /// Not repeated.
    Once,
    /// Prefix F3h: CMPS and SCAS go on while ZF is 1.
    Equal,
    /// Prefix F2h: CMPS and SCAS go on while ZF is 0.
    NotEqual,
}

/// A memory operand: a segment, and the parts of an offset, which are added modulo 2^32 (PRM 2.5.3.2).
#[derive(Clone, Copy, Debug, PartialEq, Eq)]
pub struct Addr {
    /// The segment register that the last segment prefix names, also where it is the one that serves without a prefix:
    /// ES 0, CS 1, SS 2, DS 3, FS 4, GS 5.
    pub seg: Option<u8>,
    /// The number of the base register.
    pub base: Option<u8>,
    /// The number of the index register, which is never ESP.
    pub index: Option<u8>,
    /// What the index is multiplied by: 1, 2, 4 or 8. Without an index it is 1.
    pub scale: u8,
    /// The displacement, modulo 2^32.
    pub disp: u32,
}

/// An operand.
#[derive(Clone, Copy, Debug, Default, PartialEq, Eq)]
pub enum Arg {
    /// A general register: EAX 0, ECX 1, EDX 2, EBX 3, ESP 4, EBP 5, ESI 6, EDI 7. With 8 bits: AL, CL, DL, BL, AH, CH,
    /// DH, BH.
    Reg(u8),
    /// A segment register: ES 0, CS 1, SS 2, DS 3, FS 4, GS 5.
    Seg(u8),
    /// CR0.
    #[default]
    Cr0,
    /// An immediate, modulo two to the width of the operation, or a port or vector number, a count or a number of bytes.
    Imm(u32),
    /// Memory.
    Mem(Addr),
    /// The distance of a jump's target from the end of the instruction, modulo 2^32.
    Rel(u32),
    /// A far pointer.
    Far {
        /// The selector.
        selector: u16,
        /// The offset.
        offset: u32,
    },
}

/// An operation.
#[derive(Debug, PartialEq, Eq, Drop)]
pub struct Op {
    /// What it does.
    pub name: Name,
    /// How wide its operands are, 32 bits where it has neither operands nor a size of its own.
    pub width: Width,
    /// Its operands, the destination first.
    pub args: ArrayVec<Arg, 3>,
    /// Whether it has the prefix LOCK.
    pub lock: bool,
    /// How it is repeated.
    pub rep: Rep,
}
