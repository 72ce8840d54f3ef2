//! The exceptions of the processor, and the faults that are made of them.
ghost use Rattle.std.specs.Prelude.{◌≡◌};
ghost use Rattle.m386_base.specs.Exceptions.{vector_of, fault_of, coded_fault_of, undefined_opcode_of, general_protection_of};

use crate::fault::Fault;

/// An exception (PRM 9.8).
#[derive(Clone, Copy, Debug, PartialEq, Eq)]
pub enum Exception {
    /// A division by 0, or a quotient that doesn't fit (9.8.1).
    DivideError,
    /// The single-step trap, or the T bit of a task (9.8.2).
    Debug,
    /// INT3 (9.8.3).
    Breakpoint,
    /// INTO with OF set (9.8.4).
    Overflow,
    /// An index that BOUND finds outside its bounds (9.8.5).
    BoundsCheck,
    /// Bytes that are no instruction (9.8.6).
    InvalidOpcode,
    /// An instruction for a coprocessor (9.8.7).
    CoprocessorNotAvailable,
    /// A fault met while a contributory one was delivered (9.8.8).
    DoubleFault,
    /// A TSS that can't be used (9.8.10).
    InvalidTss,
    /// A descriptor whose segment isn't present (9.8.11).
    SegmentNotPresent,
    /// An access through SS that fails, or a stack that isn't present (9.8.12).
    StackFault,
    /// Every other violation of protection (9.8.13).
    GeneralProtection,
}

impl Exception {
    /// The number of its gate in the IDT.
    pub fn vector(self) -> u8
        ensures { result ≡ vector_of self }
    {
        match self {
            Exception::DivideError => 0,
            Exception::Debug => 1,
            Exception::Breakpoint => 3,
            Exception::Overflow => 4,
            Exception::BoundsCheck => 5,
            Exception::InvalidOpcode => 6,
            Exception::CoprocessorNotAvailable => 7,
            Exception::DoubleFault => 8,
            Exception::InvalidTss => 10,
            Exception::SegmentNotPresent => 11,
            Exception::StackFault => 12,
            Exception::GeneralProtection => 13,
        }
    }

    /// Its fault without an error code.
    pub fn fault(self) -> Fault
        ensures { result ≡ fault_of self }
    {
        Fault {
            vector: self.vector(),
            code: None,
        }
    }

    /// Its fault with an error code (PRM 9.7).
    pub fn coded_fault(self, code: u16) -> Fault
        ensures { result ≡ coded_fault_of self code }
    {
        Fault {
            vector: self.vector(),
            code: Some(code),
        }
    }
}

/// #UD (PRM 9.8.6).
pub fn undefined_opcode() -> Fault
    ensures { result ≡ undefined_opcode_of }
{
    Exception::InvalidOpcode.fault()
}

/// #GP(0) (PRM 9.8.13).
pub fn general_protection() -> Fault
    ensures { result ≡ general_protection_of }
{
    Exception::GeneralProtection.coded_fault(0)
}
