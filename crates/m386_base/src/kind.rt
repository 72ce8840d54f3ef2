//! What makes a task switch.

/// What makes a task switch (PRM 7.5).
#[derive(Clone, Copy, Debug, PartialEq, Eq)]
pub enum SwitchKind {
    /// A JMP, also through a task gate.
    Jmp,
    /// A CALL, also through a task gate.
    Call,
    /// An interrupt or an exception through a task gate of the IDT.
    Event,
    /// An IRET of a nested task.
    Iret,
    /// The start of a processor in its first task.
    Start,
}
