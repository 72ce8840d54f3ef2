//! What a descriptor describes, and what may be done with it.
ghost use Rattle.std.specs.Prelude.{◌≡◌};

/// What a descriptor describes, by its S bit and its type (PRM 6.3.1.1).
#[derive(Clone, Copy, Debug, PartialEq, Eq)]
pub enum Kind {
    /// A data segment.
    DataSeg {
        /// Whether it expands downward, so that its offsets lie above the limit.
        down: bool,
        /// Whether it may be written.
        writable: bool,
    },
    /// A code segment.
    CodeSeg {
        /// Whether it is conforming: it runs at its caller's privilege.
        conforming: bool,
        /// Whether it may be read.
        readable: bool,
    },
    /// A 386 task state segment.
    Tss {
        /// Whether a task is marked as being in it.
        busy: bool,
    },
    /// A local descriptor table.
    Ldt,
    /// A task gate.
    TaskGate,
    /// A 386 call gate.
    CallGate,
    /// A 386 interrupt gate.
    IntGate,
    /// A 386 trap gate.
    TrapGate,
    /// A type that this machine has no use for, those of the 286 among them.
    Wrong,
}

impl Kind {
    ghost use Rattle.m386_desc.specs.Kind.{is_conforming_kind, is_readable_kind, is_writable_kind};

    /// Whether it is conforming code.
    #[tactic(auto, unfolding(crate::specs::Kind::is_conforming_kind))]
    pub fn is_conforming(self) -> bool
        ensures { result ≡ is_conforming_kind self }
    {
        matches!(
            self,
            Kind::CodeSeg {
                conforming: true,
                ..
            }
        )
    }

    /// Whether it may be read as data: data, or readable code.
    #[tactic(auto, unfolding(crate::specs::Kind::is_readable_kind))]
    pub fn is_readable(self) -> bool
        ensures { result ≡ is_readable_kind self }
    {
        match self {
            Kind::DataSeg { .. } => true,
            Kind::CodeSeg { readable, .. } => readable,
            _ => false,
        }
    }

    /// Whether it may be written: writable data.
    #[tactic(auto, unfolding(crate::specs::Kind::is_writable_kind))]
    pub fn is_writable(self) -> bool
        ensures { result ≡ is_writable_kind self }
    {
        matches!(self, Kind::DataSeg { writable: true, .. })
    }
}
