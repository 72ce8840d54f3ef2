//! What a call answers where it can't go on: an exception, a bus that stops, or no memory.
ghost use Rattle.std.specs.Prelude.{◌≡◌};
ghost use Rattle.m386_base.specs.declared.fault.Break.TheVariants as breaks;

use std::alloc::{AllocError, AllocFailed};

/// There was no memory for what a call was to keep.
#[derive(Clone, Copy, Debug, PartialEq, Eq)]
pub struct NoMemory;

impl From<AllocError> for NoMemory {
    fn from(_: AllocError) -> Self {
        NoMemory
    }
}

impl<T: Drop> From<AllocFailed<T>> for NoMemory {
    fn from(_: AllocFailed<T>) -> Self {
        NoMemory
    }
}

/// An exception that a step meets (PRM chapter 9).
#[derive(Clone, Copy, Debug, PartialEq, Eq)]
pub struct Fault {
    /// The exception's vector.
    pub vector: u8,
    /// The error code, where the exception has one.
    pub code: Option<u16>,
}

/// Why a bus made no further cycle.
#[derive(Clone, Copy, Debug, PartialEq, Eq)]
pub enum Stop {
    /// There was no memory to keep the cycle.
    Memory,
    /// The bus answers only so many cycles, and they are used up.
    Paused,
}

/// Why a call that makes cycles ended early.
#[derive(Clone, Copy, Debug, PartialEq, Eq)]
pub enum Break {
    /// The work met an exception.
    Fault(Fault),
    /// The bus stopped.
    Stop(Stop),
}

impl From<Stop> for Break {
    ghost from_gives = { λ s b. b ≡ breaks.Stop s };

    fn from(stop: Stop) -> Self {
        Break::Stop(stop)
    }
}
