//! What a run gives: the record of its cycles, and how each processor ended.
use crate::history::Record;
use m386_base::list::List;

/// How one processor ended, over any kind of state.
#[derive(Clone, Copy, Debug, PartialEq, Eq)]
pub struct ProcEnd<P> {
    /// The state after its last step.
    pub after: P,
    /// How many steps it completed.
    pub steps: u32,
}

/// A run that has ended.
#[derive(Drop)]
pub struct Ended<P> {
    /// Every cycle that was made, and the bytes as they left them.
    pub log: Record,
    /// The processors, in the order of their numbers.
    pub procs: List<ProcEnd<P>>,
}
