//! What is told of a step over listed values.
use m386_base::ask::Ask;
use m386_state::proc::Proc;

/// A step over listed values: it asks for a further cycle, or it is whole.
#[derive(Clone, Copy, Debug, PartialEq, Eq)]
pub enum Probe {
    /// The values are used up, and the step asks for this cycle next.
    Wants(Ask),
    /// The step is whole.
    Whole {
        /// The state after it.
        after: Proc,
        /// How many of the values it used, one for each cycle.
        used: u8,
    },
}
