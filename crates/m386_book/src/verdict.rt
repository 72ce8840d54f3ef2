//! What is said of a run.

/// The first failure of a run, where one of the rules fails.
#[derive(Clone, Copy, Debug, PartialEq, Eq)]
pub enum Verdict {
    /// No rule fails.
    Clean,
    /// The image fails this rule, 1 to 5.
    Static(u8),
    /// A cycle fails a rule.
    At {
        /// The rule, 6 to 9.
        rule: u8,
        /// The cycle's place in the history, from 0.
        index: u64,
    },
}
