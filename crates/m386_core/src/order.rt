//! The orders in which processors make their cycles.
use m386_base::list::List;

/// Which processor is named before each cycle. One that is passed over makes no cycle, and the next is named.
#[derive(Debug, Drop)]
pub enum Order {
    /// 0, 1, 2 and so on in turn, for ever.
    Round,
    /// A number drawn before each cycle, from this seed on: `x = x * 6364136223846793005 + 1442695040888963407` modulo
    /// 2^64 names the processor `(x >> 33)` modulo the count, and then those after it in turn.
    Seed(u64),
    /// The members that are below the count one after another, and then as `Round` from 0 on.
    List(List<u8>),
}
