//! Which calls of a source or sink in memory fail.
ghost use Rattle.std.specs.Prelude.{◌≡◌};
ghost use Rattle.m386_edge.specs.Edge.{counted};
ghost use Rattle.m386_edge.specs.Memory.{is_listed};

use crate::failed::Failed;

/// The numbers of the calls that are to fail, counted from 1, and how many calls were made and how many of them failed.
/// Both counts stand still at the last value of their type.
#[derive(Debug, Drop)]
pub(crate) struct Failures {
    pub(crate) fail_at: Vec<u32>,
    pub(crate) calls: u64,
    pub(crate) faults: u64,
}

impl Failures {
    /// No call was made yet.
    pub(crate) fn new(fail_at: Vec<u32>) -> Failures
        ensures listed { result.fail_at ≡ fail_at }
        ensures calls { result.calls ≡ 0 }
        ensures faults { result.faults ≡ 0 }
    {
        Failures {
            fail_at,
            calls: 0,
            faults: 0,
        }
    }

    /// Counts one more call, and answers whether its number is listed.
    pub(crate) fn next_is_listed(&mut self) -> bool
        ensures value { result ≡ is_listed self.old.fail_at.items (counted self.old.calls) }
        ensures after { self.new ≡ record self.old { calls = counted self.old.calls } }
    {
        self.calls = self.calls.saturating_add(1);
        let number = self.calls;
        self.fail_at
            .iter()
            .any(|&listed| u64::from(listed) == number)
    }

    /// Counts a call that fails.
    pub(crate) fn fail(&mut self) -> Failed
        ensures { self.new ≡ record self.old { faults = counted self.old.faults } }
    {
        self.faults = self.faults.saturating_add(1);
        Failed
    }
}
