//! How many cases of each name were compared, and how many came out otherwise.

use std::alloc::{AllocError, Global};
use std::collections::BTreeMap;
use std::fmt;

/// How many cases of one name were compared, and how many came out otherwise than they say.
#[derive(Clone, Copy)]
struct Tally {
    compared: u64,
    different: u64,
}

/// The counts before the first case.
const NONE: Tally = Tally {
    compared: 0,
    different: 0,
};

/// The counts of each name.
#[derive(Drop)]
pub struct Tallies {
    by_name: BTreeMap<String, Tally>,
}

impl Tallies {
    /// The counts before the first case.
    pub fn new(alloc: Global) -> Tallies {
        Tallies {
            by_name: BTreeMap::new(alloc),
        }
    }

    /// Counts a case of this name.
    pub fn count(&mut self, alloc: Global, name: &str, same: bool) -> Result<(), AllocError> {
        let key = String::from_str(alloc, name)?;
        let tally = self.by_name.entry(key)?.or_insert(NONE);
        tally.compared = tally.compared.saturating_add(1);
        if !same {
            tally.different = tally.different.saturating_add(1);
        }
        Ok(())
    }
}

impl fmt::Display for Tallies {
    /// Writes a line for each name, in alphabetical order, and one for all together.
    fn fmt<W: fmt::Write>(&self, f: &mut fmt::Formatter<W>) -> fmt::Result {
        let mut all = NONE;
        for (name, tally) in self.by_name.iter() {
            let compared = tally.compared;
            let different = tally.different;
            all.compared = all.compared.saturating_add(compared);
            all.different = all.different.saturating_add(different);
            writeln!(f, "{name}: {compared} compared, {different} different")?;
        }
        let compared = all.compared;
        let different = all.different;
        write!(f, "all: {compared} compared, {different} different")
    }
}
