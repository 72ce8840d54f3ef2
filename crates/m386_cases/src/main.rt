//! The program `m386_cases`: makes one step over each case of an instruction on its standard input, and writes how many came
//! out as the case says, by their names, and each that did not. `tools/compare_instructions.py` makes such cases, with what
//! a processor of this family answered.
#![tactic(auto)]

mod case;
mod state;
mod tally;
mod trial;

use crate::case::read_case;
use crate::tally::Tallies;
use crate::trial::{CaseBus, tried};
use std::io::{self, BufRead, BufReader};

fn main(rt: HostRuntime) -> io::Result<()> {
    let mut bus = CaseBus::new();
    let mut tallies = Tallies::new(rt.alloc());
    for line in BufReader::new(rt.alloc(), rt.reader())?.lines(rt.alloc()) {
        let line = line?;
        let Some(case) = read_case(line.as_str()) else {
            println!(rt; "no case: {line}")?;
            continue;
        };
        let found = tried(&case, &mut bus);
        tallies.count(rt.alloc(), case.name, found.is_none())?;
        if let Some(found) = found {
            println!(rt; "{line}")?;
            println!(rt; "    found {found}")?;
        }
    }
    println!(rt; "{tallies}")
}
