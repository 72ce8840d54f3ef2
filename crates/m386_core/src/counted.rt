//! A machine that counts the cycles of its processors, so that they can take turns under one lock.
ghost use Rattle.std.specs.Prelude.{◌≡◌, []};

use crate::machine::Machine;
use m386_base::fault::NoMemory;
use m386_turns::turns::{Turn, Turns};
use std::marker::Model;

/// A machine, and how many cycles each of its processors has made. Contracts see the machine; the type keeps that the numbers are
/// those of its record.
#[derive(Drop)]
pub struct Counted<'a> {
    machine: Machine<'a>,
    made: [u32; 8],
}

impl<'a> Model for Counted<'a> {
    ghost use Rattle.m386_core.specs.Counting.{IsCounted};
    ghost use Rattle.m386_core.specs.Machine.{MachineView};

    ghost Value = { MachineView };

    ghost view = { λ c. c.machine };

    ghost invariant = { λ c. IsCounted c.machine c.made };
}

impl<'a> Counted<'a> {
    /// A machine that has made no cycle yet.
    pub fn new(machine: Machine<'a>) -> Counted<'a>
        requires { machine.log.cycles ≡ [] }
        ensures { result ≡ machine.entry }
    {
        // That there are at most eight processors is what it keeps.
        machine.cpus();
        Counted {
            machine,
            made: [0; 8],
        }
    }

    /// The machine.
    pub fn into_machine(self) -> Machine<'a>
        ensures { result ≡ self.entry }
    {
        let Counted { machine, .. } = self;
        machine
    }
}

impl<'a> Turns for Counted<'a> {
    ghost use Rattle.m386_core.specs.Counting.{made_by};
    ghost use Rattle.m386_core.specs.Machine.{HasAmidGroup};
    ghost use Rattle.m386_core.specs.Place.{HasFinished};

    ghost count = { λ m. m.cpus };

    ghost done = { λ m p. HasFinished m.image m.budget m.log.cycles p };

    ghost amid = { HasAmidGroup };

    ghost made = { made_by };

    fn count(&self) -> u8 {
        // That at most one is amid a group follows from which it is.
        self.machine.midgroup();
        self.machine.cpus()
    }

    fn group(&mut self, cpu: u8) -> Result<Turn, NoMemory> {
        self.machine.midgroup();
        let before = self.machine.cycles();
        let came = self.machine.group(cpu);
        self.made[cpu as usize] += self.machine.cycles() - before;
        came
    }

    fn finished(&self, cpu: u8) -> bool {
        self.machine.has_finished(cpu)
    }

    fn made(&self, cpu: u8) -> u32 {
        self.made[cpu as usize]
    }
}
