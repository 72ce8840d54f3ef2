//! The machine: processors on one memory, one cycle at a time.
ghost use Rattle.std.specs.Prelude.{◌≡◌, ◌≢◌, ◌↔◌, ◌⊎◌, ◌<◌, ◌≤◌, [], Result, Ok, Err, IfOk, OnErr, ℕ, Some, None, true, length};
ghost use Rattle.std.specs.Option.{ForSome};
ghost use Rattle.m386_image.specs.Format.{IsValid};
ghost use Rattle.m386_core.specs.Kept.{is_another};
ghost use Rattle.m386_core.specs.Machine.{IsMachine, MakesCycle, MakesGroup, GoesOn, PassesOver, HasAmidGroup};
ghost use Rattle.m386_core.specs.Place.{HasFinished};
ghost use Rattle.m386_turns.specs.declared.turns.Turn.TheVariants as turns;

use crate::plans::PlanLeft;
use crate::unfinished::Unfinished;
use m386_base::fault::NoMemory;
use m386_base::list::List;
use m386_image::image::Image;
use m386_memory::ended::{Ended, ProcEnd};
use m386_memory::history::Record;
use m386_state::proc::Proc;
use m386_step::begin::{first_store, start};
use m386_turns::turns::Turn;
use std::alloc::Global;
use std::marker::Model;

/// One to eight processors that share memory and ports, each with the same budget of steps. Contracts see what it was made
/// with, its record, and for each processor the state after its whole steps. The type keeps that the record is a front of
/// a run: one lawful history in which the cycles of each processor are whole steps and at most one proper front of a step.
///
/// Whole steps that make no cycle are taken at once, so a processor that hasn't finished asks for a next cycle.
#[derive(Drop)]
pub struct Machine<'a> {
    image: &'a Image,
    cpus: u8,
    budget: u32,
    log: Record,
    ends: Vec<ProcEnd<Proc>>,
    unfinished: Vec<Unfinished<'a>>,
    midgroup: Option<u8>,
}

impl<'a> Model for Machine<'a> {
    ghost use Rattle.m386_core.specs.Machine.{MachineView};
    ghost use Rattle.m386_core.specs.Kept.{IsKept};

    ghost Value = { MachineView };

    ghost view = { λ m. record { image = m.image.now; cpus = m.cpus; budget = m.budget; log = m.log; ends = m.ends.items } };

    ghost invariant = { λ m. IsKept m.image.now m.cpus m.budget m.log.first m.log.cycles m.ends.items m.unfinished.items m.midgroup };
}

/// Whether a processor other than this one is amid a locked group.
fn is_held_up(midgroup: Option<u8>, cpu: u8) -> bool
    ensures { result ≡ is_another midgroup cpu }
{
    match midgroup {
        Some(amid) => amid != cpu,
        None => false,
    }
}

impl<'a> Machine<'a> {
    /// A machine with the image's first `cpus` processors, which make up to `steps` steps each, at most 65,536.
    pub fn new(
        alloc: Global,
        image: &'a Image,
        cpus: u8,
        steps: u32,
    ) -> Result<Machine<'a>, NoMemory>
        requires valid { IsValid image.now }
        requires some { 1 ≤ cpus }
        requires most { cpus ≤ image.now.cpus }
        requires budget { steps ≤ 65536 }
        ensures image { IfOk result (λ m. m.image ≡ image.now) }
        ensures cpus { IfOk result (λ m. m.cpus ≡ cpus) }
        ensures steps { IfOk result (λ m. m.budget ≡ steps) }
        ensures empty { IfOk result (λ m. m.log.cycles ≡ []) }
        ensures kept { IfOk result IsMachine }
    {
        let log = Record::new(alloc, first_store(alloc, image)?);
        let mut ends = Vec::new(alloc);
        let mut unfinished = Vec::new(alloc);
        for cpu in 0..cpus {
            let mut end = ProcEnd {
                after: start(image, cpu),
                steps: 0,
            };
            let plan = PlanLeft::of(image.plan.as_slice(), cpu);
            let mut first = Unfinished::new(plan, &end.after);
            first.settle(&mut end, cpu, steps, log.store());
            ends.push(end)?;
            unfinished.push(first)?;
        }
        Ok(Machine {
            image,
            cpus,
            budget: steps,
            log,
            ends,
            unfinished,
            midgroup: None,
        })
    }

    /// The image that it was made of.
    pub fn image(&self) -> &Image
        ensures image { result.now ≡ self.now.image }
        ensures kept { IsMachine self.now }
    {
        self.image
    }

    /// How many processors it has.
    pub fn cpus(&self) -> u8
        ensures cpus { result ≡ self.now.cpus }
        ensures kept { IsMachine self.now }
    {
        self.cpus
    }

    /// How many steps each of its processors makes at most.
    pub fn budget(&self) -> u32
        ensures budget { result ≡ self.now.budget }
        ensures kept { IsMachine self.now }
    {
        self.budget
    }

    /// Makes the next cycle of a processor, and takes the whole steps of it that follow and make none. It is passed over
    /// exactly where it has finished, or another is amid a locked group. Where there is no memory to keep the cycle, nothing
    /// has changed.
    ///
    /// The unfinished step was run ahead: a cycle costs as much as another, unless what it read isn't what was foreseen.
    pub fn next(&mut self, cpu: u8) -> Result<Turn, NoMemory>
        requires { cpu < self.old.cpus }
        ensures passed { (result ≡ Ok turns.PassedOver) ↔ PassesOver self.old cpu }
        ensures made { result ≡ Ok turns.Made → MakesCycle cpu self.old self.new }
        ensures same { result ≢ Ok turns.Made → self.new ≡ self.old }
        ensures goes { GoesOn self.old self.new }
    {
        let at = cpu as usize;
        if is_held_up(self.midgroup, cpu) {
            return Ok(Turn::PassedOver);
        }
        let Some(ask) = self.unfinished[at].next else {
            return Ok(Turn::PassedOver);
        };
        let value = self.log.put(cpu, ask)?;
        self.unfinished[at].hear(
            &mut self.ends[at],
            cpu,
            self.budget,
            value,
            self.log.store(),
        );
        self.midgroup = self.unfinished[at].midgroup(cpu);
        Ok(Turn::Made)
    }

    /// Makes the next cycle of a processor, and those joined to it that follow. It is passed over exactly where `next` passes
    /// it over. Otherwise no processor is amid a locked group afterwards. Where there is no memory to keep a cycle, the cycles
    /// that this call made before stay, and their locked group may stand open.
    pub fn group(&mut self, cpu: u8) -> Result<Turn, NoMemory>
        requires { cpu < self.old.cpus }
        ensures passed { (result ≡ Ok turns.PassedOver) ↔ PassesOver self.old cpu }
        ensures unchanged { result ≡ Ok turns.PassedOver → self.new ≡ self.old }
        ensures made { result ≡ Ok turns.Made → MakesGroup cpu self.old self.new }
        ensures closed { result ≡ Ok turns.Made → (q : ℕ) → ¬ HasAmidGroup self.new q }
        ensures err { OnErr result ((self.new ≡ self.old) ⊎ MakesGroup cpu self.old self.new) }
        ensures goes { GoesOn self.old self.new }
    {
        if self.next(cpu)? == Turn::PassedOver {
            return Ok(Turn::PassedOver);
        }
        while self.midgroup() == Some(cpu) {
            self.next(cpu)?;
        }
        Ok(Turn::Made)
    }

    /// The processor that is amid a locked group, if one is: its next ask is joined to its last cycle.
    pub fn midgroup(&self) -> Option<u8>
        ensures named { (q : ℕ) → (result ≡ Some q) ↔ HasAmidGroup self.now q }
        ensures kept { IsMachine self.now }
    {
        self.midgroup
    }

    /// A processor that isn't passed over: the one that is amid a locked group, else the first that hasn't finished. `None`:
    /// all have finished.
    pub fn due(&self) -> Option<u8>
        ensures below { ForSome result (λ p. p < self.now.cpus) }
        ensures due { ForSome result (λ p. ¬ PassesOver self.now p) }
        ensures over { result ≡ None → (p : ℕ) → p < self.now.cpus
            → HasFinished self.now.image self.now.budget self.now.log.cycles p }
        ensures kept { IsMachine self.now }
    {
        if self.midgroup.is_some() {
            return self.midgroup;
        }
        for cpu in 0..self.cpus {
            if self.unfinished[cpu as usize].next.is_some() {
                return Some(cpu);
            }
        }
        None
    }

    /// Whether a processor has finished.
    pub fn has_finished(&self, cpu: u8) -> bool
        requires { cpu < self.now.cpus }
        ensures { (result ≡ true) ↔ HasFinished self.now.image self.now.budget self.now.log.cycles cpu }
    {
        self.unfinished[cpu as usize].next.is_none()
    }

    /// How many cycles were made.
    pub fn cycles(&self) -> u32
        ensures count { result ≡ length self.now.log.cycles }
        ensures kept { IsMachine self.now }
    {
        self.log.cycles().len() as u32
    }

    /// How the run stands: the record of the cycles, and for each processor the state after its whole steps and how many
    /// these are. It takes no memory.
    pub fn ended(self) -> Ended<Proc>
        ensures log { result.log ≡ self.entry.log }
        ensures procs { result.procs ≡ self.entry.ends }
        ensures kept { IsMachine self.entry }
    {
        let Machine { log, ends, .. } = self;
        Ended {
            log,
            procs: List::of(ends),
        }
    }
}
