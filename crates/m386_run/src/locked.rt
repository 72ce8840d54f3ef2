//! Processors in threads of their own, which take turns under one lock.
ghost use Rattle.std.specs.Prelude.{◌≡◌, ◌<◌, ◌≤◌, ℕ, IfOk, OnOk};
ghost use Rattle.m386_turns.specs.Turns.{Stays, AllDone};

use m386_base::fault::NoMemory;
use m386_edge::gate::Gate;
use m386_turns::turns::Turns;
use std::sync::{Mutex, Wait};
use std::thread::{self, Threads};

/// What lies under the lock: the processors, and whether memory was refused in some turn.
#[derive(Drop)]
struct Held<T: Turns> {
    turns: T,
    refused: bool,
}

impl<T: Turns> Held<T> {
    /// One turn of a processor, and how many cycles it has made then. `None`: it has no more to do, or memory was refused.
    fn turn(&mut self, cpu: u8) -> Option<u32> {
        if self.refused || cpu >= self.turns.count() || self.turns.finished(cpu) {
            return None;
        }
        if self.turns.group(cpu).is_err() {
            self.refused = true;
            return None;
        }
        if cpu >= self.turns.count() || self.turns.finished(cpu) {
            return None;
        }
        Some(self.turns.made(cpu))
    }
}

/// One processor's turns, until it has finished or memory was refused. It passes the gate before each.
fn take_turns<T: Turns, G: Gate, R: Wait>(rt: &R, shared: &Mutex<Held<T>>, cpu: u8, gate: &G) {
    let mut made = 0;
    for _ in rt.forever() {
        gate.pass(cpu, made);
        match shared.lock(rt).turn(cpu) {
            Some(cycles) => made = cycles,
            None => return,
        }
    }
}

/// Goes on with one processor until it has finished.
fn finish_one<T: Turns>(turns: &mut T, cpu: u8) -> Result<(), NoMemory>
    requires below { cpu < T.count turns.old }
    requires free { (k : ℕ) → ¬ T.amid turns.old k }
    ensures stays { Stays T.count T.done T.made turns.old turns.new }
    ensures finished { OnOk result (T.done turns.new cpu) }
    ensures free { OnOk result ((k : ℕ) → ¬ T.amid turns.new k) }
{
    while !turns.finished(cpu) {
        let _below = turns.made(cpu);
        turns.group(cpu)?;
    }
    Ok(())
}

/// Ends the locked group that stands open, if one does.
fn free<T: Turns>(turns: &mut T) -> Result<(), NoMemory>
    ensures stays { Stays T.count T.done T.made turns.old turns.new }
    ensures free { OnOk result ((k : ℕ) → ¬ T.amid turns.new k) }
{
    for cpu in 0..turns.count() {
        turns.group(cpu)?;
    }
    turns.count();
    Ok(())
}

/// Goes on until each processor has finished.
fn finish<T: Turns>(turns: &mut T) -> Result<(), NoMemory>
    ensures { OnOk result (AllDone T.count T.done turns.new) }
{
    free(turns)?;
    for cpu in 0..turns.count() {
        finish_one(turns, cpu)?;
    }
    Ok(())
}

/// Starts a thread for each processor. Those for which no thread can be had are run by the caller, behind all others: a gate may
/// hold one until another has come.
fn run_all<'x, T: Turns + Send, G: Gate + Sync, R: Threads + Wait + Sync>(
    rt: &'x R,
    shared: &'x Mutex<Held<T>>,
    cpus: u8,
    gate: &'x G,
)
    requires { cpus ≤ 8 }
{
    thread::scope(
        thread::scope_env(),
        rt,
        |scope|
            requires { cpus ≤ 8 }
        {
            let mut alone = [false; 8];
            for cpu in 0..cpus {
                if scope
                    .spawn(move || take_turns(rt, shared, cpu, gate))
                    .is_err()
                {
                    alone[usize::from(cpu)] = true;
                }
            }
            for cpu in 0..cpus {
                if alone[usize::from(cpu)] {
                    take_turns(rt, shared, cpu, gate);
                }
            }
        },
    );
}

/// Runs the processors below `cpus`, 1 to 8 of them, each in a thread of its own, and then makes what they left unfinished. It
/// answers a value in which each processor has finished: that it is the one that was handed in, no clause says. A processor passes
/// the gate before each turn, and each hold of the lock is one turn. Where memory is refused in a turn, each thread ends at its
/// next.
pub fn run_locked<T: Turns + Send + Drop, G: Gate + Sync, R: Threads + Wait + Sync>(
    rt: &R,
    turns: T,
    cpus: u8,
    gate: &G,
) -> Result<T, NoMemory>
    requires { (0 < cpus) × (cpus ≤ 8) }
    ensures { IfOk result (λ t. AllDone T.count T.done t) }
{
    let shared = Mutex::new(Held {
        turns,
        refused: false,
    });
    run_all(rt, &shared, cpus, gate);
    let Held { mut turns, refused } = shared.into_inner();
    if refused {
        return Err(NoMemory);
    }
    finish(&mut turns)?;
    Ok(turns)
}
