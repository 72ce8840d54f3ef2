//! Worked cases of threads that take turns.
ghost use Rattle.std.specs.Prelude.{◌≡◌, ◌<◌, ◌≤◌, ◌↔◌, ℕ, true, Some, slice_index_or};

use m386_base::fault::NoMemory;
use m386_edge::gate::{Gate, OpenGate};
use m386_run::locked::run_locked;
use m386_turns::turns::{Turn, Turns};
use std::sync::{Barrier, Wait};
use std::test::Fail;

/// Processors that each have so many turns to take, a turn one cycle. There is memory for so many turns in all: the next one is
/// left amid its locked group.
#[derive(Drop)]
struct Counters {
    count: u8,
    goal: u32,
    room: u32,
    made: [u32; 8],
    amid: Option<u8>,
    ghost few: { count ≤ 8 },
    ghost inside: { (k : ℕ) → amid ≡ Some k → (k < count) × (slice_index_or made k 0 < goal) },
}

impl Counters {
    /// Counters that have taken no turn. There are up to 8 of them.
    fn new(count: u8, goal: u32, room: u32) -> Counters
        requires { count ≤ 8 }
    {
        Counters {
            count,
            goal,
            room,
            made: [0; 8],
            amid: None,
        }
    }
}

impl Turns for Counters {
    ghost use Rattle.std.specs.Prelude.{◌≡◌, ◌≤◌, Some, slice_index_or};

    ghost count = { λ c. c.count };

    ghost done = { λ c k. c.goal ≤ slice_index_or c.made k 0 };

    ghost amid = { λ c k. c.amid ≡ Some k };

    ghost made = { λ c k. slice_index_or c.made k 0 };

    fn count(&self) -> u8 {
        self.count
    }

    fn group(&mut self, cpu: u8) -> Result<Turn, NoMemory> {
        if self.finished(cpu) || self.amid.is_some_and(|amid| amid != cpu) {
            return Ok(Turn::PassedOver);
        }
        if self.room == 0 {
            self.amid = Some(cpu);
            return Err(NoMemory);
        }
        self.room -= 1;
        self.made[usize::from(cpu)] += 1;
        self.amid = None;
        Ok(Turn::Made)
    }

    fn finished(&self, cpu: u8) -> bool {
        self.made[usize::from(cpu)] >= self.goal
    }

    fn made(&self, cpu: u8) -> u32 {
        self.made[usize::from(cpu)]
    }
}

/// A gate at which, for the first ten turns, each waits until all have come.
#[derive(Drop)]
struct Meeting<'a, R: Wait> {
    rt: &'a R,
    all: Barrier,
}

impl<'a, R: Wait> Gate for Meeting<'a, R> {
    fn pass(&self, _cpu: u8, made: u32) {
        if made < 10 {
            self.all.wait(self.rt);
        }
    }
}

#[test]
fn each_takes_all_its_turns(rt: HostRuntime) -> Result<(), Fail> {
    let done = run_locked(&rt, Counters::new(3, 1000, 4000), 3, &OpenGate)?;
    assert_eq!(rt; done.made, [1000, 1000, 1000, 0, 0, 0, 0, 0]);
    Ok(())
}

#[test]
fn what_has_no_thread_is_finished_behind_the_others(rt: HostRuntime) -> Result<(), Fail> {
    let done = run_locked(&rt, Counters::new(3, 1000, 4000), 1, &OpenGate)?;
    assert_eq!(rt; done.made, [1000, 1000, 1000, 0, 0, 0, 0, 0]);
    Ok(())
}

#[test]
fn threads_beyond_the_count_end(rt: HostRuntime) -> Result<(), Fail> {
    let done = run_locked(&rt, Counters::new(2, 10, 4000), 8, &OpenGate)?;
    assert_eq!(rt; done.made, [10, 10, 0, 0, 0, 0, 0, 0]);
    Ok(())
}

#[test]
fn processors_that_wait_for_one_another_meet(rt: HostRuntime) -> Result<(), Fail> {
    let gate = Meeting {
        rt: &rt,
        all: Barrier::new(3),
    };
    let done = run_locked(&rt, Counters::new(3, 1000, 4000), 3, &gate)?;
    assert_eq!(rt; done.made, [1000, 1000, 1000, 0, 0, 0, 0, 0]);
    Ok(())
}

#[test]
fn memory_that_is_refused_amid_a_group_ends_all(rt: HostRuntime) -> Result<(), Fail> {
    for room in [0, 1, 100, 2999] {
        let done = run_locked(&rt, Counters::new(3, 1000, room), 3, &OpenGate);
        assert!(rt; done.is_err());
    }
    Ok(())
}
