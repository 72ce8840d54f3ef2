//! A run of a machine to its end, in a given order.
ghost use Rattle.std.specs.Prelude.{◌≡◌, ◌≢◌, ◌+◌, ◌/◌, ◌%◌, ◌^◌, ◌<◌, [], ℕ, OnOk, IfOk, MatchResult, filter, nat_lt};
ghost use Rattle.m386_step.specs.Run.{Run};
ghost use Rattle.m386_core.specs.declared.order.Order.{Order as OrderData};
ghost use Rattle.m386_core.specs.Machine.{PassesOver, MakesCycle, GoesOn};
ghost use Rattle.m386_core.specs.Order.{draw_of, listed, followed, Naming, Turns, Drawn, InOrder};
ghost use Rattle.m386_core.specs.Running.{OrderAt, Rises, gap, IsOver};

use crate::machine::Machine;
use crate::order::Order;
use m386_base::fault::NoMemory;
use m386_turns::turns::Turn;

/// The next number drawn from a seed.
#[tactic(auto, unfolding(crate::specs::Order::draw_of))]
fn draw(x: u64) -> u64
    ensures { result ≡ draw_of x }
{
    x.wrapping_mul(6364136223846793005)
        .wrapping_add(1442695040888963407)
}

/// The number after this one, in turn.
#[tactic(auto, using(crate::proofs::Orders::turn_inside, crate::proofs::Orders::turn_wraps, crate::proofs::Orders::gap_inside, crate::proofs::Orders::gap_wraps))]
fn in_turn(number: u8, cpus: u8) -> u8
    requires { number < cpus }
    ensures follows { (a : ℕ) → number ≡ a % cpus → result ≡ (a + 1) % cpus }
    ensures below { result < cpus }
    ensures nearer { (due : ℕ) → due < cpus → due ≢ number → gap cpus result due < gap cpus number due }
{
    if number + 1 == cpus { 0 } else { number + 1 }
}

impl<'a> Machine<'a> {
    /// Goes on in an order until all have finished. The run is in this order where the history was empty before. Where there is
    /// no memory to keep a cycle, the cycles made so far stay: they are a front of the run.
    pub fn run_order(&mut self, order: &Order) -> Result<(), NoMemory>
        ensures run { OnOk result (Run self.new.image self.new.cpus self.new.budget self.new.log.cycles self.new.ends) }
        ensures order { self.old.log.cycles ≡ []
            → InOrder self.new.image self.new.cpus self.new.budget order.now self.new.log.cycles }
        ensures goes { GoesOn self.old self.new }
    {
        match order {
            Order::Round => self.run_turns(),
            Order::Seed(seed) => self.run_drawn(*seed),
            Order::List(members) => {
                self.run_listed(members.as_slice())?;
                self.run_turns()
            }
        }
    }

    /// Makes the next cycle by the first processor from this number on, in turn, that isn't passed over, and answers which
    /// that is. One that isn't passed over is due.
    fn turn_from(&mut self, first: u8, due: u8) -> Result<u8, NoMemory>
        requires first { first < self.old.cpus }
        requires below { due < self.old.cpus }
        requires due { ¬ PassesOver self.old due }
        ensures made { MatchResult result (λ number. MakesCycle number self.old self.new) (λ _. self.new ≡ self.old) }
        ensures goes { GoesOn self.old self.new }
        ensures below { IfOk result (λ number. number < self.old.cpus) }
        ensures order { (order : OrderData) (a : ℕ) (f : ℕ → Naming) → first ≡ a % self.old.cpus → Rises self.old.cpus a f
            → OrderAt order self.old (f 0)
            → MatchResult result (λ number. (i : ℕ) × (number ≡ (a + i) % self.old.cpus) × OrderAt order self.new (followed (f i)))
            (λ _. (i : ℕ) × OrderAt order self.new (f i)) }
    {
        let mut number = first;
        while self.next(number)? == Turn::PassedOver {
            number = in_turn(number, self.cpus());
        }
        Ok(number)
    }

    /// Lets all make their cycles in turn from 0 on, until all have finished.
    fn run_turns(&mut self) -> Result<(), NoMemory>
        ensures goes { GoesOn self.old self.new }
        ensures over { OnOk result (IsOver self.new) }
        ensures order { (order : OrderData) → OrderAt order self.old (Turns 0) → (s : Naming) × OrderAt order self.new s }
    {
        let cpus = self.cpus();
        let mut number = 0;
        while let Some(due) = self.due() {
            let made = self.turn_from(number, due)?;
            number = in_turn(made, cpus);
        }
        Ok(())
    }

    /// Draws a number before each cycle, from this seed on, until all have finished.
    fn run_drawn(&mut self, seed: u64) -> Result<(), NoMemory>
        ensures goes { GoesOn self.old self.new }
        ensures over { OnOk result (IsOver self.new) }
        ensures order { (order : OrderData) → OrderAt order self.old (Drawn (draw_of seed) 0) → (s : Naming) × OrderAt order self.new s }
    {
        let cpus = self.cpus() as u64;
        let mut x = seed;
        while let Some(due) = self.due() {
            x = draw(x);
            let first = (x >> 33) % cpus;
            self.turn_from(first as u8, due)?;
        }
        Ok(())
    }

    /// Names the members that are below the count, one after another.
    fn run_listed(&mut self, members: &[u8]) -> Result<(), NoMemory>
        ensures goes { GoesOn self.old self.new }
        ensures order { (order : OrderData) → OrderAt order self.old (listed (filter (λ p. nat_lt p self.old.cpus) members.now))
            → MatchResult result (λ _. OrderAt order self.new (Turns 0)) (λ _. (s : Naming) × OrderAt order self.new s) }
    {
        let cpus = self.cpus();
        for &cpu in members {
            if cpu < cpus {
                self.next(cpu)?;
            }
        }
        Ok(())
    }
}
