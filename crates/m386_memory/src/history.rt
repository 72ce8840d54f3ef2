//! The record of a machine: its bytes, with every cycle that was made on them.
ghost use Rattle.std.specs.Prelude.{◌≡◌, ◌++◌, ◌∷◌, [], Some, true, ℕ, false, IfOk, OnErr, if◌then◌else◌};
ghost use Rattle.m386_base.specs.declared.ask.Space.{Space};
ghost use Rattle.m386_base.specs.Bus.{IsAsk, IsEnabled, cycle_of};
ghost use Rattle.m386_base.specs.Bytes.{bytes_of};
ghost use Rattle.m386_memory.specs.Contents.{byte_in, group_in, group_of, with_written, SameSize, Stand};
ghost use Rattle.m386_memory.specs.History.{past, last_cpu, byte_after, IsHistory};

use crate::store::Store;
use m386_base::ask::{Ask, Cycle, answered};
use m386_base::fault::NoMemory;
use std::alloc::Global;
use std::marker::Model;
use std::snapshot::Snapshot;

/// Memory and ports, with the cycles that were made on them, each read with the value that it gave. Contracts see the
/// contents that it began with, and the cycles. The type keeps that each cycle is one that may be asked, that each read
/// gives the bytes that stand there, and that no locked group is split; its last locked group may still be open.
#[derive(Drop)]
pub struct Record {
    store: Store,
    cycles: Vec<Cycle>,
    first: Snapshot<Store>,
}

impl Model for Record {
    ghost use Rattle.m386_memory.specs.History.{RecordView, IsRecord};

    ghost Value = { RecordView };

    ghost view = { λ r. record { first = r.first.value; cycles = r.cycles.items } };

    ghost invariant = { λ r. IsRecord r.first.value r.cycles.items r.store };
}

/// What an ask is answered by these bytes.
fn answer(store: &Store, ask: Ask) -> u32
    ensures none { ask.write ≡ true → result ≡ 0 }
    ensures enabled { IsEnabled ask.enables result }
    ensures value { ask.write ≡ false → result ≡ group_in store.now ask.space ask.addr ask.enables }
    ensures read { ask.write ≡ false → Stand (byte_in store.now ask.space) (bytes_of (cycle_of ask result)) }
{
    if ask.write {
        0
    } else {
        store.read(ask.space, ask.addr, ask.enables)
    }
}

/// What an ask does to the bytes.
fn apply(store: &mut Store, ask: Ask)
    ensures { store.new ≡ (if ask.write then with_written store.old ask.space (bytes_of ask) else store.old) }
{
    if ask.write {
        store.write(ask.space, ask.addr, ask.enables, ask.value);
    }
}

impl Record {
    /// A record of no cycle yet, over these bytes.
    pub fn new(alloc: Global, store: Store) -> Record
        ensures { result ≡ record { first = store; cycles = [] } }
    {
        let first = Snapshot::of(&store);
        Record {
            store,
            cycles: Vec::new(alloc),
            first,
        }
    }

    /// Makes one cycle of a processor, and answers the bytes read, 0 for a write. A joined ask follows a cycle of the
    /// same processor. Where there is no memory to keep the cycle, nothing has changed.
    pub fn put(&mut self, cpu: u8, ask: Ask) -> Result<u32, NoMemory>
        requires lawful { IsAsk ask }
        requires joined { ask.joined ≡ true → last_cpu (past self.old.cycles) ≡ Some cpu }
        ensures made { IfOk result (λ v. self.new
            ≡ record self.old { cycles = self.old.cycles ++ record { cpu = cpu; ask = cycle_of ask v } ∷ [] }) }
        ensures none { IfOk result (λ v. ask.write ≡ true → v ≡ 0) }
        ensures read { IfOk result (λ v. ask.write ≡ false
            → v ≡ group_of (byte_after self.old.first (past self.old.cycles) ask.space) ask.addr ask.enables) }
        ensures enabled { IfOk result (λ v. IsEnabled ask.enables v) }
        ensures history { IsHistory self.new.first self.new.cycles }
        ensures err { OnErr result (self.new ≡ self.old) }
    {
        let value = answer(&self.store, ask);
        self.cycles.push(Cycle {
            cpu,
            ask: answered(ask, value),
        })?;
        apply(&mut self.store, ask);
        Ok(value)
    }

    /// The cycles made so far, in their order.
    pub fn cycles(&self) -> &[Cycle]
        ensures cycles { result.now ≡ self.now.cycles }
        ensures lawful { IsHistory self.now.first self.now.cycles }
    {
        self.cycles.as_slice()
    }

    /// The bytes as the cycles left them.
    pub fn store(&self) -> &Store
        ensures bytes { (s : Space) (a : ℕ) → byte_in result.now s a ≡ byte_after self.now.first (past self.now.cycles) s a }
        ensures sizes { SameSize self.now.first result.now }
    {
        &self.store
    }
}
