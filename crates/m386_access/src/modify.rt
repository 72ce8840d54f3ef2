//! Memory that is read and written by one operation: with LOCK in one locked group (PRM 11.2.1).
ghost use Rattle.std.specs.Prelude.{◌≡◌, ℕ, ◌<◌, ◌^◌, ◌⊎◌, false, IfOk, OnErr, length};
ghost use Rattle.m386_base.specs.Phrase.{Performs, it};
ghost use Rattle.m386_base.specs.Split.{AreGroups};
ghost use Rattle.m386_base.specs.declared.ask.Space.TheVariants as spaces;
ghost use Rattle.m386_access.specs.Access.{memory_pieces};
ghost use Rattle.m386_access.specs.Modify.{linked_reads, linked_writes, modify_groups_phrase, modify_phrase, inspect_phrase};

use crate::address::{access_fault, linear, may_read, may_write, segment};
use m386_base::ask::{Ask, Role, Space};
use m386_base::bus::{Bus, cycle_or_fault};
use m386_base::fault::Break;
use m386_base::split::{Piece, gather, split, spread};
use m386_state::proc::Proc;

/// The bytes of an access, read group by group. Where there is a LOCK, the cycles behind the first are joined. The bus stays kept
/// behind the last exactly where `stays` says so.
#[tactic(auto, using(m386_base::proofs::Phrases::calls, m386_base::proofs::Groups::group_at, crate::proofs::Linked::linked_read_steps))]
fn read_linked<B: Bus>(bus: &mut B, groups: &[Piece], lock: bool, stays: bool) -> Result<u32, Break>
    requires free { (B.view bus.old).kept ≡ false }
    requires groups { AreGroups spaces.Memory groups.now }
    requires some { 0 < length groups.now }
    ensures cycles { Performs (linked_reads lock false 0 groups.now) (B.view bus.old) (B.view bus.new) it result }
    ensures kept { IfOk result (λ _. (B.view bus.new).kept ≡ stays) }
    ensures err { OnErr result ((B.view bus.new).kept ≡ false) }
{
    let mut value = 0;
    let mut joined = false;
    for (i, piece) in groups.iter().enumerate() {
        let ask = Ask {
            space: Space::Memory,
            write: false,
            joined,
            role: Role::Operand,
            part: piece.place,
            addr: piece.addr,
            enables: piece.enables,
            value: 0,
        };
        let keep = if i + 1 < groups.len() { lock } else { stays };
        let found = cycle_or_fault(bus, ask, keep)?;
        value |= gather(*piece, found);
        joined = lock;
    }
    Ok(value)
}

/// The bytes of an access, written group by group behind its reads. Where there is a LOCK, each cycle is joined, and the last
/// ends the locked group.
#[tactic(auto, using(m386_base::proofs::Phrases::calls, m386_base::proofs::Groups::group_at, crate::proofs::Linked::linked_write_steps))]
fn write_linked<B: Bus>(bus: &mut B, groups: &[Piece], lock: bool, value: u32) -> Result<(), Break>
    requires kept { (B.view bus.old).kept ≡ lock }
    requires groups { AreGroups spaces.Memory groups.now }
    requires some { 0 < length groups.now }
    ensures cycles { Performs (linked_writes lock value groups.now) (B.view bus.old) (B.view bus.new) it result }
    ensures free { (B.view bus.new).kept ≡ false }
{
    for (i, piece) in groups.iter().enumerate() {
        let ask = Ask {
            space: Space::Memory,
            write: true,
            joined: lock,
            role: Role::Operand,
            part: piece.place,
            addr: piece.addr,
            enables: piece.enables,
            value: spread(*piece, value),
        };
        let keep = if i + 1 < groups.len() { lock } else { false };
        cycle_or_fault(bus, ask, keep)?;
    }
    Ok(())
}

/// The bytes at a linear address, read, and written with a function of what was found, which is answered.
#[tactic(auto, using(m386_base::proofs::Phrases::calls, crate::proofs::Phrases::some_pieces), unfolding(crate::specs::Modify::modify_groups_phrase))]
fn modify_groups<B: Bus, F: FnOnce(u32) -> u32>(
    bus: &mut B,
    at: u32,
    len: u8,
    lock: bool,
    f: F,
) -> Result<u32, Break>
    requires free { (B.view bus.old).kept ≡ false }
    requires len { (len ≡ 1) ⊎ (len ≡ 2) ⊎ (len ≡ 4) }
    requires change { F.IsAlwaysCallable f }
    ensures cycles { (change : ℕ → ℕ) → ((x y : ℕ) → x < 2 ^ 32 → F.post f x y → y ≡ change x) → Performs (modify_groups_phrase lock change (memory_pieces at len)) (B.view bus.old) (B.view bus.new) it result }
    ensures free { (B.view bus.new).kept ≡ false }
{
    let groups = split(Space::Memory, at, len);
    let old = read_linked(bus, groups.as_slice(), lock, lock)?;
    write_linked(bus, groups.as_slice(), lock, f(old))?;
    Ok(old)
}

/// Reads 1, 2 or 4 bytes through a segment register, writes `f` of them, and answers them as they were. A fault, with no cycle,
/// exactly where a test of a write fails, as in `write`. Each cycle behind the first is joined exactly where there is a LOCK.
#[tactic(auto, using(m386_base::proofs::Phrases::calls), unfolding(crate::specs::Modify::modify_phrase))]
pub fn modify<B: Bus, F: FnOnce(u32) -> u32>(
    p: &Proc,
    bus: &mut B,
    seg: u8,
    offset: u32,
    len: u8,
    lock: bool,
    f: F,
) -> Result<u32, Break>
    requires free { (B.view bus.old).kept ≡ false }
    requires len { (len ≡ 1) ⊎ (len ≡ 2) ⊎ (len ≡ 4) }
    requires change { F.IsAlwaysCallable f }
    ensures cycles { (change : ℕ → ℕ) → ((x y : ℕ) → x < 2 ^ 32 → F.post f x y → y ≡ change x) → Performs (modify_phrase p.now seg offset len lock change) (B.view bus.old) (B.view bus.new) it result }
    ensures free { (B.view bus.new).kept ≡ false }
{
    let s = segment(p, seg);
    if !may_write(&s, offset, len) {
        return Err(Break::Fault(access_fault(seg)));
    }
    modify_groups(bus, linear(&s, offset), len, lock, f)
}

/// Reads 1, 2 or 4 bytes through a segment register, with LOCK in one locked group. A fault, with no cycle, exactly where a test
/// of a read fails, as in `read`.
#[tactic(auto, using(m386_base::proofs::Phrases::calls, crate::proofs::Phrases::some_pieces), unfolding(crate::specs::Modify::inspect_phrase))]
pub fn inspect<B: Bus>(
    p: &Proc,
    bus: &mut B,
    seg: u8,
    offset: u32,
    len: u8,
    lock: bool,
) -> Result<u32, Break>
    requires free { (B.view bus.old).kept ≡ false }
    requires len { (len ≡ 1) ⊎ (len ≡ 2) ⊎ (len ≡ 4) }
    ensures cycles { Performs (inspect_phrase p.now seg offset len lock) (B.view bus.old) (B.view bus.new) it result }
    ensures free { (B.view bus.new).kept ≡ false }
{
    let s = segment(p, seg);
    if !may_read(&s, offset, len) {
        return Err(Break::Fault(access_fault(seg)));
    }
    let groups = split(Space::Memory, linear(&s, offset), len);
    read_linked(bus, groups.as_slice(), lock, false)
}
