//! The operations of this crate.
ghost use Rattle.std.specs.Prelude.{◌≡◌, false, OnErr};
ghost use Rattle.m386_base.specs.Phrase.{Performs, it};
ghost use Rattle.m386_system.specs.Exec.{takes, privileged_phrase, at_level_0_phrase, unprivileged_phrase, exec_phrase, work_phrase};

use crate::control::{load_control, load_status, store_word, task_switched_cleared};
use crate::coprocessor::{escape, wait};
use crate::halt::halted;
use crate::interrupts::put_interrupts;
use crate::tables::{load, load_local, store};
use crate::task::load_task;
use crate::work::{Privileged, Unprivileged, Work, work_of};
use m386_access::after::with_register;
use m386_access::operands::operands_of;
use m386_base::bus::Bus;
use m386_base::exception::{general_protection, undefined_opcode};
use m386_base::fault::Break;
use m386_opmap::op::Op;
use m386_state::proc::Proc;

/// Whether an operation is one of this crate's.
#[tactic(auto, unfolding(crate::specs::Exec::takes))]
pub fn takes(op: &Op) -> bool
    ensures { result ≡ takes op.now }
{
    work_of(op.name, op.args.as_slice()).is_some()
}

/// One case for each privileged operation, at CPL 0.
#[tactic(auto, using(m386_base::proofs::Phrases::calls))]
fn perform_privileged<B: Bus>(
    privileged: Privileged,
    op: &Op,
    p: &Proc,
    bus: &mut B,
) -> Result<Proc, Break>
    requires free { (B.view bus.old).kept ≡ false }
    ensures cycles { Performs (privileged_phrase privileged op.now p.now) (B.view bus.old) (B.view bus.new) it result }
    ensures free { (B.view bus.new).kept ≡ false }
{
    match privileged {
        Privileged::Halt => Ok(halted(p)),
        Privileged::LoadTable(table) => load(p, bus, table, op.width, operands_of(op)),
        Privileged::LoadLocalTable => load_local(p, bus, operands_of(op)),
        Privileged::LoadTask => load_task(p, bus, operands_of(op)),
        Privileged::LoadStatus => load_status(p, bus, operands_of(op)),
        Privileged::LoadControl(register) => load_control(p, bus, register),
        Privileged::StoreControl(register) => Ok(with_register(p, register, p.cr0)),
        Privileged::ClearTaskSwitched => Ok(task_switched_cleared(p)),
    }
}

/// A privileged operation. #GP(0), before its operand is looked at, exactly where CPL isn't 0 (PRM 6.3.5.1).
#[tactic(auto, using(m386_base::proofs::Phrases::calls), unfolding(crate::specs::Exec::at_level_0_phrase))]
fn perform_at_level_0<B: Bus>(
    privileged: Privileged,
    op: &Op,
    p: &Proc,
    bus: &mut B,
) -> Result<Proc, Break>
    requires free { (B.view bus.old).kept ≡ false }
    ensures cycles { Performs (at_level_0_phrase privileged op.now p.now) (B.view bus.old) (B.view bus.new) it result }
    ensures free { (B.view bus.new).kept ≡ false }
{
    if p.cpl() != 0 {
        return Err(Break::Fault(general_protection()));
    }
    perform_privileged(privileged, op, p, bus)
}

/// One case for each operation that isn't privileged.
#[tactic(auto, using(m386_base::proofs::Phrases::calls))]
fn perform_unprivileged<B: Bus>(
    unprivileged: Unprivileged,
    op: &Op,
    p: &Proc,
    bus: &mut B,
) -> Result<Proc, Break>
    requires free { (B.view bus.old).kept ≡ false }
    ensures cycles { Performs (unprivileged_phrase unprivileged op.now p.now) (B.view bus.old) (B.view bus.new) it result }
    ensures free { (B.view bus.new).kept ≡ false }
{
    match unprivileged {
        Unprivileged::StoreTable(table) => store(p, bus, table, operands_of(op)),
        Unprivileged::StoreWord(word) => store_word(p, bus, word, operands_of(op)),
        Unprivileged::PutInterrupts(value) => put_interrupts(p, bus, value),
        Unprivileged::Wait => wait(p, bus),
        Unprivileged::Escape => escape(bus),
    }
}

/// One case for each kind of work.
#[tactic(auto, using(m386_base::proofs::Phrases::calls))]
fn perform<B: Bus>(work: Option<Work>, op: &Op, p: &Proc, bus: &mut B) -> Result<Proc, Break>
    requires free { (B.view bus.old).kept ≡ false }
    ensures cycles { Performs (work_phrase work op.now p.now) (B.view bus.old) (B.view bus.new) it result }
    ensures free { (B.view bus.new).kept ≡ false }
{
    match work {
        Some(Work::Privileged(privileged)) => perform_at_level_0(privileged, op, p, bus),
        Some(Work::Unprivileged(unprivileged)) => perform_unprivileged(unprivileged, op, p, bus),
        None => Err(Break::Fault(undefined_opcode())),
    }
}

/// Executes an operation of this crate, with EIP behind it. At `Err` the state is as before.
#[tactic(auto, using(m386_base::proofs::Phrases::calls), unfolding(crate::specs::Exec::exec_phrase))]
pub fn exec<B: Bus>(p: &mut Proc, op: &Op, bus: &mut B) -> Result<(), Break>
    requires free { (B.view bus.old).kept ≡ false }
    ensures cycles { Performs (exec_phrase op.now p.old) (B.view bus.old) (B.view bus.new) (λ _. p.new) result }
    ensures free { (B.view bus.new).kept ≡ false }
    ensures before { OnErr result (p.new ≡ p.old) }
{
    *p = perform(work_of(op.name, op.args.as_slice()), op, p, bus)?;
    Ok(())
}
