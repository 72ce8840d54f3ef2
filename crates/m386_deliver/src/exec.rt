//! The operations of this crate: INT n, INT3, INTO and IRET.
ghost use Rattle.std.specs.Prelude.{◌≡◌, false};
ghost use Rattle.m386_access.specs.Ran.{ran};
ghost use Rattle.m386_base.specs.Phrase.{Performs, PerformsOrStops, PerformsRan, it};
ghost use Rattle.m386_transfer.specs.Executed.{told};
ghost use Rattle.m386_deliver.specs.Exec.{vector_in, handler_work_of, asked_for, work_delivers, delivers, takes, on_overflow_phrase, work_phrase, exec_phrase};

use crate::deliver::enter;
use crate::iret::returned;
use m386_access::ran::Ran;
use m386_base::bus::Bus;
use m386_base::exception::{Exception, undefined_opcode};
use m386_base::fault::{Break, Stop};
use m386_base::flags::{Flag, has_flag};
use m386_base::number::Width;
use m386_opmap::name::Name;
use m386_opmap::op::{Arg, Op};
use m386_state::event::{Cause, Event};
use m386_state::proc::Proc;
use m386_transfer::executed::{Executed, as_ran, ran_to};

/// What an operation does.
#[derive(Clone, Copy, Debug, PartialEq, Eq)]
pub enum HandlerWork {
    /// INT n or INT3: an event of this vector.
    Enter(u8),
    /// INTO: an event where OF is set.
    EnterOnOverflow,
    /// IRET.
    Leave,
}

/// The vector of INT n.
fn vector_in(args: &[Arg]) -> Option<HandlerWork>
    ensures { result ≡ vector_in args.now }
{
    match args {
        [Arg::Imm(number)] => Some(HandlerWork::Enter((*number % 256) as u8)),
        _ => None,
    }
}

/// What the operation of a name with its operands does, where it is one of this crate's.
fn handler_work_of(name: Name, args: &[Arg]) -> Option<HandlerWork>
    ensures { result ≡ handler_work_of name args.now }
{
    match name {
        Name::Int => vector_in(args),
        Name::Int3 => Some(HandlerWork::Enter(3)),
        Name::Into => Some(HandlerWork::EnterOnOverflow),
        Name::Iret => Some(HandlerWork::Leave),
        _ => None,
    }
}

/// An event that the program itself asks for. It has no error code.
fn asked_for(vector: u8) -> Event
    ensures { result ≡ asked_for vector }
{
    Event {
        vector,
        code: None,
        cause: Cause::Soft,
    }
}

/// Whether it makes a delivery in a state.
fn work_delivers(work: Option<HandlerWork>, p: &Proc) -> bool
    ensures { result ≡ work_delivers work p.now }
{
    match work {
        Some(HandlerWork::Enter(_)) => true,
        Some(HandlerWork::EnterOnOverflow) => has_flag(Flag::Overflow, p.eflags),
        Some(HandlerWork::Leave) | None => false,
    }
}

/// Whether an operation, where it ends in no fault, makes a delivery in the state before it: INT n, INT3, and INTO where OF is set.
#[tactic(auto, unfolding(crate::specs::Exec::delivers))]
pub fn delivers(op: &Op, p: &Proc) -> bool
    ensures { result ≡ delivers op.now p.now }
{
    work_delivers(handler_work_of(op.name, op.args.as_slice()), p)
}

/// Whether an operation is one of this crate's.
#[tactic(auto, unfolding(crate::specs::Exec::takes))]
pub fn takes(op: &Op) -> bool
    ensures { result ≡ takes op.now }
{
    handler_work_of(op.name, op.args.as_slice()).is_some()
}

/// INTO (PRM 9.8.4).
#[tactic(auto, using(m386_base::proofs::Phrases::calls), unfolding(crate::specs::Exec::on_overflow_phrase))]
fn enter_on_overflow<B: Bus>(p: &Proc, bus: &mut B) -> Result<Executed, Break>
    requires free { (B.view bus.old).kept ≡ false }
    ensures cycles { Performs (on_overflow_phrase p.now) (B.view bus.old) (B.view bus.new) it result }
    ensures free { (B.view bus.new).kept ≡ false }
{
    if has_flag(Flag::Overflow, p.eflags) {
        return enter(p, bus, &asked_for(Exception::Overflow.vector()));
    }
    Ok(ran_to(*p))
}

/// One case for each kind of work.
#[tactic(auto, using(m386_base::proofs::Phrases::calls))]
fn perform<B: Bus>(
    work: Option<HandlerWork>,
    width: Width,
    p: &Proc,
    bus: &mut B,
) -> Result<Executed, Break>
    requires free { (B.view bus.old).kept ≡ false }
    ensures cycles { Performs (work_phrase work width p.now) (B.view bus.old) (B.view bus.new) it result }
    ensures free { (B.view bus.new).kept ≡ false }
{
    match work {
        Some(HandlerWork::Enter(vector)) => enter(p, bus, &asked_for(vector)),
        Some(HandlerWork::EnterOnOverflow) => enter_on_overflow(p, bus),
        Some(HandlerWork::Leave) => returned(p, bus, width),
        None => Err(Break::Fault(undefined_opcode())),
    }
}

/// An operation of this crate, from a state with EIP behind it, where a handler returns to. IRET with NT set and an interrupt through
/// a task gate come to a switch, and answer what that came to; a fault is one of the others, and is seen in the state before the
/// instruction.
#[tactic(auto, using(m386_base::proofs::Phrases::calls), unfolding(crate::specs::Exec::exec_phrase))]
pub fn attempt<B: Bus>(p: &Proc, op: &Op, bus: &mut B) -> Result<Executed, Break>
    requires free { (B.view bus.old).kept ≡ false }
    ensures cycles { Performs (exec_phrase op.now p.now) (B.view bus.old) (B.view bus.new) it result }
    ensures free { (B.view bus.new).kept ≡ false }
{
    perform(
        handler_work_of(op.name, op.args.as_slice()),
        op.width,
        p,
        bus,
    )
}

/// The state that an operation left, or the one before it, and the fault that is seen in it.
#[tactic(auto, using(m386_base::proofs::Phrases::caught), unfolding(m386_transfer::specs::Executed::told))]
fn ended<B: Bus>(p: &Proc, op: &Op, bus: &mut B) -> Result<Ran, Stop>
    requires free { (B.view bus.old).kept ≡ false }
    ensures cycles { PerformsOrStops (told p.now (exec_phrase op.now p.now)) (B.view bus.old) (B.view bus.new) it result }
    ensures free { (B.view bus.new).kept ≡ false }
{
    match attempt(p, op, bus) {
        Ok(executed) => Ok(as_ran(&executed)),
        Err(Break::Fault(fault)) => Ok(Ran {
            after: *p,
            fault: Some(fault),
        }),
        Err(Break::Stop(stop)) => Err(stop),
    }
}

/// Executes an operation of this crate, with EIP behind it, where it makes no difference in which state a fault is seen. At a fault the
/// state is the one that it is seen in, and at `Err(Stop)` it is as before.
pub fn exec<B: Bus>(p: &mut Proc, op: &Op, bus: &mut B) -> Result<(), Break>
    requires free { (B.view bus.old).kept ≡ false }
    ensures cycles { PerformsRan (told p.old (exec_phrase op.now p.old)) (B.view bus.old) (B.view bus.new) ran p.old p.new result }
    ensures free { (B.view bus.new).kept ≡ false }
{
    let ran = ended(p, op, bus)?;
    *p = ran.after;
    match ran.fault {
        Some(fault) => Err(Break::Fault(fault)),
        None => Ok(()),
    }
}
