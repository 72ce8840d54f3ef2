//! The delivery of an event: through an interrupt or trap gate to a handler, or through a task gate to a task (PRM 9.6).
ghost use Rattle.std.specs.Prelude.{◌≡◌, ◌<◌, false};
ghost use Rattle.m386_access.specs.Ran.{ran};
ghost use Rattle.m386_base.specs.Phrase.{Performs, PerformsOrStops, PerformsRan, it};
ghost use Rattle.m386_deliver.specs.Deliver.{gate_target, frame_of, handler_flags, entered, framed_phrase, pushed_phrase, through_phrase, gate_brief, leads_to_task, by_gate_phrase, entered_phrase, pushed_on_phrase, with_code_phrase, behind_gate_phrase, met_phrase, deliver_phrase};

use crate::gate::{gate_for, is_from_outside};
use arrayvec::ArrayVec;
use m386_access::address::segment;
use m386_access::after::{register_of, with_flags};
use m386_access::ran::{Ran, without_fault};
use m386_access::registers::ESP;
use m386_base::bus::Bus;
use m386_base::desc::Desc;
use m386_base::fault::{Break, Stop};
use m386_base::flags::{Flag, put_flag};
use m386_base::kind::SwitchKind;
use m386_base::number::Flags;
use m386_base::segments::{CS, SS};
use m386_desc::access::kind;
use m386_desc::kind::Kind;
use m386_segload::load::take;
use m386_segload::rules::TARGET_RULES;
use m386_stack::stack::{Stack, own_stack, push, push_all, with_stack};
use m386_state::event::Event;
use m386_state::proc::Proc;
use m386_transfer::executed::{Brief, Executed, as_ran, make_switch, ran_to};
use m386_transfer::gate::gate_of;
use m386_transfer::place::{Target, level_of, placed, stack_for, target_fault};

/// Where a gate leads, in code that was taken.
fn gate_target(p: &Proc, gate: &Desc, desc: Desc) -> Target
    ensures exact { result ≡ gate_target p.now gate.now desc }
    ensures level { result.level < 4 }
{
    let to = gate_of(gate);
    Target {
        selector: to.selector,
        desc,
        level: level_of(p, &desc),
        offset: to.offset,
    }
}

/// What is pushed, in its order: SS and ESP where the level is an inner one; EFLAGS, CS and EIP; the code where there is one.
fn frame_of(p: &Proc, level: u8, code: Option<u16>) -> ArrayVec<u32, 6>
    ensures { result.items ≡ frame_of p.now level code }
{
    let mut values = ArrayVec::new();
    if level < p.cpl() {
        values.push(u32::from(segment(p, SS).selector));
        values.push(register_of(p, ESP));
    }
    values.push(p.eflags.0);
    values.push(u32::from(segment(p, CS).selector));
    values.push(p.eip);
    if let Some(code) = code {
        values.push(u32::from(code));
    }
    values
}

/// The flags in the handler, by the kind of its gate: TF and NT are clear, and IF too behind an interrupt gate.
fn handler_flags(kind: Kind, flags: Flags) -> Flags
    ensures { result ≡ handler_flags kind flags }
{
    let quiet = put_flag(Flag::Trap, false, put_flag(Flag::NestedTask, false, flags));
    match kind {
        Kind::IntGate => put_flag(Flag::Interrupt, false, quiet),
        _ => quiet,
    }
}

/// The state in the handler.
#[tactic(auto, unfolding(crate::specs::Deliver::entered))]
fn entered(p: &Proc, gate: &Desc, target: &Target, stack: &Stack) -> Proc
    requires { target.now.level < 4 }
    ensures { result ≡ entered p.now gate.now target.now stack.now }
{
    with_flags(
        &placed(p, target, stack),
        handler_flags(kind(gate), p.eflags),
    )
}

/// The frame is pushed, and the handler is entered.
#[tactic(auto, using(m386_base::proofs::Phrases::calls), unfolding(crate::specs::Deliver::framed_phrase))]
fn framed<B: Bus>(
    p: &Proc,
    bus: &mut B,
    gate: &Desc,
    target: &Target,
    stack: &Stack,
    values: &[u32],
) -> Result<Proc, Break>
    requires free { (B.view bus.old).kept ≡ false }
    requires level { target.now.level < 4 }
    ensures cycles { Performs (framed_phrase p.now gate.now target.now stack.now values.now) (B.view bus.old) (B.view bus.new) it result }
    ensures free { (B.view bus.new).kept ≡ false }
{
    let top = push_all(bus, stack, 4, values)?;
    Ok(entered(p, gate, target, &top))
}

/// The gate's offset is tested, and then the frame is pushed.
#[tactic(auto, using(m386_base::proofs::Phrases::calls), unfolding(crate::specs::Deliver::pushed_phrase))]
fn pushed<B: Bus>(
    p: &Proc,
    bus: &mut B,
    event: &Event,
    gate: &Desc,
    target: &Target,
    stack: &Stack,
) -> Result<Proc, Break>
    requires free { (B.view bus.old).kept ≡ false }
    requires level { target.now.level < 4 }
    ensures cycles { Performs (pushed_phrase p.now event.now gate.now target.now stack.now) (B.view bus.old) (B.view bus.new) it result }
    ensures free { (B.view bus.new).kept ≡ false }
{
    match target_fault(target) {
        Some(fault) => Err(Break::Fault(fault)),
        None => {
            let values = frame_of(p, target.level, event.code);
            framed(p, bus, gate, target, stack, values.as_slice())
        }
    }
}

/// An interrupt or trap gate: the rules of its code, the stack of the code's level, the offset, and the frame.
#[tactic(auto, using(m386_base::proofs::Phrases::calls), unfolding(crate::specs::Deliver::through_phrase))]
fn through<B: Bus>(p: &Proc, bus: &mut B, event: &Event, gate: &Desc) -> Result<Proc, Break>
    requires free { (B.view bus.old).kept ≡ false }
    ensures cycles { Performs (through_phrase p.now event.now gate.now) (B.view bus.old) (B.view bus.new) it result }
    ensures free { (B.view bus.new).kept ≡ false }
{
    let ext = is_from_outside(event.cause);
    let desc = take(p, bus, &TARGET_RULES, p.cpl(), ext, gate_of(gate).selector)?;
    let stack = stack_for(p, bus, level_of(p, &desc), ext)?;
    pushed(p, bus, event, gate, &gate_target(p, gate, desc), &stack)
}

/// The switch to the task that a task gate names, with EXT as the event has it.
fn gate_brief(event: &Event, gate: &Desc) -> Brief
    ensures { result ≡ gate_brief event.now gate.now }
{
    Brief {
        kind: SwitchKind::Event,
        selector: gate_of(gate).selector,
        direct: false,
        ext: is_from_outside(event.cause),
    }
}

/// Whether a gate of this type leads to a task.
fn leads_to_task(kind: Kind) -> bool
    ensures { result ≡ leads_to_task kind }
{
    matches!(kind, Kind::TaskGate)
}

/// Through a gate by its type.
#[tactic(auto, using(m386_base::proofs::Phrases::calls), unfolding(m386_transfer::specs::Executed::simply))]
fn by_gate<B: Bus>(p: &Proc, bus: &mut B, event: &Event, gate: &Desc) -> Result<Executed, Break>
    requires free { (B.view bus.old).kept ≡ false }
    ensures cycles { Performs (by_gate_phrase p.now event.now gate.now) (B.view bus.old) (B.view bus.new) it result }
    ensures free { (B.view bus.new).kept ≡ false }
{
    if leads_to_task(kind(gate)) {
        return make_switch(p, bus, gate_brief(event, gate));
    }
    let after = through(p, bus, event, gate)?;
    Ok(ran_to(after))
}

/// An event through its gate, without the error code of a task gate.
#[tactic(auto, using(m386_base::proofs::Phrases::calls), unfolding(crate::specs::Deliver::entered_phrase))]
pub(crate) fn enter<B: Bus>(p: &Proc, bus: &mut B, event: &Event) -> Result<Executed, Break>
    requires free { (B.view bus.old).kept ≡ false }
    ensures cycles { Performs (entered_phrase p.now event.now) (B.view bus.old) (B.view bus.new) it result }
    ensures free { (B.view bus.new).kept ≡ false }
{
    let gate = gate_for(p, bus, event)?;
    by_gate(p, bus, event, &gate)
}

/// A doubleword pushed on the stack of a state.
#[tactic(auto, using(m386_base::proofs::Phrases::calls), unfolding(crate::specs::Deliver::pushed_on_phrase))]
fn pushed_on<B: Bus>(p: &Proc, bus: &mut B, value: u32) -> Result<Proc, Break>
    requires free { (B.view bus.old).kept ≡ false }
    ensures cycles { Performs (pushed_on_phrase p.now value) (B.view bus.old) (B.view bus.new) it result }
    ensures free { (B.view bus.new).kept ≡ false }
{
    let stack = push(bus, &own_stack(p), 4, value)?;
    Ok(with_stack(p, &stack))
}

/// The error code, where there is one, on the stack of the new task. A fault of that push is seen there.
#[tactic(auto, using(m386_base::proofs::Phrases::caught))]
fn with_code<B: Bus>(p: &Proc, bus: &mut B, code: Option<u16>) -> Result<Ran, Stop>
    requires free { (B.view bus.old).kept ≡ false }
    ensures cycles { PerformsOrStops (with_code_phrase p.now code) (B.view bus.old) (B.view bus.new) it result }
    ensures free { (B.view bus.new).kept ≡ false }
{
    let Some(code) = code else {
        return Ok(without_fault(*p));
    };
    match pushed_on(p, bus, u32::from(code)) {
        Ok(after) => Ok(without_fault(after)),
        Err(Break::Fault(fault)) => Ok(Ran {
            after: *p,
            fault: Some(fault),
        }),
        Err(Break::Stop(stop)) => Err(stop),
    }
}

/// What stands behind the gate: a switch that went through pushes the code; a handler has it in its frame.
#[tactic(auto, using(m386_base::proofs::Phrases::caught))]
fn behind_gate<B: Bus>(executed: &Executed, bus: &mut B, code: Option<u16>) -> Result<Ran, Stop>
    requires free { (B.view bus.old).kept ≡ false }
    ensures cycles { PerformsOrStops (behind_gate_phrase code executed.now) (B.view bus.old) (B.view bus.new) it result }
    ensures free { (B.view bus.new).kept ≡ false }
{
    match executed {
        Executed::Came(came) if came.fail.is_none() => with_code(&came.after, bus, code),
        _ => Ok(as_ran(executed)),
    }
}

/// The same, where a fault that comes before a handler or a task was entered is seen in the state before.
#[tactic(auto, using(m386_base::proofs::Phrases::caught), unfolding(crate::specs::Deliver::met_phrase))]
fn met<B: Bus>(p: &Proc, bus: &mut B, event: &Event) -> Result<Executed, Stop>
    requires free { (B.view bus.old).kept ≡ false }
    ensures cycles { PerformsOrStops (met_phrase p.now event.now) (B.view bus.old) (B.view bus.new) it result }
    ensures free { (B.view bus.new).kept ≡ false }
{
    match enter(p, bus, event) {
        Ok(executed) => Ok(executed),
        Err(Break::Fault(fault)) => Ok(Executed::Ran(Ran {
            after: *p,
            fault: Some(fault),
        })),
        Err(Break::Stop(stop)) => Err(stop),
    }
}

/// The delivery of an event: the state that it leaves, and the fault that was met on the way, which is seen in that state. Behind a
/// task gate that is the new task where one of rows 8 to 19 of the check table fails, or the push of the error code; else it is the
/// state before.
#[tactic(auto, using(m386_base::proofs::Phrases::calls), unfolding(crate::specs::Deliver::deliver_phrase))]
pub fn delivered<B: Bus>(p: &Proc, bus: &mut B, event: &Event) -> Result<Ran, Stop>
    requires free { (B.view bus.old).kept ≡ false }
    ensures cycles { PerformsOrStops (deliver_phrase p.now event.now) (B.view bus.old) (B.view bus.new) it result }
    ensures free { (B.view bus.new).kept ≡ false }
{
    let executed = met(p, bus, event)?;
    behind_gate(&executed, bus, event.code)
}

/// Delivers an event. Through an interrupt or trap gate the processor goes on in its handler, with EIP, CS and EFLAGS pushed, SS and
/// ESP before them where the level is an inner one, and the error code behind them where there is one; through a task gate it goes
/// on in the task that the gate names, with the error code pushed there as a doubleword. A fault is the second fault as it was met,
/// and is seen in the state that `p` then has; `second` says what becomes of it. At `Err(Stop)` the state is as before (PRM 9.6).
pub fn deliver<B: Bus>(p: &mut Proc, bus: &mut B, event: Event) -> Result<(), Break>
    requires free { (B.view bus.old).kept ≡ false }
    ensures cycles { PerformsRan (deliver_phrase p.old event) (B.view bus.old) (B.view bus.new) ran p.old p.new result }
    ensures free { (B.view bus.new).kept ≡ false }
{
    let ran = delivered(p, bus, &event)?;
    *p = ran.after;
    match ran.fault {
        Some(fault) => Err(Break::Fault(fault)),
        None => Ok(()),
    }
}
