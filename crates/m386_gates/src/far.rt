//! Far JMP and CALL: to code that the selector names itself, through a call gate, and to a task, by itself or through a task gate (PRM 6.3.3,
//! 6.3.4, 7.4, 7.5; 17.2.2.11, CALL, JMP).
ghost use Rattle.std.specs.Prelude.{◌≡◌, ◌<◌, true, false, is_some};
ghost use Rattle.m386_base.specs.Phrase.{Performs, it};
ghost use Rattle.m386_transfer.specs.Executed.{switching_phrase};
ghost use Rattle.m386_gates.specs.Far.{pointer_phrase, linked_phrase, arrive_phrase, direct_phrase, gate_target_phrase, through_stack_phrase, through_phrase, gate_phrase, destination_of, switch_kind_of, task_brief, task_gate_phrase, by_type_phrase, far_to_phrase, far_phrase};

use crate::copies::carried;
use crate::near::near_target;
use m386_access::address::segment;
use m386_base::bus::{Bus, leave};
use m386_base::desc::Desc;
use m386_base::exception::undefined_opcode;
use m386_base::fault::Break;
use m386_base::kind::SwitchKind;
use m386_base::number::Width;
use m386_base::segments::CS;
use m386_desc::access::kind;
use m386_desc::gate::Gate4;
use m386_desc::kind::Kind;
use m386_desc::selector::error_code;
use m386_opmap::op::{Arg, Op};
use m386_segload::load::{candidate_for, judge, load_desc, take};
use m386_segload::pointer::{FarPointer, read_pointer};
use m386_segload::requirements::first_broken;
use m386_segload::rules::{
    CALL_GATE_RULES, Candidate, DIRECT_RULES, JUMP_TARGET_RULES, TARGET_RULES,
};
use m386_segload::segment::or_zeros;
use m386_segload::tables::{place_for, table_role};
use m386_stack::names::size_of;
use m386_stack::stack::{Stack, own_stack, push_all};
use m386_state::proc::Proc;
use m386_transfer::executed::{Brief, Executed, make_switch, ran_to};
use m386_transfer::gate::gate_of;
use m386_transfer::place::{Target, level_of, placed, stack_for, target_fault};

/// What a far transfer does.
#[derive(Clone, Copy)]
pub enum Far {
    /// JMP.
    Jump,
    /// CALL, which pushes CS and EIP.
    Call,
}

/// Where a far transfer leads to.
#[derive(Clone, Copy)]
pub enum Destination {
    /// Code that the selector names itself, or what can't be reached.
    Code,
    /// What a call gate leads to.
    CallGate,
    /// The task of a TSS.
    Task,
    /// The task that a task gate names.
    TaskGate,
}

/// The far pointer of an operation, in the instruction or in memory.
#[tactic(auto, using(m386_base::proofs::Phrases::calls), unfolding(crate::specs::Far::pointer_phrase))]
fn pointer<B: Bus>(p: &Proc, bus: &mut B, op: &Op) -> Result<FarPointer, Break>
    requires free { (B.view bus.old).kept ≡ false }
    ensures cycles { Performs (pointer_phrase p.now op.now) (B.view bus.old) (B.view bus.new) it result }
    ensures free { (B.view bus.new).kept ≡ false }
{
    match op.args.as_slice() {
        [Arg::Far { selector, offset }] => Ok(FarPointer {
            selector: *selector,
            offset: *offset,
        }),
        [Arg::Mem(a)] => read_pointer(p, bus, op.width, a),
        _ => Err(Break::Fault(undefined_opcode())),
    }
}

/// The state at a target. A CALL pushes CS and EIP first, with 2 bytes each for 16 bits.
#[tactic(auto, using(m386_base::proofs::Phrases::calls))]
fn linked<B: Bus>(
    p: &Proc,
    bus: &mut B,
    far: Far,
    width: Width,
    target: &Target,
    stack: &Stack,
) -> Result<Proc, Break>
    requires free { (B.view bus.old).kept ≡ false }
    requires level { target.now.level < 4 }
    ensures cycles { Performs (linked_phrase far p.now width target.now stack.now) (B.view bus.old) (B.view bus.new) it result }
    ensures free { (B.view bus.new).kept ≡ false }
{
    match far {
        Far::Jump => Ok(placed(p, target, stack)),
        Far::Call => {
            let selector = u32::from(segment(p, CS).selector);
            let values = [selector, near_target(width, p.eip)];
            let top = push_all(bus, stack, size_of(width), &values)?;
            Ok(placed(p, target, &top))
        }
    }
}

/// Code that the selector names itself, which runs at CPL.
#[tactic(auto, using(m386_base::proofs::Phrases::calls), unfolding(crate::specs::Far::direct_phrase))]
fn direct<B: Bus>(
    p: &Proc,
    bus: &mut B,
    far: Far,
    width: Width,
    offset: u32,
    c: &Candidate,
) -> Result<Proc, Break>
    requires kept { (B.view bus.old).kept ≡ is_some c.now.desc }
    ensures cycles { Performs (direct_phrase p.now far width offset c.now) (B.view bus.old) (B.view bus.new) it result }
    ensures free { (B.view bus.new).kept ≡ false }
{
    let desc = judge(bus, &DIRECT_RULES, place_for(p, c.selector), c)?;
    let target = Target {
        selector: c.selector,
        desc,
        level: p.cpl(),
        offset,
    };
    match target_fault(&target) {
        Some(fault) => Err(Break::Fault(fault)),
        None => linked(p, bus, far, width, &target, &own_stack(p)),
    }
}

/// The code that a gate leads to, tested and marked.
#[tactic(auto, using(m386_base::proofs::Phrases::calls))]
fn gate_target<B: Bus>(p: &Proc, bus: &mut B, far: Far, selector: u16) -> Result<Desc, Break>
    requires free { (B.view bus.old).kept ≡ false }
    ensures cycles { Performs (gate_target_phrase far p.now selector) (B.view bus.old) (B.view bus.new) it result }
    ensures free { (B.view bus.new).kept ≡ false }
{
    match far {
        Far::Jump => take(p, bus, &JUMP_TARGET_RULES, p.cpl(), false, selector),
        Far::Call => take(p, bus, &TARGET_RULES, p.cpl(), false, selector),
    }
}

/// What lies behind the test of a gate's offset: what a changed stack carries, CS and EIP, the state.
#[tactic(auto, using(m386_base::proofs::Phrases::calls), unfolding(crate::specs::Far::arrive_phrase))]
fn arrive<B: Bus>(
    p: &Proc,
    bus: &mut B,
    far: Far,
    count: u8,
    target: &Target,
    stack: &Stack,
) -> Result<Proc, Break>
    requires free { (B.view bus.old).kept ≡ false }
    requires level { target.now.level < 4 }
    ensures cycles { Performs (arrive_phrase p.now far count target.now stack.now) (B.view bus.old) (B.view bus.new) it result }
    ensures free { (B.view bus.new).kept ≡ false }
{
    match target_fault(target) {
        Some(fault) => Err(Break::Fault(fault)),
        None => {
            let top = carried(p, bus, target.level, count, stack)?;
            linked(p, bus, far, Width::W32, target, &top)
        }
    }
}

/// The stack of the level that a gate leads to, and what follows.
#[tactic(auto, using(m386_base::proofs::Phrases::calls), unfolding(crate::specs::Far::through_stack_phrase))]
fn through_stack<B: Bus>(
    p: &Proc,
    bus: &mut B,
    far: Far,
    count: u8,
    target: &Target,
) -> Result<Proc, Break>
    requires free { (B.view bus.old).kept ≡ false }
    requires level { target.now.level < 4 }
    ensures cycles { Performs (through_stack_phrase p.now far count target.now) (B.view bus.old) (B.view bus.new) it result }
    ensures free { (B.view bus.new).kept ≡ false }
{
    let stack = stack_for(p, bus, target.level, false)?;
    arrive(p, bus, far, count, target, &stack)
}

/// A transfer through a gate that may be used. Its pushes have 4 bytes each at either width.
#[tactic(auto, using(m386_base::proofs::Phrases::calls), unfolding(crate::specs::Far::through_phrase))]
fn through<B: Bus>(p: &Proc, bus: &mut B, far: Far, gate: &Gate4) -> Result<Proc, Break>
    requires free { (B.view bus.old).kept ≡ false }
    ensures cycles { Performs (through_phrase p.now far gate.now) (B.view bus.old) (B.view bus.new) it result }
    ensures free { (B.view bus.new).kept ≡ false }
{
    let desc = gate_target(p, bus, far, gate.selector)?;
    let target = Target {
        selector: gate.selector,
        desc,
        level: level_of(p, &desc),
        offset: gate.offset,
    };
    through_stack(p, bus, far, gate.count, &target)
}

/// A call gate that was read: its rules, and what follows. The bus is freed.
#[tactic(auto, using(m386_base::proofs::Phrases::held), unfolding(crate::specs::Far::gate_phrase))]
fn gate<B: Bus>(p: &Proc, bus: &mut B, far: Far, c: &Candidate) -> Result<Proc, Break>
    requires kept { (B.view bus.old).kept ≡ is_some c.now.desc }
    ensures cycles { Performs (gate_phrase p.now far c.now) (B.view bus.old) (B.view bus.new) it result }
    ensures free { (B.view bus.new).kept ≡ false }
{
    leave(bus);
    match first_broken(&CALL_GATE_RULES, c) {
        Some(fault) => Err(Break::Fault(fault)),
        None => through(p, bus, far, &gate_of(&or_zeros(c.desc))),
    }
}

/// Where a far transfer leads to, by the type of the descriptor that was found. A TSS may be busy or available.
fn destination_of(found: Option<Desc>) -> Destination
    ensures { result ≡ destination_of found }
{
    match found {
        Some(desc) => match kind(&desc) {
            Kind::CallGate => Destination::CallGate,
            Kind::TaskGate => Destination::TaskGate,
            Kind::Tss { .. } => Destination::Task,
            _ => Destination::Code,
        },
        None => Destination::Code,
    }
}

/// What makes the switch.
fn switch_kind_of(far: Far) -> SwitchKind
    ensures { result ≡ switch_kind_of far }
{
    match far {
        Far::Jump => SwitchKind::Jmp,
        Far::Call => SwitchKind::Call,
    }
}

/// The switch to the task of a TSS, by whether the transfer names the TSS itself or a gate does.
fn task_brief(far: Far, selector: u16, direct: bool) -> Brief
    ensures { result ≡ task_brief far selector direct }
{
    Brief {
        kind: switch_kind_of(far),
        selector,
        direct,
        ext: false,
    }
}

/// The switch to a task whose TSS the selector names itself. The bus is freed, and the descriptor is read anew.
#[tactic(auto, using(m386_base::proofs::Phrases::held))]
fn to_task<B: Bus>(p: &Proc, bus: &mut B, far: Far, c: &Candidate) -> Result<Executed, Break>
    requires kept { (B.view bus.old).kept ≡ is_some c.now.desc }
    ensures cycles { Performs (switching_phrase p.now (task_brief far c.now.selector true)) (B.view bus.old) (B.view bus.new) it result }
    ensures free { (B.view bus.new).kept ≡ false }
{
    leave(bus);
    make_switch(p, bus, task_brief(far, c.selector, true))
}

/// A task gate that was read: its rules, which are those of a call gate, and the switch to the task that it names. The bus is freed.
#[tactic(auto, using(m386_base::proofs::Phrases::held), unfolding(crate::specs::Far::task_gate_phrase))]
fn task_gate<B: Bus>(p: &Proc, bus: &mut B, far: Far, c: &Candidate) -> Result<Executed, Break>
    requires kept { (B.view bus.old).kept ≡ is_some c.now.desc }
    ensures cycles { Performs (task_gate_phrase p.now far c.now) (B.view bus.old) (B.view bus.new) it result }
    ensures free { (B.view bus.new).kept ≡ false }
{
    leave(bus);
    match first_broken(&CALL_GATE_RULES, c) {
        Some(fault) => Err(Break::Fault(fault)),
        None => {
            let selector = gate_of(&or_zeros(c.desc)).selector;
            make_switch(p, bus, task_brief(far, selector, false))
        }
    }
}

/// By the type of what was found.
#[tactic(auto, using(m386_base::proofs::Phrases::calls), unfolding(crate::specs::Far::by_type_phrase, m386_transfer::specs::Executed::simply))]
fn by_type<B: Bus>(
    p: &Proc,
    bus: &mut B,
    far: Far,
    width: Width,
    offset: u32,
    c: &Candidate,
) -> Result<Executed, Break>
    requires kept { (B.view bus.old).kept ≡ is_some c.now.desc }
    ensures cycles { Performs (by_type_phrase p.now far width offset c.now) (B.view bus.old) (B.view bus.new) it result }
    ensures free { (B.view bus.new).kept ≡ false }
{
    match destination_of(c.desc) {
        Destination::Code => Ok(ran_to(direct(p, bus, far, width, offset, c)?)),
        Destination::CallGate => Ok(ran_to(gate(p, bus, far, c)?)),
        Destination::Task => to_task(p, bus, far, c),
        Destination::TaskGate => task_gate(p, bus, far, c),
    }
}

/// A far transfer by its pointer. The descriptor is read before any rule is tested.
#[tactic(auto, using(m386_base::proofs::Phrases::calls), unfolding(crate::specs::Far::far_to_phrase))]
fn far_to<B: Bus>(
    p: &Proc,
    bus: &mut B,
    far: Far,
    width: Width,
    pointer: FarPointer,
) -> Result<Executed, Break>
    requires free { (B.view bus.old).kept ≡ false }
    ensures cycles { Performs (far_to_phrase p.now far width pointer) (B.view bus.old) (B.view bus.new) it result }
    ensures free { (B.view bus.new).kept ≡ false }
{
    let selector = pointer.selector;
    let found = load_desc(p, bus, selector, table_role(selector))?;
    let c = candidate_for(p.cpl(), error_code(selector, false), selector, found);
    by_type(p, bus, far, width, pointer.offset, &c)
}

/// Far JMP or CALL. A fault comes exactly by the first rule that is broken. To a TSS or a task gate that passes its rules it is a task
/// switch, whatever it comes to.
#[tactic(auto, using(m386_base::proofs::Phrases::calls), unfolding(crate::specs::Far::far_phrase))]
pub(crate) fn transfer_far<B: Bus>(
    p: &Proc,
    bus: &mut B,
    far: Far,
    op: &Op,
) -> Result<Executed, Break>
    requires free { (B.view bus.old).kept ≡ false }
    ensures cycles { Performs (far_phrase p.now far op.now) (B.view bus.old) (B.view bus.new) it result }
    ensures free { (B.view bus.new).kept ≡ false }
{
    let pointer = pointer(p, bus, op)?;
    far_to(p, bus, far, op.width, pointer)
}
