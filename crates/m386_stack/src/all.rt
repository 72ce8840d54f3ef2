//! PUSHA and POPA.
ghost use Rattle.std.specs.Prelude.{◌≡◌, false, ◌∷◌};
ghost use Rattle.m386_base.specs.Phrase.{Performs, it};
ghost use Rattle.m386_stack.specs.All.{depth_of, pushed_registers, push_registers_phrase, pop_register_phrase, pops, popped_registers, behind_pops, pop_registers_phrase};

use crate::names::size_of;
use crate::stack::{Stack, moved, own_stack, pop, push_all, with_pointer};
use m386_access::after::{register_at, with_register_at};
use m386_access::registers::{EAX, EBP, ECX, EDI, EDX, ESI, ESP};
use m386_base::ask::Role;
use m386_base::bus::Bus;
use m386_base::fault::Break;
use m386_base::number::Width;
use m386_state::proc::Proc;

/// The number of EBX.
const EBX: u8 = 3;

/// The registers that POPA pops, in its order.
const POPPED: [u8; 7] = [EDI, ESI, EBP, EBX, EDX, ECX, EAX];

/// What PUSHA pushes, in its order: ESP is the one before it.
fn pushed_registers(p: &Proc, width: Width) -> [u32; 8]
    ensures { result ≡ pushed_registers p.now width }
{
    [
        register_at(width, p, EAX),
        register_at(width, p, ECX),
        register_at(width, p, EDX),
        register_at(width, p, EBX),
        register_at(width, p, ESP),
        register_at(width, p, EBP),
        register_at(width, p, ESI),
        register_at(width, p, EDI),
    ]
}

/// PUSHA (PRM 17.2.2.11). Each push is tested as it is made, and what was written before a fault stays written.
#[tactic(auto, using(m386_base::proofs::Phrases::calls), unfolding(crate::specs::All::push_registers_phrase))]
pub(crate) fn push_registers<B: Bus>(p: &Proc, bus: &mut B, width: Width) -> Result<Proc, Break>
    requires free { (B.view bus.old).kept ≡ false }
    ensures cycles { Performs (push_registers_phrase p.now width) (B.view bus.old) (B.view bus.new) it result }
    ensures free { (B.view bus.new).kept ≡ false }
{
    let values = pushed_registers(p, width);
    let stack = push_all(bus, &own_stack(p), size_of(width), &values)?;
    Ok(with_pointer(p, &stack))
}

/// How many values lie below that of a register, where PUSHA has pushed all.
fn depth_of(register: u8) -> u32
    ensures { result ≡ depth_of register }
{
    7 - u32::from(register % 8)
}

/// Pops a register from a stack that PUSHA pushed it on.
#[tactic(auto, using(m386_base::proofs::Phrases::calls), unfolding(crate::specs::All::pop_register_phrase))]
fn pop_register<B: Bus>(
    p: &Proc,
    bus: &mut B,
    stack: &Stack,
    width: Width,
    register: u8,
) -> Result<Proc, Break>
    requires free { (B.view bus.old).kept ≡ false }
    ensures cycles { Performs (pop_register_phrase p.now stack.now width register) (B.view bus.old) (B.view bus.new) it result }
    ensures free { (B.view bus.new).kept ≡ false }
{
    let size = size_of(width);
    let place = moved(stack, depth_of(register) * u32::from(size));
    let value = pop(bus, Role::Pop, &place, size)?;
    Ok(with_register_at(width, p, register, value))
}

/// Pops registers from a stack that PUSHA pushed them on, each from its place.
#[tactic(auto, using(m386_base::proofs::Phrases::calls, crate::proofs::Loops::pop_steps))]
fn pop_each<B: Bus>(
    first: &Proc,
    bus: &mut B,
    stack: &Stack,
    width: Width,
    registers: &[u8],
) -> Result<Proc, Break>
    requires free { (B.view bus.old).kept ≡ false }
    ensures cycles { Performs (pops first.now stack.now width registers.now) (B.view bus.old) (B.view bus.new) it result }
    ensures free { (B.view bus.new).kept ≡ false }
{
    let mut p = *first;
    for register in registers {
        p = pop_register(&p, bus, stack, width, *register)?;
    }
    Ok(p)
}

/// The state behind POPA.
fn behind_pops(p: &Proc, width: Width, popped: &Proc) -> Proc
    ensures { result ≡ behind_pops p.now width popped.now }
{
    with_pointer(popped, &moved(&own_stack(p), 8 * u32::from(size_of(width))))
}

/// POPA (PRM 17.2.2.11). The place of ESP is passed over: it isn't read, and need not be among the stack's offsets.
#[tactic(auto, using(m386_base::proofs::Phrases::calls), unfolding(crate::specs::All::pop_registers_phrase))]
pub(crate) fn pop_registers<B: Bus>(p: &Proc, bus: &mut B, width: Width) -> Result<Proc, Break>
    requires free { (B.view bus.old).kept ≡ false }
    ensures cycles { Performs (pop_registers_phrase p.now width) (B.view bus.old) (B.view bus.new) it result }
    ensures free { (B.view bus.new).kept ≡ false }
{
    let popped = pop_each(p, bus, &own_stack(p), width, &POPPED)?;
    Ok(behind_pops(p, width, &popped))
}
