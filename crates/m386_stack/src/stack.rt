//! A stack that is pushed on and popped from.
ghost use Rattle.std.specs.Prelude.{◌≡◌, false, ◌⊎◌};
ghost use Rattle.m386_access.specs.Address.{access_fault_of};
ghost use Rattle.m386_base.specs.Phrase.{Performs, it};
ghost use Rattle.m386_base.specs.Segments.{ss};
ghost use Rattle.m386_stack.specs.Stack.{own_stack, top_of, at_pointer, moved, lowered, may_push, may_pop, put_top_phrase, push_phrase, pop_phrase, pushes, with_pointer, with_stack};

use m386_access::access::{read_groups, write_groups};
use m386_access::address::{access_fault, linear, may_read, may_write, segment};
use m386_access::after::{register_of, with_register};
use m386_access::registers::ESP;
use m386_base::ask::Role;
use m386_base::bus::Bus;
use m386_base::fault::{Break, Fault};
use m386_base::segments::SS;
use m386_desc::access::big;
use m386_segload::segment::with_segment;
use m386_state::proc::Proc;
use m386_state::segment::Seg;

/// A stack: its segment, and its pointer.
#[derive(Clone, Copy, Debug, PartialEq, Eq)]
pub struct Stack {
    /// SS. Its B bit says whether the pointer is ESP or SP.
    pub ss: Seg,
    /// ESP, of which the upper half stays where B is 0.
    pub esp: u32,
}

/// The stack that a processor is on.
pub fn own_stack(p: &Proc) -> Stack
    ensures { result ≡ own_stack p.now }
{
    Stack {
        ss: segment(p, SS),
        esp: register_of(p, ESP),
    }
}

/// The offset of the top, in bytes: ESP, or SP where B is 0 (PRM 6.3.1.2).
pub fn top(stack: &Stack) -> u32
    ensures { result ≡ top_of stack.now }
{
    if big(&stack.ss.desc) {
        stack.esp
    } else {
        stack.esp % 0x1_0000
    }
}

/// The stack with another pointer. Where B is 0 that is SP alone, and the upper half of ESP stays.
pub fn at_pointer(stack: &Stack, pointer: u32) -> Stack
    ensures { result ≡ at_pointer stack.now pointer }
{
    Stack {
        ss: stack.ss,
        esp: if big(&stack.ss.desc) {
            pointer
        } else {
            stack.esp / 0x1_0000 * 0x1_0000 + pointer % 0x1_0000
        },
    }
}

/// The stack with its top so many bytes higher, modulo 2^32, or modulo 2^16 where B is 0.
pub fn moved(stack: &Stack, by: u32) -> Stack
    ensures { result ≡ moved stack.now by }
{
    at_pointer(stack, stack.esp.wrapping_add(by))
}

/// The stack with room for so many bytes below its top.
pub fn lowered(stack: &Stack, len: u8) -> Stack
    ensures { result ≡ lowered stack.now len }
{
    at_pointer(stack, stack.esp.wrapping_sub(u32::from(len)))
}

/// Whether so many bytes may be written at the top.
fn may_push(stack: &Stack, len: u8) -> bool
    requires { (len ≡ 2) ⊎ (len ≡ 4) }
    ensures { result ≡ may_push stack.now len }
{
    may_write(&stack.ss, top(stack), len)
}

/// Whether so many bytes may be read at the top.
fn may_pop(stack: &Stack, len: u8) -> bool
    requires { (len ≡ 2) ⊎ (len ≡ 4) }
    ensures { result ≡ may_pop stack.now len }
{
    may_read(&stack.ss, top(stack), len)
}

/// The fault of a push or a pop.
fn stack_fault() -> Fault
    ensures { result ≡ access_fault_of ss }
{
    access_fault(SS)
}

/// Writes a value at the top.
#[tactic(auto, using(m386_base::proofs::Phrases::calls), unfolding(crate::specs::Stack::put_top_phrase))]
fn put_top<B: Bus>(bus: &mut B, stack: &Stack, len: u8, value: u32) -> Result<Stack, Break>
    requires free { (B.view bus.old).kept ≡ false }
    requires len { (len ≡ 2) ⊎ (len ≡ 4) }
    ensures cycles { Performs (put_top_phrase stack.now len value) (B.view bus.old) (B.view bus.new) it result }
    ensures free { (B.view bus.new).kept ≡ false }
{
    if !may_push(stack, len) {
        return Err(Break::Fault(stack_fault()));
    }
    write_groups(bus, Role::Push, linear(&stack.ss, top(stack)), len, value)?;
    Ok(*stack)
}

/// Pushes a value of 2 or 4 bytes, and answers the stack with it. #SS(0), with no cycle, exactly where the stack isn't usable,
/// isn't writable, or hasn't each of the bytes among its offsets (PRM 6.3.1, 9.8.12).
#[tactic(auto, using(m386_base::proofs::Phrases::calls), unfolding(crate::specs::Stack::push_phrase))]
pub fn push<B: Bus>(bus: &mut B, stack: &Stack, len: u8, value: u32) -> Result<Stack, Break>
    requires free { (B.view bus.old).kept ≡ false }
    requires len { (len ≡ 2) ⊎ (len ≡ 4) }
    ensures cycles { Performs (push_phrase stack.now len value) (B.view bus.old) (B.view bus.new) it result }
    ensures free { (B.view bus.new).kept ≡ false }
{
    put_top(bus, &lowered(stack, len), len, value)
}

/// Pops a value of 2 or 4 bytes; the stack behind it is `moved` by so many. #SS(0), with no cycle, exactly where the stack isn't
/// usable, isn't readable, or hasn't each of the bytes among its offsets (PRM 6.3.1, 9.8.12).
#[tactic(auto, using(m386_base::proofs::Phrases::calls), unfolding(crate::specs::Stack::pop_phrase))]
pub fn pop<B: Bus>(bus: &mut B, role: Role, stack: &Stack, len: u8) -> Result<u32, Break>
    requires free { (B.view bus.old).kept ≡ false }
    requires len { (len ≡ 2) ⊎ (len ≡ 4) }
    ensures cycles { Performs (pop_phrase role stack.now len) (B.view bus.old) (B.view bus.new) it result }
    ensures free { (B.view bus.new).kept ≡ false }
{
    if !may_pop(stack, len) {
        return Err(Break::Fault(stack_fault()));
    }
    read_groups(bus, role, linear(&stack.ss, top(stack)), len)
}

/// Pushes values of 2 or 4 bytes in this order, each tested when its turn comes. What was written before a fault stays written.
#[tactic(auto, using(m386_base::proofs::Phrases::calls, crate::proofs::Loops::push_steps))]
pub fn push_all<B: Bus>(bus: &mut B, first: &Stack, len: u8, values: &[u32]) -> Result<Stack, Break>
    requires free { (B.view bus.old).kept ≡ false }
    requires len { (len ≡ 2) ⊎ (len ≡ 4) }
    ensures cycles { Performs (pushes first.now len values.now) (B.view bus.old) (B.view bus.new) it result }
    ensures free { (B.view bus.new).kept ≡ false }
{
    let mut stack = *first;
    for value in values {
        stack = push(bus, &stack, len, *value)?;
    }
    Ok(stack)
}

/// The state with the pointer of a stack in ESP.
pub fn with_pointer(p: &Proc, stack: &Stack) -> Proc
    ensures { result ≡ with_pointer p.now stack.now }
{
    with_register(p, ESP, stack.esp)
}

/// The state on a stack: SS and ESP are changed.
pub fn with_stack(p: &Proc, stack: &Stack) -> Proc
    ensures { result ≡ with_stack p.now stack.now }
{
    with_pointer(&with_segment(p, SS, stack.ss), stack)
}
