//! One instruction: its bytes are decoded, and lead to the crate that has its operation.
ghost use Rattle.std.specs.Prelude.{◌≡◌, false};
ghost use Rattle.m386_base.specs.Phrase.{Performs, it};
ghost use Rattle.m386_step.specs.Instruction.{operation_phrase, behind_operation, decoded_phrase, instruction_phrase};

use crate::code::fetch_operation;
use crate::fetch::reader_at;
use crate::settled::{behind_switch, settled};
use m386_access::after::at_eip;
use m386_base::bus::Bus;
use m386_base::exception::undefined_opcode;
use m386_base::fault::Break;
use m386_data::exec as data;
use m386_deliver::exec as deliver;
use m386_deliver::exec::delivers;
use m386_gates::exec as gates;
use m386_iomap::exec as ports;
use m386_opmap::op::Op;
use m386_segments::exec as segments;
use m386_stack::exec as stack;
use m386_state::proc::Proc;
use m386_string::exec as string;
use m386_string::repetition::behind_turn;
use m386_system::exec as system;
use m386_transfer::executed::{Executed, ran_to};

/// An operation, from a state with EIP behind it, by the first crate that takes it.
#[tactic(auto, using(m386_base::proofs::Phrases::calls), unfolding(crate::specs::Instruction::operation_phrase, m386_transfer::specs::Executed::simply))]
fn perform<B: Bus>(p: &Proc, op: &Op, bus: &mut B) -> Result<Executed, Break>
    requires free { (B.view bus.old).kept ≡ false }
    ensures cycles { Performs (operation_phrase op.now p.now) (B.view bus.old) (B.view bus.new) it result }
    ensures free { (B.view bus.new).kept ≡ false }
{
    let mut after = *p;
    if data::takes(op) {
        data::exec(&mut after, op, bus)?;
        return Ok(ran_to(after));
    }
    if deliver::takes(op) {
        return deliver::attempt(p, op, bus);
    }
    if gates::takes(op) {
        return gates::attempt(p, op, bus);
    }
    if ports::takes(op) {
        ports::exec(&mut after, op, bus)?;
        return Ok(ran_to(after));
    }
    if segments::takes(op) {
        segments::exec(&mut after, op, bus)?;
        return Ok(ran_to(after));
    }
    if stack::takes(op) {
        stack::exec(&mut after, op, bus)?;
        return Ok(ran_to(after));
    }
    if string::takes(op) {
        string::exec(&mut after, op, bus)?;
        return Ok(ran_to(after));
    }
    if system::takes(op) {
        system::exec(&mut after, op, bus)?;
        return Ok(ran_to(after));
    }
    Err(Break::Fault(undefined_opcode()))
}

/// What an operation of an instruction that began in a state comes to: EIP is the instruction's again where a further turn follows;
/// and the trap or the fault behind it is pending. Or what a switch makes of it.
fn behind_operation(op: &Op, before: &Proc, executed: &Executed) -> Proc
    ensures { result ≡ behind_operation op.now before.now executed.now }
{
    match executed {
        Executed::Ran(ran) => {
            let turned = behind_turn(op, before, &ran.after);
            settled(delivers(op, before), before, &turned, ran.fault)
        }
        Executed::Came(came) => behind_switch(before, came),
    }
}

/// An instruction of so many bytes, or a turn of one that is repeated.
#[tactic(auto, using(m386_base::proofs::Phrases::calls), unfolding(crate::specs::Instruction::decoded_phrase))]
fn execute<B: Bus>(op: &Op, len: u8, p: &Proc, bus: &mut B) -> Result<Proc, Break>
    requires free { (B.view bus.old).kept ≡ false }
    ensures cycles { Performs (decoded_phrase op.now len p.now) (B.view bus.old) (B.view bus.new) it result }
    ensures free { (B.view bus.new).kept ≡ false }
{
    let begun = at_eip(p, p.eip.wrapping_add(u32::from(len)));
    let executed = perform(&begun, op, bus)?;
    Ok(behind_operation(op, p, &executed))
}

/// The instruction at EIP. One that isn't built is #UD, behind its last byte.
#[tactic(auto, using(m386_base::proofs::Phrases::calls), unfolding(crate::specs::Instruction::instruction_phrase))]
pub fn instruction<B: Bus>(p: &Proc, bus: &mut B) -> Result<Proc, Break>
    requires free { (B.view bus.old).kept ≡ false }
    ensures cycles { Performs (instruction_phrase p.now) (B.view bus.old) (B.view bus.new) it result }
    ensures free { (B.view bus.new).kept ≡ false }
{
    let decoded = fetch_operation(reader_at(p), bus)?;
    execute(&decoded.op, decoded.len, p, bus)
}
