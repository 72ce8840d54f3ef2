//! The machine code of the tasks and of the handlers.
ghost use Rattle.std.specs.Prelude.{◌≡◌, ◌+◌, ◌*◌, ◌<◌, ◌≤◌, ◌^◌, ◌++◌, IfOk, OnOk};
ghost use Rattle.std.specs.List.{flat_map, range_with_len};
ghost use Rattle.m386_gen.specs.Code.{far_call, jump_back, locked_inc, scheduler_code, worker_code};
ghost use Rattle.m386_gen.specs.Generated.{selector_of};

use crate::tables::selector_of;
use m386_base::fault::NoMemory;
use std::alloc::Global;

/// The code that takes a general protection fault of a CALL whose task is busy: ADD ESP, 4; ADD doubleword [ESP], 7; IRET. It steps over
/// the CALL.
pub const FAULT_CODE: [u8; 8] = [0x83, 0xc4, 0x04, 0x83, 0x04, 0x24, 0x07, 0xcf];

/// The code that takes an interrupt of the timer: IRET.
pub const TIMER_CODE: [u8; 1] = [0xcf];

/// Appends LOCK INC of the doubleword at an address.
#[tactic(auto, using(std::proofs::lemmas::List::append_assoc), unfolding(m386_image::specs::Format::u32_bytes))]
fn put_locked_inc(code: &mut Vec<u8>, addr: u32) -> Result<(), NoMemory>
    ensures { OnOk result (code.new.items ≡ code.old.items ++ locked_inc addr) }
{
    code.extend_from_slice(&[0xf0, 0xff, 0x05])?;
    code.extend_from_slice(&addr.to_le_bytes())?;
    Ok(())
}

/// Appends CALL of a selector, with an offset of 0.
#[tactic(auto, using(std::proofs::lemmas::List::append_assoc), unfolding(m386_image::specs::Format::u16_bytes, m386_image::specs::Format::u32_bytes))]
fn put_far_call(code: &mut Vec<u8>, selector: u16) -> Result<(), NoMemory>
    ensures { OnOk result (code.new.items ≡ code.old.items ++ far_call selector) }
{
    code.extend_from_slice(&[0x9a, 0, 0, 0, 0])?;
    code.extend_from_slice(&selector.to_le_bytes())?;
    Ok(())
}

/// Appends JMP to the place that lies so many bytes before the jump's end.
#[tactic(auto, using(std::proofs::lemmas::List::append_assoc), unfolding(m386_image::specs::Format::u32_bytes))]
fn put_jump_back(code: &mut Vec<u8>, distance: u32) -> Result<(), NoMemory>
    requires { 1 ≤ distance }
    ensures { OnOk result (code.new.items ≡ code.old.items ++ jump_back distance) }
{
    code.extend_from_slice(&[0xe9])?;
    code.extend_from_slice(&(u32::MAX - distance + 1).to_le_bytes())?;
    Ok(())
}

/// Appends a CALL of each worker's task, the first of which has the number `first`.
fn put_calls(code: &mut Vec<u8>, first: u16, workers: u16) -> Result<(), NoMemory>
    requires { first + workers ≤ 8 }
    ensures { OnOk result (code.new.items ≡ code.old.items ++ flat_map (λ i. far_call (selector_of (first + i))) (range_with_len 0 workers)) }
{
    for worker in 0..workers {
        put_far_call(code, selector_of(first + worker))?;
    }
    Ok(())
}

/// The code of a scheduler, behind which the workers' tasks stand from the number `first` on.
#[tactic(auto, using(std::proofs::lemmas::List::append_assoc))]
pub fn scheduler_code(alloc: Global, first: u16, workers: u16) -> Result<Vec<u8>, NoMemory>
    requires { first + workers ≤ 8 }
    ensures { IfOk result (λ v. v.items ≡ scheduler_code 0x8000 (λ i. selector_of (first + i)) workers) }
{
    let mut code = Vec::new(alloc);
    put_locked_inc(&mut code, 0x8000)?;
    put_calls(&mut code, first, workers)?;
    put_jump_back(&mut code, 7 + 7 * u32::from(workers) + 5)?;
    Ok(code)
}

/// The code of a worker, which counts at an address.
#[tactic(auto, using(std::proofs::lemmas::List::append_assoc))]
pub fn worker_code(alloc: Global, counter: u32) -> Result<Vec<u8>, NoMemory>
    ensures { IfOk result (λ v. v.items ≡ worker_code counter) }
{
    let mut code = Vec::new(alloc);
    put_locked_inc(&mut code, counter)?;
    code.extend_from_slice(&TIMER_CODE)?;
    put_jump_back(&mut code, 7 + 1 + 5)?;
    Ok(code)
}
