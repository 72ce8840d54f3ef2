//! The orders in which a task switch saves and loads fields.
ghost use Rattle.std.specs.Prelude.{◌≡◌};
ghost use Rattle.m386_tss.specs.Orders.{saved_fields, loaded_fields};

use crate::fields::{EIP, LDT, TRAP};
use arrayvec::ArrayVec;

/// The numbers of the fields that a switch writes to the old task's segment, in their order: EIP, EFLAGS, the general
/// registers and the segment registers (PRM 7.5).
#[tactic(auto, using(crate::proofs::Rising::rising_more))]
pub fn save_order() -> ArrayVec<u8, 16>
    ensures { result.items ≡ saved_fields }
{
    let mut order = ArrayVec::new();
    for number in EIP..LDT {
        order.push(number);
    }
    order
}

/// The numbers of the fields that a switch reads from the new task's segment, in their order: those that it saves, and
/// then the LDT's selector and the word of the T bit (PRM 7.5).
#[tactic(auto, using(crate::proofs::Rising::rising_more))]
pub fn load_order() -> ArrayVec<u8, 18>
    ensures { result.items ≡ loaded_fields }
{
    let mut order = ArrayVec::new();
    for number in EIP..=TRAP {
        order.push(number);
    }
    order
}
