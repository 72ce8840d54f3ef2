//! The return from a handler, and from a nested task.
ghost use Rattle.std.specs.Prelude.{◌≡◌, ◌⊎◌, false};
ghost use Rattle.m386_access.specs.Ran.{ran};
ghost use Rattle.m386_base.specs.Phrase.{Performs, PerformsOrStops, PerformsRan, it};
ghost use Rattle.m386_transfer.specs.Executed.{told};
ghost use Rattle.m386_deliver.specs.Iret.{behind_image_phrase, image_phrase, handler_left_phrase, returned_phrase};

use m386_access::after::with_flags;
use m386_access::ran::Ran;
use m386_base::ask::Role;
use m386_base::bus::Bus;
use m386_base::fault::{Break, Stop};
use m386_base::flags::{Flag, has_flag};
use m386_base::kind::SwitchKind;
use m386_base::number::Width;
use m386_opmap::op::Op;
use m386_stack::flags::popped_flags;
use m386_stack::names::size_of;
use m386_stack::stack::{Stack, moved, own_stack, pop};
use m386_state::proc::Proc;
use m386_transfer::executed::{Brief, Executed, as_ran, make_switch, ran_to};
use m386_transfer::returns::return_to;

/// The return to CS:EIP, with the flags of an image as the level of the handler may change them.
#[tactic(auto, using(m386_base::proofs::Phrases::calls), unfolding(crate::specs::Iret::behind_image_phrase))]
fn behind_image<B: Bus>(
    p: &Proc,
    bus: &mut B,
    cs: u16,
    eip: u32,
    image: u32,
    stack: &Stack,
    len: u8,
) -> Result<Proc, Break>
    requires free { (B.view bus.old).kept ≡ false }
    requires len { (len ≡ 2) ⊎ (len ≡ 4) }
    ensures cycles { Performs (behind_image_phrase p.now cs eip image stack.now len) (B.view bus.old) (B.view bus.new) it result }
    ensures free { (B.view bus.new).kept ≡ false }
{
    let after = return_to(p, bus, cs, eip, stack, len, 0)?;
    Ok(with_flags(&after, popped_flags(p, image)))
}

/// The image of the flags, and the return.
#[tactic(auto, using(m386_base::proofs::Phrases::calls), unfolding(crate::specs::Iret::image_phrase))]
fn with_image<B: Bus>(
    p: &Proc,
    bus: &mut B,
    cs: u16,
    eip: u32,
    stack: &Stack,
    len: u8,
) -> Result<Proc, Break>
    requires free { (B.view bus.old).kept ≡ false }
    requires len { (len ≡ 2) ⊎ (len ≡ 4) }
    ensures cycles { Performs (image_phrase p.now cs eip stack.now len) (B.view bus.old) (B.view bus.new) it result }
    ensures free { (B.view bus.new).kept ≡ false }
{
    let image = pop(bus, Role::Flags, stack, len)?;
    behind_image(p, bus, cs, eip, image, &moved(stack, u32::from(len)), len)
}

/// The return by EIP, CS and the flags, which are popped in this order.
#[tactic(auto, using(m386_base::proofs::Phrases::calls), unfolding(crate::specs::Iret::handler_left_phrase))]
fn handler_left<B: Bus>(p: &Proc, bus: &mut B, len: u8) -> Result<Proc, Break>
    requires free { (B.view bus.old).kept ≡ false }
    requires len { (len ≡ 2) ⊎ (len ≡ 4) }
    ensures cycles { Performs (handler_left_phrase p.now len) (B.view bus.old) (B.view bus.new) it result }
    ensures free { (B.view bus.new).kept ≡ false }
{
    let first = own_stack(p);
    let second = moved(&first, u32::from(len));
    let eip = pop(bus, Role::Pop, &first, len)?;
    let cs = pop(bus, Role::Pop, &second, len)?;
    with_image(
        p,
        bus,
        (cs % 0x1_0000) as u16,
        eip,
        &moved(&second, u32::from(len)),
        len,
    )
}

/// IRET, from a state with EIP behind it: EIP, CS and the flags are popped, of 16 bits each with a width of 16, and the return is made to
/// the same or an outer level. The flags change as the level of the handler may change them. With NT set it is a switch to the task that
/// TR's TSS names as its back link, and answers what that came to (PRM 17.2.2.11, IRET; 7.6).
#[tactic(auto, using(m386_base::proofs::Phrases::calls), unfolding(crate::specs::Iret::returned_phrase, m386_transfer::specs::Executed::simply))]
pub fn returned<B: Bus>(p: &Proc, bus: &mut B, width: Width) -> Result<Executed, Break>
    requires free { (B.view bus.old).kept ≡ false }
    ensures cycles { Performs (returned_phrase p.now width) (B.view bus.old) (B.view bus.new) it result }
    ensures free { (B.view bus.new).kept ≡ false }
{
    if has_flag(Flag::NestedTask, p.eflags) {
        let brief = Brief {
            kind: SwitchKind::Iret,
            selector: 0,
            direct: false,
            ext: false,
        };
        return make_switch(p, bus, brief);
    }
    let after = handler_left(p, bus, size_of(width))?;
    Ok(ran_to(after))
}

/// The state that IRET left, or the one before it, and the fault that is seen in it.
#[tactic(auto, using(m386_base::proofs::Phrases::caught), unfolding(m386_transfer::specs::Executed::told))]
fn left<B: Bus>(p: &Proc, bus: &mut B, width: Width) -> Result<Ran, Stop>
    requires free { (B.view bus.old).kept ≡ false }
    ensures cycles { PerformsOrStops (told p.now (returned_phrase p.now width)) (B.view bus.old) (B.view bus.new) it result }
    ensures free { (B.view bus.new).kept ≡ false }
{
    match returned(p, bus, width) {
        Ok(executed) => Ok(as_ran(&executed)),
        Err(Break::Fault(fault)) => Ok(Ran {
            after: *p,
            fault: Some(fault),
        }),
        Err(Break::Stop(stop)) => Err(stop),
    }
}

/// IRET, with EIP behind it, where it makes no difference in which state a fault is seen. At a fault the state is the one that it is seen
/// in, and at `Err(Stop)` it is as before.
pub fn iret<B: Bus>(p: &mut Proc, op: &Op, bus: &mut B) -> Result<(), Break>
    requires free { (B.view bus.old).kept ≡ false }
    ensures cycles { PerformsRan (told p.old (returned_phrase p.old op.now.width)) (B.view bus.old) (B.view bus.new) ran p.old p.new result }
    ensures free { (B.view bus.new).kept ≡ false }
{
    let ran = left(p, bus, op.width)?;
    *p = ran.after;
    match ran.fault {
        Some(fault) => Err(Break::Fault(fault)),
        None => Ok(()),
    }
}
