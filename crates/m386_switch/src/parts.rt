//! The parts of a task switch up to the load of the new task's fields (PRM 7.5).
ghost use Rattle.std.specs.Prelude.{◌≡◌, false, true, ◌<◌, ◌≤◌, ◌%◌, ◌^◌};
ghost use Rattle.m386_base.specs.Phrase.{PerformsOrStops, it};
ghost use Rattle.m386_switch.specs.Parts.{claim_role, is_iret, is_admitted, link_phrase, with_tss, claim_rest, claim_phrase, saved_flags, saved_value, saves, save_phrase, relink_phrase, clear_phrase, release_phrase, loads, load_phrase};
ghost use Rattle.m386_tss.specs.Orders.{saved_fields};

use crate::fields::read_field;
use crate::written::write_field;
use m386_base::ask::{Ask, Role, Space};
use m386_base::bus::{Bus, cycle, leave};
use m386_base::desc::Desc;
use m386_base::fault::Stop;
use m386_base::flags::{Flag, put_flag};
use m386_base::kind::SwitchKind;
use m386_base::number::Flags;
use m386_base::split::gather;
use m386_checks::facts::Facts;
use m386_checks::first::old_fail;
use m386_segload::descriptor::{byte_group, read_descriptor, write_access};
use m386_state::proc::Proc;
use m386_tss::fields::{EAX, EFLAGS, EIP, ES, LINK};
use m386_tss::orders::{load_order, save_order};

/// The low 16 bits of a number.
pub(crate) fn low_16(number: u32) -> u16
    ensures { result ≡ number % 2 ^ 16 }
{
    (number % 0x1_0000) as u16
}

/// The role of the claim.
fn claim_role(kind: SwitchKind) -> Role
    ensures { result ≡ claim_role kind }
{
    match kind {
        SwitchKind::Jmp => Role::ClaimJmp,
        SwitchKind::Call | SwitchKind::Event | SwitchKind::Iret => Role::ClaimCall,
        SwitchKind::Start => Role::ClaimStart,
    }
}

/// Whether it is an IRET.
fn is_iret(kind: SwitchKind) -> bool
    ensures { result ≡ is_iret kind }
{
    matches!(kind, SwitchKind::Iret)
}

/// Whether rows 1 to 7 hold.
#[tactic(auto, unfolding(crate::specs::Parts::is_admitted))]
pub(crate) fn is_admitted(facts: &Facts) -> bool
    ensures { result ≡ is_admitted facts.now }
{
    match old_fail(facts) {
        Some(_) => false,
        None => true,
    }
}

/// The facts with the new TSS's descriptor.
pub(crate) fn with_tss(facts: &Facts, desc: Desc) -> Facts
    ensures { result ≡ with_tss facts.now desc }
{
    let mut with = *facts;
    with.tss = Some(desc);
    with
}

/// The selector of the new TSS: for IRET the back link of the old one, which is read.
#[tactic(auto, using(m386_base::proofs::Phrases::calls), unfolding(crate::specs::Parts::link_phrase))]
pub(crate) fn link<B: Bus>(
    bus: &mut B,
    kind: SwitchKind,
    base: u32,
    selector: u16,
) -> Result<u16, Stop>
    requires free { (B.view bus.old).kept ≡ false }
    ensures cycles { PerformsOrStops (link_phrase kind base selector) (B.view bus.old) (B.view bus.new) it result }
    ensures free { (B.view bus.new).kept ≡ false }
{
    match kind {
        SwitchKind::Iret => {
            let value = read_field(bus, Role::Back, base, LINK)?;
            Ok(low_16(value))
        }
        SwitchKind::Jmp | SwitchKind::Call | SwitchKind::Event | SwitchKind::Start => Ok(selector),
    }
}

/// The claim, where rows 1 to 7 hold with this descriptor; else the bus is freed.
#[tactic(auto, using(m386_base::proofs::Phrases::held), unfolding(crate::specs::Parts::claim_rest))]
fn claim_or_free<B: Bus>(bus: &mut B, facts: &Facts, address: u32, desc: Desc) -> Result<Desc, Stop>
    requires kept { (B.view bus.old).kept ≡ true }
    ensures cycles { PerformsOrStops (claim_rest facts.now address desc) (B.view bus.old) (B.view bus.new) it result }
    ensures free { (B.view bus.new).kept ≡ false }
{
    if is_admitted(&with_tss(facts, desc)) && !is_iret(facts.kind) {
        write_access(bus, claim_role(facts.kind), address, desc.access | 2)?;
        return Ok(desc);
    }
    leave(bus);
    Ok(desc)
}

/// The new TSS's descriptor, and the claim where rows 1 to 7 hold, as one locked group.
#[tactic(auto, using(m386_base::proofs::Phrases::calls), unfolding(crate::specs::Parts::claim_phrase))]
pub(crate) fn claim<B: Bus>(bus: &mut B, address: u32, facts: &Facts) -> Result<Desc, Stop>
    requires free { (B.view bus.old).kept ≡ false }
    ensures cycles { PerformsOrStops (claim_phrase address facts.now) (B.view bus.old) (B.view bus.new) it result }
    ensures free { (B.view bus.new).kept ≡ false }
{
    let desc = read_descriptor(bus, Role::Tss, address)?;
    claim_or_free(bus, facts, address, desc)
}

/// The flags as they are saved.
fn saved_flags(kind: SwitchKind, flags: Flags) -> Flags
    ensures { result ≡ saved_flags kind flags }
{
    match kind {
        SwitchKind::Iret => put_flag(Flag::NestedTask, false, flags),
        SwitchKind::Jmp | SwitchKind::Call | SwitchKind::Event | SwitchKind::Start => flags,
    }
}

/// What is saved as a field.
fn saved_value(kind: SwitchKind, p: &Proc, number: u8) -> u32
    requires { (8 ≤ number) × (number < 24) }
    ensures { result ≡ saved_value kind p.now number }
{
    if number == EIP {
        p.eip
    } else if number == EFLAGS {
        saved_flags(kind, p.eflags).0
    } else if number < ES {
        p.regs[(number - EAX) as usize]
    } else {
        u32::from(p.segs[(number - ES) as usize].selector)
    }
}

/// The fields of the old task, written one after another.
#[tactic(auto, using(m386_base::proofs::Phrases::calls, crate::proofs::Loops::save_steps))]
fn save_fields<B: Bus>(p: &Proc, bus: &mut B, kind: SwitchKind) -> Result<(), Stop>
    requires free { (B.view bus.old).kept ≡ false }
    ensures cycles { PerformsOrStops (saves kind p.now saved_fields) (B.view bus.old) (B.view bus.new) it result }
    ensures free { (B.view bus.new).kept ≡ false }
{
    let order = save_order();
    for number in order.as_slice() {
        let value = saved_value(kind, p, *number);
        write_field(bus, Role::Save, p.tr.desc.base, *number, value)?;
    }
    Ok(())
}

/// The old task's state, saved in its TSS. A start saves nothing.
#[tactic(auto, using(m386_base::proofs::Phrases::calls), unfolding(crate::specs::Parts::save_phrase))]
pub(crate) fn save<B: Bus>(p: &Proc, bus: &mut B, kind: SwitchKind) -> Result<(), Stop>
    requires free { (B.view bus.old).kept ≡ false }
    ensures cycles { PerformsOrStops (save_phrase kind p.now) (B.view bus.old) (B.view bus.new) it result }
    ensures free { (B.view bus.new).kept ≡ false }
{
    match kind {
        SwitchKind::Start => Ok(()),
        SwitchKind::Jmp | SwitchKind::Call | SwitchKind::Event | SwitchKind::Iret => {
            save_fields(p, bus, kind)
        }
    }
}

/// The back link of the new TSS, written by CALL and by an event.
#[tactic(auto, using(m386_base::proofs::Phrases::calls), unfolding(crate::specs::Parts::relink_phrase))]
pub(crate) fn relink<B: Bus>(
    bus: &mut B,
    kind: SwitchKind,
    base: u32,
    selector: u16,
) -> Result<(), Stop>
    requires free { (B.view bus.old).kept ≡ false }
    ensures cycles { PerformsOrStops (relink_phrase kind base selector) (B.view bus.old) (B.view bus.new) it result }
    ensures free { (B.view bus.new).kept ≡ false }
{
    match kind {
        SwitchKind::Call | SwitchKind::Event => {
            write_field(bus, Role::Link, base, LINK, u32::from(selector))
        }
        SwitchKind::Jmp | SwitchKind::Iret | SwitchKind::Start => Ok(()),
    }
}

/// The busy bit of the descriptor at this address, cleared: byte 5 read and written in one locked group.
#[tactic(auto, using(m386_base::proofs::Phrases::calls), unfolding(crate::specs::Parts::clear_phrase))]
fn clear<B: Bus>(bus: &mut B, role: Role, address: u32) -> Result<(), Stop>
    requires free { (B.view bus.old).kept ≡ false }
    ensures cycles { PerformsOrStops (clear_phrase role address) (B.view bus.old) (B.view bus.new) it result }
    ensures free { (B.view bus.new).kept ≡ false }
{
    let piece = byte_group(address.wrapping_add(5));
    let ask = Ask {
        space: Space::Memory,
        write: false,
        joined: false,
        role,
        part: 0,
        addr: piece.addr,
        enables: piece.enables,
        value: 0,
    };
    let found = cycle(bus, ask, true)?;
    let cleared = (gather(piece, found) & 0xfd) as u8;
    write_access(bus, role, address, cleared)?;
    Ok(())
}

/// The old task's busy bit, cleared by JMP and IRET.
#[tactic(auto, using(m386_base::proofs::Phrases::calls), unfolding(crate::specs::Parts::release_phrase))]
pub(crate) fn release<B: Bus>(bus: &mut B, kind: SwitchKind, address: u32) -> Result<(), Stop>
    requires free { (B.view bus.old).kept ≡ false }
    ensures cycles { PerformsOrStops (release_phrase kind address) (B.view bus.old) (B.view bus.new) it result }
    ensures free { (B.view bus.new).kept ≡ false }
{
    match kind {
        SwitchKind::Jmp => clear(bus, Role::RelJmp, address),
        SwitchKind::Iret => clear(bus, Role::RelRet, address),
        SwitchKind::Call | SwitchKind::Event | SwitchKind::Start => Ok(()),
    }
}

/// The new task's fields 8 to 25, each at the place of its number, counted from 8.
#[tactic(auto, using(m386_base::proofs::Phrases::calls, crate::proofs::Loops::load_steps), unfolding(crate::specs::Parts::load_phrase))]
pub(crate) fn load<B: Bus>(bus: &mut B, base: u32) -> Result<[u32; 18], Stop>
    requires free { (B.view bus.old).kept ≡ false }
    ensures cycles { PerformsOrStops (load_phrase base) (B.view bus.old) (B.view bus.new) it result }
    ensures free { (B.view bus.new).kept ≡ false }
{
    let order = load_order();
    let mut loaded = [0; 18];
    for number in order.as_slice() {
        let value = read_field(bus, Role::Load, base, *number)?;
        loaded[(*number - EIP) as usize] = value;
    }
    Ok(loaded)
}
