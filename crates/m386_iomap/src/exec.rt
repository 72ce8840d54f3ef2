//! The operations of this crate.
ghost use Rattle.std.specs.Prelude.{◌≡◌, ◌⊎◌, false, OnErr};
ghost use Rattle.m386_base.specs.Phrase.{Performs, it};
ghost use Rattle.m386_iomap.specs.Exec.{takes, has_io_privilege, map_test_phrase, test_phrase, in_phrase, out_phrase, moved_phrase, transfer_phrase, named_phrase, exec_phrase};

use crate::map::may_use;
use crate::ports::{read_ports, write_ports};
use crate::transfer::{Direction, Transfer, direction_of, transfer_of};
use m386_access::after::{len_of, register_at, with_register_at};
use m386_access::operands::operands_of;
use m386_base::bus::Bus;
use m386_base::exception::{general_protection, undefined_opcode};
use m386_base::fault::Break;
use m386_base::number::Width;
use m386_opmap::op::Op;
use m386_state::proc::Proc;

/// Whether an operation is one of this crate's.
#[tactic(auto, unfolding(crate::specs::Exec::takes))]
pub fn takes(op: &Op) -> bool
    ensures { result ≡ takes op.now }
{
    direction_of(op.name).is_some()
}

/// Whether the program may use each port, whatever the map says: CPL is at most IOPL.
fn has_io_privilege(p: &Proc) -> bool
    ensures { result ≡ has_io_privilege p.now }
{
    u32::from(p.cpl()) <= p.eflags.0 / 0x1000 % 4
}

/// The test of an access by the map: #GP(0) exactly where the map doesn't allow it.
#[tactic(auto, using(m386_base::proofs::Phrases::calls), unfolding(crate::specs::Exec::map_test_phrase))]
fn test_map<B: Bus>(p: &Proc, bus: &mut B, port: u16, len: u8) -> Result<(), Break>
    requires free { (B.view bus.old).kept ≡ false }
    requires len { (len ≡ 1) ⊎ (len ≡ 2) ⊎ (len ≡ 4) }
    ensures cycles { Performs (map_test_phrase p.now port len) (B.view bus.old) (B.view bus.new) it result }
    ensures free { (B.view bus.new).kept ≡ false }
{
    let allowed = may_use(p, bus, port, len)?;
    if !allowed {
        return Err(Break::Fault(general_protection()));
    }
    Ok(())
}

/// The test of an access: none where CPL is at most IOPL, else that of the map (PRM 8.3).
#[tactic(auto, using(m386_base::proofs::Phrases::calls), unfolding(crate::specs::Exec::test_phrase))]
fn test<B: Bus>(p: &Proc, bus: &mut B, port: u16, len: u8) -> Result<(), Break>
    requires free { (B.view bus.old).kept ≡ false }
    requires len { (len ≡ 1) ⊎ (len ≡ 2) ⊎ (len ≡ 4) }
    ensures cycles { Performs (test_phrase p.now port len) (B.view bus.old) (B.view bus.new) it result }
    ensures free { (B.view bus.new).kept ≡ false }
{
    if has_io_privilege(p) {
        return Ok(());
    }
    test_map(p, bus, port, len)
}

/// IN: a register of this width takes the bytes of the ports.
#[tactic(auto, using(m386_base::proofs::Phrases::calls), unfolding(crate::specs::Exec::in_phrase))]
fn input<B: Bus>(
    width: Width,
    p: &Proc,
    bus: &mut B,
    register: u8,
    port: u16,
) -> Result<Proc, Break>
    requires free { (B.view bus.old).kept ≡ false }
    ensures cycles { Performs (in_phrase width p.now register port) (B.view bus.old) (B.view bus.new) it result }
    ensures free { (B.view bus.new).kept ≡ false }
{
    let value = read_ports(bus, port, len_of(width))?;
    Ok(with_register_at(width, p, register, value))
}

/// OUT: the ports take the bytes of a register of this width.
#[tactic(auto, using(m386_base::proofs::Phrases::calls), unfolding(crate::specs::Exec::out_phrase))]
fn output<B: Bus>(
    width: Width,
    p: &Proc,
    bus: &mut B,
    register: u8,
    port: u16,
) -> Result<Proc, Break>
    requires free { (B.view bus.old).kept ≡ false }
    ensures cycles { Performs (out_phrase width p.now register port) (B.view bus.old) (B.view bus.new) it result }
    ensures free { (B.view bus.new).kept ≡ false }
{
    write_ports(bus, port, len_of(width), register_at(width, p, register))?;
    Ok(*p)
}

/// The cycles on the ports.
#[tactic(auto, using(m386_base::proofs::Phrases::calls))]
fn perform<B: Bus>(width: Width, p: &Proc, bus: &mut B, transfer: Transfer) -> Result<Proc, Break>
    requires free { (B.view bus.old).kept ≡ false }
    ensures cycles { Performs (moved_phrase width p.now transfer) (B.view bus.old) (B.view bus.new) it result }
    ensures free { (B.view bus.new).kept ≡ false }
{
    match transfer.direction {
        Direction::In => input(width, p, bus, transfer.register, transfer.port),
        Direction::Out => output(width, p, bus, transfer.register, transfer.port),
    }
}

/// A transfer: the test of its access, and then its cycles on the ports.
#[tactic(auto, using(m386_base::proofs::Phrases::calls), unfolding(crate::specs::Exec::transfer_phrase))]
fn do_transfer<B: Bus>(
    width: Width,
    p: &Proc,
    bus: &mut B,
    transfer: Transfer,
) -> Result<Proc, Break>
    requires free { (B.view bus.old).kept ≡ false }
    ensures cycles { Performs (transfer_phrase width p.now transfer) (B.view bus.old) (B.view bus.new) it result }
    ensures free { (B.view bus.new).kept ≡ false }
{
    test(p, bus, transfer.port, len_of(width))?;
    perform(width, p, bus, transfer)
}

/// A transfer, where there is one; other operands are #UD.
#[tactic(auto, using(m386_base::proofs::Phrases::calls))]
fn do_named<B: Bus>(
    width: Width,
    p: &Proc,
    bus: &mut B,
    transfer: Option<Transfer>,
) -> Result<Proc, Break>
    requires free { (B.view bus.old).kept ≡ false }
    ensures cycles { Performs (named_phrase width p.now transfer) (B.view bus.old) (B.view bus.new) it result }
    ensures free { (B.view bus.new).kept ≡ false }
{
    match transfer {
        Some(transfer) => do_transfer(width, p, bus, transfer),
        None => Err(Break::Fault(undefined_opcode())),
    }
}

/// Executes an operation of this crate, with EIP behind it. At `Err` the state is as before.
#[tactic(auto, using(m386_base::proofs::Phrases::calls), unfolding(crate::specs::Exec::exec_phrase))]
pub fn exec<B: Bus>(p: &mut Proc, op: &Op, bus: &mut B) -> Result<(), Break>
    requires free { (B.view bus.old).kept ≡ false }
    ensures cycles { Performs (exec_phrase op.now p.old) (B.view bus.old) (B.view bus.new) (λ _. p.new) result }
    ensures free { (B.view bus.new).kept ≡ false }
    ensures before { OnErr result (p.new ≡ p.old) }
{
    let transfer = transfer_of(p, direction_of(op.name), operands_of(op));
    *p = do_named(op.width, p, bus, transfer)?;
    Ok(())
}
