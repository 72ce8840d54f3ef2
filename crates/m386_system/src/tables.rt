//! The registers of the GDT, the IDT and the LDT (PRM 4.1.2).
ghost use Rattle.std.specs.Prelude.{◌≡◌, false};
ghost use Rattle.m386_base.specs.Phrase.{Performs, it};
ghost use Rattle.m386_system.specs.Tables.{table_role_of, table_of, with_table, register_in, with_local_table, table_operand_phrase, load_table_phrase, load_phrase, store_table_phrase, store_phrase, local_operand_phrase, load_local_phrase};

use crate::work::Table;
use m386_access::access::{read, write};
use m386_access::address::address;
use m386_access::operands::{Operands, Place, value};
use m386_base::ask::Role;
use m386_base::bus::Bus;
use m386_base::exception::undefined_opcode;
use m386_base::fault::Break;
use m386_base::number::Width;
use m386_opmap::op::Addr;
use m386_segload::segment::local_table;
use m386_state::proc::Proc;
use m386_state::segment::{Seg, TableReg};

/// The role of the reads of a table's register.
fn table_role_of(table: Table) -> Role
    ensures { result ≡ table_role_of table }
{
    match table {
        Table::Global => Role::Lgdt,
        Table::Interrupts => Role::Lidt,
    }
}

/// A table's register: of an operation of 16 bits the base has 24.
fn table_of(width: Width, limit: u32, base: u32) -> TableReg
    ensures { result ≡ table_of width limit base }
{
    TableReg {
        base: match width {
            Width::W16 => base % 0x100_0000,
            Width::W8 | Width::W32 => base,
        },
        limit: (limit % 0x1_0000) as u16,
    }
}

/// The state with a table's register changed.
fn with_table(p: &Proc, table: Table, register: TableReg) -> Proc
    ensures { result ≡ with_table p.now table register }
{
    let mut after = *p;
    match table {
        Table::Global => after.gdtr = register,
        Table::Interrupts => after.idtr = register,
    }
    after
}

/// A table's register.
fn register_in(p: &Proc, table: Table) -> TableReg
    ensures { result ≡ register_in p.now table }
{
    match table {
        Table::Global => p.gdtr,
        Table::Interrupts => p.idtr,
    }
}

/// The state with LDTR changed.
fn with_local_table(p: &Proc, ldtr: Seg) -> Proc
    ensures { result ≡ with_local_table p.now ldtr }
{
    let mut after = *p;
    after.ldtr = ldtr;
    after
}

/// A limit and a base in memory, read in this order.
#[tactic(auto, using(m386_base::proofs::Phrases::calls), unfolding(crate::specs::Tables::table_operand_phrase))]
fn table_operand<B: Bus>(
    p: &Proc,
    bus: &mut B,
    role: Role,
    width: Width,
    a: &Addr,
) -> Result<TableReg, Break>
    requires free { (B.view bus.old).kept ≡ false }
    ensures cycles { Performs (table_operand_phrase p.now role width a.now) (B.view bus.old) (B.view bus.new) it result }
    ensures free { (B.view bus.new).kept ≡ false }
{
    let (seg, offset) = address(p, a);
    let limit = read(p, bus, role, seg, offset, 2)?;
    let base = read(p, bus, role, seg, offset.wrapping_add(2), 4)?;
    Ok(table_of(width, limit, base))
}

/// A table's register, loaded from memory.
#[tactic(auto, using(m386_base::proofs::Phrases::calls), unfolding(crate::specs::Tables::load_table_phrase))]
fn load_table<B: Bus>(
    p: &Proc,
    bus: &mut B,
    table: Table,
    width: Width,
    a: &Addr,
) -> Result<Proc, Break>
    requires free { (B.view bus.old).kept ≡ false }
    ensures cycles { Performs (load_table_phrase p.now table width a.now) (B.view bus.old) (B.view bus.new) it result }
    ensures free { (B.view bus.new).kept ≡ false }
{
    let register = table_operand(p, bus, table_role_of(table), width, a)?;
    Ok(with_table(p, table, register))
}

/// LGDT or LIDT.
#[tactic(auto, using(m386_base::proofs::Phrases::calls), unfolding(crate::specs::Tables::load_phrase))]
pub(crate) fn load<B: Bus>(
    p: &Proc,
    bus: &mut B,
    table: Table,
    width: Width,
    operands: Operands,
) -> Result<Proc, Break>
    requires free { (B.view bus.old).kept ≡ false }
    ensures cycles { Performs (load_phrase p.now table width operands) (B.view bus.old) (B.view bus.new) it result }
    ensures free { (B.view bus.new).kept ≡ false }
{
    match operands {
        Operands::One(Place::Memory(a)) => load_table(p, bus, table, width, &a),
        _ => Err(Break::Fault(undefined_opcode())),
    }
}

/// A table's register, stored in memory: the limit, and then the whole base.
#[tactic(auto, using(m386_base::proofs::Phrases::calls), unfolding(crate::specs::Tables::store_table_phrase))]
fn store_table<B: Bus>(p: &Proc, bus: &mut B, register: TableReg, a: &Addr) -> Result<Proc, Break>
    requires free { (B.view bus.old).kept ≡ false }
    ensures cycles { Performs (store_table_phrase p.now register a.now) (B.view bus.old) (B.view bus.new) it result }
    ensures free { (B.view bus.new).kept ≡ false }
{
    let (seg, offset) = address(p, a);
    write(
        p,
        bus,
        Role::Operand,
        seg,
        offset,
        2,
        u32::from(register.limit),
    )?;
    write(
        p,
        bus,
        Role::Operand,
        seg,
        offset.wrapping_add(2),
        4,
        register.base,
    )?;
    Ok(*p)
}

/// SGDT or SIDT.
#[tactic(auto, using(m386_base::proofs::Phrases::calls), unfolding(crate::specs::Tables::store_phrase))]
pub(crate) fn store<B: Bus>(
    p: &Proc,
    bus: &mut B,
    table: Table,
    operands: Operands,
) -> Result<Proc, Break>
    requires free { (B.view bus.old).kept ≡ false }
    ensures cycles { Performs (store_phrase p.now table operands) (B.view bus.old) (B.view bus.new) it result }
    ensures free { (B.view bus.new).kept ≡ false }
{
    match operands {
        Operands::One(Place::Memory(a)) => store_table(p, bus, register_in(p, table), &a),
        _ => Err(Break::Fault(undefined_opcode())),
    }
}

/// LDTR, loaded by an operand.
#[tactic(auto, using(m386_base::proofs::Phrases::calls), unfolding(crate::specs::Tables::local_operand_phrase))]
fn load_local_operand<B: Bus>(p: &Proc, bus: &mut B, operand: Place) -> Result<Proc, Break>
    requires free { (B.view bus.old).kept ≡ false }
    ensures cycles { Performs (local_operand_phrase p.now operand) (B.view bus.old) (B.view bus.new) it result }
    ensures free { (B.view bus.new).kept ≡ false }
{
    let selector = value(Width::W16, p, operand, bus)?;
    let ldtr = local_table(p, bus, (selector % 0x1_0000) as u16)?;
    Ok(with_local_table(p, ldtr))
}

/// LLDT.
#[tactic(auto, using(m386_base::proofs::Phrases::calls), unfolding(crate::specs::Tables::load_local_phrase))]
pub(crate) fn load_local<B: Bus>(p: &Proc, bus: &mut B, operands: Operands) -> Result<Proc, Break>
    requires free { (B.view bus.old).kept ≡ false }
    ensures cycles { Performs (load_local_phrase p.now operands) (B.view bus.old) (B.view bus.new) it result }
    ensures free { (B.view bus.new).kept ≡ false }
{
    match operands {
        Operands::One(operand) => load_local_operand(p, bus, operand),
        _ => Err(Break::Fault(undefined_opcode())),
    }
}
