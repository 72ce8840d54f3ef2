//! Operations that read operands for their flags, or look for a bit.
ghost use Rattle.std.specs.Prelude.{◌≡◌, ◌<◌, false};
ghost use Rattle.m386_base.specs.Phrase.{Performs, it};
ghost use Rattle.m386_data.specs.Compare.{comparison_of, comparison_phrase, compare_phrase, place_of_one, scanned, scan_phrase};

use crate::bound::bound;
use crate::change::{Change, apply, low};
use m386_access::after::{with_flags, with_register_at};
use m386_access::operands::{Manner, Operands, Place, value};
use m386_alu::arithmetic::AluOp;
use m386_base::bus::Bus;
use m386_base::exception::undefined_opcode;
use m386_base::fault::Break;
use m386_base::flags::{Flag, put_flag};
use m386_base::number::Width;
use m386_opmap::name::Name;
use m386_state::proc::Proc;

/// Which bit that is 1 a scan looks for.
#[derive(Clone, Copy)]
pub enum Scan {
    /// The lowest.
    Forward,
    /// The highest.
    Reverse,
}

/// What an operation of this group does.
#[derive(Clone, Copy)]
pub enum Comparison {
    /// Arithmetic or logic on two operands, for its flags alone.
    Flags(AluOp),
    /// A search for a bit that is 1.
    Search(Scan),
    /// A register against two bounds.
    Bound,
}

/// What the operation of a name does, where it is one of this group.
pub fn comparison_of(name: Name) -> Option<Comparison>
    ensures { result ≡ comparison_of name }
{
    Some(match name {
        Name::Cmp => Comparison::Flags(AluOp::Cmp),
        Name::Test => Comparison::Flags(AluOp::And),
        Name::Bsf => Comparison::Search(Scan::Forward),
        Name::Bsr => Comparison::Search(Scan::Reverse),
        Name::Bound => Comparison::Bound,
        _ => return None,
    })
}

/// CMP or TEST: the flags of arithmetic whose result isn't stored.
#[tactic(auto, using(m386_base::proofs::Phrases::calls), unfolding(crate::specs::Compare::compare_phrase))]
fn compare<B: Bus>(
    op: AluOp,
    manner: Manner,
    operands: Operands,
    p: &Proc,
    bus: &mut B,
) -> Result<Proc, Break>
    requires free { (B.view bus.old).kept ≡ false }
    ensures cycles { Performs (compare_phrase op manner operands p.now) (B.view bus.old) (B.view bus.new) it result }
    ensures free { (B.view bus.new).kept ≡ false }
{
    match operands {
        Operands::Two(first, second) => {
            let b = value(manner.width, p, second, bus)?;
            let a = value(manner.width, p, first, bus)?;
            Ok(with_flags(
                p,
                apply(Change::Arithmetic(op, b), manner.width, a, p.eflags).1,
            ))
        }
        _ => Err(Break::Fault(undefined_opcode())),
    }
}

/// The place of the bit that a scan of a number finds.
fn place_of_one(scan: Scan, n: u32) -> u32
    requires { 0 < n }
    ensures { result ≡ place_of_one scan n }
{
    match scan {
        Scan::Forward => n.trailing_zeros(),
        Scan::Reverse => 31 - n.leading_zeros(),
    }
}

/// The state after a scan of a number.
fn scanned(scan: Scan, width: Width, p: &Proc, register: u8, n: u32) -> Proc
    ensures { result ≡ scanned scan width p.now register n }
{
    if n == 0 {
        return with_flags(p, put_flag(Flag::Zero, true, p.eflags));
    }
    let found = with_flags(p, put_flag(Flag::Zero, false, p.eflags));
    with_register_at(width, &found, register, place_of_one(scan, n))
}

/// BSF or BSR.
#[tactic(auto, using(m386_base::proofs::Phrases::calls), unfolding(crate::specs::Compare::scan_phrase))]
fn scan_bits<B: Bus>(
    scan: Scan,
    manner: Manner,
    operands: Operands,
    p: &Proc,
    bus: &mut B,
) -> Result<Proc, Break>
    requires free { (B.view bus.old).kept ≡ false }
    ensures cycles { Performs (scan_phrase scan manner operands p.now) (B.view bus.old) (B.view bus.new) it result }
    ensures free { (B.view bus.new).kept ≡ false }
{
    match operands {
        Operands::Two(Place::Register(register), source) => {
            let n = value(manner.width, p, source, bus)?;
            Ok(scanned(scan, manner.width, p, register, low(manner.width, n)))
        }
        _ => Err(Break::Fault(undefined_opcode())),
    }
}

/// An operation of this group.
#[tactic(auto, using(m386_base::proofs::Phrases::calls))]
pub(crate) fn perform_comparison<B: Bus>(
    comparison: Comparison,
    manner: Manner,
    operands: Operands,
    p: &Proc,
    bus: &mut B,
) -> Result<Proc, Break>
    requires free { (B.view bus.old).kept ≡ false }
    ensures cycles { Performs (comparison_phrase comparison manner operands p.now) (B.view bus.old) (B.view bus.new) it result }
    ensures free { (B.view bus.new).kept ≡ false }
{
    match comparison {
        Comparison::Flags(op) => compare(op, manner, operands, p, bus),
        Comparison::Search(scan) => scan_bits(scan, manner, operands, p, bus),
        Comparison::Bound => bound(manner, operands, p, bus),
    }
}
