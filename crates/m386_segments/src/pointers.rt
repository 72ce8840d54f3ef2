//! Far pointers that are loaded: LDS, LES, LFS, LGS and LSS.
ghost use Rattle.std.specs.Prelude.{◌≡◌, false};
ghost use Rattle.m386_base.specs.Phrase.{Performs, it};
ghost use Rattle.m386_segments.specs.Pointers.{load_both_phrase, load_pointer_phrase, pointer_phrase};

use m386_access::after::with_register_at;
use m386_access::operands::{Operands, Place};
use m386_base::bus::Bus;
use m386_base::exception::undefined_opcode;
use m386_base::fault::Break;
use m386_base::number::Width;
use m386_opmap::op::Addr;
use m386_segload::pointer::{FarPointer, read_pointer};
use m386_segload::segment::{segment_for, with_segment};
use m386_state::proc::Proc;

/// A general register put to an offset, by its width, and a segment register, by its number, loaded by a selector.
#[tactic(auto, using(m386_base::proofs::Phrases::calls), unfolding(crate::specs::Pointers::load_both_phrase))]
fn load_both<B: Bus>(
    p: &Proc,
    bus: &mut B,
    width: Width,
    seg: u8,
    register: u8,
    pointer: FarPointer,
) -> Result<Proc, Break>
    requires free { (B.view bus.old).kept ≡ false }
    ensures cycles { Performs (load_both_phrase p.now width seg register pointer) (B.view bus.old) (B.view bus.new) it result }
    ensures free { (B.view bus.new).kept ≡ false }
{
    let loaded = segment_for(p, bus, seg, pointer.selector)?;
    let moved = with_register_at(width, p, register, pointer.offset);
    Ok(with_segment(&moved, seg, loaded))
}

/// A far pointer read and loaded: both registers change together.
#[tactic(auto, using(m386_base::proofs::Phrases::calls), unfolding(crate::specs::Pointers::load_pointer_phrase))]
fn load_pointer<B: Bus>(
    p: &Proc,
    bus: &mut B,
    width: Width,
    seg: u8,
    register: u8,
    a: &Addr,
) -> Result<Proc, Break>
    requires free { (B.view bus.old).kept ≡ false }
    ensures cycles { Performs (load_pointer_phrase p.now width seg register a.now) (B.view bus.old) (B.view bus.new) it result }
    ensures free { (B.view bus.new).kept ≡ false }
{
    let pointer = read_pointer(p, bus, width, a)?;
    load_both(p, bus, width, seg, register, pointer)
}

/// LDS, LES, LFS, LGS or LSS, by the number of the segment register. LSS holds no request back, since it loads ESP too.
#[tactic(auto, using(m386_base::proofs::Phrases::calls))]
pub(crate) fn pointer<B: Bus>(
    seg: u8,
    width: Width,
    operands: Operands,
    p: &Proc,
    bus: &mut B,
) -> Result<Proc, Break>
    requires free { (B.view bus.old).kept ≡ false }
    ensures cycles { Performs (pointer_phrase seg width operands p.now) (B.view bus.old) (B.view bus.new) it result }
    ensures free { (B.view bus.new).kept ≡ false }
{
    match operands {
        Operands::Two(Place::Register(register), Place::Memory(a)) => {
            load_pointer(p, bus, width, seg, register, &a)
        }
        _ => Err(Break::Fault(undefined_opcode())),
    }
}
