//! MOV from and to a segment register.
ghost use Rattle.std.specs.Prelude.{◌≡◌, false};
ghost use Rattle.m386_base.specs.Phrase.{Performs, it};
ghost use Rattle.m386_segments.specs.Registers.{may_be_loaded, with_loaded, load_register_phrase, load_known_phrase, move_phrase};

use crate::names::SegmentMove;
use m386_access::address::segment;
use m386_access::operands::{Place, put, value};
use m386_base::bus::Bus;
use m386_base::exception::undefined_opcode;
use m386_base::fault::Break;
use m386_base::number::Width;
use m386_base::segments::{CS, SS};
use m386_segload::segment::{segment_for, with_segment};
use m386_state::proc::Proc;
use m386_state::segment::Seg;

/// Whether MOV may load the segment register of this number: each but CS.
fn may_be_loaded(seg: u8) -> bool
    ensures { result ≡ may_be_loaded seg }
{
    seg < 6 && seg != CS
}

/// The state with a segment register loaded by MOV. A load of SS holds requests back until the next instruction has ended, which
/// may load ESP (PRM 9.2.4).
fn with_loaded(p: &Proc, seg: u8, value: Seg) -> Proc
    ensures { result ≡ with_loaded p.now seg value }
{
    let mut after = with_segment(p, seg, value);
    if seg == SS {
        after.shadow = true;
    }
    after
}

/// A segment register loaded by the selector of an operand, of which 16 bits count.
#[tactic(auto, using(m386_base::proofs::Phrases::calls), unfolding(crate::specs::Registers::load_known_phrase))]
fn load_known<B: Bus>(p: &Proc, bus: &mut B, seg: u8, source: Place) -> Result<Proc, Break>
    requires free { (B.view bus.old).kept ≡ false }
    ensures cycles { Performs (load_known_phrase p.now seg source) (B.view bus.old) (B.view bus.new) it result }
    ensures free { (B.view bus.new).kept ≡ false }
{
    let selector = value(Width::W16, p, source, bus)?;
    let loaded = segment_for(p, bus, seg, (selector % 0x1_0000) as u16)?;
    Ok(with_loaded(p, seg, loaded))
}

/// MOV to a segment register, by its number. CS is #UD.
#[tactic(auto, using(m386_base::proofs::Phrases::calls), unfolding(crate::specs::Registers::load_register_phrase))]
fn load_register<B: Bus>(p: &Proc, bus: &mut B, seg: u8, source: Place) -> Result<Proc, Break>
    requires free { (B.view bus.old).kept ≡ false }
    ensures cycles { Performs (load_register_phrase p.now seg source) (B.view bus.old) (B.view bus.new) it result }
    ensures free { (B.view bus.new).kept ≡ false }
{
    if !may_be_loaded(seg) {
        return Err(Break::Fault(undefined_opcode()));
    }
    load_known(p, bus, seg, source)
}

/// A move of a segment register. From one, 16 bits are written: the upper half of a register stays.
#[tactic(auto, using(m386_base::proofs::Phrases::calls))]
pub(crate) fn move_segment<B: Bus>(
    moved: Option<SegmentMove>,
    p: &Proc,
    bus: &mut B,
) -> Result<Proc, Break>
    requires free { (B.view bus.old).kept ≡ false }
    ensures cycles { Performs (move_phrase moved p.now) (B.view bus.old) (B.view bus.new) it result }
    ensures free { (B.view bus.new).kept ≡ false }
{
    match moved {
        Some(SegmentMove::To(seg, source)) => load_register(p, bus, seg, source),
        Some(SegmentMove::From(destination, seg)) => {
            let selector = u32::from(segment(p, seg).selector);
            put(Width::W16, p, destination, selector, bus)
        }
        None => Err(Break::Fault(undefined_opcode())),
    }
}
