//! CR0 and the machine status word, and the words that any level may store (PRM 4.1.3).
ghost use Rattle.std.specs.Prelude.{◌≡◌, false};
ghost use Rattle.m386_base.specs.Phrase.{Performs, it};
ghost use Rattle.m386_system.specs.Control.{word_of, with_control, task_switched_cleared, status_loaded, is_refused, load_control_phrase, load_status_operand_phrase, load_status_phrase, store_word_phrase};

use crate::work::SystemWord;
use m386_access::after::register_of;
use m386_access::operands::{Operands, Place, put, value};
use m386_base::bus::Bus;
use m386_base::exception::{general_protection, undefined_opcode};
use m386_base::fault::Break;
use m386_base::flags::has_bit;
use m386_base::number::Width;
use m386_state::proc::Proc;

/// The bit PE of CR0: protected mode.
const PROTECTION_ENABLE: u32 = 1;

/// The bit MP of CR0: WAIT looks at TS.
const MONITOR_COPROCESSOR: u32 = 2;

/// The bit EM of CR0: a coprocessor is emulated.
const EMULATION: u32 = 4;

/// The bit TS of CR0: a task switch was made.
const TASK_SWITCHED: u32 = 8;

/// The bits that CR0 has.
const CONTROL_BITS: u32 = PROTECTION_ENABLE | MONITOR_COPROCESSOR | EMULATION | TASK_SWITCHED;

/// The place of PE.
const PROTECTION_PLACE: u32 = 0;

/// The place of PG, which CR0 doesn't have here.
const PAGING_PLACE: u32 = 31;

/// A word that any level may store.
fn word_of(p: &Proc, word: SystemWord) -> u32
    ensures { result ≡ word_of p.now word }
{
    match word {
        SystemWord::LocalTable => u32::from(p.ldtr.selector),
        SystemWord::Task => u32::from(p.tr.selector),
        SystemWord::Status => p.cr0,
    }
}

/// The state with CR0 changed.
pub(crate) fn with_control(p: &Proc, cr0: u32) -> Proc
    ensures { result ≡ with_control p.now cr0 }
{
    let mut after = *p;
    after.cr0 = cr0;
    after
}

/// The state behind CLTS.
pub(crate) fn task_switched_cleared(p: &Proc) -> Proc
    ensures { result ≡ task_switched_cleared p.now }
{
    with_control(
        p,
        p.cr0 & (PROTECTION_ENABLE | MONITOR_COPROCESSOR | EMULATION),
    )
}

/// CR0 behind LMSW: PE stays where it is set.
fn status_loaded(cr0: u32, status: u32) -> u32
    ensures { result ≡ status_loaded cr0 status }
{
    status & CONTROL_BITS | cr0 & PROTECTION_ENABLE
}

/// Whether a MOV to CR0 would end protected mode or begin paging.
fn is_refused(value: u32) -> bool
    ensures { result ≡ is_refused value }
{
    !has_bit(value, PROTECTION_PLACE) || has_bit(value, PAGING_PLACE)
}

/// MOV to CR0 from a general register, by its number. #GP(0) exactly where it would end protected mode or begin paging.
#[tactic(auto, using(m386_base::proofs::Phrases::calls), unfolding(crate::specs::Control::load_control_phrase))]
pub(crate) fn load_control<B: Bus>(p: &Proc, bus: &mut B, register: u8) -> Result<Proc, Break>
    requires free { (B.view bus.old).kept ≡ false }
    ensures cycles { Performs (load_control_phrase p.now register) (B.view bus.old) (B.view bus.new) it result }
    ensures free { (B.view bus.new).kept ≡ false }
{
    let value = register_of(p, register);
    if is_refused(value) {
        return Err(Break::Fault(general_protection()));
    }
    Ok(with_control(p, value & CONTROL_BITS))
}

/// The machine status word, loaded by an operand.
#[tactic(auto, using(m386_base::proofs::Phrases::calls), unfolding(crate::specs::Control::load_status_operand_phrase))]
fn load_status_operand<B: Bus>(p: &Proc, bus: &mut B, operand: Place) -> Result<Proc, Break>
    requires free { (B.view bus.old).kept ≡ false }
    ensures cycles { Performs (load_status_operand_phrase p.now operand) (B.view bus.old) (B.view bus.new) it result }
    ensures free { (B.view bus.new).kept ≡ false }
{
    let status = value(Width::W16, p, operand, bus)?;
    Ok(with_control(p, status_loaded(p.cr0, status)))
}

/// LMSW.
#[tactic(auto, using(m386_base::proofs::Phrases::calls), unfolding(crate::specs::Control::load_status_phrase))]
pub(crate) fn load_status<B: Bus>(p: &Proc, bus: &mut B, operands: Operands) -> Result<Proc, Break>
    requires free { (B.view bus.old).kept ≡ false }
    ensures cycles { Performs (load_status_phrase p.now operands) (B.view bus.old) (B.view bus.new) it result }
    ensures free { (B.view bus.new).kept ≡ false }
{
    match operands {
        Operands::One(operand) => load_status_operand(p, bus, operand),
        _ => Err(Break::Fault(undefined_opcode())),
    }
}

/// SLDT, STR or SMSW: 16 bits, also into a register.
#[tactic(auto, using(m386_base::proofs::Phrases::calls), unfolding(crate::specs::Control::store_word_phrase))]
pub(crate) fn store_word<B: Bus>(
    p: &Proc,
    bus: &mut B,
    word: SystemWord,
    operands: Operands,
) -> Result<Proc, Break>
    requires free { (B.view bus.old).kept ≡ false }
    ensures cycles { Performs (store_word_phrase p.now word operands) (B.view bus.old) (B.view bus.new) it result }
    ensures free { (B.view bus.new).kept ≡ false }
{
    match operands {
        Operands::One(operand) => put(Width::W16, p, operand, word_of(p, word), bus),
        _ => Err(Break::Fault(undefined_opcode())),
    }
}
