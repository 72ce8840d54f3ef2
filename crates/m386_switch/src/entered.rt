//! The facts of a task switch as they are gathered, and the state in the new task (PRM 7.5).
ghost use Rattle.std.specs.Prelude.{◌≡◌, ◌<◌};
ghost use Rattle.m386_switch.specs.Switch.{facts_at_first, with_fields, loaded_flags, entered_flags, pending_by, seg_by, entered_seg, entered, arrived, stayed};

use crate::later::{stops_at, stops_at_ldt};
use crate::outcome::Switched;
use crate::parts::low_16;
use m386_base::desc::Desc;
use m386_base::exception::Exception;
use m386_base::flags::{Flag, put_flag};
use m386_base::kind::SwitchKind;
use m386_base::number::Flags;
use m386_base::segments::{CS, DS, ES, FS, GS, SS};
use m386_checks::facts::{Facts, Fail};
use m386_checks::first::first_fail;
use m386_desc::selector::{in_table, rpl};
use m386_segload::segment::usable;
use m386_state::event::{Cause, Event};
use m386_state::proc::{Proc, unusable};
use m386_state::segment::Seg;

/// Bit TS of CR0 (PRM 4.1.3).
const TASK_SWITCHED: u32 = 8;

/// The facts before anything of the new task was read.
pub(crate) fn facts_at_first(
    p: &Proc,
    kind: SwitchKind,
    selector: u16,
    direct: bool,
    ext: bool,
) -> Facts
    ensures { result ≡ facts_at_first p.now kind selector direct ext }
{
    Facts {
        kind,
        direct,
        cpl: p.cpl(),
        rpl: rpl(selector),
        ext,
        tr_usable: p.tr.usable,
        selector,
        in_gdt: in_table(selector, u32::from(p.gdtr.limit)),
        tss: None,
        ldt: 0,
        ldt_desc: None,
        segs: [0; 6],
        seg_descs: [None; 6],
        eip: 0,
    }
}

/// The facts once the new task's fields were loaded.
pub(crate) fn with_fields(facts: &Facts, loaded: &[u32; 18]) -> Facts
    ensures { result ≡ with_fields facts.now loaded.now }
{
    let mut with = *facts;
    with.eip = loaded[0];
    with.segs = [
        low_16(loaded[10]),
        low_16(loaded[11]),
        low_16(loaded[12]),
        low_16(loaded[13]),
        low_16(loaded[14]),
        low_16(loaded[15]),
    ];
    with.ldt = low_16(loaded[16]);
    with
}

/// The bits of a loaded number that EFLAGS has, and bit 1.
fn loaded_flags(p: &Proc, number: u32) -> Flags
    ensures { result ≡ loaded_flags number }
{
    Flags(number & p.flag_bits() | 2)
}

/// The flags of the new task.
fn entered_flags(p: &Proc, kind: SwitchKind, number: u32) -> Flags
    ensures { result ≡ entered_flags kind number }
{
    let loaded = loaded_flags(p, number);
    match kind {
        SwitchKind::Jmp | SwitchKind::Start => put_flag(Flag::NestedTask, false, loaded),
        SwitchKind::Call | SwitchKind::Event => put_flag(Flag::NestedTask, true, loaded),
        SwitchKind::Iret => loaded,
    }
}

/// A register of the new task: it may be used where its descriptor was read and none of its rows fails.
fn seg_by(selector: u16, desc: Option<Desc>, failed: bool) -> Seg
    ensures { result ≡ seg_by selector desc failed }
{
    match desc {
        Some(desc) => {
            if failed {
                unusable(selector)
            } else {
                usable(selector, desc)
            }
        }
        None => unusable(selector),
    }
}

/// A segment register of the new task.
fn entered_seg(facts: &Facts, seg: u8) -> Seg
    requires { seg < 6 }
    ensures { result ≡ entered_seg facts.now seg }
{
    seg_by(
        facts.segs[seg as usize],
        facts.seg_descs[seg as usize],
        stops_at(seg, first_fail(facts)),
    )
}

/// What is pending in the new task: vector 1 where all rows hold and bit T of its TSS is set (PRM 12.3.1.5).
fn pending_by(fail: Option<Fail>, number: u32, pending: Option<Event>) -> Option<Event>
    ensures { result ≡ pending_by fail number pending }
{
    match fail {
        None if number % 2 == 1 => Some(Event {
            vector: Exception::Debug.vector(),
            code: None,
            cause: Cause::Exception,
        }),
        _ => pending,
    }
}

/// The state in the new task.
fn entered(p: &Proc, desc: Desc, loaded: &[u32; 18], facts: &Facts) -> Proc
    ensures { result ≡ entered p.now desc loaded.now facts.now }
{
    let mut after = *p;
    after.regs = [
        loaded[2], loaded[3], loaded[4], loaded[5], loaded[6], loaded[7], loaded[8], loaded[9],
    ];
    after.eip = loaded[0];
    after.eflags = entered_flags(p, facts.kind, loaded[1]);
    after.segs = [
        entered_seg(facts, ES),
        entered_seg(facts, CS),
        entered_seg(facts, SS),
        entered_seg(facts, DS),
        entered_seg(facts, FS),
        entered_seg(facts, GS),
    ];
    after.ldtr = seg_by(facts.ldt, facts.ldt_desc, stops_at_ldt(first_fail(facts)));
    after.tr = usable(facts.selector, desc);
    after.cr0 = p.cr0 | TASK_SWITCHED;
    after.pending = pending_by(first_fail(facts), loaded[17], p.pending);
    after
}

/// The new task was entered.
pub(crate) fn arrived(p: &Proc, desc: Desc, loaded: &[u32; 18], facts: &Facts) -> Switched
    ensures { result ≡ arrived p.now desc loaded.now facts.now }
{
    Switched {
        after: entered(p, desc, loaded, facts),
        fail: first_fail(facts),
    }
}

/// The old task goes on.
pub(crate) fn stayed(p: &Proc, facts: &Facts) -> Switched
    ensures { result ≡ stayed p.now facts.now }
{
    Switched {
        after: *p,
        fail: first_fail(facts),
    }
}
