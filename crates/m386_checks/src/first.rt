//! The first check of a task switch that fails.
ghost use Rattle.std.specs.Prelude.{◌≡◌, ◌<◌, ◌↔◌, IsNone, IfSome, OnSome, length};
ghost use Rattle.m386_checks.specs.First.{AllChecksHold, context_of, first_false, first_fail_of, old_fail_of, for_segment, for_segments, data_segments, in_order};
ghost use Rattle.m386_checks.specs.Table.{exception_of, error_code_of, seg_of, fail_of};

use crate::facts::{Facts, Fail, SwitchKind};
use crate::holds::{holds, selector};
use crate::table::{Check, ROWS, Raises, Subject};
use m386_base::exception::Exception;
use m386_base::segments::{CS, DS, ES, FS, GS, SS};
use m386_desc::selector::error_code;

/// The data segment registers in the order in which they are checked: DS, ES, FS, GS.
const DATA_SEGMENTS: [u8; 4] = [DS, ES, FS, GS];

/// The first check that fails, in the order 1 to 15, then 16 to 18 for DS, ES, FS and GS in turn, then 19. `None` exactly
/// where all hold (PRM 7.5).
#[tactic(auto, unfolding(crate::specs::First::first_fail_of))]
pub fn first_fail(facts: &Facts) -> Option<Fail>
    ensures exact { result ≡ first_fail_of facts.now }
    ensures none { IsNone result ↔ AllChecksHold facts.now }
    ensures context { IfSome result (λ x. x.context ≡ context_of x.row) }
{
    first_of_table(&ROWS, facts)
}

/// The first check that fails among those made in the old task, rows 1 to 7. `None` exactly where these hold (PRM 7.5).
#[tactic(auto, unfolding(crate::specs::First::old_fail_of))]
pub fn old_fail(facts: &Facts) -> Option<Fail>
    ensures exact { result ≡ old_fail_of facts.now }
    ensures first { OnSome result (result ≡ first_fail_of facts.now) }
{
    first_of_rows(&ROWS[..7], facts, 0)
}

/// The first of a whole table's checks that fails.
#[tactic(auto, using(crate::proofs::Order::laid_out))]
fn first_of_table(rows: &[Check], facts: &Facts) -> Option<Fail>
    requires { length rows.now ≡ 19 }
    ensures { result ≡ first_false facts.now (in_order rows.now) }
{
    if let Some(fail) = first_of_rows(&rows[..15], facts, 0) {
        return Some(fail);
    }
    if let Some(fail) = first_of_data(&rows[15..18], facts) {
        return Some(fail);
    }
    first_of_rows(&rows[18..19], facts, 0)
}

/// The first of these rows that fails, tested for each data segment register in turn.
#[tactic(auto, using(crate::proofs::Order::turns))]
fn first_of_data(rows: &[Check], facts: &Facts) -> Option<Fail>
    ensures { result ≡ first_false facts.now (for_segments data_segments rows.now) }
{
    for seg in DATA_SEGMENTS {
        if let Some(fail) = first_of_rows(rows, facts, seg) {
            return Some(fail);
        }
    }
    None
}

/// The first of these rows that fails, tested for one segment register.
#[tactic(auto, using(crate::proofs::Order::row_steps))]
fn first_of_rows(rows: &[Check], facts: &Facts, seg: u8) -> Option<Fail>
    requires { seg < 6 }
    ensures { result ≡ first_false facts.now (for_segment seg rows.now) }
{
    for row in rows {
        if !holds(row.test, facts, seg) {
            return Some(failed(*row, facts, seg));
        }
    }
    None
}

/// How a row fails.
fn failed(row: Check, facts: &Facts, seg: u8) -> Fail
    requires { seg < 6 }
    ensures { result ≡ fail_of facts.now row seg }
{
    Fail {
        row: row.number,
        seg: segment(row.subject, seg),
        fault: exception(row.exception, facts.kind).coded_fault(code(row.subject, facts, seg)),
        context: row.context,
    }
}

/// The segment register that a row speaks of.
fn segment(subject: Subject, seg: u8) -> u8
    ensures { result ≡ seg_of subject seg }
{
    match subject {
        Subject::Cs => CS,
        Subject::Ss => SS,
        Subject::Data => seg,
        Subject::Nothing | Subject::Tss | Subject::Ldt => 0,
    }
}

/// The exception that a row raises.
fn exception(raises: Raises, kind: SwitchKind) -> Exception
    ensures { result ≡ exception_of raises kind }
{
    match raises {
        Raises::Ts => Exception::InvalidTss,
        Raises::Np => Exception::SegmentNotPresent,
        Raises::Ss => Exception::StackFault,
        Raises::Gp => Exception::GeneralProtection,
        Raises::ByKind => match kind {
            SwitchKind::Jmp | SwitchKind::Call => Exception::GeneralProtection,
            SwitchKind::Event | SwitchKind::Iret | SwitchKind::Start => Exception::InvalidTss,
        },
    }
}

/// The error code of a row's fault.
fn code(subject: Subject, facts: &Facts, seg: u8) -> u16
    requires { seg < 6 }
    ensures { result ≡ error_code_of subject facts.now seg }
{
    let named = match subject {
        Subject::Nothing => return 0,
        Subject::Tss => facts.selector,
        Subject::Ldt => facts.ldt,
        Subject::Cs => selector(facts, CS),
        Subject::Ss => selector(facts, SS),
        Subject::Data => selector(facts, seg),
    };
    error_code(named, facts.ext)
}
