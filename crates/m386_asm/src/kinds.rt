//! The kinds of a line that hang on the other lines.
ghost use Rattle.std.specs.Prelude.{◌≡◌, ◌++◌, ◌∷◌, [], ℕ, ℤ, List, IfOk, OnOk, None, map, not, pos, true, false, ◌<◌, ◌^◌};
ghost use Rattle.std.specs.List.{list_any};
ghost use Rattle.m386_lines.specs.declared.kind.AsmKind.TheVariants as kinds;
ghost use Rattle.m386_lines.specs.Faults.{first_of, own_kind};
ghost use Rattle.m386_lines.specs.Lines.{Meaning as LineMeaning};
ghost use Rattle.m386_lines.specs.Seen.{meaning_seen, statement_seen};
ghost use Rattle.m386_asm.specs.Bounds.{IsPlace};
ghost use Rattle.m386_asm.specs.Knows.{Knows, found};
ghost use Rattle.m386_asm.specs.Layout.{Names as NameValues, Laid, Has, defined, fields_of, is_org_below, is_out_of_range, is_up_to, IsUnreached};
ghost use Rattle.m386_asm.specs.Limits.{limit_seen};
ghost use Rattle.m386_asm.specs.Surveys.{is_found_by};
ghost use Rattle.m386_asm.specs.Walks.{IsAt, IsLeast, IsNoted, is_value_outside};

use crate::field::Field;
use crate::headers::is_header_again;
use crate::limits::{fields_of, has_unknown_name, is_outside_fields, is_up_to, keeps_limits};
use crate::noted::Noted;
use crate::plan::{entry_of, is_out_of_order};
use crate::spelling::encode_at;
use crate::spot::Spot;
use crate::survey::Survey;
use crate::value::{Names, wrapped};
use m386_base::fault::NoMemory;
use m386_lines::directive::Directive;
use m386_lines::kind::AsmKind;
use m386_lines::line::{Meaning, Statement};
use std::alloc::Global;

/// Whether one of so many first lines defines a name.
fn is_defined_before(names: &Names<'_>, word: &[u8], lines: u64) -> bool
    ensures { result ≡ is_found_by lines (found names.now word.now) }
{
    match names.get(word) {
        Some(named) => named.line <= lines,
        None => false,
    }
}

/// Whether a line defines a name that one of so many first lines defines.
pub(crate) fn defines_again(names: &Names<'_>, meaning: &Meaning<'_>, lines: u64) -> bool
    ensures { result ≡ list_any (λ (n : List ℕ × ℤ). is_found_by lines (found names.now n.0)) (defined 0 (meaning_seen meaning.now)) }
{
    let label = match meaning.label {
        Some(word) => is_defined_before(names, word, lines),
        None => false,
    };
    let assigned = match &meaning.statement {
        Statement::Assign(word, _) => is_defined_before(names, word, lines),
        _ => false,
    };
    label || assigned
}

/// Whether no spelling of a line's instruction reaches its target.
pub(crate) fn is_unreached(names: &Names<'_>, place: u128, statement: &Statement<'_>) -> bool
    requires { IsPlace place }
    ensures unreached { (ns : NameValues) → Knows names.now ns → result ≡ true → IsUnreached ns place (statement_seen statement.now) }
    ensures reached { (ns : NameValues) → Knows names.now ns → result ≡ false → IsUnreached ns place (statement_seen statement.now) → ⊥ }
{
    match statement {
        Statement::Operate(instruction) => match encode_at(names, place, instruction) {
            Some(_) => false,
            None => true,
        },
        _ => false,
    }
}

/// Whether a value of a line is outside its field or its limit.
fn has_value_outside(survey: &Survey<'_>, statement: &Statement<'_>, fields: &[Field<'_>]) -> bool
    ensures { (ns : NameValues) → Knows survey.now.names ns → result ≡ is_value_outside ns survey.now.memory survey.now.cpus (statement_seen statement.now) (map limit_seen fields.now) }
{
    is_outside_fields(&survey.names, fields) || !keeps_limits(survey, statement)
}

/// Whether a place is above the memory, if its size is known.
#[tactic(auto, using(std::proofs::lemmas::Int::to_z_pos))]
fn is_above_memory(memory: Option<i128>, end: u128) -> bool
    requires { end < 2 ^ 112 }
    ensures { result ≡ not (is_up_to memory (pos end)) }
{
    !is_up_to(memory, end as i128)
}

/// The same as of values, or the line ends above the memory.
fn exceeds(survey: &Survey<'_>, spot: Spot, statement: &Statement<'_>, fields: &[Field<'_>]) -> bool
    ensures { (ls before : List Laid) (l : Laid) (m : LineMeaning) → IsAt ls before l survey.now spot m → m.statement ≡ statement_seen statement.now → map limit_seen fields.now ≡ fields_of (statement_seen statement.now) →
        result ≡ is_out_of_range ls before l }
{
    has_value_outside(survey, statement, fields)
        || is_above_memory(survey.memory, spot.place + spot.len)
}

/// Whether a line is out of range: by a value or its end, or since no spelling reaches its target.
fn is_out_of_range(
    survey: &Survey<'_>,
    spot: Spot,
    statement: &Statement<'_>,
    fields: &[Field<'_>],
) -> bool
    ensures out { (ls before : List Laid) (l : Laid) (m : LineMeaning) → IsAt ls before l survey.now spot m → m.statement ≡ statement_seen statement.now → map limit_seen fields.now ≡ fields_of (statement_seen statement.now) →
        result ≡ true → Has ls before l kinds.Range }
    ensures within { (ls before : List Laid) (l : Laid) (m : LineMeaning) → IsAt ls before l survey.now spot m → m.statement ≡ statement_seen statement.now → map limit_seen fields.now ≡ fields_of (statement_seen statement.now) →
        result ≡ false → Has ls before l kinds.Range → ⊥ }
{
    exceeds(survey, spot, statement, fields) || is_unreached(&survey.names, spot.place, statement)
}

/// Whether a line is an `.org` below the end so far.
pub(crate) fn is_below_end(place: u128, statement: &Statement<'_>) -> bool
    ensures { result ≡ is_org_below place (statement_seen statement.now) }
{
    match statement {
        Statement::Direct(Directive::Begins(address)) => {
            u128::from(wrapped(32, i128::from(*address))) < place
        }
        _ => false,
    }
}

/// The first kind that a line has, of kinds with their tests.
#[tactic(auto, unfolding(m386_lines::specs::Faults::first_of))]
pub(crate) fn first_of(tests: &[(AsmKind, bool)]) -> Option<AsmKind>
    ensures { result ≡ first_of tests.now }
{
    let [first, rest @ ..] = tests else {
        return None;
    };
    if first.1 {
        Some(first.0)
    } else {
        first_of(rest)
    }
}

/// The least kind of a line that means something, if it has any. What it gives once counts from now on.
pub(crate) fn kind_of(
    alloc: Global,
    survey: &Survey<'_>,
    noted: &mut Noted,
    spot: Spot,
    meaning: &Meaning<'_>,
) -> Result<Option<AsmKind>, NoMemory>
    ensures kind { IfOk result (λ kind. (ls before : List Laid) (l : Laid) → IsAt ls before l survey.now spot (meaning_seen meaning.now) → own_kind l.text ≡ None → IsNoted ls before noted.old →
        IsLeast ls before l kind) }
    ensures noted { OnOk result ((ls before : List Laid) (l : Laid) → IsAt ls before l survey.now spot (meaning_seen meaning.now) → IsNoted ls before noted.old → IsNoted ls (before ++ l ∷ []) noted.new) }
{
    let names = &survey.names;
    let statement = &meaning.statement;
    let fields = fields_of(alloc, statement)?;
    let unknown = has_unknown_name(names, statement, fields.as_slice());
    let twice = defines_again(names, meaning, spot.lines);
    let header = is_header_again(&mut noted.headers, names, statement)?;
    let range = is_out_of_range(survey, spot, statement, fields.as_slice());
    let overlap = is_below_end(spot.place, statement);
    let plan = is_out_of_order(&mut noted.planned, entry_of(names, statement));
    Ok(first_of(&[
        (AsmKind::UnknownName, unknown),
        (AsmKind::NameTwice, twice),
        (AsmKind::HeaderTwice, header),
        (AsmKind::Range, range),
        (AsmKind::Overlap, overlap),
        (AsmKind::PlanOrder, plan),
    ]))
}
