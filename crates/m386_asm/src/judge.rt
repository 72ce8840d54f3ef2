//! A line of the second walk: its least kind, or the walk behind it.
ghost use Rattle.std.specs.Prelude.{◌≡◌, ◌++◌, ◌∷◌, [], ℕ, ◌+◌, ◌-◌, ◌*◌, ◌^◌, ◌<◌, ◌≤◌, List as Items, IfOk, OnOk, Ok, Err, Some, None, length, true};
ghost use Rattle.m386_lines.specs.declared.kind.AsmKind.{AsmKind as Kind};
ghost use Rattle.m386_lines.specs.Faults.{meaning_of, own_kind};
ghost use Rattle.m386_lines.specs.Lines.{Meaning as LineMeaning};
ghost use Rattle.m386_lines.specs.Seen.{meaning_seen, statement_seen};
ghost use Rattle.m386_asm.specs.declared.stop.AsmStop.TheVariants.{Bad};
ghost use Rattle.m386_asm.specs.Bounds.{IsPlace};
ghost use Rattle.m386_asm.specs.Drafts.{IsDraft};
ghost use Rattle.m386_asm.specs.Knows.{Knows};
ghost use Rattle.m386_asm.specs.Layout.{Laid, Makes, Names as NameValues, moved};
ghost use Rattle.m386_asm.specs.Turns.{IsTurn, IsWalk};
ghost use Rattle.m386_asm.specs.Walks.{IsLeast};

use crate::bytes::{line_len, moved};
use crate::kinds::kind_of;
use crate::spot::Spot;
use crate::stop::AsmStop;
use crate::survey::Survey;
use crate::value::Names;
use crate::walk::Walk;
use m386_base::fault::NoMemory;
use m386_lines::kind::AsmKind;
use m386_lines::line::{Meaning, Statement, judge_line};
use std::alloc::Global;

/// What is answered for the line behind so many.
pub(crate) fn bad(lines: u64, kind: AsmKind) -> AsmStop
    requires { lines < 2 ^ 32 - 1 }
    ensures { result ≡ Bad (lines + 1) kind }
{
    AsmStop::Bad {
        line: lines as u32 + 1,
        kind,
    }
}

/// Goes behind a line that has so many bytes.
fn pass(
    alloc: Global,
    names: &Names<'_>,
    walk: &mut Walk,
    len: u128,
    statement: &Statement<'_>,
) -> Result<(), NoMemory>
    requires few { walk.now.lines < 2 ^ 32 - 1 }
    requires place { IsPlace walk.now.place }
    requires short { len < 2 ^ 69 }
    ensures lines { OnOk result (walk.new.lines ≡ walk.old.lines + 1) }
    ensures near { OnOk result (walk.new.place ≤ walk.old.place + 2 ^ 69) }
    ensures place { OnOk result ((l : Laid) → l.meaning.statement ≡ statement_seen statement.now → length l.bytes ≡ len → walk.new.place ≡ moved walk.old.place l) }
    ensures noted { OnOk result (walk.new.noted ≡ walk.old.noted) }
    ensures makes { OnOk result (walk.new.makes ≡ walk.old.makes) }
    ensures draft { OnOk result (walk.old.makes ≡ true → (ns : NameValues) (ls : Items Laid) → Knows names.now ns → IsDraft ns ls walk.old.draft →
        (meaning : LineMeaning) → meaning.statement ≡ statement_seen statement.now → (text : Items ℕ) →
        (bytes : Items ℕ) × Makes ns walk.old.place (statement_seen statement.now) bytes ×
        IsDraft ns (ls ++ record { text = text; meaning = meaning; bytes = bytes } ∷ []) walk.new.draft) }
{
    if walk.makes {
        walk.draft.take(alloc, names, walk.place, statement)?;
    }
    walk.lines += 1;
    walk.place = moved(walk.place, len, statement);
    Ok(())
}

/// The least kind of a line that means something, if it has any. If not, the walk stands behind it.
fn take(
    alloc: Global,
    survey: &Survey<'_>,
    walk: &mut Walk,
    meaning: &Meaning<'_>,
) -> Result<Option<AsmKind>, NoMemory>
    requires few { walk.now.lines < 2 ^ 32 - 1 }
    requires near { walk.now.place ≤ walk.now.lines * 2 ^ 70 }
    ensures least { IfOk result (λ kind. (ls before : Items Laid) (l : Laid) (line : Items ℕ) → meaning_seen meaning.now ≡ meaning_of line → own_kind line ≡ None →
        IsTurn ls before l survey.now line walk.old → IsLeast ls before l kind) }
    ensures behind { result ≡ Ok None → (ls before : Items Laid) (l : Laid) (line : Items ℕ) → meaning_seen meaning.now ≡ meaning_of line →
        IsTurn ls before l survey.now line walk.old → IsWalk ls (before ++ l ∷ []) walk.new }
    ensures lines { result ≡ Ok None → walk.new.lines ≡ walk.old.lines + 1 }
    ensures near { result ≡ Ok None → walk.new.place ≤ walk.new.lines * 2 ^ 70 }
{
    let statement = &meaning.statement;
    let spot = Spot {
        lines: walk.lines,
        place: walk.place,
        len: line_len(&survey.names, walk.place, statement),
    };
    let kind = kind_of(alloc, survey, &mut walk.noted, spot, meaning)?;
    if kind.is_none() {
        pass(alloc, &survey.names, walk, spot.len, statement)?;
    }
    Ok(kind)
}

/// The least kind of a line, if it has any. If not, the walk stands behind it.
fn judge(
    alloc: Global,
    survey: &Survey<'_>,
    walk: &mut Walk,
    line: &[u8],
) -> Result<Option<AsmKind>, NoMemory>
    requires few { walk.now.lines < 2 ^ 32 - 1 }
    requires near { walk.now.place ≤ walk.now.lines * 2 ^ 70 }
    ensures least { IfOk result (λ kind. (ls before : Items Laid) (l : Laid) → IsTurn ls before l survey.now line.now walk.old → IsLeast ls before l kind) }
    ensures behind { result ≡ Ok None → (ls before : Items Laid) (l : Laid) → IsTurn ls before l survey.now line.now walk.old → IsWalk ls (before ++ l ∷ []) walk.new }
    ensures lines { result ≡ Ok None → walk.new.lines ≡ walk.old.lines + 1 }
    ensures near { result ≡ Ok None → walk.new.place ≤ walk.new.lines * 2 ^ 70 }
{
    match judge_line(alloc, line)? {
        Ok(meaning) => take(alloc, survey, walk, &meaning),
        Err(kind) => Ok(Some(kind)),
    }
}

/// Goes over a line: it is faulty, or the walk stands behind it.
pub(crate) fn go_over(
    alloc: Global,
    survey: &Survey<'_>,
    walk: &mut Walk,
    line: &[u8],
) -> Result<(), AsmStop>
    requires few { walk.now.lines < 2 ^ 32 - 1 }
    requires near { walk.now.place ≤ walk.now.lines * 2 ^ 70 }
    ensures lines { OnOk result (walk.new.lines ≡ walk.old.lines + 1) }
    ensures near { OnOk result (walk.new.place ≤ walk.new.lines * 2 ^ 70) }
    ensures good { OnOk result ((ls before : Items Laid) (l : Laid) → IsTurn ls before l survey.now line.now walk.old → IsLeast ls before l None × IsWalk ls (before ++ l ∷ []) walk.new) }
    ensures bad { (number : ℕ) (kind : Kind) → result ≡ Err (Bad number kind) → (number ≡ walk.old.lines + 1) ×
        ((ls before : Items Laid) (l : Laid) → IsTurn ls before l survey.now line.now walk.old → IsLeast ls before l (Some kind)) }
{
    let lines = walk.lines;
    match judge(alloc, survey, walk, line)? {
        Some(kind) => Err(bad(lines, kind)),
        None => Ok(()),
    }
}
