//! The rules of a clean run, as tests.
ghost use Rattle.std.specs.Prelude.{◌<◌, ℕ, ◌↔◌, IsTrue, MatchOption};
ghost use Rattle.m386_book.specs.Book.{Book};
ghost use Rattle.m386_book.specs.Holding.{Keeps};
ghost use Rattle.m386_book.specs.Rules.{ClaimsByLtr, FailsAt, FailsStatic, GdtIsOutside, IsGuarded, LoadsGdtr, ReadsNt, Touches, TssIsOutside, TssMeetsGdt, WritesGuarded};
ghost use Rattle.m386_book.specs.Segments.{AreSegments};
ghost use Rattle.m386_book.specs.Tss.{IsOfTable};

use crate::segments::{Segments, ends_behind, meets};
use crate::tasks::Tasks;
use m386_base::ask::{Ask, Cycle, Role, Space};
use m386_base::bytes::{bytes_of, has_nt};
use m386_image::image::{Image, TableAt};

/// Whether the GDT doesn't lie inside memory.
pub(crate) fn gdt_is_outside(image: &Image) -> bool
    ensures { IsTrue result ↔ GdtIsOutside image.now }
{
    u64::from(image.memory) <= u64::from(image.gdt.base) + u64::from(image.gdt.limit)
}

/// Whether a TSS doesn't lie inside memory.
fn tss_is_outside(image: &Image, segments: &Segments) -> bool
    requires { AreSegments image.now segments.now }
    ensures { IsTrue result ↔ TssIsOutside image.now }
{
    ends_behind(&segments.bases, u64::from(image.memory))
}

/// Whether a TSS shares a byte with the GDT.
fn tss_meets_gdt(image: &Image, segments: &Segments) -> bool
    requires { AreSegments image.now segments.now }
    ensures { IsTrue result ↔ TssMeetsGdt image.now }
{
    let base = u64::from(image.gdt.base);
    meets(&segments.bases, base, base + u64::from(image.gdt.limit))
}

/// The least of the rules 2 to 5 that an image fails, if it fails one.
pub(crate) fn failed_static(image: &Image, segments: &Segments) -> Option<u8>
    requires inside { ¬ GdtIsOutside image.now }
    requires segments { AreSegments image.now segments.now }
    ensures { MatchOption result ((rule : ℕ) → ¬ FailsStatic image.now rule)
        (λ rule. FailsStatic image.now rule × ((lesser : ℕ) → lesser < rule → ¬ FailsStatic image.now lesser)) }
{
    if tss_is_outside(image, segments) {
        Some(2)
    } else if tss_meets_gdt(image, segments) {
        Some(3)
    } else if segments.shared {
        Some(4)
    } else if segments.busy {
        Some(5)
    } else {
        None
    }
}

/// Whether a cycle loads GDTR.
fn loads_gdtr(cycle: &Cycle) -> bool
    ensures { IsTrue result ↔ LoadsGdtr cycle.now }
{
    matches!(cycle.ask.role, Role::Lgdt)
}

/// Whether a place is one of a table's bytes.
fn is_of_table(table: TableAt, place: u64) -> bool
    ensures { IsTrue result ↔ IsOfTable table place }
{
    let base = u64::from(table.base);
    base <= place && place <= base + u64::from(table.limit)
}

/// Whether a place is a byte of the GDT or of a TSS.
fn is_guarded(image: &Image, segments: &Segments, place: u64) -> bool
    requires { AreSegments image.now segments.now }
    ensures { IsTrue result ↔ IsGuarded image.now place }
{
    is_of_table(image.gdt, place) || meets(&segments.bases, place, place)
}

/// Whether a byte of a cycle is of the GDT or of a TSS.
fn touches(image: &Image, segments: &Segments, ask: &Ask) -> bool
    requires { AreSegments image.now segments.now }
    ensures { IsTrue result ↔ Touches image.now ask.now }
{
    let bytes = bytes_of(ask);
    for byte in bytes.as_slice() {
        if is_guarded(image, segments, byte.0) {
            return true;
        }
    }
    false
}

/// Whether a cycle is a program's write to the GDT or to a TSS.
fn writes_guarded(image: &Image, segments: &Segments, cycle: &Cycle) -> bool
    requires { AreSegments image.now segments.now }
    ensures { IsTrue result ↔ WritesGuarded image.now cycle.now }
{
    matches!(cycle.ask.role, Role::Operand | Role::Push | Role::LdtAcc)
        && cycle.ask.write
        && matches!(cycle.ask.space, Space::Memory)
        && touches(image, segments, &cycle.ask)
}

/// Whether a cycle reads flags with NT set.
fn reads_nt(cycle: &Cycle) -> bool
    ensures { IsTrue result ↔ ReadsNt cycle.now }
{
    matches!(cycle.ask.role, Role::Flags) && !cycle.ask.write && has_nt(&cycle.ask)
}

/// Whether a cycle is the claim of LTR.
fn claims_by_ltr(cycle: &Cycle) -> bool
    ensures { IsTrue result ↔ ClaimsByLtr cycle.now }
{
    matches!(cycle.ask.role, Role::ClaimLtr) && cycle.ask.write
}

/// The rule that a cycle fails, if it fails one, where this is the book before it.
pub(crate) fn failed_rule(
    image: &Image,
    segments: &Segments,
    tasks: &Tasks,
    cycle: &Cycle,
) -> Option<u8>
    requires cpu { cycle.now.cpu < 8 }
    requires segments { AreSegments image.now segments.now }
    ensures { (book : Book) → Keeps book tasks.now.held tasks.now.waiting.items tasks.now.live.items
        → MatchOption result ((rule : ℕ) → ¬ FailsAt image.now book cycle.now rule) (FailsAt image.now book cycle.now) }
{
    if loads_gdtr(cycle) {
        Some(6)
    } else if writes_guarded(image, segments, cycle) {
        Some(7)
    } else if reads_nt(cycle) && !tasks.holds_live(cycle.cpu) {
        Some(8)
    } else if claims_by_ltr(cycle) && tasks.holds_live(cycle.cpu) {
        Some(9)
    } else {
        None
    }
}
