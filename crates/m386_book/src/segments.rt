//! The task state segments of an image: where they lie, whether two of them share a byte, and whether one is busy.
ghost use Rattle.std.specs.Prelude.{◌≡◌, ◌+◌, ◌*◌, ◌/◌, ◌<◌, ◌≤◌, ◌↔◌, ◌⊎◌, ℕ, IfOk, OnOk, IsTrue, length, slice_index_or};
ghost use Rattle.std.specs.List.Sorted.{IsNonDecreasing};
ghost use Rattle.m386_book.specs.Segments.{AreSegments, EndsBehind, IsAdded, Meets, tss_in};
ghost use Rattle.m386_book.specs.Tss.{IsTable};

use m386_base::fault::NoMemory;
use m386_image::image::Image;
use std::alloc::Global;

/// How many bytes of a TSS the rules speak of.
const TSS_LEN: u64 = 104;

/// A TSS by its descriptor.
#[derive(Clone, Copy, Debug, PartialEq, Eq)]
pub(crate) struct Tss {
    /// The address of its first byte.
    pub(crate) base: u32,
    /// Whether its type says that it is busy.
    pub(crate) busy: bool,
}

/// The TSSs of an image.
#[derive(Debug, Drop)]
pub(crate) struct Segments {
    /// Their addresses, rising.
    pub(crate) bases: Vec<u32>,
    /// Whether two of them share a byte.
    pub(crate) shared: bool,
    /// Whether one is busy.
    pub(crate) busy: bool,
}

/// The TSS whose descriptor has this number in a table, where it is one that is present (PRM 7.2).
fn tss_in(table: &[u8], number: usize) -> Option<Tss>
    requires { number * 8 + 7 < length table.now }
    ensures { result ≡ tss_in table.now number }
{
    let at = number * 8;
    let access = table[at + 5];
    if access >> 7 == 1 && (access % 0x20 == 9 || access % 0x20 == 11) {
        Some(Tss {
            base: u32::from(table[at + 2])
                + (u32::from(table[at + 3]) << 8)
                + (u32::from(table[at + 4]) << 16)
                + (u32::from(table[at + 7]) << 24),
            busy: access % 0x20 == 11,
        })
    } else {
        None
    }
}

/// How many of these numbers, which rise, are below a bound.
fn count_below(bases: &[u32], bound: u64) -> usize
    requires { IsNonDecreasing bases.now }
    ensures within { result ≤ length bases.now }
    ensures below { (i d : ℕ) → i < result → slice_index_or bases.now i d < bound }
    ensures above { (i d : ℕ) → result ≤ i → i < length bases.now → bound ≤ slice_index_or bases.now i d }
{
    bases.partition_point(|base| u64::from(*base) < bound)
}

/// How many of these numbers, which rise, are at most a bound.
fn count_upto(bases: &[u32], bound: u64) -> usize
    requires { IsNonDecreasing bases.now }
    ensures within { result ≤ length bases.now }
    ensures upto { (i d : ℕ) → i < result → slice_index_or bases.now i d ≤ bound }
    ensures above { (i d : ℕ) → result ≤ i → i < length bases.now → bound < slice_index_or bases.now i d }
{
    bases.partition_point(|base| u64::from(*base) <= bound)
}

/// Whether one of the segments with these bases, which rise, has a place from `low` to `last`.
pub(crate) fn meets(bases: &[u32], low: u64, last: u64) -> bool
    requires { IsNonDecreasing bases.now }
    ensures { IsTrue result ↔ Meets bases.now low last }
{
    let ended = count_below(bases, low.saturating_sub(TSS_LEN - 1));
    ended < count_upto(bases, last)
}

/// Whether one of the segments with these bases, which rise, ends behind a place.
pub(crate) fn ends_behind(bases: &[u32], place: u64) -> bool
    requires { IsNonDecreasing bases.now }
    ensures { IsTrue result ↔ EndsBehind bases.now place }
{
    count_below(bases, place.saturating_sub(TSS_LEN - 1)) < bases.len()
}

/// Puts one more base in its place among these, which rise.
fn add_base(bases: &mut Vec<u32>, base: u32) -> Result<(), NoMemory>
    requires { IsNonDecreasing bases.old.items }
    ensures { OnOk result (IsAdded bases.old.items base bases.new.items) }
{
    let place = count_below(bases, u64::from(base));
    bases.insert(place, base)?;
    Ok(())
}

impl Segments {
    /// Takes in one more TSS.
    fn add(&mut self, tss: Tss) -> Result<(), NoMemory>
        requires { IsNonDecreasing self.old.bases.items }
        ensures bases { OnOk result (IsAdded self.old.bases.items tss.base self.new.bases.items) }
        ensures shared { OnOk result (IsTrue self.new.shared ↔ (IsTrue self.old.shared ⊎ Meets self.old.bases.items tss.base (tss.base + 103))) }
        ensures busy { OnOk result (IsTrue self.new.busy ↔ (IsTrue self.old.busy ⊎ IsTrue tss.busy)) }
    {
        let base = u64::from(tss.base);
        self.shared = meets(&self.bases, base, base + TSS_LEN - 1) || self.shared;
        self.busy = tss.busy || self.busy;
        add_base(&mut self.bases, tss.base)
    }
}

/// The TSSs of an image, of whose GDT these are the bytes.
pub(crate) fn segments_of(alloc: Global, image: &Image, table: &[u8]) -> Result<Segments, NoMemory>
    requires { IsTable image.now table.now }
    ensures { IfOk result (AreSegments image.now) }
{
    let mut found = Segments {
        bases: Vec::new(alloc),
        shared: false,
        busy: false,
    };
    for number in 1..table.len() / 8 {
        let Some(tss) = tss_in(table, number) else {
            continue;
        };
        found.add(tss)?;
    }
    Ok(found)
}
