//! The interrupt plan of a file: entries of eight bytes, end to end.
ghost use Rattle.std.specs.Prelude.{◌≡◌, ◌*◌, ◌≤◌, length, IfOk};
ghost use Rattle.m386_image.specs.Format.{entry_at, entries, place_in_order, are_ordered};

use crate::image::Planned;
use crate::number::read_u32;
use m386_base::fault::NoMemory;
use m386_base::list::List;
use std::alloc::Global;

/// How many bytes an entry has.
const ENTRY: usize = 8;

/// The entry that the bytes begin with. The last two of its bytes are ignored.
fn entry_at(bytes: &[u8]) -> Planned
    requires { 8 ≤ length bytes.now }
    ensures { result ≡ entry_at bytes.now }
{
    Planned {
        step: read_u32(bytes, 0),
        cpu: bytes[4],
        vector: bytes[5],
    }
}

/// An entry's place in the order: by its processor, and then by its step.
fn place_in_order(entry: &Planned) -> u64
    ensures { result ≡ place_in_order entry.now }
{
    u64::from(entry.cpu) * 0x1_0000_0000 + u64::from(entry.step)
}

/// Whether so many entries are of processors that there are, and rise.
#[tactic(auto, using(crate::proofs::Plans::entries_next, crate::proofs::Plans::ordered_next), unfolding(crate::specs::Format::are_ordered, crate::specs::Format::entries))]
pub fn is_ordered(bytes: &[u8], count: u32, cpus: u8) -> bool
    requires { 8 * count ≤ length bytes.now }
    ensures { result ≡ are_ordered cpus 0 (entries count bytes.now) }
{
    let mut rest = bytes;
    let mut least = 0;
    for _ in 0..count {
        let (_, behind) = rest.split_at(ENTRY);
        let entry = entry_at(rest);
        if entry.cpu >= cpus || place_in_order(&entry) < least {
            return false;
        }
        least = place_in_order(&entry) + 1;
        rest = behind;
    }
    true
}

/// So many entries.
#[tactic(auto, unfolding(crate::specs::Format::entries))]
pub fn plan_of(alloc: Global, bytes: &[u8], count: u32) -> Result<List<Planned>, NoMemory>
    requires { 8 * count ≤ length bytes.now }
    ensures { IfOk result (λ plan. plan ≡ entries count bytes.now) }
{
    let mut plan = List::new(alloc);
    let mut rest = bytes;
    for _ in 0..count {
        let (_, behind) = rest.split_at(ENTRY);
        plan.push(entry_at(rest))?;
        rest = behind;
    }
    Ok(plan)
}
