//! Whether two images are the same.
ghost use Rattle.std.specs.Prelude.{◌≡◌, ◌↔◌, true};

use m386_image::image::{Image, Planned, Section, TableAt};

/// What can be told to be the same or not.
trait Same {
    /// Whether these two are the same.
    fn is_same(&self, other: &Self) -> bool
        ensures { (result ≡ true) ↔ (self.now ≡ other.now) };
}

impl Same for TableAt {
    fn is_same(&self, other: &Self) -> bool {
        self.base == other.base && self.limit == other.limit
    }
}

impl Same for Planned {
    fn is_same(&self, other: &Self) -> bool {
        self.step == other.step && self.cpu == other.cpu && self.vector == other.vector
    }
}

impl Same for Section {
    fn is_same(&self, other: &Self) -> bool {
        self.addr == other.addr && self.bytes.as_slice() == other.bytes.as_slice()
    }
}

/// Whether two lists are the same.
fn are_same<T: Same>(one: &[T], other: &[T]) -> bool
    ensures { (result ≡ true) ↔ (one.now ≡ other.now) }
{
    if one.len() != other.len() {
        return false;
    }
    for at in 0..one.len() {
        if !one[at].is_same(&other[at]) {
            return false;
        }
    }
    true
}

/// Whether two images are the same.
#[tactic(auto, using(crate::proofs::Images::same_image))]
pub fn is_same_image(one: &Image, other: &Image) -> bool
    ensures { (result ≡ true) ↔ (one.now ≡ other.now) }
{
    if one.memory != other.memory || one.cpus != other.cpus || one.flags != other.flags {
        return false;
    }
    if !one.gdt.is_same(&other.gdt) || !one.idt.is_same(&other.idt) || one.starts != other.starts {
        return false;
    }
    if !are_same(one.plan.as_slice(), other.plan.as_slice()) {
        return false;
    }
    are_same(one.sections.as_slice(), other.sections.as_slice())
}
