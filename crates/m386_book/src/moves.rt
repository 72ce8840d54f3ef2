//! What a cycle moves in the book: the kind of its role, and the task that it speaks of.
ghost use Rattle.std.specs.Prelude.{◌≡◌};
ghost use Rattle.m386_base.specs.Bytes.{bytes_of};
ghost use Rattle.m386_book.specs.Book.{above_access, move_of, task_above, task_at};
ghost use Rattle.m386_book.specs.Holding.{selector_of};

use m386_base::ask::{Ask, Role};
use m386_base::bytes::bytes_of;
use m386_image::image::TableAt;

/// What a write moves in the book.
#[derive(Clone, Copy, Debug)]
pub(crate) enum Move {
    /// The processor takes the task. `true`: the task that it held waits by this one.
    Claim(bool),
    /// The link of the held task is written.
    Link,
    /// A JMP gives the task free.
    Release,
    /// IRET gives the task free and goes back to the one that waited by it.
    Return,
    /// Nothing.
    Stay,
}

/// What a write of a role moves.
pub(crate) fn move_of(role: Role) -> Move
    ensures { result ≡ move_of role }
{
    match role {
        Role::ClaimJmp | Role::ClaimCall => Move::Claim(true),
        Role::ClaimStart | Role::ClaimLtr => Move::Claim(false),
        Role::Link => Move::Link,
        Role::RelJmp => Move::Release,
        Role::RelRet => Move::Return,
        _ => Move::Stay,
    }
}

/// How far a place lies above the access byte of a table's first descriptor, modulo 2^32.
fn above_access(table: TableAt, place: u64) -> u64
    ensures { result ≡ above_access table place }
{
    let first = (u64::from(table.base) + 5) % 0x1_0000_0000;
    (place % 0x1_0000_0000 + 0x1_0000_0000 - first) % 0x1_0000_0000
}

/// The selector of the task whose access byte lies so far above that of the first descriptor.
fn task_above(table: TableAt, above: u64) -> Option<u16>
    ensures { result ≡ selector_of (task_above table above) }
{
    if above % 8 == 0 && 8 <= above && above + 7 <= u64::from(table.limit) {
        Some(above as u16)
    } else {
        None
    }
}

/// The selector of the task that a cycle speaks of by the one byte that it enables. It takes no memory.
#[tactic(auto, unfolding(crate::specs::Book::task_at))]
pub(crate) fn task_at(table: TableAt, ask: &Ask) -> Option<u16>
    ensures { result ≡ selector_of (task_at table (bytes_of ask.now)) }
{
    let bytes = bytes_of(ask);
    match bytes.as_slice() {
        [only] => task_above(table, above_access(table, only.0)),
        _ => None,
    }
}
