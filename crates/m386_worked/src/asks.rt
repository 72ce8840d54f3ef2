//! The line of a cycle: `r` or `w`, with `+` where it is joined to the one before it, or `pr` or `pw` on ports; and the role, the part,
//! the address, the enables and the value, as in the report on a run.

use crate::numbers::{byte, number};
use m386_base::ask::{Ask, Role, Space};

/// The words of the roles.
static ROLES: [(&str, Role); 25] = [
    ("fetch", Role::Fetch),
    ("data", Role::Operand),
    ("push", Role::Push),
    ("pop", Role::Pop),
    ("flags", Role::Flags),
    ("gdt", Role::Gdt),
    ("ldt", Role::Ldt),
    ("idt", Role::Idt),
    ("gdtacc", Role::GdtAcc),
    ("ldtacc", Role::LdtAcc),
    ("tss", Role::Tss),
    ("claimjmp", Role::ClaimJmp),
    ("claimcall", Role::ClaimCall),
    ("claimstart", Role::ClaimStart),
    ("claimltr", Role::ClaimLtr),
    ("save", Role::Save),
    ("load", Role::Load),
    ("link", Role::Link),
    ("back", Role::Back),
    ("reljmp", Role::RelJmp),
    ("relret", Role::RelRet),
    ("inner", Role::Inner),
    ("map", Role::Map),
    ("lgdt", Role::Lgdt),
    ("lidt", Role::Lidt),
];

/// The role of a word.
fn role_of(word: &str) -> Option<Role> {
    for (name, role) in ROLES {
        if name == word {
            return Some(role);
        }
    }
    None
}

/// Where a cycle goes, whether it writes, and whether it is joined to the one before it, by the first word of its line.
fn direction_of(word: &str) -> Option<(Space, bool, bool)> {
    for (name, space, write, joined) in [
        ("r", Space::Memory, false, false),
        ("w", Space::Memory, true, false),
        ("r+", Space::Memory, false, true),
        ("w+", Space::Memory, true, true),
        ("pr", Space::Port, false, false),
        ("pw", Space::Port, true, false),
    ] {
        if name == word {
            return Some((space, write, joined));
        }
    }
    None
}

/// The cycle that these words say: the first one, and those behind it.
pub fn ask_of(first: &str, words: &str) -> Option<Ask> {
    let (space, write, joined) = direction_of(first)?;
    let (role, words) = words.split_once(' ')?;
    let (part, words) = words.split_once(' ')?;
    let (addr, words) = words.split_once(' ')?;
    let (enables, value) = words.split_once(' ')?;
    Some(Ask {
        space,
        write,
        joined,
        role: role_of(role)?,
        part: byte(part)?,
        addr: number(addr)?,
        enables: byte(enables)?,
        value: number(value)?,
    })
}
