//! The words of the report.
ghost use Rattle.std.specs.Prelude.{◌≡◌, ◌<◌, ◌≤◌, ◌++◌, ◌∷◌, [], length, codes, decimal};
ghost use Rattle.m386_trace.specs.Line.{spaced};
ghost use Rattle.m386_trace.specs.Words.{role_word, space_word, write_word, joined_word, mode_word};

use m386_base::ask::{Role, Space};
use m386_state::proc::Mode;

/// The word for a role.
pub fn role_word(role: Role) -> &'static str
    ensures word { result.now ≡ role_word role }
    ensures short { length result.now ≤ 10 }
{
    match role {
        Role::Fetch => "fetch",
        Role::Operand => "data",
        Role::Push => "push",
        Role::Pop => "pop",
        Role::Flags => "flags",
        Role::Gdt => "gdt",
        Role::Ldt => "ldt",
        Role::Idt => "idt",
        Role::GdtAcc => "gdtacc",
        Role::LdtAcc => "ldtacc",
        Role::Tss => "tss",
        Role::ClaimJmp => "claimjmp",
        Role::ClaimCall => "claimcall",
        Role::ClaimStart => "claimstart",
        Role::ClaimLtr => "claimltr",
        Role::Save => "save",
        Role::Link => "link",
        Role::Back => "back",
        Role::RelJmp => "reljmp",
        Role::RelRet => "relret",
        Role::Load => "load",
        Role::Inner => "inner",
        Role::Map => "map",
        Role::Lgdt => "lgdt",
        Role::Lidt => "lidt",
    }
}

/// The letters for the space of a cycle and for a write or a read, and the sign for one that is joined or isn't, each behind a space.
#[tactic(auto, unfolding(crate::specs::Line::spaced))]
pub(crate) fn access_words(space: Space, write: bool, joined: bool) -> &'static str
    ensures words { result.now ≡ spaced (space_word space ∷ write_word write ∷ joined_word joined ∷ []) }
    ensures short { length result.now ≡ 6 }
{
    match (space, write, joined) {
        (Space::Memory, false, false) => " m r .",
        (Space::Memory, false, true) => " m r +",
        (Space::Memory, true, false) => " m w .",
        (Space::Memory, true, true) => " m w +",
        (Space::Port, false, false) => " p r .",
        (Space::Port, false, true) => " p r +",
        (Space::Port, true, false) => " p w .",
        (Space::Port, true, true) => " p w +",
    }
}

/// The beginning of the line of a cycle of this processor.
#[tactic(auto, using(std::proofs::lemmas::Fmt::decimal_digit), unfolding(crate::specs::Line::spaced))]
pub(crate) fn cpu_words(cpu: u8) -> &'static str
    requires { cpu < 10 }
    ensures words { result.now ≡ codes "c" ++ spaced (decimal cpu ∷ []) }
    ensures short { length result.now ≡ 3 }
{
    match cpu {
        0 => "c 0",
        1 => "c 1",
        2 => "c 2",
        3 => "c 3",
        4 => "c 4",
        5 => "c 5",
        6 => "c 6",
        7 => "c 7",
        8 => "c 8",
        _ => "c 9",
    }
}

/// The word for a mode.
pub(crate) fn mode_word(mode: Mode) -> &'static str
    ensures word { result.now ≡ mode_word mode }
    ensures short { length result.now ≤ 8 }
{
    match mode {
        Mode::Running => "running",
        Mode::Halted => "halted",
        Mode::Shutdown => "shutdown",
    }
}
