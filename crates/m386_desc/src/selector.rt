//! The parts of a selector, and the error code that names it.
ghost use Rattle.std.specs.Prelude.{◌≡◌, ◌<◌};
ghost use Rattle.m386_desc.specs.Selector.{rpl_of, names_ldt, is_null_selector, is_in_table, code_of};

/// The requested privilege level, 0 to 3 (PRM 5.1.3).
#[tactic(auto, unfolding(crate::specs::Selector::rpl_of))]
pub fn rpl(selector: u16) -> u8
    ensures exact { result ≡ rpl_of selector }
    ensures small { result < 4 }
{
    (selector & 3) as u8
}

/// Whether it names a place in the LDT and not in the GDT (PRM 5.1.3).
#[tactic(auto, unfolding(crate::specs::Selector::names_ldt))]
pub fn in_ldt(selector: u16) -> bool
    ensures { result ≡ names_ldt selector }
{
    selector >> 2 & 1 == 1
}

/// Whether it is one of the null selectors, 0 to 3 (PRM 5.1.3).
#[tactic(auto, unfolding(crate::specs::Selector::is_null_selector))]
pub fn is_null(selector: u16) -> bool
    ensures { result ≡ is_null_selector selector }
{
    selector < 4
}

/// Whether the eight bytes of its descriptor lie in a table of this limit (PRM 5.1.3).
#[tactic(auto, unfolding(crate::specs::Selector::is_in_table))]
pub fn in_table(selector: u16, limit: u32) -> bool
    ensures { result ≡ is_in_table selector limit }
{
    (selector >> 3) as u32 * 8 + 7 <= limit
}

/// The error code of a fault that names this selector: its index and table, and EXT in bit 0 (PRM 9.7).
#[tactic(auto, unfolding(crate::specs::Selector::code_of))]
pub fn error_code(selector: u16, ext: bool) -> u16
    ensures { result ≡ code_of selector ext }
{
    (selector >> 2) * 4 + if ext { 1 } else { 0 }
}
