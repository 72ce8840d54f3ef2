//! Where the descriptor of a selector stands.
ghost use Rattle.std.specs.Prelude.{◌≡◌};
ghost use Rattle.m386_desc.specs.Selector.{place_in};
ghost use Rattle.m386_segload.specs.Tables.{held, is_in_ldt, base_of_ldt, is_there, is_in_gdt, place_for, table_role, accessed_role};

use m386_base::ask::Role;
use m386_base::desc::Desc;
use m386_desc::offsets::limit;
use m386_desc::selector::{in_ldt, in_table, is_null};
use m386_state::proc::Proc;
use m386_state::segment::Seg;

/// The descriptor that a register holds, where it may be used.
pub fn held(seg: &Seg) -> Option<Desc>
    ensures { result ≡ held seg.now }
{
    if seg.usable { Some(seg.desc) } else { None }
}

/// Whether a selector names a place in the LDT that is held.
pub fn is_in_ldt(ldt: Option<Desc>, selector: u16) -> bool
    ensures { result ≡ is_in_ldt ldt selector }
{
    match ldt {
        Some(d) => in_table(selector, limit(&d)),
        None => false,
    }
}

/// The base of the LDT.
pub fn base_of_ldt(ldt: Option<Desc>) -> u32
    ensures { result ≡ base_of_ldt ldt }
{
    match ldt {
        Some(d) => d.base,
        None => 0,
    }
}

/// Whether a selector isn't null and names a place in its table: the GDT, or an LDT that may be used (PRM 5.1.3, 5.1.4).
pub fn is_there(p: &Proc, selector: u16) -> bool
    ensures { result ≡ is_there p.now selector }
{
    !is_null(selector)
        && if in_ldt(selector) {
            is_in_ldt(held(&p.ldtr), selector)
        } else {
            in_table(selector, u32::from(p.gdtr.limit))
        }
}

/// Whether a selector isn't null and names a place in the GDT (PRM 5.1.3).
pub fn is_in_gdt(p: &Proc, selector: u16) -> bool
    ensures { result ≡ is_in_gdt p.now selector }
{
    !is_null(selector) && (!in_ldt(selector) && in_table(selector, u32::from(p.gdtr.limit)))
}

/// Where the descriptor of a selector stands in a table at this base (PRM 5.1.3).
pub fn place_in(base: u32, selector: u16) -> u32
    ensures { result ≡ place_in base selector }
{
    base.wrapping_add(u32::from(selector / 8 * 8))
}

/// The linear address of the descriptor that a selector names (PRM 5.1.3).
pub fn place_for(p: &Proc, selector: u16) -> u32
    ensures { result ≡ place_for p.now selector }
{
    let base = if in_ldt(selector) {
        base_of_ldt(held(&p.ldtr))
    } else {
        p.gdtr.base
    };
    place_in(base, selector)
}

/// The role of a descriptor's read.
pub fn table_role(selector: u16) -> Role
    ensures { result ≡ table_role selector }
{
    if in_ldt(selector) {
        Role::Ldt
    } else {
        Role::Gdt
    }
}

/// The role of the write of its access byte.
pub fn accessed_role(selector: u16) -> Role
    ensures { result ≡ accessed_role selector }
{
    if in_ldt(selector) {
        Role::LdtAcc
    } else {
        Role::GdtAcc
    }
}
