//! What the tests of a table ask of one descriptor, which may not have been read: then each is false. The check table of a task
//! switch and the tables of segment loads share them.
ghost use Rattle.std.specs.Prelude.{◌≡◌, None};
ghost use Rattle.m386_checks.specs.Descriptor.{given, is_tss, is_marked, has_all_fields, is_ldt, is_reached_from, runs_at, has_level, may_be_data_from, holds_offset};
ghost use Rattle.m386_desc.specs.Access.{is_code_32, is_present, is_readable, is_writable};

use m386_base::desc::Desc;
use m386_desc::access::{code_32, dpl, kind, present};
use m386_desc::kind::Kind;
use m386_desc::offsets::{allows, limit};

/// Whether it is a 386 TSS.
pub fn of_386(desc: Option<Desc>) -> bool
    ensures { result ≡ given desc is_tss }
{
    match desc {
        Some(d) => matches!(kind(&d), Kind::Tss { .. }),
        None => false,
    }
}

/// Whether it is a 386 TSS that is busy, or one that is available.
pub fn marked(desc: Option<Desc>, wanted: bool) -> bool
    ensures { result ≡ given desc (is_marked wanted) }
{
    match desc {
        Some(d) => match kind(&d) {
            Kind::Tss { busy } => if wanted { busy } else { !busy },
            _ => false,
        },
        None => false,
    }
}

/// Whether it may be used at this privilege with this RPL.
pub fn reached(desc: Option<Desc>, cpl: u8, rpl: u8) -> bool
    ensures { result ≡ given desc (is_reached_from cpl rpl) }
{
    match desc {
        Some(d) => cpl <= dpl(&d) && rpl <= dpl(&d),
        None => false,
    }
}

/// Whether it is present.
pub fn is_there(desc: Option<Desc>) -> bool
    ensures { result ≡ given desc is_present }
{
    match desc {
        Some(d) => present(&d),
        None => false,
    }
}

/// Whether a TSS has room for its fields.
pub fn long_enough(desc: Option<Desc>) -> bool
    ensures { result ≡ given desc has_all_fields }
{
    match desc {
        Some(d) => limit(&d) >= 103,
        None => false,
    }
}

/// Whether it is an LDT.
pub fn table(desc: Option<Desc>) -> bool
    ensures { result ≡ given desc is_ldt }
{
    match desc {
        Some(d) => matches!(kind(&d), Kind::Ldt),
        None => false,
    }
}

/// Whether CS may take it.
pub fn code(desc: Option<Desc>) -> bool
    ensures { result ≡ given desc is_code_32 }
{
    match desc {
        Some(d) => code_32(&d),
        None => false,
    }
}

/// Whether it is code that runs at this level.
pub fn runs(desc: Option<Desc>, level: u8) -> bool
    ensures { result ≡ given desc (runs_at level) }
{
    match desc {
        Some(d) => if kind(&d).is_conforming() {
            dpl(&d) <= level
        } else {
            dpl(&d) == level
        },
        None => false,
    }
}

/// Whether it is writable data.
pub fn writable(desc: Option<Desc>) -> bool
    ensures { result ≡ given desc is_writable }
{
    match desc {
        Some(d) => kind(&d).is_writable(),
        None => false,
    }
}

/// Whether it has this privilege level.
pub fn of_level(desc: Option<Desc>, level: u8) -> bool
    ensures { result ≡ given desc (has_level level) }
{
    match desc {
        Some(d) => dpl(&d) == level,
        None => false,
    }
}

/// Whether it is data or readable code.
pub fn readable(desc: Option<Desc>) -> bool
    ensures { result ≡ given desc is_readable }
{
    match desc {
        Some(d) => kind(&d).is_readable(),
        None => false,
    }
}

/// Whether it is conforming code, or may be used at this privilege with this RPL.
pub fn usable(desc: Option<Desc>, cpl: u8, rpl: u8) -> bool
    ensures { result ≡ given desc (may_be_data_from cpl rpl) }
{
    match desc {
        Some(d) => kind(&d).is_conforming() || (cpl <= dpl(&d) && rpl <= dpl(&d)),
        None => false,
    }
}

/// Whether it is an offset of the segment.
pub fn inside(desc: Option<Desc>, offset: u32) -> bool
    ensures { result ≡ given desc (holds_offset offset) }
{
    match desc {
        Some(d) => allows(&d, offset, 1),
        None => false,
    }
}
