//! Segments and tables of a text.

use crate::numbers::{byte, half, number};
use m386_base::desc::Desc;
use m386_state::segment::{Seg, TableReg};

/// A descriptor, `BASE:LIMIT:ACCESS:FLAGS`.
fn descriptor_of(text: &str) -> Option<Desc> {
    let (base, text) = text.split_once(':')?;
    let (limit, text) = text.split_once(':')?;
    let (access, flags) = text.split_once(':')?;
    let limit = number(limit)?;
    let flags = byte(flags)?;
    if limit >= 0x10_0000 || flags >= 16 {
        return None;
    }
    Some(Desc::new(number(base)?, limit, byte(access)?, flags))
}

/// A segment, `SELECTOR:BASE:LIMIT:ACCESS:FLAGS`, and with `-` before it one that can't be used.
pub fn segment_of(text: &str) -> Option<Seg> {
    let (usable, text) = match text.strip_prefix("-") {
        Some(text) => (false, text),
        None => (true, text),
    };
    let (selector, text) = text.split_once(':')?;
    Some(Seg {
        selector: half(selector)?,
        usable,
        desc: descriptor_of(text)?,
    })
}

/// The register of a table, `BASE:LIMIT`.
pub fn table_of(text: &str) -> Option<TableReg> {
    let (base, limit) = text.split_once(':')?;
    Some(TableReg {
        base: number(base)?,
        limit: half(limit)?,
    })
}

/// These segments with one changed, by its number.
pub fn with_segment(segs: &[Seg; 6], number: usize, value: Seg) -> [Seg; 6] {
    let [es, cs, ss, ds, fs, gs] = *segs;
    [
        if number == 0 { value } else { es },
        if number == 1 { value } else { cs },
        if number == 2 { value } else { ss },
        if number == 3 { value } else { ds },
        if number == 4 { value } else { fs },
        if number == 5 { value } else { gs },
    ]
}
