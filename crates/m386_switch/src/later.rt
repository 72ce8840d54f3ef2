//! The descriptors of the new task, each read when its first row is reached (PRM 7.5).
ghost use Rattle.std.specs.Prelude.{◌≡◌, false, true, ◌<◌, slice_set, Some};
ghost use Rattle.m386_base.specs.Phrase.{PerformsOrStops, it};
ghost use Rattle.m386_switch.specs.Later.{names_local_table, names_place, new_place, stops_at_ldt, stops_at, with_ldt, with_desc, is_to_mark, ldt_phrase, mark_phrase, described_phrase, segment_phrase, segments, segment_order, later_phrase};

use m386_base::ask::Role;
use m386_base::bus::{Bus, leave};
use m386_base::desc::Desc;
use m386_base::fault::Stop;
use m386_base::segments::{CS, DS, ES, FS, GS, SS};
use m386_checks::facts::{Facts, Fail};
use m386_checks::first::first_fail;
use m386_desc::selector::{in_ldt, in_table, is_null};
use m386_segload::descriptor::{read_descriptor, write_access};
use m386_segload::tables::{accessed_role, base_of_ldt, is_in_ldt, place_in, table_role};
use m386_state::segment::TableReg;

/// Whether the LDT's selector isn't null and names a place in the GDT.
fn names_local_table(limit: u16, named: u16) -> bool
    ensures { result ≡ names_local_table limit named }
{
    !is_null(named) && (!in_ldt(named) && in_table(named, u32::from(limit)))
}

/// Whether a selector of the new task isn't null and names a place in its table.
fn names_place(limit: u16, ldt: Option<Desc>, named: u16) -> bool
    ensures { result ≡ names_place limit ldt named }
{
    !is_null(named)
        && if in_ldt(named) {
            is_in_ldt(ldt, named)
        } else {
            in_table(named, u32::from(limit))
        }
}

/// The address of the descriptor that a selector of the new task names.
fn new_place(base: u32, ldt: Option<Desc>, named: u16) -> u32
    ensures { result ≡ new_place base ldt named }
{
    let table = if in_ldt(named) {
        base_of_ldt(ldt)
    } else {
        base
    };
    place_in(table, named)
}

/// Whether the first row that fails is row 9 or one before it.
pub(crate) fn stops_at_ldt(fail: Option<Fail>) -> bool
    ensures { result ≡ stops_at_ldt fail }
{
    match fail {
        Some(x) => x.row <= 9,
        None => false,
    }
}

/// Whether the first row that fails is one of rows 10 to 18, for this segment register.
pub(crate) fn stops_at(seg: u8, fail: Option<Fail>) -> bool
    ensures { result ≡ stops_at seg fail }
{
    match fail {
        Some(x) => x.seg == seg && (10 <= x.row && x.row <= 18),
        None => false,
    }
}

/// The facts with the LDT's descriptor.
fn with_ldt(facts: &Facts, desc: Desc) -> Facts
    ensures { result ≡ with_ldt facts.now desc }
{
    let mut with = *facts;
    with.ldt_desc = Some(desc);
    with
}

/// Descriptors of segment registers, with that of one of them.
#[tactic(auto, using(crate::proofs::Six::put_steps))]
fn put(old: [Option<Desc>; 6], seg: u8, desc: Desc) -> [Option<Desc>; 6]
    requires { seg < 6 }
    ensures { result ≡ slice_set old seg (Some desc) }
{
    match seg {
        0 => [Some(desc), old[1], old[2], old[3], old[4], old[5]],
        1 => [old[0], Some(desc), old[2], old[3], old[4], old[5]],
        2 => [old[0], old[1], Some(desc), old[3], old[4], old[5]],
        3 => [old[0], old[1], old[2], Some(desc), old[4], old[5]],
        4 => [old[0], old[1], old[2], old[3], Some(desc), old[5]],
        5 => [old[0], old[1], old[2], old[3], old[4], Some(desc)],
        _ => old,
    }
}

/// The facts with the descriptor of a segment register.
fn with_desc(facts: &Facts, seg: u8, desc: Desc) -> Facts
    requires { seg < 6 }
    ensures { result ≡ with_desc facts.now seg desc }
{
    let mut with = *facts;
    with.seg_descs = put(facts.seg_descs, seg, desc);
    with
}

/// The descriptor of the LDT, where its selector names one.
#[tactic(auto, using(m386_base::proofs::Phrases::held), unfolding(crate::specs::Later::ldt_phrase))]
fn ldt<B: Bus>(bus: &mut B, gdtr: TableReg, facts: &Facts) -> Result<Facts, Stop>
    requires free { (B.view bus.old).kept ≡ false }
    ensures cycles { PerformsOrStops (ldt_phrase gdtr facts.now) (B.view bus.old) (B.view bus.new) it result }
    ensures free { (B.view bus.new).kept ≡ false }
{
    if names_local_table(gdtr.limit, facts.ldt) {
        let desc = read_descriptor(bus, Role::Gdt, place_in(gdtr.base, facts.ldt))?;
        leave(bus);
        return Ok(with_ldt(facts, desc));
    }
    Ok(*facts)
}

/// Whether the accessed bit is to be set.
fn is_to_mark(facts: &Facts, seg: u8, desc: Desc) -> bool
    requires { seg < 6 }
    ensures { result ≡ is_to_mark facts.now seg desc }
{
    !stops_at(seg, first_fail(&with_desc(facts, seg, desc))) && desc.access & 1 == 0
}

/// The accessed bit, where it is to be set; else the bus is freed.
#[tactic(auto, using(m386_base::proofs::Phrases::held), unfolding(crate::specs::Later::mark_phrase))]
fn mark<B: Bus>(
    bus: &mut B,
    address: u32,
    named: u16,
    facts: &Facts,
    seg: u8,
    desc: Desc,
) -> Result<Facts, Stop>
    requires kept { (B.view bus.old).kept ≡ true }
    requires seg { seg < 6 }
    ensures cycles { PerformsOrStops (mark_phrase address named facts.now seg desc) (B.view bus.old) (B.view bus.new) it result }
    ensures free { (B.view bus.new).kept ≡ false }
{
    if is_to_mark(facts, seg, desc) {
        write_access(bus, accessed_role(named), address, desc.access | 1)?;
        return Ok(with_desc(facts, seg, desc));
    }
    leave(bus);
    Ok(with_desc(facts, seg, desc))
}

/// The descriptor of a segment register and its accessed bit, as one locked group.
#[tactic(auto, using(m386_base::proofs::Phrases::calls), unfolding(crate::specs::Later::described_phrase))]
fn described<B: Bus>(
    bus: &mut B,
    address: u32,
    named: u16,
    facts: &Facts,
    seg: u8,
) -> Result<Facts, Stop>
    requires free { (B.view bus.old).kept ≡ false }
    requires seg { seg < 6 }
    ensures cycles { PerformsOrStops (described_phrase address named facts.now seg) (B.view bus.old) (B.view bus.new) it result }
    ensures free { (B.view bus.new).kept ≡ false }
{
    let desc = read_descriptor(bus, table_role(named), address)?;
    mark(bus, address, named, facts, seg, desc)
}

/// The descriptor of a segment register, where its selector names one.
#[tactic(auto, using(m386_base::proofs::Phrases::calls), unfolding(crate::specs::Later::segment_phrase))]
fn segment<B: Bus>(bus: &mut B, gdtr: TableReg, facts: &Facts, seg: u8) -> Result<Facts, Stop>
    requires free { (B.view bus.old).kept ≡ false }
    requires seg { seg < 6 }
    ensures cycles { PerformsOrStops (segment_phrase gdtr facts.now seg) (B.view bus.old) (B.view bus.new) it result }
    ensures free { (B.view bus.new).kept ≡ false }
{
    let named = facts.segs[seg as usize];
    if names_place(gdtr.limit, facts.ldt_desc, named) {
        let address = new_place(gdtr.base, facts.ldt_desc, named);
        return described(bus, address, named, facts, seg);
    }
    Ok(*facts)
}

/// The segment registers in the order of their rows.
const SEGMENT_ORDER: [u8; 6] = [CS, SS, DS, ES, FS, GS];

/// Segment registers in turn, up to the first of which a row fails.
#[tactic(auto, using(m386_base::proofs::Phrases::calls, crate::proofs::Loops::segment_steps))]
fn segments<B: Bus>(bus: &mut B, gdtr: TableReg, first: &Facts) -> Result<Facts, Stop>
    requires free { (B.view bus.old).kept ≡ false }
    ensures cycles { PerformsOrStops (segments gdtr first.now segment_order) (B.view bus.old) (B.view bus.new) it result }
    ensures free { (B.view bus.new).kept ≡ false }
{
    let mut facts = *first;
    for seg in SEGMENT_ORDER {
        facts = segment(bus, gdtr, &facts, seg)?;
        if stops_at(seg, first_fail(&facts)) {
            return Ok(facts);
        }
    }
    Ok(facts)
}

/// The descriptors of the new task up to the first row that fails. The answer are the finished facts.
#[tactic(auto, using(m386_base::proofs::Phrases::calls), unfolding(crate::specs::Later::later_phrase))]
pub(crate) fn later<B: Bus>(bus: &mut B, gdtr: TableReg, facts: &Facts) -> Result<Facts, Stop>
    requires free { (B.view bus.old).kept ≡ false }
    ensures cycles { PerformsOrStops (later_phrase gdtr facts.now) (B.view bus.old) (B.view bus.new) it result }
    ensures free { (B.view bus.new).kept ≡ false }
{
    let with = ldt(bus, gdtr, facts)?;
    if stops_at_ldt(first_fail(&with)) {
        return Ok(with);
    }
    segments(bus, gdtr, &with)
}
