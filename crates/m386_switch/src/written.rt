//! Fields of a task state segment, written on the bus (PRM 7.1).
ghost use Rattle.std.specs.Prelude.{◌≡◌, false, ◌<◌};
ghost use Rattle.m386_base.specs.Phrase.{PerformsOrStops, it};
ghost use Rattle.m386_base.specs.Split.{AreGroups};
ghost use Rattle.m386_base.specs.declared.ask.Space.TheVariants as spaces;
ghost use Rattle.m386_switch.specs.Fields.{field_writes, field_write_phrase};

use m386_base::ask::{Ask, Role, Space};
use m386_base::bus::{Bus, cycle};
use m386_base::fault::Stop;
use m386_base::split::{Piece, split, spread};
use m386_tss::fields::tss_field;

/// The bytes of a field, written group by group.
#[tactic(auto, using(m386_base::proofs::Phrases::calls, m386_base::proofs::Groups::group_at, crate::proofs::Loops::field_write_steps))]
fn write_field_groups<B: Bus>(
    bus: &mut B,
    role: Role,
    number: u8,
    groups: &[Piece],
    value: u32,
) -> Result<(), Stop>
    requires free { (B.view bus.old).kept ≡ false }
    requires number { number < 27 }
    requires groups { AreGroups spaces.Memory groups.now }
    ensures cycles { PerformsOrStops (field_writes role number value groups.now) (B.view bus.old) (B.view bus.new) it result }
    ensures free { (B.view bus.new).kept ≡ false }
{
    for piece in groups {
        let ask = Ask {
            space: Space::Memory,
            write: true,
            joined: false,
            role,
            part: number,
            addr: piece.addr,
            enables: piece.enables,
            value: spread(*piece, value),
        };
        cycle(bus, ask, false)?;
    }
    Ok(())
}

/// A field of the TSS at this base, written, by its number below 27. Each of its cycles has the number as its part.
#[tactic(auto, unfolding(crate::specs::Fields::field_write_phrase))]
pub fn write_field<B: Bus>(
    bus: &mut B,
    role: Role,
    base: u32,
    number: u8,
    value: u32,
) -> Result<(), Stop>
    requires free { (B.view bus.old).kept ≡ false }
    requires number { number < 27 }
    ensures cycles { PerformsOrStops (field_write_phrase role base number value) (B.view bus.old) (B.view bus.new) it result }
    ensures free { (B.view bus.new).kept ≡ false }
{
    let field = tss_field(number);
    let groups = split(
        Space::Memory,
        base.wrapping_add(u32::from(field.offset)),
        field.len,
    );
    write_field_groups(bus, role, number, groups.as_slice(), value)
}
