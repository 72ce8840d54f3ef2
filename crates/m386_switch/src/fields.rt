//! Fields of a task state segment, read on the bus (PRM 7.1).
ghost use Rattle.std.specs.Prelude.{◌≡◌, false, ◌<◌};
ghost use Rattle.m386_base.specs.Phrase.{PerformsOrStops, it};
ghost use Rattle.m386_base.specs.Split.{AreGroups};
ghost use Rattle.m386_base.specs.declared.ask.Space.TheVariants as spaces;
ghost use Rattle.m386_switch.specs.Fields.{field_reads, field_phrase};

use m386_base::ask::{Ask, Role, Space};
use m386_base::bus::{Bus, cycle};
use m386_base::fault::Stop;
use m386_base::split::{Piece, gather, split};
use m386_tss::fields::tss_field;

/// The bytes of a field, read group by group.
#[tactic(auto, using(m386_base::proofs::Phrases::calls, m386_base::proofs::Groups::group_at, crate::proofs::Loops::field_steps))]
fn read_field_groups<B: Bus>(
    bus: &mut B,
    role: Role,
    number: u8,
    groups: &[Piece],
) -> Result<u32, Stop>
    requires free { (B.view bus.old).kept ≡ false }
    requires number { number < 27 }
    requires groups { AreGroups spaces.Memory groups.now }
    ensures cycles { PerformsOrStops (field_reads role number 0 groups.now) (B.view bus.old) (B.view bus.new) it result }
    ensures free { (B.view bus.new).kept ≡ false }
{
    let mut value = 0;
    for piece in groups {
        let ask = Ask {
            space: Space::Memory,
            write: false,
            joined: false,
            role,
            part: number,
            addr: piece.addr,
            enables: piece.enables,
            value: 0,
        };
        let found = cycle(bus, ask, false)?;
        value |= gather(*piece, found);
    }
    Ok(value)
}

/// A field of the TSS at this base, by its number below 27. Each of its cycles has the number as its part.
#[tactic(auto, unfolding(crate::specs::Fields::field_phrase))]
pub fn read_field<B: Bus>(bus: &mut B, role: Role, base: u32, number: u8) -> Result<u32, Stop>
    requires free { (B.view bus.old).kept ≡ false }
    requires number { number < 27 }
    ensures cycles { PerformsOrStops (field_phrase role base number) (B.view bus.old) (B.view bus.new) it result }
    ensures free { (B.view bus.new).kept ≡ false }
{
    let field = tss_field(number);
    let groups = split(
        Space::Memory,
        base.wrapping_add(u32::from(field.offset)),
        field.len,
    );
    read_field_groups(bus, role, number, groups.as_slice())
}
