//! Cycles on ports (PRM 8.1.1).
ghost use Rattle.std.specs.Prelude.{◌≡◌, ◌⊎◌, false};
ghost use Rattle.m386_base.specs.Phrase.{Performs, it};
ghost use Rattle.m386_iomap.specs.Ports.{ports_read_phrase, ports_write_phrase};

use m386_base::ask::{Ask, Role, Space};
use m386_base::bus::{Bus, cycle_or_fault};
use m386_base::fault::Break;
use m386_base::split::{gather, split, spread};

/// The bytes of 1, 2 or 4 ports, read group by group. Behind port 65,535 comes port 0.
#[tactic(auto, using(m386_base::proofs::Phrases::calls, m386_base::proofs::Groups::group_at, crate::proofs::Pieces::read_steps), unfolding(crate::specs::Ports::ports_read_phrase))]
pub(crate) fn read_ports<B: Bus>(bus: &mut B, port: u16, len: u8) -> Result<u32, Break>
    requires free { (B.view bus.old).kept ≡ false }
    requires len { (len ≡ 1) ⊎ (len ≡ 2) ⊎ (len ≡ 4) }
    ensures cycles { Performs (ports_read_phrase port len) (B.view bus.old) (B.view bus.new) it result }
    ensures free { (B.view bus.new).kept ≡ false }
{
    let groups = split(Space::Port, u32::from(port), len);
    let mut value = 0;
    for piece in groups.as_slice() {
        let ask = Ask {
            space: Space::Port,
            write: false,
            joined: false,
            role: Role::Operand,
            part: piece.place,
            addr: piece.addr,
            enables: piece.enables,
            value: 0,
        };
        let found = cycle_or_fault(bus, ask, false)?;
        value |= gather(*piece, found);
    }
    Ok(value)
}

/// The bytes of 1, 2 or 4 ports, written group by group. Behind port 65,535 comes port 0.
#[tactic(auto, using(m386_base::proofs::Phrases::calls, m386_base::proofs::Groups::group_at, crate::proofs::Pieces::write_steps), unfolding(crate::specs::Ports::ports_write_phrase))]
pub(crate) fn write_ports<B: Bus>(bus: &mut B, port: u16, len: u8, value: u32) -> Result<(), Break>
    requires free { (B.view bus.old).kept ≡ false }
    requires len { (len ≡ 1) ⊎ (len ≡ 2) ⊎ (len ≡ 4) }
    ensures cycles { Performs (ports_write_phrase port len value) (B.view bus.old) (B.view bus.new) it result }
    ensures free { (B.view bus.new).kept ≡ false }
{
    let groups = split(Space::Port, u32::from(port), len);
    for piece in groups.as_slice() {
        let ask = Ask {
            space: Space::Port,
            write: true,
            joined: false,
            role: Role::Operand,
            part: piece.place,
            addr: piece.addr,
            enables: piece.enables,
            value: spread(*piece, value),
        };
        cycle_or_fault(bus, ask, false)?;
    }
    Ok(())
}
