//! The numbers of a gate whose eight bytes were read as a descriptor.
ghost use Rattle.std.specs.Prelude.{◌≡◌};
ghost use Rattle.m386_transfer.specs.Gate.{gate_of};

use m386_base::desc::Desc;
use m386_desc::gate::Gate4;

/// The selector, the offset and the count of a gate (PRM 6.3.4).
pub fn gate_of(desc: &Desc) -> Gate4
    ensures { result ≡ gate_of desc.now }
{
    Gate4 {
        selector: (desc.base % 0x1_0000) as u16,
        offset: desc.raw_limit % 0x1_0000
            + (desc.raw_limit / 0x1_0000 + u32::from(desc.flags) * 16) * 0x1_0000
            + desc.base / 0x100_0000 * 0x100_0000,
        count: (desc.base / 0x1_0000 % 0x20) as u8,
    }
}
