//! The I/O permission bit map of a task: which ports it may use (PRM 8.3.2).
ghost use Rattle.std.specs.Prelude.{◌≡◌, ◌+◌, ◌<◌, ◌≤◌, ◌⊎◌, false};
ghost use Rattle.m386_base.specs.Phrase.{PerformsOrStops, it};
ghost use Rattle.m386_iomap.specs.Map.{port_bits, rising, map_bytes, has_map_base, map_byte_phrase, has_clear_bits_phrase, is_clear_phrase, are_clear_phrase, allows_phrase, map_phrase, may_use_phrase};

use m386_base::ask::{Ask, Role, Space};
use m386_base::bus::{Bus, cycle};
use m386_base::fault::Stop;
use m386_base::split::{gather, split};
use m386_desc::offsets::limit;
use m386_state::proc::Proc;
use m386_state::segment::Seg;
use m386_switch::fields::read_field;
use m386_tss::fields::{MAP, TSS_LEN};

/// A byte of the map, with the bits of an access that stand in it.
#[derive(Clone, Copy, Debug, PartialEq, Eq)]
pub struct MapByte {
    /// Its place in the map.
    pub number: u16,
    /// The bits of the access's ports.
    pub bits: u8,
}

/// The bytes of the map that hold the ports of an access, rising.
#[derive(Clone, Copy, Debug, PartialEq, Eq)]
pub enum MapBytes {
    /// One byte has them all.
    One(MapByte),
    /// Two bytes have them.
    Two(MapByte, MapByte),
}

/// The bits of `count` ports in a byte of the map, from bit `bit` on.
#[tactic(auto, using(crate::proofs::Bits::port_bits_fit))]
fn port_bits(bit: u8, count: u8) -> u8
    requires bit { bit < 8 }
    requires fits { bit + count ≤ 8 }
    requires few { count ≤ 4 }
    ensures { result ≡ port_bits bit count }
{
    ((1 << count) - 1) << bit
}

/// Two bytes of the map, the lower one first.
fn rising(a: MapByte, b: MapByte) -> MapBytes
    ensures { result ≡ rising a b }
{
    if b.number < a.number {
        MapBytes::Two(b, a)
    } else {
        MapBytes::Two(a, b)
    }
}

/// The bytes of the map that hold the ports of an access. Port n has bit n % 8 of byte n / 8, and behind port 65,535 comes port 0.
#[tactic(auto, unfolding(crate::specs::Map::map_bytes))]
pub fn map_bytes(port: u16, len: u8) -> MapBytes
    requires { (len ≡ 1) ⊎ (len ≡ 2) ⊎ (len ≡ 4) }
    ensures { result ≡ map_bytes port len }
{
    let number = port / 8;
    let bit = (port % 8) as u8;
    if bit + len <= 8 {
        return MapBytes::One(MapByte {
            number,
            bits: port_bits(bit, len),
        });
    }
    let here = MapByte {
        number,
        bits: port_bits(bit, 8 - bit),
    };
    let next = MapByte {
        number: (number + 1) % 0x2000,
        bits: port_bits(0, bit + len - 8),
    };
    rising(here, next)
}

/// Whether there is a map to look for: TR may be used, and its TSS has the whole word that says where the map lies.
fn has_map_base(tr: &Seg) -> bool
    ensures { result ≡ has_map_base tr.now }
{
    tr.usable && limit(&tr.desc) >= TSS_LEN - 1
}

/// A byte of the map, by its linear address.
#[tactic(auto, using(m386_base::proofs::Phrases::calls, m386_base::proofs::Groups::group_at, m386_access::proofs::Pieces::read_steps), unfolding(crate::specs::Map::map_byte_phrase))]
fn read_map_byte<B: Bus>(bus: &mut B, at: u32) -> Result<u32, Stop>
    requires free { (B.view bus.old).kept ≡ false }
    ensures cycles { PerformsOrStops (map_byte_phrase at) (B.view bus.old) (B.view bus.new) it result }
    ensures free { (B.view bus.new).kept ≡ false }
{
    let groups = split(Space::Memory, at, 1);
    let mut value = 0;
    for piece in groups.as_slice() {
        let ask = Ask {
            space: Space::Memory,
            write: false,
            joined: false,
            role: Role::Map,
            part: piece.place,
            addr: piece.addr,
            enables: piece.enables,
            value: 0,
        };
        let found = cycle(bus, ask, false)?;
        value |= gather(*piece, found);
    }
    Ok(value)
}

/// Whether the bits of an access are clear in a byte at this offset of the TSS.
#[tactic(auto, using(m386_base::proofs::Phrases::calls), unfolding(crate::specs::Map::has_clear_bits_phrase))]
fn has_clear_bits<B: Bus>(tr: &Seg, bus: &mut B, offset: u32, bits: u8) -> Result<bool, Stop>
    requires free { (B.view bus.old).kept ≡ false }
    ensures cycles { PerformsOrStops (has_clear_bits_phrase tr.now offset bits) (B.view bus.old) (B.view bus.new) it result }
    ensures free { (B.view bus.new).kept ≡ false }
{
    let byte = read_map_byte(bus, tr.desc.base.wrapping_add(offset))?;
    Ok(byte & u32::from(bits) == 0)
}

/// Whether a byte of the map lies inside the TSS and has the bits of an access clear. `base` is where the map begins in the TSS.
#[tactic(auto, using(m386_base::proofs::Phrases::calls), unfolding(crate::specs::Map::is_clear_phrase))]
fn is_clear<B: Bus>(tr: &Seg, bus: &mut B, base: u16, byte: MapByte) -> Result<bool, Stop>
    requires free { (B.view bus.old).kept ≡ false }
    ensures cycles { PerformsOrStops (is_clear_phrase tr.now base byte) (B.view bus.old) (B.view bus.new) it result }
    ensures free { (B.view bus.new).kept ≡ false }
{
    let offset = u32::from(base) + u32::from(byte.number);
    if offset > limit(&tr.desc) {
        return Ok(false);
    }
    has_clear_bits(tr, bus, offset, byte.bits)
}

/// Whether each of two bytes is so; the second is looked at only where the first is.
#[tactic(auto, using(m386_base::proofs::Phrases::calls), unfolding(crate::specs::Map::are_clear_phrase))]
fn are_clear<B: Bus>(
    tr: &Seg,
    bus: &mut B,
    base: u16,
    first: MapByte,
    second: MapByte,
) -> Result<bool, Stop>
    requires free { (B.view bus.old).kept ≡ false }
    ensures cycles { PerformsOrStops (are_clear_phrase tr.now base first second) (B.view bus.old) (B.view bus.new) it result }
    ensures free { (B.view bus.new).kept ≡ false }
{
    let clear = is_clear(tr, bus, base, first)?;
    if !clear {
        return Ok(false);
    }
    is_clear(tr, bus, base, second)
}

/// Whether each byte that holds one of the ports is so, in a map that begins at `base` in the TSS.
#[tactic(auto, using(m386_base::proofs::Phrases::calls))]
fn allows<B: Bus>(tr: &Seg, bus: &mut B, base: u16, bytes: MapBytes) -> Result<bool, Stop>
    requires free { (B.view bus.old).kept ≡ false }
    ensures cycles { PerformsOrStops (allows_phrase tr.now base bytes) (B.view bus.old) (B.view bus.new) it result }
    ensures free { (B.view bus.new).kept ≡ false }
{
    match bytes {
        MapBytes::One(byte) => is_clear(tr, bus, base, byte),
        MapBytes::Two(first, second) => are_clear(tr, bus, base, first, second),
    }
}

/// Whether the map of a TSS that has a map base allows an access: the base is read, and then the bytes.
#[tactic(auto, using(m386_base::proofs::Phrases::calls), unfolding(crate::specs::Map::map_phrase))]
fn map_allows<B: Bus>(tr: &Seg, bus: &mut B, bytes: MapBytes) -> Result<bool, Stop>
    requires free { (B.view bus.old).kept ≡ false }
    ensures cycles { PerformsOrStops (map_phrase tr.now bytes) (B.view bus.old) (B.view bus.new) it result }
    ensures free { (B.view bus.new).kept ≡ false }
{
    let base = read_field(bus, Role::Map, tr.desc.base, MAP)?;
    allows(tr, bus, (base % 0x1_0000) as u16, bytes)
}

/// Whether the I/O map of the task allows an access to 1, 2 or 4 ports, whatever CPL and IOPL are. It answers false exactly where TR
/// can't be used or its TSS has fewer than 104 bytes, with no cycle; or where a byte of the map that holds one of the ports lies past the
/// limit of the TSS or has the bit of one of them set. The bytes are taken in rising order, each tested before it is read, up to the
/// first that doesn't allow the access.
#[tactic(auto, using(m386_base::proofs::Phrases::calls), unfolding(crate::specs::Map::may_use_phrase))]
pub fn may_use<B: Bus>(p: &Proc, bus: &mut B, port: u16, len: u8) -> Result<bool, Stop>
    requires free { (B.view bus.old).kept ≡ false }
    requires len { (len ≡ 1) ⊎ (len ≡ 2) ⊎ (len ≡ 4) }
    ensures cycles { PerformsOrStops (may_use_phrase p.now port len) (B.view bus.old) (B.view bus.new) it result }
    ensures free { (B.view bus.new).kept ≡ false }
{
    if !has_map_base(&p.tr) {
        return Ok(false);
    }
    map_allows(&p.tr, bus, map_bytes(port, len))
}
