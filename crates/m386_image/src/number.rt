//! Numbers in a file, the lowest byte first.
ghost use Rattle.std.specs.Prelude.{◌≡◌, ◌+◌, ◌≤◌, length};
ghost use Rattle.m386_image.specs.Format.{u16_at, u32_at};

use byteorder::{ByteOrder, LittleEndian};

/// The number of the two bytes from `place` on.
#[tactic(auto, unfolding(crate::specs::Format::u16_at))]
pub fn read_u16(bytes: &[u8], place: usize) -> u16
    requires { place + 2 ≤ length bytes.now }
    ensures { result ≡ u16_at place bytes.now }
{
    LittleEndian::read_u16(&bytes[place..])
}

/// The number of the four bytes from `place` on.
#[tactic(auto, unfolding(crate::specs::Format::u32_at))]
pub fn read_u32(bytes: &[u8], place: usize) -> u32
    requires { place + 4 ≤ length bytes.now }
    ensures { result ≡ u32_at place bytes.now }
{
    LittleEndian::read_u32(&bytes[place..])
}
