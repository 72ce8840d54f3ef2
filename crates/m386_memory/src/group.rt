//! The four bytes of an aligned group, in and out of the bytes of one space.
ghost use Rattle.std.specs.Prelude.{◌≡◌, slice_index_or, slice_set, if◌then◌else◌};
ghost use Rattle.m386_base.specs.Bus.{IsEnabled};
ghost use Rattle.m386_memory.specs.Contents.{group_of, value_from, group_bytes, with_bytes, Stand};

/// The byte at a place, and `beyond` where the place lies past the end.
fn byte_at(bytes: &[u8], place: usize, beyond: u8) -> u8
    ensures { result ≡ slice_index_or bytes.now place beyond }
{
    if place < bytes.len() {
        bytes[place]
    } else {
        beyond
    }
}

/// The value of an aligned group of these four bytes, with zeros for those that aren't enabled.
fn value(enables: u8, b0: u8, b1: u8, b2: u8, b3: u8) -> u32
    ensures { result ≡ value_from enables b0 b1 b2 b3 }
{
    let part_0 = if enables & 1 == 0 { 0 } else { u32::from(b0) };
    let part_1 = if enables & 2 == 0 {
        0
    } else {
        u32::from(b1) << 8
    };
    let part_2 = if enables & 4 == 0 {
        0
    } else {
        u32::from(b2) << 16
    };
    let part_3 = if enables & 8 == 0 {
        0
    } else {
        u32::from(b3) << 24
    };
    part_0 + part_1 + part_2 + part_3
}

/// The enabled bytes of the aligned group at `addr`, the lowest place lowest, with zeros in the others. Past the end each byte
/// is `beyond`. Bits 4 to 7 of `enables` say nothing.
pub(crate) fn read(bytes: &[u8], beyond: u8, addr: u32, enables: u8) -> u32
    ensures value { result ≡ group_of (λ a. slice_index_or bytes.now a beyond) addr enables }
    ensures enabled { IsEnabled enables result }
    ensures bytes { Stand (λ a. slice_index_or bytes.now a beyond) (group_bytes addr enables result) }
{
    let at = addr as usize;
    let byte_0 = byte_at(bytes, at, beyond);
    let byte_1 = byte_at(bytes, at + 1, beyond);
    let byte_2 = byte_at(bytes, at + 2, beyond);
    let byte_3 = byte_at(bytes, at + 3, beyond);
    value(enables, byte_0, byte_1, byte_2, byte_3)
}

/// Puts a byte at a place, where it is to be put and the place lies before the end.
fn put(bytes: &mut [u8], enabled: bool, place: usize, byte: u8)
    ensures { bytes.new ≡ (if enabled then slice_set bytes.old place byte else bytes.old) }
{
    if enabled && place < bytes.len() {
        bytes[place] = byte;
    }
}

/// Puts the enabled bytes of a value at the places of the aligned group at `addr`, the lowest byte first. What lies past the
/// end is lost. Bits 4 to 7 of `enables` say nothing.
pub(crate) fn write(bytes: &mut [u8], addr: u32, enables: u8, value: u32)
    ensures { bytes.new ≡ with_bytes bytes.old (group_bytes addr enables value) }
{
    let at = addr as usize;
    put(bytes, enables & 8 != 0, at + 3, (value >> 24 & 0xff) as u8);
    put(bytes, enables & 4 != 0, at + 2, (value >> 16 & 0xff) as u8);
    put(bytes, enables & 2 != 0, at + 1, (value >> 8 & 0xff) as u8);
    put(bytes, enables & 1 != 0, at, (value & 0xff) as u8);
}
