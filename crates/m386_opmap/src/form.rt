//! The fields of a ModRM or SIB byte.
ghost use Rattle.std.specs.Prelude.{◌≡◌, ◌<◌, ◌≤◌};
ghost use Rattle.m386_opmap.specs.Forms.{top_bits, middle_bits, low, displacement_length, base_of, index_of, scale_of};

/// How many bytes of displacement there are, by mod and the base (PRM 17.2.1, tables 17-3 and 17-4): 0, 1 or 4. With mod 3
/// the ModRM byte names a register, and the answer says nothing.
pub fn displacement_len(mode: u8, base: u8) -> usize
    ensures exact { result ≡ displacement_length mode base }
    ensures few { result ≤ 4 }
{
    match (mode, base) {
        (0, 5) => 4,
        (0, _) => 0,
        (1, _) => 1,
        _ => 4,
    }
}

/// The base register, by mod and the base. With mod 0 a base of 5 is none.
pub(crate) fn base(mode: u8, base: u8) -> Option<u8>
    ensures { result ≡ base_of mode base }
{
    if mode == 0 && base == 5 {
        None
    } else {
        Some(base)
    }
}

/// The index register of a SIB byte. 4 is none.
pub(crate) fn index(sib: u8) -> Option<u8>
    ensures { result ≡ index_of sib }
{
    match sib / 8 % 8 {
        4 => None,
        register => Some(register),
    }
}

/// The scale of a SIB byte, which without an index is 1.
pub(crate) fn scale(sib: u8) -> u8
    ensures { result ≡ scale_of sib }
{
    if sib / 8 % 8 == 4 { 1 } else { 1 << (sib / 64) }
}
