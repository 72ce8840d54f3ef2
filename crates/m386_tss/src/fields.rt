//! The fields of a task state segment.
ghost use Rattle.std.specs.Prelude.{◌≡◌, ℕ, ◌+◌, ◌<◌, ◌≤◌, ◌⊎◌, All, AllPairs, map};
ghost use Rattle.m386_tss.specs.Fields.{field_table, field_at, EndsBefore, IsInside, numbers_from};

/// One field of a task state segment (PRM 7.1).
#[derive(Clone, Copy, Debug, Default, PartialEq, Eq)]
pub struct Field {
    /// Its number, 0 to 26.
    pub number: u8,
    /// Where its first byte stands in the segment.
    pub offset: u8,
    /// Its length in bytes, 2 or 4.
    pub len: u8,
}

/// The number of bytes that a task state segment has for its fields.
pub const TSS_LEN: u32 = 104;

/// The back link: the selector of the task that this one goes back to.
pub const LINK: u8 = 0;
/// The stack pointer of level 0. That of level n has the number `ESP0 + 2 * n`.
pub const ESP0: u8 = 1;
/// The stack segment of level 0. That of level n has the number `SS0 + 2 * n`.
pub const SS0: u8 = 2;
/// The instruction pointer.
pub const EIP: u8 = 8;
/// The flags.
pub const EFLAGS: u8 = 9;
/// The first of the eight general registers.
pub const EAX: u8 = 10;
/// The first of the six segment registers.
pub const ES: u8 = 18;
/// The selector of the local descriptor table.
pub const LDT: u8 = 24;
/// The word that has the T bit as its bit 0.
pub const TRAP: u8 = 25;
/// The offset of the I/O permission map in the segment.
pub const MAP: u8 = 26;

macro_rules! fields {
    ($($number:literal $offset:literal $len:literal;)*) => {
        [$(Field { number: $number, offset: $offset, len: $len }),*]
    };
}

/// The fields, each at the place of its number.
pub const FIELDS: [Field; 27] = fields![
    0 0x00 2;
    1 0x04 4;
    2 0x08 2;
    3 0x0c 4;
    4 0x10 2;
    5 0x14 4;
    6 0x18 2;
    7 0x1c 4;
    8 0x20 4;
    9 0x24 4;
    10 0x28 4;
    11 0x2c 4;
    12 0x30 4;
    13 0x34 4;
    14 0x38 4;
    15 0x3c 4;
    16 0x40 4;
    17 0x44 4;
    18 0x48 2;
    19 0x4c 2;
    20 0x50 2;
    21 0x54 2;
    22 0x58 2;
    23 0x5c 2;
    24 0x60 2;
    25 0x64 2;
    26 0x66 2;
];

/// The table is the manual's, its numbers rise by one from 0, and its fields stand in rising order, don't overlap and lie
/// in the 104 bytes.
pub fn fields_are_laid_out()
    ensures table { FIELDS ≡ field_table }
    ensures numbers { map (λ f. f.number) FIELDS ≡ numbers_from 0 27 }
    ensures apart { AllPairs EndsBefore FIELDS }
    ensures inside { All IsInside FIELDS }
{}

/// The field of a number below 27.
pub fn tss_field(number: u8) -> Field
    requires { number < 27 }
    ensures exact { result ≡ field_at number }
    ensures number { result.number ≡ number }
    ensures inside { result.offset + result.len ≤ TSS_LEN }
    ensures len { (result.len ≡ 2) ⊎ (result.len ≡ 4) }
{
    entry(number)
}

/// The entry of the table at this place.
#[tactic(auto, unfolding(crate::specs::Fields::field_at))]
fn entry(number: u8) -> Field
    requires { number < 27 }
    ensures { result ≡ field_at number }
{
    FIELDS[number as usize]
}
