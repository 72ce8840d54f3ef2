//! The rows of a table from an opcode on, by counts of the rows below it.
ghost use Rattle.std.specs.Prelude.{◌≡◌, ◌+◌, ◌≤◌, length, drop};
ghost use Rattle.m386_opmap.specs.Rows.{counts_from, rows_from};

use crate::row::Row;

/// Rows, and for each opcode how many of them end below it. A search for an opcode passes over that many.
#[derive(Clone, Copy)]
pub struct Lookup<'a> {
    /// The rows.
    pub rows: &'a [Row],
    /// The counts for the opcodes of one byte.
    pub below: &'a [u16; 256],
    /// The counts for the opcodes 0Fh xx.
    pub escaped_below: &'a [u16; 256],
    pub ghost counted: { below.now ≡ counts_from 0 256 rows.now },
    pub ghost escaped_counted: { escaped_below.now ≡ counts_from 0xf00 256 rows.now },
}

/// The rows behind so many of them.
fn behind(rows: &[Row], count: u16) -> &[Row]
    requires { count ≤ length rows.now }
    ensures { result.now ≡ drop count rows.now }
{
    &rows[usize::from(count)..]
}

impl<'a> Lookup<'a> {
    /// The rows from an opcode of one byte on.
    pub fn from_byte(&self, byte: u8) -> &'a [Row]
        ensures { result.now ≡ rows_from byte self.now.rows.now }
    {
        behind(self.rows, self.below[usize::from(byte)])
    }

    /// The rows from an opcode 0Fh xx on, by its second byte.
    pub fn from_second_byte(&self, byte: u8) -> &'a [Row]
        ensures { result.now ≡ rows_from (0xf00 + byte) self.now.rows.now }
    {
        behind(self.rows, self.escaped_below[usize::from(byte)])
    }
}
