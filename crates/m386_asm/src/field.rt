//! A number of a line with the bits of its field.
ghost use Rattle.std.specs.Prelude.{◌≤◌};

use m386_words::expression::Expression;

/// A number of a line, with the bits of its field.
#[derive(Clone, Copy, Debug)]
pub(crate) struct Field<'a> {
    /// How many bits the field has.
    pub(crate) bits: u8,
    /// The number.
    pub(crate) value: Expression<'a>,
    /// A field has up to 32 bits.
    pub(crate) ghost sized: { (1 ≤ bits) × (bits ≤ 32) },
}
