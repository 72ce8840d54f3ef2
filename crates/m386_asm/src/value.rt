//! Names with their values, and fields.
ghost use Rattle.std.specs.Prelude.{◌≡◌, ℕ, ◌<◌, ◌≤◌, ◌^◌, List, None, OnOk};
ghost use Rattle.m386_opmap.specs.Forms.{width_bits};
ghost use Rattle.m386_words.specs.Seen.{expression_seen};
ghost use Rattle.m386_asm.specs.Bounds.{IsValue};
ghost use Rattle.m386_asm.specs.Knows.{found, first_kept, Knows};
ghost use Rattle.m386_asm.specs.Layout.{Names as NameValues, field_value, is_in_field, is_unknown, value, wrapped};

use crate::named::Named;
use m386_base::fault::NoMemory;
use m386_base::number::Width;
use m386_words::expression::Expression;
use std::alloc::Global;
use std::collections::BTreeMap;

/// The names of a text.
#[derive(Drop)]
pub(crate) struct Names<'a> {
    map: BTreeMap<&'a [u8], Named>,
}

impl<'a> Names<'a> {
    /// No names.
    pub(crate) fn new(alloc: Global) -> Names<'a>
        ensures { (w : List ℕ) → found result w ≡ None }
    {
        Names {
            map: BTreeMap::new(alloc),
        }
    }

    /// What a name is, if a line defines it.
    pub(crate) fn get(&self, word: &[u8]) -> Option<Named>
        ensures { result ≡ found self.now word.now }
    {
        self.map.get(word).copied()
    }

    /// Gives a name to what a line defines, unless an earlier line did.
    pub(crate) fn define(&mut self, word: &'a [u8], named: Named) -> Result<(), NoMemory>
        ensures { OnOk result ((w : List ℕ) → found self.new w ≡ first_kept (found self.old w) word.now named w) }
    {
        if self.get(word).is_none() {
            self.map.insert(word, named)?;
        }
        Ok(())
    }

    /// Whether an expression has a name that no line defines.
    pub(crate) fn lacks(&self, expression: &Expression<'_>) -> bool
        ensures { (ns : NameValues) → Knows self.now ns → result ≡ is_unknown ns (expression_seen expression.now) }
    {
        match expression.name {
            Some(word) => self.get(word).is_none(),
            None => false,
        }
    }

    /// An expression's value, with 0 for a name that no line defines.
    pub(crate) fn value(&self, expression: &Expression<'_>) -> i128
        ensures value { (ns : NameValues) → Knows self.now ns → result ≡ value ns (expression_seen expression.now) }
        ensures bounded { IsValue result }
    {
        let name = match expression.name {
            Some(word) => match self.get(word) {
                Some(named) => named.value,
                None => 0,
            },
            None => 0,
        };
        name + i128::from(expression.number)
    }

    /// An expression's value modulo 2^bits.
    pub(crate) fn field(&self, bits: u8, expression: &Expression<'_>) -> u32
        requires { bits ≤ 32 }
        ensures value { (ns : NameValues) → Knows self.now ns → result ≡ field_value ns bits (expression_seen expression.now) }
        ensures below { result < 2 ^ bits }
    {
        wrapped(bits, self.value(expression))
    }
}

/// How many bits a width has.
pub(crate) fn bits_of(width: Width) -> u8
    ensures exact { result ≡ width_bits width }
    ensures some { 1 ≤ result }
    ensures few { result ≤ 32 }
{
    match width {
        Width::W8 => 8,
        Width::W16 => 16,
        Width::W32 => 32,
    }
}

/// A value modulo 2^bits, of up to 32 bits.
pub(crate) fn wrapped(bits: u8, value: i128) -> u32
    requires { bits ≤ 32 }
    ensures value { result ≡ wrapped bits value }
    ensures below { result < 2 ^ bits }
{
    value.rem_euclid(1 << bits) as u32
}

/// Whether a value is in a field of so many bits: from -2^(bits-1) to 2^bits - 1.
pub(crate) fn is_in_field(bits: u8, value: i128) -> bool
    requires { (1 ≤ bits) × (bits ≤ 32) }
    ensures { result ≡ is_in_field bits value }
{
    -(1 << (bits - 1)) <= value && value < 1 << bits
}
