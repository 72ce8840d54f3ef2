//! A source over bytes in memory.
ghost use Rattle.std.specs.Prelude.{◌≡◌};

use crate::source::ByteSource;
use m386_base::fault::{Break, Stop};
use std::marker::Model;

/// A source that gives listed bytes, and then pauses. No newer row counts.
#[derive(Debug, Drop)]
pub struct SliceSource<'a> {
    left: &'a [u8],
}

impl<'a> Model for SliceSource<'a> {
    ghost use Rattle.std.specs.Prelude.{ℕ, List};

    ghost Value = { List ℕ };

    ghost view = { λ s. s.left.now };
}

impl<'a> SliceSource<'a> {
    /// A source of these bytes.
    pub fn new(bytes: &'a [u8]) -> SliceSource<'a>
        ensures { result ≡ bytes.now }
    {
        SliceSource { left: bytes }
    }

    /// The bytes not yet given.
    pub fn left(&self) -> &'a [u8]
        ensures { result.now ≡ self.now }
    {
        self.left
    }
}

impl<'a> ByteSource for SliceSource<'a> {
    ghost use Rattle.std.specs.Prelude.{◌≡◌, ◌++◌, ◌∷◌, [], false, refl, IfOk, IfErr};
    ghost use Rattle.m386_decode.specs.Slices.{SliceBroke, slice_gave_more};

    ghost counts_newer = { λ s. false };

    ghost gave = { λ s t bytes. s ≡ bytes ++ t };

    ghost broke = { λ s t b. SliceBroke s t b };

    ghost gave_nothing = { λ s. refl };

    ghost gave_more = { λ s t u bytes more first then. slice_gave_more s t u bytes more first then };

    fn next(&mut self) -> Result<u8, Break>
        ensures gave { IfOk result (λ byte. self.old ≡ (byte ∷ []) ++ self.new) }
        ensures broke { IfErr result (λ b. SliceBroke self.old self.new b) }
    {
        let [byte, rest @ ..] = self.left else {
            return Err(Break::Stop(Stop::Paused));
        };
        self.left = rest;
        Ok(*byte)
    }

    fn newer(&self) -> bool {
        false
    }
}
