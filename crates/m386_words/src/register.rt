//! Registers.
ghost use Rattle.std.specs.Prelude.{◌≡◌};
ghost use Rattle.m386_base.specs.declared.number.Width.TheVariants.{W8, W16, W32};
ghost use Rattle.m386_words.specs.Words.{segment_of, register_of};

use m386_base::number::Width;

/// The number of a segment register: ES 0, CS 1, SS 2, DS 3, FS 4, GS 5.
#[tactic(auto, unfolding(crate::specs::Words::place_among))]
pub fn segment(word: &[u8]) -> Option<u8>
    ensures { result ≡ segment_of word.now }
{
    if word == b"es".as_slice() {
        return Some(0);
    }
    if word == b"cs".as_slice() {
        return Some(1);
    }
    if word == b"ss".as_slice() {
        return Some(2);
    }
    if word == b"ds".as_slice() {
        return Some(3);
    }
    if word == b"fs".as_slice() {
        return Some(4);
    }
    if word == b"gs".as_slice() {
        return Some(5);
    }
    None
}

/// The number of a register of 32 bits.
#[tactic(auto, unfolding(crate::specs::Words::place_among))]
fn register_32(word: &[u8]) -> Option<u8>
    ensures { result ≡ register_of W32 word.now }
{
    if word == b"eax".as_slice() {
        return Some(0);
    }
    if word == b"ecx".as_slice() {
        return Some(1);
    }
    if word == b"edx".as_slice() {
        return Some(2);
    }
    if word == b"ebx".as_slice() {
        return Some(3);
    }
    if word == b"esp".as_slice() {
        return Some(4);
    }
    if word == b"ebp".as_slice() {
        return Some(5);
    }
    if word == b"esi".as_slice() {
        return Some(6);
    }
    if word == b"edi".as_slice() {
        return Some(7);
    }
    None
}

/// The number of a register of 16 bits.
#[tactic(auto, unfolding(crate::specs::Words::place_among))]
fn register_16(word: &[u8]) -> Option<u8>
    ensures { result ≡ register_of W16 word.now }
{
    if word == b"ax".as_slice() {
        return Some(0);
    }
    if word == b"cx".as_slice() {
        return Some(1);
    }
    if word == b"dx".as_slice() {
        return Some(2);
    }
    if word == b"bx".as_slice() {
        return Some(3);
    }
    if word == b"sp".as_slice() {
        return Some(4);
    }
    if word == b"bp".as_slice() {
        return Some(5);
    }
    if word == b"si".as_slice() {
        return Some(6);
    }
    if word == b"di".as_slice() {
        return Some(7);
    }
    None
}

/// The number of a register of 8 bits.
#[tactic(auto, unfolding(crate::specs::Words::place_among))]
fn register_8(word: &[u8]) -> Option<u8>
    ensures { result ≡ register_of W8 word.now }
{
    if word == b"al".as_slice() {
        return Some(0);
    }
    if word == b"cl".as_slice() {
        return Some(1);
    }
    if word == b"dl".as_slice() {
        return Some(2);
    }
    if word == b"bl".as_slice() {
        return Some(3);
    }
    if word == b"ah".as_slice() {
        return Some(4);
    }
    if word == b"ch".as_slice() {
        return Some(5);
    }
    if word == b"dh".as_slice() {
        return Some(6);
    }
    if word == b"bh".as_slice() {
        return Some(7);
    }
    None
}

/// The number of a general register of a width: EAX 0, ECX 1, EDX 2, EBX 3, ESP 4, EBP 5, ESI 6, EDI 7, with 8 bits AL, CL, DL,
/// BL, AH, CH, DH, BH.
pub fn register(width: Width, word: &[u8]) -> Option<u8>
    ensures { result ≡ register_of width word.now }
{
    match width {
        Width::W8 => register_8(word),
        Width::W16 => register_16(word),
        Width::W32 => register_32(word),
    }
}
