//! Names, and the words of a name's form that are none.
ghost use Rattle.std.specs.Prelude.{◌≡◌};
ghost use Rattle.std.specs.List.{list_all};
ghost use Rattle.m386_words.specs.Words.{size_word, is_control, is_reserved, is_name_byte, is_name};

use crate::register::{register, segment};
use m386_base::number::Width;

/// A word that may stand before memory.
#[derive(Clone, Copy, Debug, PartialEq, Eq)]
pub enum SizeWord {
    /// `byte`: 8 bits.
    Byte,
    /// `word`: 16 bits.
    Word,
    /// `dword`: 32 bits.
    Double,
    /// `far`: a far pointer.
    Far,
}

/// The word that may stand before memory, if it is one.
pub fn size_word(word: &[u8]) -> Option<SizeWord>
    ensures { result ≡ size_word word.now }
{
    if word == b"byte".as_slice() {
        return Some(SizeWord::Byte);
    }
    if word == b"word".as_slice() {
        return Some(SizeWord::Word);
    }
    if word == b"dword".as_slice() {
        return Some(SizeWord::Double);
    }
    if word == b"far".as_slice() {
        return Some(SizeWord::Far);
    }
    None
}

/// Whether a word is CR0.
pub fn is_control(word: &[u8]) -> bool
    ensures { result ≡ is_control word.now }
{
    word == b"cr0".as_slice()
}

/// Whether a word has the form of a name, and is none: a register, or a word that stands before memory.
fn is_reserved(word: &[u8]) -> bool
    ensures { result ≡ is_reserved word.now }
{
    register(Width::W32, word).is_some()
        || register(Width::W16, word).is_some()
        || register(Width::W8, word).is_some()
        || segment(word).is_some()
        || size_word(word).is_some()
        || is_control(word)
}

/// Whether a byte may stand in a name.
fn is_name_byte(byte: u8) -> bool
    ensures { result ≡ is_name_byte byte }
{
    matches!(byte, b'A'..=b'Z' | b'a'..=b'z' | b'0'..=b'9' | b'_')
}

/// Whether each byte may stand in a name.
fn has_name_bytes(word: &[u8]) -> bool
    ensures { result ≡ list_all is_name_byte word.now }
{
    word.iter().all(|&byte| is_name_byte(byte))
}

/// Whether a word is a name: a letter or `_`, then letters, digits and `_`, and neither a register nor a word before memory.
#[tactic(auto, unfolding(crate::specs::Words::is_name))]
pub fn is_name(word: &[u8]) -> bool
    ensures { result ≡ is_name word.now }
{
    let [first, ..] = word else {
        return false;
    };
    !first.is_ascii_digit() && has_name_bytes(word) && !is_reserved(word)
}
