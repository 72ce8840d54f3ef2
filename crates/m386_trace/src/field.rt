//! The fields of a line, each appended behind a space.
ghost use Rattle.std.specs.Prelude.{◌≡◌, ◌+◌, ◌*◌, ◌<◌, ◌≤◌, ◌++◌, ◌∷◌, [], length, decimal, IsAscii};
ghost use Rattle.arrayvec.specs.ArrayString.{array_string_len};
ghost use Rattle.hex.specs.Hex.{encode_lower};
ghost use Rattle.m386_trace.specs.Line.{spaced, hex1, hex2, hex4, hex8};

use arrayvec::ArrayString;
use itoa::Buffer;
use std::str;

/// Appends a word.
#[tactic(auto, unfolding(crate::specs::Line::spaced))]
pub(crate) fn push_word<const CAP: usize>(line: &mut ArrayString<CAP>, word: &str)
    requires { array_string_len line.old + 1 + length word.now ≤ CAP }
    ensures bytes { line.new.bytes ≡ line.old.bytes ++ spaced (word.now ∷ []) }
    ensures len { array_string_len line.new ≡ array_string_len line.old + 1 + length word.now }
{
    line.push_str(" ");
    line.push_str(word);
}

/// Appends bytes that are ASCII.
pub(crate) fn push_ascii<const CAP: usize>(line: &mut ArrayString<CAP>, bytes: &[u8])
    requires ascii { IsAscii bytes.now }
    requires room { array_string_len line.old + length bytes.now ≤ CAP }
    ensures bytes { line.new.bytes ≡ line.old.bytes ++ bytes.now }
    ensures len { array_string_len line.new ≡ array_string_len line.old + length bytes.now }
{
    match str::from_utf8(bytes) {
        Ok(text) => line.push_str(text),
        Err(_) => unreachable!(),
    }
}

/// Appends bytes in hexadecimal digits, of which `digits` has the room.
fn push_bytes<const CAP: usize>(line: &mut ArrayString<CAP>, bytes: &[u8], digits: &mut [u8])
    requires digits { length digits.old ≡ 2 * length bytes.now }
    requires room { array_string_len line.old + 1 + 2 * length bytes.now ≤ CAP }
    ensures bytes { line.new.bytes ≡ line.old.bytes ++ spaced (encode_lower bytes.now ∷ []) }
    ensures len { array_string_len line.new ≡ array_string_len line.old + 1 + 2 * length bytes.now }
{
    match hex::encode_to_slice(bytes, digits) {
        Ok(()) => {
            line.push_str(" ");
            push_ascii(line, digits);
        }
        Err(_) => unreachable!(),
    }
}

/// Appends a number of 32 bits in eight hexadecimal digits.
#[tactic(auto, unfolding(crate::specs::Line::hex8))]
pub(crate) fn push_hex8<const CAP: usize>(line: &mut ArrayString<CAP>, number: u32)
    requires { array_string_len line.old + 9 ≤ CAP }
    ensures bytes { line.new.bytes ≡ line.old.bytes ++ spaced (hex8 number ∷ []) }
    ensures len { array_string_len line.new ≡ array_string_len line.old + 9 }
{
    push_bytes(line, &number.to_be_bytes(), &mut [0; 8]);
}

/// Appends a number of 16 bits in four hexadecimal digits.
#[tactic(auto, unfolding(crate::specs::Line::hex4))]
pub(crate) fn push_hex4<const CAP: usize>(line: &mut ArrayString<CAP>, number: u16)
    requires { array_string_len line.old + 5 ≤ CAP }
    ensures bytes { line.new.bytes ≡ line.old.bytes ++ spaced (hex4 number ∷ []) }
    ensures len { array_string_len line.new ≡ array_string_len line.old + 5 }
{
    push_bytes(line, &number.to_be_bytes(), &mut [0; 4]);
}

/// Appends a number of 8 bits in two hexadecimal digits.
#[tactic(auto, unfolding(crate::specs::Line::hex2))]
pub(crate) fn push_hex2<const CAP: usize>(line: &mut ArrayString<CAP>, number: u8)
    requires { array_string_len line.old + 3 ≤ CAP }
    ensures bytes { line.new.bytes ≡ line.old.bytes ++ spaced (hex2 number ∷ []) }
    ensures len { array_string_len line.new ≡ array_string_len line.old + 3 }
{
    push_bytes(line, &[number], &mut [0; 2]);
}

/// The hexadecimal digits, in lower case.
const DIGITS: [u8; 16] = *b"0123456789abcdef";

/// A number of 4 bits as one hexadecimal digit.
#[tactic(auto, unfolding(crate::specs::Line::hex1))]
pub(crate) fn digit_of(number: u8) -> u8
    requires { number < 16 }
    ensures { result ∷ [] ≡ hex1 number }
{
    DIGITS[number as usize]
}

/// A number of 32 bits as eight hexadecimal digits.
#[tactic(auto, unfolding(crate::specs::Line::hex8))]
pub(crate) fn digits_of(number: u32) -> [u8; 8]
    ensures { result ≡ hex8 number }
{
    let mut digits = [0; 8];
    match hex::encode_to_slice(number.to_be_bytes().as_slice(), &mut digits) {
        Ok(()) => digits,
        Err(_) => unreachable!(),
    }
}

/// Appends a number in decimal.
pub(crate) fn push_decimal<const CAP: usize>(line: &mut ArrayString<CAP>, number: u64)
    requires { array_string_len line.old + 21 ≤ CAP }
    ensures bytes { line.new.bytes ≡ line.old.bytes ++ spaced (decimal number ∷ []) }
    ensures len { array_string_len line.new ≤ array_string_len line.old + 21 }
    ensures digit { number < 10 → array_string_len line.new ≡ array_string_len line.old + 2 }
{
    let mut buffer = Buffer::new();
    push_word(line, buffer.format(number));
}
