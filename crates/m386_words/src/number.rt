//! Numbers in words.
ghost use Rattle.std.specs.Prelude.{◌≡◌, ◌<◌, ◌≤◌, IfOk};
ghost use Rattle.m386_words.specs.Words.{bytes_of_digits};
ghost use Rattle.m386_words.specs.Words.{digit, numeral, some_digits, within, number_of};

use m386_base::fault::NoMemory;
use m386_base::list::List;
use std::alloc::Global;

/// The value of a digit, hexadecimal ones in either case, and 16 for any other byte.
fn digit(byte: u8) -> u8
    ensures value { result ≡ digit byte }
    ensures small { result ≤ 16 }
{
    match byte {
        b'0'..=b'9' => byte - b'0',
        b'A'..=b'F' => byte - b'A' + 10,
        b'a'..=b'f' => byte - b'a' + 10,
        _ => 16,
    }
}

/// The number that these are the digits of, if it has up to 32 bits.
#[tactic(auto, using(crate::proofs::Numerals::reads))]
fn numeral(base: u8, digits: &[u8]) -> Option<u32>
    requires { base ≤ 16 }
    ensures { result ≡ within (numeral base 0 digits.now) }
{
    let mut value = 0_u32;
    for &byte in digits {
        let digit = digit(byte);
        if digit >= base {
            return None;
        }
        let next = u64::from(base) * u64::from(value) + u64::from(digit);
        if next >= 1 << 32 {
            return None;
        }
        value = next as u32;
    }
    Some(value)
}

/// The number of digits, of which there must be one.
fn some_digits(base: u8, digits: &[u8]) -> Option<u32>
    requires { base ≤ 16 }
    ensures { result ≡ within (some_digits base digits.now) }
{
    if digits.is_empty() {
        return None;
    }
    numeral(base, digits)
}

/// The number of a word, if it is one: `0`, or decimal digits without a leading zero, or `0x` and hexadecimal digits, of up to 32
/// bits.
#[tactic(auto, unfolding(crate::specs::Words::number_of))]
pub fn number(word: &[u8]) -> Option<u32>
    ensures { result ≡ number_of word.now }
{
    match word {
        [] => None,
        [b'0', b'x', digits @ ..] => some_digits(16, digits),
        [b'0', _, ..] => None,
        _ => numeral(10, word),
    }
}

/// The bytes of hexadecimal digits, two for each, or None where a byte is no digit or one is left over.
#[tactic(auto, using(crate::proofs::Pairs::pairs))]
pub fn hex_bytes(alloc: Global, word: &[u8]) -> Result<Option<List<u8>>, NoMemory>
    ensures { IfOk result (λ bytes. bytes ≡ bytes_of_digits word.now) }
{
    let mut bytes = List::new(alloc);
    let mut rest = word;
    while rest.len() >= 2 {
        let (pair, behind) = rest.split_at(2);
        let high = digit(pair[0]);
        let low = digit(pair[1]);
        if high >= 16 {
            return Ok(None);
        }
        if low >= 16 {
            return Ok(None);
        }
        bytes.push(16 * high + low)?;
        rest = behind;
    }
    if rest.is_empty() {
        Ok(Some(bytes))
    } else {
        Ok(None)
    }
}
