//! Spellings in both directions.
mod both_ways;
mod decoding;
mod reading;
mod shortest;
mod wide;

use std::alloc::Global;
use std::test::Fail;

/// The bytes of a text in hexadecimal, between blanks.
fn bytes_of(alloc: Global, text: &str) -> Result<Vec<u8>, Fail> {
    let mut bytes = Vec::new(alloc);
    for word in text.split_whitespace() {
        bytes.push(u8::from_str_radix(word, 16)?)?;
    }
    Ok(bytes)
}
