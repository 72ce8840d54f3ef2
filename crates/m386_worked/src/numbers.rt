//! Numbers of a text, in hexadecimal digits.

/// A number of up to 32 bits.
pub fn number(digits: &str) -> Option<u32> {
    u32::from_str_radix(digits, 16).ok()
}

/// A number of up to 16 bits.
pub fn half(digits: &str) -> Option<u16> {
    u16::from_str_radix(digits, 16).ok()
}

/// A number of up to 8 bits.
pub fn byte(digits: &str) -> Option<u8> {
    u8::from_str_radix(digits, 16).ok()
}
