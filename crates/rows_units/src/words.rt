//! The words of a row.

/// A byte of two hexadecimal digits.
pub fn byte(text: &str) -> Option<u8> {
    u8::from_str_radix(text, 16).ok()
}

/// A word of four hexadecimal digits.
pub fn word(text: &str) -> Option<u16> {
    u16::from_str_radix(text, 16).ok()
}
