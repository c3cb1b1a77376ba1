//! The text of a row.
use std::alloc::{AllocError, Global};

/// The bytes that a row gives: `\n`, `\r`, `\t` and `\xC3` are bytes, and `*4096 FIRST + REST` is 4,096 times FIRST and
/// then REST.
pub fn text_of(alloc: Global, text: &str) -> Result<Vec<u8>, AllocError> {
    let mut bytes = Vec::new(alloc);
    push_all(&mut bytes, text)?;
    Ok(bytes)
}

fn push_all(bytes: &mut Vec<u8>, text: &str) -> Result<(), AllocError> {
    match text.strip_prefix('*') {
        Some(repeated) => push_repeated(bytes, repeated),
        None => push_text(bytes, text),
    }
}

fn push_repeated(bytes: &mut Vec<u8>, text: &str) -> Result<(), AllocError> {
    let (count, repeated) = text.split_once(' ').unwrap_or((text, ""));
    let (first, rest) = repeated.split_once(" + ").unwrap_or((repeated, ""));
    for _ in 0..count.parse::<u16>().unwrap_or(0) {
        push_text(bytes, first)?;
    }
    push_text(bytes, rest)
}

fn push_text(bytes: &mut Vec<u8>, text: &str) -> Result<(), AllocError> {
    let mut parts = text.split('\\');
    if let Some(part) = parts.next() {
        bytes.extend_from_slice(part.as_bytes())?;
    }
    for part in parts {
        push_escaped(bytes, part)?;
    }
    Ok(())
}

/// The byte that a backslash before a text escapes, and the text after it.
fn escaped(part: &str) -> Option<(u8, &str)> {
    let (letter, rest) = part.split_at_checked(1)?;
    match letter {
        "n" => Some((b'\n', rest)),
        "r" => Some((b'\r', rest)),
        "t" => Some((b'\t', rest)),
        "x" => {
            let (digits, rest) = rest.split_at_checked(2).unwrap_or((rest, ""));
            Some((u8::from_str_radix(digits, 16).unwrap_or(0), rest))
        }
        _ => None,
    }
}

fn push_escaped(bytes: &mut Vec<u8>, part: &str) -> Result<(), AllocError> {
    if let Some((byte, rest)) = escaped(part) {
        bytes.push(byte)?;
        bytes.extend_from_slice(rest.as_bytes())?;
    }
    Ok(())
}

/// The bytes as text, or the empty text.
pub fn str_of(bytes: &[u8]) -> &str {
    std::str::from_utf8(bytes).unwrap_or("")
}
