//! What a row asks for next.
use crate::words::number_at;
use std::alloc::{AllocError, Global};

#[derive(Drop)]
pub enum Step {
    /// `set ADDRESS HEX`: bytes for the memory.
    Set(u32, Vec<u8>),
    /// `bytes ADDRESS COUNT`: bytes of the memory.
    Bytes(u32, u32),
    /// `console`: how many bytes were printed, and the first and the last eight of them.
    Console,
    /// `pixels`: all bytes of the display.
    Pixels,
    /// A host call by its name; `late` before it: after the chip was set up.
    Write([u32; 4]),
    Status(u32, u32),
    Seek(u32),
    Close(u32),
    Init(bool, u32, u32),
    Draw([u32; 4]),
    ReadBack([u32; 4]),
    Unknown,
}

/// The bytes that hexadecimal digits give.
fn bytes_of(alloc: Global, digits: &str) -> Result<Vec<u8>, AllocError> {
    let mut bytes = Vec::new(alloc);
    for pair in digits.as_bytes().chunks(2) {
        let text = std::str::from_utf8(pair).unwrap_or("");
        bytes.push(u8::from_str_radix(text, 16).unwrap_or(0))?;
    }
    Ok(bytes)
}

fn four(words: &[&str]) -> [u32; 4] {
    [
        number_at(words, 1),
        number_at(words, 2),
        number_at(words, 3),
        number_at(words, 4),
    ]
}

/// The step that a text asks for.
pub fn read_step(alloc: Global, text: &str) -> Result<Step, AllocError> {
    let words: Vec<&str> = text.split_whitespace().collect(alloc)?;
    let words = words.as_slice();
    let one = number_at(words, 1);
    let two = number_at(words, 2);
    match words {
        ["set", _, digits] => Ok(Step::Set(one, bytes_of(alloc, digits)?)),
        ["bytes", ..] => Ok(Step::Bytes(one, two)),
        ["console"] => Ok(Step::Console),
        ["pixels"] => Ok(Step::Pixels),
        ["fd_write", ..] => Ok(Step::Write(four(words))),
        ["fd_fdstat_get", ..] => Ok(Step::Status(one, two)),
        ["fd_seek", ..] => Ok(Step::Seek(one)),
        ["fd_close", ..] => Ok(Step::Close(one)),
        ["framebufferInit", ..] => Ok(Step::Init(true, one, two)),
        ["late", ..] => Ok(Step::Init(false, two, number_at(words, 3))),
        ["bufferWrite", ..] => Ok(Step::Draw(four(words))),
        ["bufferRead", ..] => Ok(Step::ReadBack(four(words))),
        _ => Ok(Step::Unknown),
    }
}
