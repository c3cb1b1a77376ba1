//! Rows of the encoding: a word and the one after it, how many words the instruction has, and the instruction.
use crate::words::word;
use avr_isa::{decode, words};
use std::alloc::{AllocError, Global};

/// What a row comes out with otherwise.
pub fn encoding_difference(alloc: Global, line: &str) -> Option<&'static str> {
    match decoded(alloc, line) {
        Ok(Some(made)) if made.as_str() == line => None,
        Ok(Some(_)) => Some("another instruction"),
        Ok(None) => Some("other words"),
        Err(AllocError) => Some("less memory"),
    }
}

/// The row of the words that a row begins with.
fn decoded(alloc: Global, line: &str) -> Result<Option<String>, AllocError> {
    let (w0, rest) = line.split_once(' ').unwrap_or((line, ""));
    let (w1, _) = rest.split_once(' ').unwrap_or((rest, ""));
    match (word(w0), word(w1)) {
        (Some(w0), Some(w1)) => {
            let instr = decode(w0, w1);
            let count = words(instr);
            Ok(Some(format!(in alloc; "{w0:04X} {w1:04X} {count} {instr:?}")?))
        }
        _ => Ok(None),
    }
}
