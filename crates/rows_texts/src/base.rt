//! Rows of the lowest types: which levels read as 1, refusals by their numbers, names and texts.
use crate::answer::Answer;
use crate::row::str_of;
use sim_base::{Level, Name, OutOfMemory, Text, reads_one};
use sim_refusals::refusal_name;
use std::alloc::Global;

/// - `reads WIPED`: what an input reads on a wiper at a position; `reads High` and its like
/// - `refusal NUMBER`: its name
/// - `name TEXT`, `text BYTES`: that text
pub fn base_answer(alloc: Global, made: &mut Answer, bytes: &[u8]) {
    let (word, rest) = split(bytes);
    match str_of(word) {
        "reads" => made.tell(reads(str_of(rest))),
        "refusal" => made.tell(refusal(str_of(rest))),
        "name" => tell_name(made, str_of(rest)),
        "text" => tell_text(alloc, made, rest),
        _ => made.tell("none"),
    }
}

/// The first word, and what is after its blank.
pub fn split(bytes: &[u8]) -> (&[u8], &[u8]) {
    for i in 0..bytes.len() {
        if bytes[i] == b' ' {
            return (&bytes[..i], &bytes[i + 1..]);
        }
    }
    (bytes, &[])
}

fn reads(level: &str) -> &'static str {
    let level = match level {
        "Low" => Level::Low,
        "High" => Level::High,
        "X" => Level::X,
        "Z" => Level::Z,
        position => Level::Wiped(position.parse::<u16>().unwrap_or(0)),
    };
    if reads_one(level) { "1" } else { "0" }
}

fn refusal(number: &str) -> &'static str {
    let name = refusal_name(number.parse::<u8>().unwrap_or(0));
    if name.is_empty() { "none" } else { name }
}

fn tell_name(made: &mut Answer, text: &str) {
    match Name::read(text) {
        Some(name) => made.tell(name.as_str()),
        None => made.tell("none"),
    }
}

fn tell_text(alloc: Global, made: &mut Answer, bytes: &[u8]) {
    match Text::read(alloc, bytes) {
        Ok(Some(text)) => made.tell(text.as_str()),
        Ok(None) => made.tell("none"),
        Err(OutOfMemory) => made.run_out(),
    }
}
