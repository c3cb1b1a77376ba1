//! What a line asks for.
ghost use Rattle.std.specs.Prelude.{◌≡◌, ◌≤◌, ◌<◌};
ghost use Rattle.live_request.specs.Words.{ended};
ghost use Rattle.live_request.specs.Request as asks;
ghost use Rattle.live_request.specs.Views.{viewed, request_of};
ghost use Rattle.live_request.specs.Rests.{words_left};

use crate::addresses::{Addresses, read_addresses};
use crate::condition::{Conditions, read_conditions};
use crate::number::read_number;
use crate::words::{Rest, end, is_over, next_number, next_word, split_word};
use sim_base::MOST_CYCLES;
use sim_refusals::numbers::{REQUEST_UNKNOWN, REQUEST_WORDS};

/// A line of a script: a value for a part in a cycle, or in that of the live board where none is named.
#[derive(Clone, Copy)]
pub struct Act<'a> {
    pub cycle: Option<u64>,
    pub part: &'a [u8],
    /// Whether a button is pressed or released; else the value is set.
    pub press: bool,
    pub value: u64,
}

/// So many bytes from an address on.
#[derive(Clone, Copy)]
pub struct Bytes {
    pub from: u16,
    pub count: u16,
}

#[derive(Drop)]
pub enum Request<'a> {
    /// Runs up to a cycle, or to the first in which a condition holds.
    Run(u64, Conditions<'a>),
    Act(Act<'a>),
    Level(&'a [u8]),
    Report,
    Wave,
    Core,
    Data(Bytes),
    Flash(Bytes),
    Eeprom(Bytes),
    Mark(Addresses<'a>),
    Unmark(Addresses<'a>),
    Count,
    Counts,
    Light(&'a [u8], Option<&'a [u8]>),
    Lights,
    Prints,
    Displays,
    Omissions,
    Quit,
}

fn run<'a>(rest: Rest<'a>) -> Result<Request<'a>, u8>
    ensures { viewed request_of result ≡ asks.run (words_left rest.entry) }
{
    let (until, rest) = next_number(MOST_CYCLES, rest)?;
    let conditions = read_conditions(rest)?;
    Ok(Request::Run(until, conditions))
}

/// The cycle of a time: a microsecond has 16.
fn time(word: &[u8]) -> Result<u64, u8>
    ensures { viewed (λ n. n) result ≡ asks.time word.now }
{
    if let Some(digits) = word.strip_suffix(b"us") {
        let micros = read_number(MOST_CYCLES / 16, digits)?;
        return Ok(16 * micros);
    }
    match word.strip_suffix(b"cy") {
        Some(digits) => read_number(MOST_CYCLES, digits),
        None => Err(REQUEST_WORDS),
    }
}

fn pressed<'a>(cycle: Option<u64>, value: u64, rest: Rest<'a>) -> Result<Request<'a>, u8>
    ensures { viewed request_of result ≡ asks.pressed cycle value (words_left rest.entry) }
{
    let (part, rest) = next_word(rest)?;
    end(rest)?;
    Ok(Request::Act(Act {
        cycle,
        part,
        press: true,
        value,
    }))
}

fn value_set<'a>(cycle: Option<u64>, rest: Rest<'a>) -> Result<Request<'a>, u8>
    ensures { viewed request_of result ≡ asks.value_set cycle (words_left rest.entry) }
{
    let (part, rest) = next_word(rest)?;
    let (value, rest) = next_number(99_999_999_999_999, rest)?;
    end(rest)?;
    Ok(Request::Act(Act {
        cycle,
        part,
        press: false,
        value,
    }))
}

/// A line of a script after its time, if it has one; another word breaks this rule.
fn acts_by<'a>(rule: u8, cycle: Option<u64>, verb: &[u8], rest: Rest<'a>) -> Result<Request<'a>, u8>
    ensures { viewed request_of result ≡ asks.acts_by rule cycle verb.now (words_left rest.entry) }
{
    if verb == b"press".as_slice() {
        pressed(cycle, 1, rest)
    } else if verb == b"release".as_slice() {
        pressed(cycle, 0, rest)
    } else if verb == b"set".as_slice() {
        value_set(cycle, rest)
    } else {
        Err(rule)
    }
}

/// A line of a script that begins with a time.
fn timed<'a>(word: &[u8], rest: Rest<'a>) -> Result<Request<'a>, u8>
    ensures { viewed request_of result ≡ asks.timed word.now (words_left rest.entry) }
{
    let cycle = time(word)?;
    let (verb, rest) = next_word(rest)?;
    acts_by(REQUEST_WORDS, Some(cycle), verb, rest)
}

/// An address within a room, and a count that stays within it.
fn span(room: u64, rest: Rest<'_>) -> Result<Bytes, u8>
    requires some { 0 < room }
    requires small { room ≤ 32768 }
    ensures { viewed (λ s. s) result ≡ asks.span room (words_left rest.entry) }
{
    let (from, rest) = next_number(room - 1, rest)?;
    let (count, rest) = next_number(room - from, rest)?;
    end(rest)?;
    Ok(Bytes {
        from: from as u16,
        count: count as u16,
    })
}

fn light<'a>(rest: Rest<'a>) -> Result<Request<'a>, u8>
    ensures { viewed request_of result ≡ asks.light (words_left rest.entry) }
{
    let (anode, rest) = next_word(rest)?;
    if is_over(rest) {
        return Ok(Request::Light(anode, None));
    }
    let (cathode, rest) = next_word(rest)?;
    end(rest)?;
    Ok(Request::Light(anode, Some(cathode)))
}

fn level<'a>(rest: Rest<'a>) -> Result<Request<'a>, u8>
    ensures { viewed request_of result ≡ asks.level (words_left rest.entry) }
{
    let (name, rest) = next_word(rest)?;
    end(rest)?;
    Ok(Request::Level(name))
}

/// A request of one word.
fn alone<'a>(request: Request<'a>, rest: Rest<'_>) -> Result<Request<'a>, u8>
    ensures { viewed request_of result ≡ ended (request_of request.entry) (words_left rest.entry) }
{
    end(rest)?;
    Ok(request)
}

/// A request by its first word, which is no time.
fn asked_by<'a>(word: &[u8], rest: Rest<'a>) -> Result<Request<'a>, u8>
    ensures { viewed request_of result ≡ asks.asked_by word.now (words_left rest.entry) }
{
    if word == b"run".as_slice() {
        run(rest)
    } else if word == b"level".as_slice() {
        level(rest)
    } else if word == b"report".as_slice() {
        alone(Request::Report, rest)
    } else if word == b"wave".as_slice() {
        alone(Request::Wave, rest)
    } else if word == b"core".as_slice() {
        alone(Request::Core, rest)
    } else if word == b"data".as_slice() {
        Ok(Request::Data(span(0x0900, rest)?))
    } else if word == b"flash".as_slice() {
        Ok(Request::Flash(span(0x8000, rest)?))
    } else if word == b"eeprom".as_slice() {
        Ok(Request::Eeprom(span(0x0400, rest)?))
    } else if word == b"mark".as_slice() {
        Ok(Request::Mark(read_addresses(rest)?))
    } else if word == b"unmark".as_slice() {
        Ok(Request::Unmark(read_addresses(rest)?))
    } else if word == b"count".as_slice() {
        alone(Request::Count, rest)
    } else if word == b"counts".as_slice() {
        alone(Request::Counts, rest)
    } else if word == b"light".as_slice() {
        light(rest)
    } else if word == b"lights".as_slice() {
        alone(Request::Lights, rest)
    } else if word == b"prints".as_slice() {
        alone(Request::Prints, rest)
    } else if word == b"displays".as_slice() {
        alone(Request::Displays, rest)
    } else if word == b"omissions".as_slice() {
        alone(Request::Omissions, rest)
    } else if word == b"quit".as_slice() {
        alone(Request::Quit, rest)
    } else {
        acts_by(REQUEST_UNKNOWN, None, word, rest)
    }
}

fn begins_with_digit(word: &[u8]) -> bool
    ensures { result ≡ asks.begins_with_digit word.now }
{
    match word {
        [first, ..] => first.is_ascii_digit(),
        [] => false,
    }
}

/// A line without a CR at its end.
fn without_return(line: &[u8]) -> &[u8]
    ensures { result.now ≡ asks.without_return line.now }
{
    match line.strip_suffix(b"\r") {
        Some(front) => front,
        None => line,
    }
}

/// What a line asks for, or the number of the first rule that its form breaks: 100 RequestUnknown, 101 RequestWords or 102
/// RequestNumber. Its words are read from left to right; a CR at its end is no part of it.
pub fn read_request(line: &[u8]) -> Result<Request<'_>, u8>
    ensures { viewed request_of result ≡ asks.request_of line.now }
{
    let (word, rest) = split_word(without_return(line));
    if begins_with_digit(word) {
        timed(word, rest)
    } else {
        asked_by(word, rest)
    }
}
