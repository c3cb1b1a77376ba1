//! What a run may wait for.
ghost use Rattle.std.specs.Prelude.{◌≡◌, map};
ghost use Rattle.live_request.specs.Condition.{level_word, level_is, edge, sent, stored, condition_by, condition, conditions};
ghost use Rattle.live_request.specs.Views.{viewed, condition_of};
ghost use Rattle.live_request.specs.Rests.{words_left};

use crate::words::{Rest, is_over, next_number, next_word};
use arrayvec::ArrayVec;
use sim_base::MOST_CYCLES;
use sim_refusals::numbers::{REQUEST_NUMBER, REQUEST_WORDS};

/// How many conditions a run may have.
const MOST_CONDITIONS: usize = 16;

/// The data addresses of SRAM, from the first up to the one after the last.
const SRAM_START: u64 = 0x0100;

const SRAM_END: u64 = 0x0900;

/// What holds of a cycle, or does not.
#[derive(Clone, Copy)]
pub enum Condition<'a> {
    /// A variable of the wave, by its name, has this value: `0`, `1`, `z` or `x`.
    Level(&'a [u8], u8),
    /// A variable of the wave has another value than in the cycle before.
    Edge(&'a [u8]),
    /// The Uno has sent at least so many bytes.
    Sent(u64),
    /// The core begins an instruction, and enters no interrupt.
    Begins,
    /// It begins one at a marked address.
    Marked,
    /// Of so many bytes of SRAM from a data address on, one is another than when the run was asked for.
    Stored(u16, u16),
    /// The core is halted.
    Halted,
    /// A chip was ended by a trap.
    Trapped,
}

impl<'a> Default for Condition<'a> {
    fn default() -> Condition<'a> {
        Condition::Begins
    }
}

/// The conditions of a run, in their order.
pub type Conditions<'a> = ArrayVec<Condition<'a>, MOST_CONDITIONS>;

fn level(word: &[u8]) -> Result<u8, u8>
    ensures { viewed (λ v. v) result ≡ level_word word.now }
{
    if word == b"0".as_slice() {
        Ok(b'0')
    } else if word == b"1".as_slice() {
        Ok(b'1')
    } else if word == b"x".as_slice() {
        Ok(b'x')
    } else if word == b"z".as_slice() {
        Ok(b'z')
    } else {
        Err(REQUEST_WORDS)
    }
}

fn level_is<'a>(rest: Rest<'a>) -> Result<(Condition<'a>, Rest<'a>), u8>
    ensures { viewed (λ x. (condition_of x.0, words_left x.1)) result ≡ level_is (words_left rest.entry) }
{
    let (name, rest) = next_word(rest)?;
    let (word, rest) = next_word(rest)?;
    let value = level(word)?;
    Ok((Condition::Level(name, value), rest))
}

fn edge<'a>(rest: Rest<'a>) -> Result<(Condition<'a>, Rest<'a>), u8>
    ensures { viewed (λ x. (condition_of x.0, words_left x.1)) result ≡ edge (words_left rest.entry) }
{
    let (name, rest) = next_word(rest)?;
    Ok((Condition::Edge(name), rest))
}

fn sent<'a>(rest: Rest<'a>) -> Result<(Condition<'a>, Rest<'a>), u8>
    ensures { viewed (λ x. (condition_of x.0, words_left x.1)) result ≡ sent (words_left rest.entry) }
{
    let (count, rest) = next_number(MOST_CYCLES, rest)?;
    Ok((Condition::Sent(count), rest))
}

fn stored<'a>(rest: Rest<'a>) -> Result<(Condition<'a>, Rest<'a>), u8>
    ensures { viewed (λ x. (condition_of x.0, words_left x.1)) result ≡ stored (words_left rest.entry) }
{
    let (from, rest) = next_number(SRAM_END - 1, rest)?;
    if from < SRAM_START {
        return Err(REQUEST_NUMBER);
    }
    let (count, rest) = next_number(SRAM_END - from, rest)?;
    Ok((Condition::Stored(from as u16, count as u16), rest))
}

/// The condition of this word, and what follows it.
fn condition_by<'a>(word: &[u8], rest: Rest<'a>) -> Result<(Condition<'a>, Rest<'a>), u8>
    ensures { viewed (λ x. (condition_of x.0, words_left x.1)) result ≡ condition_by word.now (words_left rest.entry) }
{
    if word == b"level".as_slice() {
        level_is(rest)
    } else if word == b"edge".as_slice() {
        edge(rest)
    } else if word == b"sent".as_slice() {
        sent(rest)
    } else if word == b"stored".as_slice() {
        stored(rest)
    } else if word == b"begins".as_slice() {
        Ok((Condition::Begins, rest))
    } else if word == b"marked".as_slice() {
        Ok((Condition::Marked, rest))
    } else if word == b"halted".as_slice() {
        Ok((Condition::Halted, rest))
    } else if word == b"trapped".as_slice() {
        Ok((Condition::Trapped, rest))
    } else {
        Err(REQUEST_WORDS)
    }
}

fn next_condition<'a>(rest: Rest<'a>) -> Result<(Condition<'a>, Rest<'a>), u8>
    ensures { viewed (λ x. (condition_of x.0, words_left x.1)) result ≡ condition (words_left rest.entry) }
{
    let (word, rest) = next_word(rest)?;
    condition_by(word, rest)
}

/// The conditions that the rest of a line has, at most 16, or the number of the first rule that is broken.
pub(crate) fn read_conditions<'a>(rest: Rest<'a>) -> Result<Conditions<'a>, u8>
    ensures { viewed (λ all. map condition_of all.items) result ≡ conditions (words_left rest.entry) }
{
    let mut all = ArrayVec::new();
    let mut left = rest;
    for _i in 0..MOST_CONDITIONS {
        if is_over(left) {
            return Ok(all);
        }
        match next_condition(left) {
            Ok((condition, more)) => {
                all.push(condition);
                left = more;
            }
            Err(number) => return Err(number),
        }
    }
    if is_over(left) {
        Ok(all)
    } else {
        Err(REQUEST_WORDS)
    }
}
