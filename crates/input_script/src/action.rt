//! One line of a script.
ghost use Rattle.std.specs.Prelude.{◌≡◌, ◌≤◌, ◌<◌, ◌^◌, Option, Some, None, if◌then◌else◌, IfSome, List, ℕ, ◌∷◌};
ghost use Rattle.document_model.specs.Diagram.{is_id};
ghost use Rattle.input_script.specs.Script.{words, time_of, pressed, value_set, made, action_of, verdict};
ghost use Rattle.input_script.specs.Verdicts.{seen, IsFitting};

use crate::words::next_word;
use diagram_json::read_id;
use sim_base::{LONGEST_RUN, Name};
use sim_refusals::numbers::{SCRIPT_LIMIT, SCRIPT_LINE, SCRIPT_ORDER};
use text_numerals::read_numeral;

/// What a line does: the part gets the value in the cycle.
#[derive(Drop)]
pub struct Action {
    pub cycle: u64,
    pub part: Name,
    pub press: bool,
    pub value: u64,
}

/// What a line is for.
#[derive(Drop)]
pub enum Line {
    Passed,
    Acts(Action),
    /// The number of the first rule that it breaks.
    Faulty(u8),
}

fn time(word: &[u8]) -> Option<u64>
    ensures { result ≡ time_of word.now }
{
    if let Some(digits) = word.strip_suffix(b"us") {
        return Some(16 * read_numeral(10, 9, digits)?);
    }
    match word.strip_suffix(b"cy") {
        Some(digits) => read_numeral(10, 9, digits),
        None => None,
    }
}

fn pressed(verb: &[u8]) -> Option<u64>
    ensures value { result ≡ pressed verb.now }
    ensures small { IfSome result (λ v. v < 1048576) }
{
    if verb == b"press".as_slice() {
        Some(1)
    } else if verb == b"release".as_slice() {
        Some(0)
    } else {
        None
    }
}

fn value_set(verb: &[u8], value: &[u8]) -> Option<u64>
    ensures value { result ≡ value_set verb.now value.now }
    ensures small { IfSome result (λ v. v < 1048576) }
{
    if verb == b"set".as_slice() {
        read_numeral(10, 5, value)
    } else {
        None
    }
}

fn part_id(word: &[u8]) -> Option<Name>
    ensures { result ≡ (if is_id word.now then Some word.now else None) }
{
    match std::str::from_utf8(word) {
        Ok(text) => read_id(text),
        Err(_) => None,
    }
}

fn made(press: bool, cycle: Option<u64>, part: &[u8], value: Option<u64>) -> Option<Action>
    requires small { IfSome value (λ v. v < 1048576) }
    ensures made { result ≡ made press cycle part.now value }
    ensures small { IfSome result (λ a. a.value < 1048576) }
{
    let cycle = cycle?;
    let value = value?;
    Some(Action {
        cycle,
        part: part_id(part)?,
        press,
        value,
    })
}

// No line of five words does anything.
fn five_words(_rest: &[u8]) -> Option<Action>
    ensures action { (a b c d : List ℕ) → result ≡ action_of (a ∷ b ∷ c ∷ d ∷ words _rest.now) }
    ensures none { result ≡ None }
{
    None
}

fn read_action(line: &[u8]) -> Option<Action>
    ensures action { result ≡ action_of (words line.now) }
    ensures small { IfSome result (λ a. a.value < 1048576) }
{
    let (word, rest) = next_word(line);
    let (verb, rest) = next_word(rest?);
    let (part, rest) = next_word(rest?);
    match rest {
        None => made(true, time(word), part, pressed(verb)),
        Some(rest) => match next_word(rest) {
            (value, None) => made(false, time(word), part, value_set(verb, value)),
            (_, Some(rest)) => five_words(rest),
        },
    }
}

/// The first rule that a line breaks, or what it does, after a time and so many actions.
pub fn read_line(line: &[u8], last: u32, count: usize) -> Line
    ensures seen { seen result ≡ verdict last count line.now }
    ensures fits { IsFitting result }
{
    if let [] | [b'#', ..] = line {
        return Line::Passed;
    }
    match read_action(line) {
        None => Line::Faulty(SCRIPT_LINE),
        Some(action) if action.cycle < u64::from(last) || action.cycle > u64::from(LONGEST_RUN) => {
            Line::Faulty(SCRIPT_ORDER)
        }
        Some(_) if count >= 4096 => Line::Faulty(SCRIPT_LIMIT),
        Some(action) => Line::Acts(action),
    }
}
