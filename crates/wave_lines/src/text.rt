//! The lines of a text, and its end.
ghost use Rattle.std.specs.Prelude.{◌≡◌, ◌<◌, ◌≤◌, ◌+◌, [], ◌∷◌, ◌++◌, length, IfOk, IfSome, IfNone};
ghost use Rattle.std.specs.Result.{result_map_both};
ghost use Rattle.wave_lines.specs.Reading.{behind, end_fault, ended_lines, line_count, unended};

use sim_base::{Place, Refusal};
use sim_refusals::numbers::{WAVE_END, WAVE_HEAD, WAVE_LINE};

/// The refusal of a line.
pub fn refused(number: u8, line: u32) -> Refusal
    ensures { result ≡ record { number = number; place = Place.Line line } }
{
    Refusal {
        number,
        place: Place::Line(line),
    }
}

/// What stands behind a head that begins at a line, and the number of its first line.
pub fn behind<'a>(start: u32, head: &[u8], bytes: &'a [u8]) -> Result<(u32, &'a [u8]), Refusal>
    requires { length bytes.now + start < 4294967296 }
    ensures behind { behind start head.now bytes.now ≡ result_map_both (λ x. (x.0, x.1.now)) (λ e. e) result }
    ensures short { IfOk result (λ x. x.0 + length x.1.now ≤ length bytes.now + start) }
    ensures first { IfOk result (λ x. start ≤ x.0) }
{
    let mut number = start;
    for i in 0..head.len() {
        if i >= bytes.len() || head[i] != bytes[i] {
            return Err(refused(WAVE_HEAD, number));
        }
        if head[i] == b'\n' {
            number += 1;
        }
    }
    Ok((number, &bytes[head.len()..]))
}

/// The first line, without its LF, and the bytes behind it, where there is an LF.
fn find_line(bytes: &[u8]) -> Option<(&[u8], &[u8])>
    ensures whole { IfSome result (λ x. bytes.now ≡ x.0.now ++ 10 ∷ x.1.now) }
    ensures unbroken { IfSome result (λ x. line_count x.0.now ≡ 0) }
    ensures line { IfSome result (λ x. ended_lines bytes.now ≡ x.0.now ∷ ended_lines x.1.now) }
    ensures rest { IfSome result (λ x. unended bytes.now ≡ unended x.1.now) }
    ensures shorter { IfSome result (λ x. length x.1.now < length bytes.now) }
    ensures none { IfNone result ((ended_lines bytes.now ≡ []) × (unended bytes.now ≡ bytes.now)) }
{
    for (i, b) in bytes.iter().enumerate() {
        if *b == b'\n' {
            return Some((&bytes[..i], &bytes[i + 1..]));
        }
    }
    None
}

/// The same; of two bytes, as most lines are that give a value, it is told without a search.
pub fn split_line(bytes: &[u8]) -> Option<(&[u8], &[u8])>
    ensures whole { IfSome result (λ x. bytes.now ≡ x.0.now ++ 10 ∷ x.1.now) }
    ensures unbroken { IfSome result (λ x. line_count x.0.now ≡ 0) }
    ensures line { IfSome result (λ x. ended_lines bytes.now ≡ x.0.now ∷ ended_lines x.1.now) }
    ensures rest { IfSome result (λ x. unended bytes.now ≡ unended x.1.now) }
    ensures shorter { IfSome result (λ x. length x.1.now < length bytes.now) }
    ensures none { IfNone result ((ended_lines bytes.now ≡ []) × (unended bytes.now ≡ bytes.now)) }
{
    match bytes {
        [a, b, end, rest @ ..] if *end == b'\n' && *a != b'\n' && *b != b'\n' => {
            Some((&bytes[..2], rest))
        }
        _ => find_line(bytes),
    }
}

/// What is wrong at the end of a text, where this line would be next.
pub fn end_fault(over: bool, given: bool, number: u32, rest: &[u8]) -> Option<Refusal>
    requires { 1 ≤ number }
    ensures { result ≡ end_fault over given number rest.now }
{
    match rest {
        [_, ..] => Some(refused(WAVE_LINE, number)),
        [] => {
            if over && given {
                None
            } else {
                Some(refused(WAVE_END, number - 1))
            }
        }
    }
}
