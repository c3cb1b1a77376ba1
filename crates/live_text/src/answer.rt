//! The lines of answers.
ghost use Rattle.std.specs.Prelude.{◌≡◌, ◌≤◌, length};
ghost use Rattle.live_text.specs.Answer.{ok_text, no_text, reason};

use crate::line::Line;
use sim_refusals::refusal_name;

/// The number with which a request is refused where memory ran out: the status of a command that it ends.
pub const OUT_OF_MEMORY: u8 = 7;

/// The line of an answer with these words, at most 160 bytes of them, which a block of so many bytes follows.
pub fn ok_line(cycle: u64, count: u64, words: &[u8]) -> Line
    requires { length words.now ≤ 160 }
    ensures { result ≡ ok_text cycle count words.now }
{
    let mut line = Line::new();
    line.push(b"ok ");
    line.push_number(cycle);
    line.push(b" ");
    line.push_number(count);
    if !words.is_empty() {
        line.push(b" ");
        line.push(words);
    }
    line.push(b"\n");
    line
}

/// Why a request is refused; the longest such name has 20 bytes.
fn reason(number: u8) -> &'static str
    ensures reason { result.now ≡ reason number }
    ensures short { length result.now ≤ 20 }
{
    if number == OUT_OF_MEMORY {
        "OutOfMemory"
    } else {
        refusal_name(number)
    }
}

/// The line of an answer that refuses, by the number of the refusal (100 to 108, or `OUT_OF_MEMORY`).
pub fn no_line(cycle: u64, number: u8) -> Line
    ensures { result ≡ no_text cycle number }
{
    let mut line = Line::new();
    line.push(b"no ");
    line.push_number(cycle);
    line.push(b" ");
    line.push_number(u64::from(number));
    line.push(b" ");
    line.push(reason(number).as_bytes());
    line.push(b"\n");
    line
}
