//! One line of a wave that is read.
ghost use Rattle.std.specs.Prelude.{◌≡◌, ◌≤◌, ◌+◌, ◌*◌, true, false, min, if◌then◌else◌, IfSome, IfNone};
ghost use Rattle.std.specs.List.{list_all};
ghost use Rattle.std.specs.Char.{digit_value, is_ascii_digit};
ghost use Rattle.std.specs.Str.{bytes_eq};
ghost use Rattle.text_numerals.specs.Numerals.{value_of};
ghost use Rattle.sim_base.specs.declared.limits.TheConstants.{LONGEST_RUN};
ghost use Rattle.sim_refusals.specs.Refusals.{WaveLine};
ghost use Rattle.wave_lines.specs.Reading.{after_value, is_decimal, is_printable, is_value, judged, line_said, number_of, time_said, value_said};
ghost use Rattle.wave_lines.specs.Timely.{latest, IsTimely};

use sim_refusals::numbers::{WAVE_LINE, WAVE_TIME};

/// What may come next in a wave after its head.
#[derive(Clone, Copy)]
pub enum Stage {
    /// `#0`.
    Start,
    /// `$dumpvars`.
    Dump,
    /// An initial value, or `$end`.
    Initial,
    /// A time.
    Ended,
    /// A value.
    Opened,
    /// A value or a time.
    Changed,
}

/// What a line says.
#[derive(Clone, Copy)]
pub enum Line {
    /// What may come next, and nothing else.
    Goes(Stage),
    /// The time of a cycle.
    Time(u32),
    /// A variable, by its number, has a value.
    Value(usize, u8),
    /// The number of the first rule that it breaks.
    Faulty(u8),
}

/// More than any time of a run, in 100 ps.
const LATEST: u64 = 1_000_000_000_000;

/// A number with one digit more, or a greater one than any time where it is that great.
fn with_digit(n: u64, digit: u8) -> u64
    requires digit { is_ascii_digit digit ≡ true }
    requires early { n ≤ latest }
    ensures number { result ≡ min latest (10 * n + digit_value digit) }
    ensures early { result ≤ latest }
{
    LATEST.min(10 * n + u64::from(digit - b'0'))
}

/// The number of digits, or a greater one than any time where it is that great; none where one is no digit.
fn number(digits: &[u8]) -> Option<u64>
    ensures some { IfSome result (λ n. (list_all is_ascii_digit digits.now ≡ true) × (n ≡ min latest (value_of 10 digits.now))) }
    ensures none { IfNone result (list_all is_ascii_digit digits.now ≡ false) }
{
    let mut n: u64 = 0;
    for d in digits {
        if !d.is_ascii_digit() {
            return None;
        }
        n = with_digit(n, *d);
    }
    Some(n)
}

/// The same of digits without leading zeros.
fn decimal(digits: &[u8]) -> Option<u64>
    ensures some { IfSome result (λ n. (is_decimal digits.now ≡ true) × (n ≡ min latest (value_of 10 digits.now))) }
    ensures none { IfNone result (is_decimal digits.now ≡ false) }
{
    match digits {
        [] => None,
        [first, rest @ ..] => {
            if *first != b'0' || rest.is_empty() {
                number(digits)
            } else {
                None
            }
        }
    }
}

fn judge(n: u32, cycle: u32, time: u64) -> Line
    requires { n ≤ LONGEST_RUN }
    ensures { result ≡ judged n cycle time }
{
    if time % 625 == 0 && 625 * u64::from(cycle) < time && time <= 625 * u64::from(n) {
        Line::Time((time / 625) as u32)
    } else {
        Line::Faulty(WAVE_TIME)
    }
}

fn read_time(n: u32, cycle: u32, line: &[u8]) -> Line
    requires { n ≤ LONGEST_RUN }
    ensures { result ≡ time_said n cycle line.now }
{
    match line {
        [b'#', digits @ ..] => match decimal(digits) {
            Some(time) => judge(n, cycle, time),
            None => Line::Faulty(WAVE_LINE),
        },
        _ => Line::Faulty(WAVE_LINE),
    }
}

fn is_value(value: u8) -> bool
    ensures { result ≡ is_value value }
{
    matches!(value, b'0' | b'1' | b'x' | b'z')
}

/// Whether a byte may stand in an identifier code or in a name.
pub fn is_printable(b: u8) -> bool
    ensures { result ≡ is_printable b }
{
    33 <= b && b < 127
}

/// The number of the variable that has an identifier code.
fn number_of(code: &[u8]) -> Option<usize>
    ensures { result ≡ number_of code.now }
{
    match code {
        [a] if is_printable(*a) => Some(usize::from(*a - 33)),
        [a, b] if is_printable(*a) && is_printable(*b) => {
            Some(94 + (94 * usize::from(*a - 33) + usize::from(*b - 33)))
        }
        _ => None,
    }
}

fn read_value(line: &[u8]) -> Line
    ensures { result ≡ value_said line.now }
{
    match line {
        [value, code @ ..] if is_value(*value) => match number_of(code) {
            Some(i) => Line::Value(i, *value),
            None => Line::Faulty(WAVE_LINE),
        },
        _ => Line::Faulty(WAVE_LINE),
    }
}

/// A line that has to be a certain text.
fn exactly(line: &[u8], text: &[u8], next: Stage) -> Line
    ensures { result ≡ (if bytes_eq line.now text.now then Line.Goes next else Line.Faulty WaveLine) }
{
    if line == text {
        Line::Goes(next)
    } else {
        Line::Faulty(WAVE_LINE)
    }
}

/// What a line says in a stage, behind the time of a cycle, in a wave of `n` cycles, whichever
/// variables there are.
pub fn read_line(n: u32, stage: Stage, cycle: u32, line: &[u8]) -> Line
    requires { n ≤ LONGEST_RUN }
    ensures said { result ≡ line_said n stage cycle line.now }
    ensures fits { IsTimely n cycle result }
{
    match stage {
        Stage::Start => exactly(line, b"#0", Stage::Dump),
        Stage::Dump => exactly(line, b"$dumpvars", Stage::Initial),
        Stage::Initial if line == b"$end".as_slice() => Line::Goes(Stage::Ended),
        Stage::Ended => read_time(n, cycle, line),
        Stage::Changed if line.starts_with(b"#") => read_time(n, cycle, line),
        Stage::Initial | Stage::Opened | Stage::Changed => read_value(line),
    }
}

/// What may come after a value.
pub fn after_value(stage: Stage) -> Stage
    ensures { result ≡ after_value stage }
{
    match stage {
        Stage::Initial => Stage::Initial,
        _ => Stage::Changed,
    }
}
