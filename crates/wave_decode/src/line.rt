//! One line of a wave of which each variable may have each of the four values.
ghost use Rattle.std.specs.Prelude.{◌≡◌, ◌≤◌, Some};
ghost use Rattle.wave_lines.specs.Reading.{value_of_variable, verdict};
ghost use Rattle.wave_decode.specs.Levels.{below, is_opened, last_cycle, level_of};
ghost use Rattle.wave_decode.specs.Fitting.{IsFitting};

use sim_base::{LONGEST_RUN, Level};
use sim_refusals::numbers::WAVE_NAME;
use wave_lines::{Line, Stage};

fn value_of_variable(variables: usize, i: usize, value: u8) -> Line
    ensures { result ≡ value_of_variable value i (below variables i) }
{
    if i < variables {
        Line::Value(i, value)
    } else {
        Line::Faulty(WAVE_NAME)
    }
}

/// What a line says in a stage, after the time of a cycle, in a wave of so many variables.
pub(crate) fn read_line(variables: usize, stage: Stage, cycle: u32, line: &[u8]) -> Line
    ensures said { result ≡ verdict (below variables) last_cycle stage cycle line.now }
    ensures fits { IsFitting variables cycle result }
{
    match wave_lines::read_line(LONGEST_RUN, stage, cycle, line) {
        Line::Goes(next) => Line::Goes(next),
        Line::Time(next) => Line::Time(next),
        Line::Value(i, value) => value_of_variable(variables, i, value),
        Line::Faulty(number) => Line::Faulty(number),
    }
}

/// Whether the last line was a time above 0.
pub(crate) fn is_opened(stage: Stage) -> bool
    ensures { result ≡ is_opened stage }
{
    match stage {
        Stage::Opened => true,
        _ => false,
    }
}

/// The level that a value stands for.
pub(crate) fn level_of(value: u8) -> Level
    ensures { result ≡ level_of value }
{
    match value {
        b'0' => Level::Low,
        b'1' => Level::High,
        b'x' => Level::X,
        _ => Level::Z,
    }
}
