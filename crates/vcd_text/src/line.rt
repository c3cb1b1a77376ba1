//! One line of a wave that is read, of these variables.
ghost use Rattle.std.specs.Prelude.{◌≡◌, ◌≤◌, ◌<◌, Some, length};
ghost use Rattle.sim_base.specs.declared.limits.TheConstants.{LONGEST_RUN};
ghost use Rattle.vcd_text.specs.Lines.{IsFitting};
ghost use Rattle.vcd_text.specs.Reading.{is_over, kinds, shows_net, verdict};
ghost use Rattle.vcd_text.specs.Variables.{source_of, variables_of};
ghost use Rattle.wave_lines.specs.Reading.{value_of_variable};

use crate::variable::{Source, Variable};
use sim_refusals::numbers::{WAVE_LINE, WAVE_NAME};
use wave_lines::{Line, Stage};

fn shows_net(shows: Source) -> bool
    ensures { result ≡ shows_net (source_of shows) }
{
    matches!(shows, Source::Net(_))
}

fn value_of_variable(variables: &[Variable], i: usize, value: u8) -> Line
    ensures { result ≡ value_of_variable value i (kinds (variables_of variables.now) i) }
{
    if i >= variables.len() {
        return Line::Faulty(WAVE_NAME);
    }
    if value == b'x' && !shows_net(variables[i].shows) {
        return Line::Faulty(WAVE_LINE);
    }
    Line::Value(i, value)
}

/// What a line says in a stage, after the time of a cycle, in a wave of `n` cycles.
pub(crate) fn read_line(
    variables: &[Variable],
    n: u32,
    stage: Stage,
    cycle: u32,
    line: &[u8],
) -> Line
    requires { n ≤ LONGEST_RUN }
    ensures said { result ≡ verdict (variables_of variables.now) n stage cycle line.now }
    ensures fits { IsFitting (variables_of variables.now) n cycle result }
{
    match wave_lines::read_line(n, stage, cycle, line) {
        Line::Goes(next) => Line::Goes(next),
        Line::Time(next) => Line::Time(next),
        Line::Value(i, value) => value_of_variable(variables, i, value),
        Line::Faulty(number) => Line::Faulty(number),
    }
}

/// Whether the last line was the time of the run's end.
pub(crate) fn is_over(n: u32, stage: Stage, cycle: u32) -> bool
    ensures { result ≡ is_over n stage cycle }
{
    match stage {
        Stage::Opened => cycle == n,
        _ => false,
    }
}
