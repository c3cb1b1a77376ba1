//! The lines of a wave after its head.
ghost use Rattle.std.specs.Prelude.{◌≡◌, ◌<◌, ◌≤◌, ◌+◌, [], ◌∷◌, length, None, IfOk, OnOk};
ghost use Rattle.sim_base.specs.Reads.{Reads};
ghost use Rattle.wave_decode.specs.Bodies.{read_body, unsaid};
ghost use Rattle.wave_decode.specs.Levels.{last_cycle, noted};
ghost use Rattle.wave_decode.specs.Rising.{IsRising};

use crate::head::Head;
use crate::line::{is_opened, level_of, read_line};
use sim_base::{Fault, Level, OutOfMemory};
use std::alloc::Global;
use wave_lines::{Given, Line, Stage, after_value, end_fault, refused, set_row, split_line};

/// The last cycle, and the rows of one variable and of another.
#[derive(Drop)]
pub(crate) struct Body {
    pub(crate) cycles: u32,
    pub(crate) first: Vec<(u32, Level)>,
    pub(crate) second: Vec<(u32, Level)>,
}

/// The rows of a variable of which nothing is said.
fn unsaid(alloc: Global) -> Result<Vec<(u32, Level)>, OutOfMemory>
    ensures { IfOk result (λ v. v.items ≡ unsaid) }
{
    let mut rows = Vec::new(alloc);
    rows.push((0, Level::Z))?;
    Ok(rows)
}

/// A variable has a value in a cycle, the greatest so far; it is noted where it is this one.
fn note(
    rows: &mut Vec<(u32, Level)>,
    variable: Option<usize>,
    i: usize,
    cycle: u32,
    value: u8,
) -> Result<(), OutOfMemory>
    ensures { OnOk result (rows.new.items ≡ noted variable i cycle value rows.old.items) }
{
    match variable {
        Some(j) if i == j => set_row(rows, cycle, level_of(value)),
        Some(_) | None => Ok(()),
    }
}

/// What the lines after a head say of two variables.
pub(crate) fn read_body(
    alloc: Global,
    head: &Head<'_>,
    first: Option<usize>,
    second: Option<usize>,
) -> Result<Body, Fault>
    requires short { head.now.number + length head.now.rest.now < 4294967297 }
    requires begun { 1 ≤ head.now.number }
    ensures reads { Reads (λ b. record { cycles = b.cycles; first = b.first.items; second = b.second.items }) result (read_body first second head.now.variables head.now.number head.now.rest.now) }
    ensures early { IfOk result (λ b. b.cycles ≤ last_cycle) }
    ensures first_rising { IfOk result (λ b. IsRising 0 b.first.items) }
    ensures second_rising { IfOk result (λ b. IsRising 0 b.second.items) }
{
    let mut given = Given::new(alloc, head.variables)?;
    let mut of_first = unsaid(alloc)?;
    let mut of_second = unsaid(alloc)?;
    let mut number = head.number;
    let mut rest = head.rest;
    let mut stage = Stage::Start;
    let mut cycle = 0;
    while let Some((line, more)) = split_line(rest) {
        match read_line(head.variables, stage, cycle, line) {
            Line::Goes(next) => stage = next,
            Line::Time(next) => {
                stage = Stage::Opened;
                cycle = next;
            }
            Line::Value(i, value) => {
                given.note(i, cycle);
                note(&mut of_first, first, i, cycle, value)?;
                note(&mut of_second, second, i, cycle, value)?;
                stage = after_value(stage);
            }
            Line::Faulty(fault) => return Err(Fault::Refused(refused(fault, number))),
        }
        rest = more;
        number += 1;
    }
    match end_fault(is_opened(stage), given.are_all(), number, rest) {
        None => Ok(Body {
            cycles: cycle,
            first: of_first,
            second: of_second,
        }),
        Some(refusal) => Err(Fault::Refused(refusal)),
    }
}
