//! Runs the program on rows of data and says which end otherwise than the row has it, with a count at the end.
//! Its words name files of rows, whose lines `row` and `stage` say; a further row needs no change here.
#![tactic(auto)]

mod ended;
mod listed;
mod row;
mod stage;

use ended::{Ended, run_once};
use listed::is_same;
use row::{Row, read_row};
use stage::Stage;
use std::mem::drop;
use std::{env, fs, io};

fn main(rt: HostRuntime) -> io::Result<()> {
    let mut count: u32 = 0;
    for word in env::args(&rt)?.skip(1) {
        count = count.saturating_add(play(&rt, word.as_str())?);
    }
    println!(rt; "{count} runs")
}

/// Plays the rows of a file, and answers how many runs they were.
fn play(rt: &HostRuntime, name: &str) -> io::Result<u32> {
    let text = fs::read_to_string(rt, name)?;
    let mut stage = Stage::new(rt.alloc());
    let count = play_parts(rt, name, text.as_str(), &mut stage);
    drop(stage);
    drop(text);
    count
}

fn play_parts(rt: &HostRuntime, name: &str, text: &str, stage: &mut Stage) -> io::Result<u32> {
    let mut count: u32 = 0;
    for part in text.split("\n\n") {
        for line in part.lines() {
            stage.read_line(rt, line)?;
        }
        count = count.saturating_add(play_part(rt, name, part, stage)?);
    }
    Ok(count)
}

/// Plays the row that lines are, if they ask for a run.
fn play_part(rt: &HostRuntime, name: &str, part: &str, stage: &Stage) -> io::Result<u32> {
    let row = read_row(rt, part)?;
    let count = if row.is_run() {
        play_row(rt, name, part, stage, &row)
    } else {
        Ok(0)
    };
    drop(row);
    count
}

/// Plays a row for each of its numbers.
fn play_row(rt: &HostRuntime, name: &str, part: &str, stage: &Stage, row: &Row) -> io::Result<u32> {
    let mut count: u32 = 0;
    for number in row.first..=row.last {
        count = count.saturating_add(1);
        let ended = run_once(rt.alloc(), stage, row, number)?;
        let told = compare(rt, name, part, stage, row, number, &ended);
        drop(ended);
        told?;
    }
    Ok(count)
}

/// Says what first differs from the row, if anything does.
fn compare(
    rt: &HostRuntime,
    name: &str,
    part: &str,
    stage: &Stage,
    row: &Row,
    number: u32,
    ended: &Ended,
) -> io::Result<()> {
    match difference(rt, stage, row, number, ended)? {
        None => Ok(()),
        Some(port) => {
            println!(rt; "{name}: another {port} than this row has, at {number}:\n{part}")?;
            ended.show(rt)
        }
    }
}

/// What first differs from the row, in the run or in the call that web pages make.
fn difference(
    rt: &HostRuntime,
    stage: &Stage,
    row: &Row,
    number: u32,
    ended: &Ended,
) -> io::Result<Option<&'static str>> {
    let differs = match row.refusal(rt.alloc(), number)? {
        Some(line) => {
            let differs = ended.difference_from_refusal(line.as_str());
            drop(line);
            differs
        }
        None => ended.difference(row),
    };
    if differs.is_some() || !row.is_listed() {
        return Ok(differs);
    }
    match is_same(rt.alloc(), row, stage.files(), ended)? {
        true => Ok(None),
        false => Ok(Some("end of the call of a page")),
    }
}
