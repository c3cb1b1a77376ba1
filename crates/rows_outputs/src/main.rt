//! Plays rows of the host calls by which a chip prints and draws, and prints those that come out otherwise, with a count
//! of each file. Its words name the files. A row is `DISPLAY ; STEP ; STEP .. => ANSWERS`: the width and the height of
//! the display with an `x` between them, or `-`, and then calls and looks at what they left (`step.rt`), on a memory of
//! one page that begins as zeros; the answers have a space between them. A further row needs no change here.
#![tactic(auto)]

mod stage;
mod step;
mod words;

use sim_base::OutOfMemory;
use stage::Stage;
use std::alloc::Global;
use std::{env, fs, io};
use step::read_step;

fn main(rt: HostRuntime) -> io::Result<()> {
    for word in env::args(&rt)?.skip(1) {
        play(&rt, word.as_str())?;
    }
    Ok(())
}

/// Plays the lines of a file that are rows; `#` begins a comment.
fn play(rt: &HostRuntime, name: &str) -> io::Result<()> {
    let text = fs::read_to_string(rt, name)?;
    let mut count: u32 = 0;
    for line in text.as_str().lines() {
        if !line.is_empty() && !line.starts_with('#') {
            count = count.saturating_add(1);
            play_row(rt, name, line)?;
        }
    }
    println!(rt; "{name}: {count} rows")
}

fn play_row(rt: &HostRuntime, name: &str, line: &str) -> io::Result<()> {
    let (steps, wanted) = line.split_once(" => ").unwrap_or((line, ""));
    match answers(rt.alloc(), steps) {
        Ok(answer) if answer.as_str() == wanted => Ok(()),
        Ok(answer) => println!(rt; "{name}: {answer}, and not as in this row: {line}"),
        Err(OutOfMemory) => println!(rt; "{name}: out of memory at this row: {line}"),
    }
}

/// What the steps of a row answer, one after another.
fn answers(alloc: Global, row: &str) -> Result<String, OutOfMemory> {
    let (display, steps) = row.split_once(" ; ").unwrap_or((row, ""));
    let mut told = String::new(alloc);
    let mut stage = Stage::new(alloc, display)?;
    for text in steps.split(" ; ") {
        let step = read_step(alloc, text)?;
        let answer = stage.answer(alloc, &step)?;
        if !told.is_empty() {
            told.push_str(" ")?;
        }
        told.push_str(answer.as_str())?;
    }
    Ok(told)
}
