//! Plays rows of the readers of texts, of the catalogue, of waves, and of a live board's requests and answers, and prints
//! those that come out otherwise, with a count of each file. Its words name the files; the name of a file says who
//! answers its rows. A row is `TEXT => ANSWER`, as `row` and the module of its answer say. A further row needs no change
//! here.
#![tactic(auto)]

mod answer;
mod base;
mod catalogue;
mod chip;
mod diagram;
mod hex;
mod line;
mod project;
mod reading;
mod refused;
mod request;
mod row;
mod script;
mod wave;

use answer::Answer;
use base::base_answer;
use catalogue::catalogue_answer;
use chip::chip_answer;
use diagram::diagram_answer;
use hex::hex_answer;
use line::line_answer;
use project::project_answer;
use reading::reading_answer;
use request::request_answer;
use row::text_of;
use script::script_answer;
use sim_base::OutOfMemory;
use std::alloc::{AllocError, Global};
use std::{env, fs, io};
use wave::wave_answer;

fn main(rt: HostRuntime) -> io::Result<()> {
    for word in env::args(&rt)?.skip(1) {
        play(&rt, word.as_str())?;
    }
    Ok(())
}

/// Plays the lines of a file that are rows; `#` begins a comment.
fn play(rt: &HostRuntime, name: &str) -> io::Result<()> {
    let text = fs::read_to_string(rt, name)?;
    let count = play_rows(rt, name, text.as_str())?;
    println!(rt; "{name}: {count} rows")
}

fn play_rows(rt: &HostRuntime, name: &str, text: &str) -> io::Result<u32> {
    let mut count: u32 = 0;
    for line in text.lines() {
        if !line.is_empty() && !line.starts_with('#') {
            count = count.saturating_add(1);
            play_row(rt, name, line)?;
        }
    }
    Ok(count)
}

fn play_row(rt: &HostRuntime, name: &str, line: &str) -> io::Result<()> {
    let (text, wanted) = line.split_once(" => ").unwrap_or((line, ""));
    let mut made = Answer::new(rt.alloc());
    tell_answer(rt.alloc(), &mut made, name, text, wanted);
    tell_difference(rt, name, line, made.whole(), wanted)
}

fn tell_difference(
    rt: &HostRuntime,
    name: &str,
    line: &str,
    made: Result<&str, OutOfMemory>,
    wanted: &str,
) -> io::Result<()> {
    match made {
        Ok(answer) if answer == wanted => Ok(()),
        Ok(answer) => println!(rt; "{name}: {answer}, and not as in this row: {line}"),
        Err(OutOfMemory) => println!(rt; "{name}: out of memory at this row: {line}"),
    }
}

/// What is answered to the text of a row.
fn tell_answer(alloc: Global, made: &mut Answer, name: &str, text: &str, wanted: &str) {
    match text_of(alloc, text) {
        Ok(bytes) => answer_by_file(alloc, made, name, bytes.as_slice(), wanted),
        Err(AllocError) => made.run_out(),
    }
}

fn answer_by_file(alloc: Global, made: &mut Answer, name: &str, text: &[u8], wanted: &str) {
    match name {
        "hex.rows" => hex_answer(alloc, made, text, wanted),
        "diagrams.rows" => diagram_answer(alloc, made, text),
        "chips.rows" => chip_answer(alloc, made, text),
        "projects.rows" => project_answer(alloc, made, text),
        "scripts.rows" => script_answer(alloc, made, text),
        "waves.rows" => wave_answer(alloc, made, text),
        "readings.rows" => reading_answer(alloc, made, text),
        "catalogue.rows" => catalogue_answer(alloc, made, text),
        "requests.rows" => request_answer(alloc, made, text),
        "lines.rows" => line_answer(made, text),
        _ => base_answer(alloc, made, text),
    }
}
