//! Plays rows of one instruction, one unit of the microcontroller or one serial engine alone, and prints those that
//! come out otherwise, with a count of each file.
//! Its words name the files; the name of a file says who answers its rows: `arithmetic.rows` the ALU,
//! `encoding.rows` the decoder, `instructions.rows` the core, those that begin with `slave` a serial engine of a
//! chip, the others a unit of the microcontroller. ADD and SUB are tried on all operands. A further row needs no
//! change here.
#![tactic(auto)]

mod arithmetic;
mod encoding;
mod instructions;
mod levels;
mod probe;
mod ram;
mod slave;
mod state;
mod unit;
mod units;
mod words;

use arithmetic::{arithmetic_difference, sums_and_differences};
use encoding::encoding_difference;
use instructions::instruction_difference;
use slave::slave_difference;
use std::alloc::Global;
use std::{env, fs, io};
use units::unit_difference;

fn main(rt: HostRuntime) -> io::Result<()> {
    sums_and_differences(&rt)?;
    for word in env::args(&rt)?.skip(1) {
        play(&rt, word.as_str())?;
    }
    Ok(())
}

/// Plays the lines of a file that are rows; `#` begins a comment.
fn play(rt: &HostRuntime, name: &str) -> io::Result<()> {
    let text = fs::read_to_string(rt, name)?;
    let count = play_rows(rt, name, text.as_str())?;
    println!(rt; "{name}: {count} rows")
}

fn play_rows(rt: &HostRuntime, name: &str, text: &str) -> io::Result<u32> {
    let mut count: u32 = 0;
    for line in text.lines() {
        if !line.is_empty() && !line.starts_with('#') {
            count = count.saturating_add(1);
            play_row(rt, name, line)?;
        }
    }
    Ok(count)
}

fn play_row(rt: &HostRuntime, name: &str, line: &str) -> io::Result<()> {
    match difference(rt.alloc(), name, line) {
        Some(what) => println!(rt; "{name}: {what} in this row: {line}"),
        None => Ok(()),
    }
}

/// What comes out otherwise than a row has it, or its first word that does.
fn difference<'a>(alloc: Global, name: &str, line: &'a str) -> Option<&'a str> {
    match name {
        "arithmetic.rows" => arithmetic_difference(alloc, line),
        "encoding.rows" => encoding_difference(alloc, line),
        "instructions.rows" => instruction_difference(alloc, line),
        _ if name.starts_with("slave") => slave_difference(line),
        _ => unit_difference(line),
    }
}
