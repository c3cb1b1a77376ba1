//! Calls functions of modules, one after another on one instance of each, and says what each call answers.
//! Its word names a script of parts between blank lines: the file of a module, and behind it a line for each call, as
//! `0 i32 7 i64 9 within 100` of a function by its number, or `slot 1 i32 7 within 100` of an entry of the table
//! (with `gives i32` before `within` where it has a result); `byte 16`, `byte 16 = 7` and `pages` see to the memory,
//! and `operation 106 i32 1 i32 2` asks for an operation by its opcode.
//! tools/calls/make.py makes the script and the expected lines from rows that were worked out by hand.
#![tactic(auto)]

mod answer;
mod ask;
mod desk;
mod imports;
mod operation;
mod signatures;
mod subject;

use answer::Answer;
use ask::{Ask, read_ask};
use operation::operate;
use std::alloc::{AllocError, Global};
use std::mem::drop;
use std::{env, fs, io};
use subject::{Subject, subject_of};

fn main(rt: HostRuntime) -> io::Result<()> {
    for word in env::args(&rt)?.skip(1) {
        play_script(&rt, word.as_str())?;
    }
    Ok(())
}

fn play_script(rt: &HostRuntime, name: &str) -> io::Result<()> {
    let script = fs::read_to_string(rt, name)?;
    play_parts(rt, script.as_str())
}

fn play_parts(rt: &HostRuntime, script: &str) -> io::Result<()> {
    for part in script.split("\n\n") {
        play(rt, part)?;
    }
    Ok(())
}

/// Does what the part of a script for one module asks for.
fn play(rt: &HostRuntime, part: &str) -> io::Result<()> {
    match part.lines().next() {
        Some(name) => {
            println!(rt; "{name}")?;
            let bytes = fs::read(rt, name)?;
            play_on(rt, &bytes, part)
        }
        None => Ok(()),
    }
}

fn play_on(rt: &HostRuntime, bytes: &[u8], part: &str) -> io::Result<()> {
    match subject_of(rt.alloc(), bytes) {
        Some(subject) => tell_of(rt, part, subject),
        None => println!(rt; "no instance"),
    }
}

fn tell_of(rt: &HostRuntime, part: &str, mut subject: Subject) -> io::Result<()> {
    let end = tell(rt, part, &mut subject);
    // One call, where a drop at the end of the scope is proved list by list.
    drop(subject);
    end
}

/// Says what each line behind the first answers.
fn tell(rt: &HostRuntime, part: &str, subject: &mut Subject) -> io::Result<()> {
    for line in part.lines().skip(1) {
        tell_answer(rt, line, subject)?;
    }
    Ok(())
}

fn tell_answer(rt: &HostRuntime, line: &str, subject: &mut Subject) -> io::Result<()> {
    let answer = answer_to(rt.alloc(), line, subject)?;
    println!(rt; "{line}: {answer}")
}

fn answer_to(alloc: Global, line: &str, subject: &mut Subject) -> Result<Answer, AllocError> {
    let ask = read_ask(alloc, line)?;
    let answer = answer_of(&ask, subject);
    drop(ask);
    Ok(answer)
}

fn answer_of(ask: &Ask, subject: &mut Subject) -> Answer {
    match ask {
        Ask::Operation(op, operands) => operate(*op, operands),
        ask => subject.answer(ask),
    }
}
