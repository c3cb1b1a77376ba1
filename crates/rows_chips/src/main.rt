//! Runs custom chips alone, on rows of levels of their own pins, and prints what each drives in each cycle and how it ends.
//! Each word is a row: `FILE PINS ATTRIBUTES BUDGET LEVELS ..`, where PINS are names with commas between them, ATTRIBUTES are
//! `NAME=TEXT` with commas or `-`, and LEVELS has a character for each pin (`0`, `1`, `x`, `z`) and perhaps a number of cycles
//! behind a `*`. tools/chips/make.sh makes the modules; the expected lines were worked out by hand.
#![tactic(auto)]

mod chips;
mod rows;

use rows::tell;
use std::{env, io};

fn main(rt: HostRuntime) -> io::Result<()> {
    for word in env::args(&rt)?.skip(1) {
        tell(&rt, word.as_str())?;
    }
    Ok(())
}
