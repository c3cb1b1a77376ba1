//! Rows of waves that are read: variables between commas as in `waves.rows`, the cycle at which the run ends, and the
//! text, which a `+` puts after the head of these variables. The answer is what the first two pins drive, each from
//! which cycle on, or the refusal.

ghost use Rattle.std.specs.Prelude.{◌≤◌};

use crate::answer::Answer;
use crate::refused::refused;
use crate::row::str_of;
use crate::wave::head_of;
use sim_base::{Drive, LONGEST_RUN, OutOfMemory};
use std::alloc::{AllocError, Global};
use vcd_text::{WaveHead, read_wave};

pub fn reading_answer(alloc: Global, made: &mut Answer, row: &[u8]) {
    let mut fields = str_of(row).splitn(3, '|');
    let names = fields.next().unwrap_or("");
    let n = fields
        .next()
        .unwrap_or("")
        .trim()
        .parse::<u32>()
        .unwrap_or(0);
    let text = fields.next().unwrap_or("").trim_start();
    if n > LONGEST_RUN {
        made.run_out();
        return;
    }
    match head_of(alloc, names) {
        Ok(head) => read_after(alloc, made, &head, n, text),
        Err(OutOfMemory) => made.run_out(),
    }
}

/// What a text says of the pins, after the head if it asks for it.
fn read_after(alloc: Global, made: &mut Answer, head: &WaveHead, n: u32, text: &str)
    requires { n ≤ LONGEST_RUN }
{
    match whole_text(alloc, head, text) {
        Ok(bytes) => read_bytes(alloc, made, head, n, bytes.as_slice()),
        Err(AllocError) => made.run_out(),
    }
}

fn read_bytes(alloc: Global, made: &mut Answer, head: &WaveHead, n: u32, bytes: &[u8])
    requires { n ≤ LONGEST_RUN }
{
    if bytes.len() > 1_048_576 {
        made.run_out();
        return;
    }
    match read_wave(alloc, head, 2, n, bytes) {
        Ok(rows) => tell_both(alloc, made, rows.rows(0), rows.rows(1)),
        Err(fault) => refused(made, &fault),
    }
}

fn whole_text(alloc: Global, head: &WaveHead, text: &str) -> Result<Vec<u8>, AllocError> {
    let mut bytes = Vec::new(alloc);
    push_whole(&mut bytes, head, text)?;
    Ok(bytes)
}

fn push_whole(bytes: &mut Vec<u8>, head: &WaveHead, text: &str) -> Result<(), AllocError> {
    match text.strip_prefix('+') {
        Some(rest) => {
            bytes.extend_from_slice(head.head_bytes())?;
            bytes.extend_from_slice(rest.as_bytes())
        }
        None => bytes.extend_from_slice(text.as_bytes()),
    }
}

fn tell_both(alloc: Global, made: &mut Answer, first: &[(u32, Drive)], second: &[(u32, Drive)]) {
    tell_rows(alloc, made, first);
    made.tell(" | ");
    tell_rows(alloc, made, second);
}

fn tell_rows(alloc: Global, made: &mut Answer, rows: &[(u32, Drive)]) {
    for (i, row) in rows.iter().enumerate() {
        let comma = if i == 0 { "" } else { ", " };
        let (cycle, drive) = *row;
        made.tell_number(comma, u64::from(cycle));
        made.tell_made(drive_text(alloc, drive));
    }
}

fn drive_text(alloc: Global, drive: Drive) -> Result<String, AllocError> {
    format!(in alloc; " {drive:?}")
}
