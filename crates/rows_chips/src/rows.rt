//! Rows: what a chip drives on levels.
ghost use Rattle.std.specs.Prelude.{◌≡◌, ◌≤◌, ◌<◌, ◌+◌, IfOk, length};
ghost use Rattle.chip_host.specs.Chip.{chip};

use crate::chips::chip_of;
use chip_host::Chip;
use part_law::Part;
use sim_base::{Drive, Fault, Level, Place, Refusal};
use sim_refusals::refusal_name;
use std::alloc::{AllocError, Global};
use std::mem::drop;
use std::str::Split;
use std::{fs, io};

fn level_of(byte: u8) -> Level {
    match byte {
        b'0' => Level::Low,
        b'1' => Level::High,
        b'x' => Level::X,
        _ => Level::Z,
    }
}

fn levels_of(alloc: Global, text: &str) -> Result<Vec<Level>, AllocError> {
    let mut levels = Vec::new(alloc);
    for byte in text.as_bytes() {
        levels.push(level_of(*byte))?;
    }
    Ok(levels)
}

fn name_of(drive: Drive) -> &'static str {
    match drive {
        Drive::Z => "z",
        Drive::Low => "0",
        Drive::High => "1",
        Drive::PullLow => "d",
        Drive::PullHigh => "u",
        Drive::Wiper(_) => "w",
    }
}

fn push_drives(drives: &mut String, chip: &Chip) -> Result<(), AllocError> {
    for pin in 0..chip.pins() {
        drives.push_str(name_of(chip.drive(pin)))?;
    }
    Ok(())
}

fn drives_of(alloc: Global, chip: &Chip) -> Result<String, AllocError> {
    let mut drives = String::new(alloc);
    push_drives(&mut drives, chip)?;
    Ok(drives)
}

/// The levels of a group, and in how many cycles they stand.
fn group_of(text: &str) -> (&str, u32) {
    match text.split_once('*') {
        Some((levels, count)) => (levels, count.parse().unwrap_or(1)),
        None => (text, 1),
    }
}

/// One cycle; false where it has another number of pins, or no cycle is left.
fn step(chip: &mut Chip, levels: &[Level]) -> bool
    requires { chip.old.wakes ≤ chip.old.cycle }
    ensures { chip.new.wakes ≤ chip.new.cycle }
{
    if levels.len() != chip.pins() as usize || chip.cycle() >= 160_000_000 {
        return false;
    }
    chip.wake(levels, Some(0));
    true
}

/// Prints what the chip drives, if that is not shown yet.
fn show(rt: &HostRuntime, chip: &Chip, shown: &mut String) -> io::Result<()> {
    let drives = drives_of(rt.alloc(), chip)?;
    if drives.as_str() != shown.as_str() {
        print!(rt; " {}:{drives}", chip.cycle())?;
        *shown = drives;
    }
    Ok(())
}

/// Runs a chip on levels for some cycles, of which it shows each with other drives.
fn run_on(
    rt: &HostRuntime,
    chip: &mut Chip,
    levels: &[Level],
    count: u32,
    shown: &mut String,
) -> io::Result<()>
    requires { chip.old.wakes ≤ chip.old.cycle }
    ensures { chip.new.wakes ≤ chip.new.cycle }
{
    for _ in 0..count {
        show(rt, chip, shown)?;
        if !step(chip, levels) {
            return Ok(());
        }
    }
    Ok(())
}

/// Runs a chip through a group.
fn run(rt: &HostRuntime, chip: &mut Chip, text: &str, shown: &mut String) -> io::Result<()>
    requires { chip.old.wakes ≤ chip.old.cycle }
    ensures { chip.new.wakes ≤ chip.new.cycle }
{
    let (levels, count) = group_of(text);
    let levels = levels_of(rt.alloc(), levels)?;
    run_on(rt, chip, levels.as_slice(), count, shown)
}

fn tell_refused(rt: &HostRuntime, fault: Fault) -> io::Result<()> {
    match fault {
        Fault::Refused(Refusal { number, place }) => {
            print!(rt; " refused {number} {}", refusal_name(number))?;
            match place {
                Place::Import(n) => println!(rt; " import {n}"),
                _ => println!(rt;),
            }
        }
        Fault::OutOfMemory => println!(rt; " out of memory"),
    }
}

fn tell_end(rt: &HostRuntime, chip: &Chip) -> io::Result<()> {
    match chip.trap() {
        Some(death) => println!(rt; " trap {} at {}", death.trap.number(), death.cycle),
        None => println!(rt; " alive"),
    }
}

/// What the first words of a row say.
#[derive(Drop)]
struct Row<'a> {
    file: &'a str,
    pins: &'a str,
    attrs: &'a str,
    budget: u32,
}

fn row_of<'a>(words: &mut Split<'a, char>) -> Option<Row<'a>> {
    Some(Row {
        file: words.next()?,
        pins: words.next()?,
        attrs: words.next()?,
        budget: words.next()?.parse().unwrap_or(0),
    })
}

fn made(alloc: Global, row: &Row, bytes: &[u8]) -> Result<Chip, Fault>
    requires { length bytes.now < 4294967295 }
    ensures { IfOk result (λ c. c.wakes ≤ c.cycle) }
{
    chip_of(alloc, bytes, row.pins, row.attrs, row.budget)
}

fn run_groups(
    rt: &HostRuntime,
    chip: &mut Chip,
    words: Split<char>,
    shown: &mut String,
) -> io::Result<()>
    requires { chip.old.wakes ≤ chip.old.cycle }
{
    for text in words {
        run(rt, chip, text, shown)?;
    }
    tell_end(rt, chip)
}

/// Runs a chip through the groups of its row.
fn run_all(rt: &HostRuntime, chip: &mut Chip, words: Split<char>) -> io::Result<()>
    requires { chip.old.wakes ≤ chip.old.cycle }
{
    let mut shown = String::new(rt.alloc());
    run_groups(rt, chip, words, &mut shown)
}

fn tell_chip(rt: &HostRuntime, row: &Row, bytes: &[u8], words: Split<char>) -> io::Result<()> {
    if bytes.len() > 1_048_576 {
        return println!(rt; " too long");
    }
    match made(rt.alloc(), row, bytes) {
        Ok(chip) => tell_run(rt, chip, words),
        Err(fault) => tell_refused(rt, fault),
    }
}

fn tell_run(rt: &HostRuntime, mut chip: Chip, words: Split<char>) -> io::Result<()>
    requires { chip.wakes ≤ chip.cycle }
{
    let told = run_all(rt, &mut chip, words);
    // One call, where a drop at the end of the scope is proved list by list.
    drop(chip);
    told
}

fn tell_row(rt: &HostRuntime, row: &Row, words: Split<char>) -> io::Result<()> {
    print!(rt; "{} {} {}", row.file, row.attrs, row.budget)?;
    let bytes = fs::read(rt, row.file)?;
    tell_chip(rt, row, bytes.as_slice(), words)
}

/// The line of a row.
pub(crate) fn tell(rt: &HostRuntime, text: &str) -> io::Result<()> {
    let mut words = text.split(' ');
    match row_of(&mut words) {
        Some(row) => tell_row(rt, &row, words),
        None => println!(rt; "{text}: no row"),
    }
}
