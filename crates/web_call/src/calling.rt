//! The call: what is given is run on a bench in memory, and its end is shown.
ghost use Rattle.std.specs.Prelude.{◌≡◌, ◌<◌, Some, None, map, string_bytes, if◌then◌else◌, IfOk, OnOk};
ghost use Rattle.std.specs.Option.{option_map, is_some};
ghost use Rattle.sim_base.specs.Mem.{outside_of};
ghost use Rattle.sim_outcome_model.specs.Promises.{IsStatus};
ghost use Rattle.sim_cli.specs.Promises.{Does};
ghost use Rattle.web_call.specs.Entries.{given, with_entry, with_entries, entry_of, entries};
ghost use Rattle.web_call.specs.Answer.{roomed, Shows, IsAnswer, IsNamed};

use crate::blocks::put_all;
use crate::entries::{Entry, first_entry, is_list};
use sim_base::{MemBench, OutOfMemory, Port, Steps};
use sim_cli::simulate;
use std::alloc::Global;
use std::marker::Brand;
use std::sync::ledger::{Blank, Ledger};

/// The list is none: neither words nor files, a cut block, or a word or a name that is no UTF-8.
pub const NO_LIST: u32 = 100;
/// Memory ran out before the run.
pub const OUT_OF_MEMORY: u32 = 101;
/// What the ports hold is longer than `out`.
pub const TOO_LONG: u32 = 102;

fn run<L: Ledger>(alloc: Global, words: &[String], bench: &mut MemBench, blank: Blank) -> u8
    requires name { blank.name ≡ L.name }
    requires parts { blank.parts ≡ L.parts }
    requires some { 0 < L.parts }
    ensures does { Does result (map string_bytes words.now) (outside_of bench.old) (outside_of bench.new) }
    ensures status { IsStatus result }
{
    let mut steps: Steps<L> = Steps::new(blank);
    simulate(alloc, words, bench, &mut steps)
}

/// Puts a word behind the words, or a file into the bench.
fn take_entry(
    alloc: Global,
    entry: Entry<'_>,
    words: &mut Vec<String>,
    bench: &mut MemBench,
) -> Result<(), OutOfMemory>
    ensures { OnOk result ((record { words = map string_bytes words.new.items; bench = bench.new }) ≡ with_entry (record { words = map string_bytes words.old.items; bench = bench.old }) (entry_of entry.entry)) }
{
    match entry {
        Entry::Word(word) => {
            let word = String::from_str(alloc, word)?;
            words.push(word)?;
        }
        Entry::File(name, bytes) => bench.add_file(name, bytes)?,
    }
    Ok(())
}

/// Puts the words of the list into `words` and its files into the bench, and answers whether it is
/// one; if not, what comes before the fault is there.
#[tactic(auto, using(crate::proofs::EntryLemmas::takes, crate::proofs::EntryLemmas::stops, crate::proofs::EntryLemmas::spent, crate::proofs::EntryLemmas::all_taken))]
fn read(
    alloc: Global,
    list: &[u8],
    words: &mut Vec<String>,
    bench: &mut MemBench,
) -> Result<bool, OutOfMemory>
    ensures { IfOk result (λ is_list. option_map (with_entries (record { words = map string_bytes words.old.items; bench = bench.old })) (entries list.now) ≡ (if is_list then Some (record { words = map string_bytes words.new.items; bench = bench.new }) else None)) }
{
    let mut rest = list;
    let mut left = list.len();
    while !rest.is_empty() {
        if left == 0 {
            return Ok(false);
        }
        left -= 1;
        let Some((entry, after)) = first_entry(rest) else {
            return Ok(false);
        };
        take_entry(alloc, entry, words, bench)?;
        rest = after;
    }
    Ok(true)
}

/// Gives the ports room.
fn make_room(bench: &mut MemBench, serial: u32, wave: u32, report: u32) -> Result<(), OutOfMemory>
    ensures { OnOk result (bench.new ≡ roomed bench.old serial wave report) }
{
    bench.room(Port::Serial, serial)?;
    bench.room(Port::Wave, wave)?;
    bench.room(Port::Report, report)?;
    bench.room(Port::Complaint, 4096)
}

/// Runs the words on the bench, and shows its end in `out`.
fn show(alloc: Global, words: &[String], bench: &mut MemBench, out: &mut [u8]) -> u32
    ensures shows { Shows result (map string_bytes words.now) bench.old bench.new out.new }
    ensures named { IsNamed result }
{
    let status = run::<Brand>(alloc, words, bench, Blank::new(1));
    if put_all(out, bench) {
        u32::from(status)
    } else {
        TOO_LONG
    }
}

/// Runs what a list gives, unless memory runs out before.
fn work(
    alloc: Global,
    input: &[u8],
    serial: u32,
    wave: u32,
    report: u32,
    out: &mut [u8],
) -> Result<u32, OutOfMemory>
    ensures answer { IfOk result (λ answer. IsAnswer answer (given input.now) serial wave report out.new) }
    ensures named { IfOk result (λ answer. IsNamed answer) }
{
    let mut words = Vec::new(alloc);
    let mut bench = MemBench::new(alloc);
    if !read(alloc, input, &mut words, &mut bench)? {
        return Ok(NO_LIST);
    }
    make_room(&mut bench, serial, wave, report)?;
    Ok(show(alloc, &words, &mut bench, out))
}

/// Does what the program does for the words of `input` over its files, with that much room on
/// Serial, Wave and Report, and leaves what the ports hold at the front of `out`.
/// Answers the program's status, or `NO_LIST`, `OUT_OF_MEMORY` or `TOO_LONG`.
pub fn call(alloc: Global, input: &[u8], serial: u32, wave: u32, report: u32, out: &mut [u8]) -> u32
    ensures answer { IsAnswer result (given input.now) serial wave report out.new }
    ensures named { IsNamed result }
{
    match work(alloc, input, serial, wave, report, out) {
        Ok(answer) => answer,
        Err(OutOfMemory) => answer_without_memory(input),
    }
}

/// A list that is none is told as such also where memory ran out.
fn answer_without_memory(input: &[u8]) -> u32
    ensures { result ≡ (if is_some (entries input.now) then 101 else 100) }
{
    if is_list(input) {
        OUT_OF_MEMORY
    } else {
        NO_LIST
    }
}
