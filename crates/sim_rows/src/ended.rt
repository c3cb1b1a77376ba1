//! A run over a bench in memory, and what it left.
ghost use Rattle.std.specs.Prelude.{◌≡◌, ◌<◌};

use crate::row::Row;
use crate::stage::{Stage, StagedFile};
use sim_base::{MemBench, OutOfMemory, Port, Steps};
use sim_cli::simulate;
use std::alloc::{AllocError, Global};
use std::io;
use std::marker::Brand;
use std::mem::drop;
use std::sync::ledger::{Blank, Ledger};

/// How many bytes Serial can hold, and how many the report.
pub const SERIAL_ROOM: u32 = 10_000;

pub const REPORT_ROOM: u32 = 100_000;

#[derive(Drop)]
pub struct Ended {
    status: u8,
    bench: MemBench,
}

impl Ended {
    /// What first differs from the row, the status or a port.
    pub fn difference(&self, row: &Row) -> Option<&'static str> {
        if self.status != row.status {
            Some("status")
        } else if !self.is_opened_as(row.opened.as_str()) {
            Some("name of the wave")
        } else if self.bench.written(Port::Complaint) != row.complaint.as_slice() {
            Some("complaint")
        } else if !is_as(
            self.bench.written(Port::Report),
            &row.report,
            row.is_report_begun,
        ) {
            Some("report")
        } else if !is_as(
            self.bench.written(Port::Serial),
            &row.serial,
            row.is_serial_begun,
        ) {
            Some("serial")
        } else if !is_as(self.bench.written(Port::Wave), &row.wave, row.is_wave_begun) {
            Some("wave")
        } else {
            None
        }
    }

    /// What first differs from a refusal with this line, in which no other port changes.
    pub fn difference_from_refusal(&self, line: &str) -> Option<&'static str> {
        if self.status != 3 {
            Some("status")
        } else if self.written(Port::Complaint) != line.as_bytes() {
            Some("complaint")
        } else if !self.name(Port::Wave).is_empty()
            || !self.name(Port::Report).is_empty()
            || !self.written(Port::Serial).is_empty()
        {
            Some("open port")
        } else {
            None
        }
    }

    pub fn status(&self) -> u8 {
        self.status
    }

    pub fn written(&self, port: Port) -> &[u8] {
        self.bench.written(port)
    }

    /// The name under which a port was opened, or nothing.
    pub fn name(&self, port: Port) -> &[u8] {
        match self.bench.name(port) {
            Some(name) => name,
            None => &[],
        }
    }

    /// Whether the wave was opened under the name, if it is one.
    fn is_opened_as(&self, name: &str) -> bool {
        match self.bench.name(Port::Wave) {
            Some(opened) => name.is_empty() || opened == name.as_bytes(),
            None => name.is_empty(),
        }
    }

    /// Says how the run ended.
    pub fn show(&self, rt: &HostRuntime) -> io::Result<()> {
        println!(rt; "ended with {}", self.status)?;
        for port in [Port::Complaint, Port::Report, Port::Serial, Port::Wave] {
            match str::from_utf8(self.bench.written(port)) {
                Ok(text) => print!(rt; "{text}")?,
                Err(_) => println!(rt; "bytes that are no text")?,
            }
        }
        Ok(())
    }
}

/// Whether bytes are a text, or where that is only begun any first part of it.
fn is_as(bytes: &[u8], text: &[u8], is_begun: bool) -> bool {
    bytes == text || is_begun && text.starts_with(bytes)
}

fn call<L: Ledger>(alloc: Global, words: &[String], bench: &mut MemBench, blank: Blank) -> u8
    requires name { blank.name ≡ L.name }
    requires parts { blank.parts ≡ L.parts }
    requires some { 0 < L.parts }
{
    let mut steps: Steps<L> = Steps::new(blank);
    simulate(alloc, words, bench, &mut steps)
}

/// The bytes of a file that are there.
fn there<'a>(file: &'a StagedFile, row: &Row, number: u32) -> &'a [u8] {
    let bytes = file.bytes.as_slice();
    if row.cut.as_str() == file.name.as_str() {
        &bytes[..bytes.len().min(number as usize)]
    } else {
        bytes
    }
}

/// Adds the files and the requests of a row and the room of each port, and which call fails.
fn fill_bench(
    bench: &mut MemBench,
    stage: &Stage,
    row: &Row,
    number: u32,
) -> Result<(), OutOfMemory> {
    for file in stage.files() {
        bench.add_file(file.name.as_str(), there(file, row, number))?;
    }
    for request in row.requests.as_slice() {
        bench.add_request(request.as_bytes())?;
    }
    bench.room(Port::Serial, SERIAL_ROOM)?;
    bench.room(Port::Wave, row.room)?;
    bench.room(Port::Report, REPORT_ROOM)?;
    bench.room(Port::Complaint, 1_000)?;
    if row.cut.is_empty() {
        bench.fail_call(number)?;
    }
    Ok(())
}

/// Runs the row once.
pub fn run_once(alloc: Global, stage: &Stage, row: &Row, number: u32) -> Result<Ended, AllocError> {
    let mut bench = MemBench::new(alloc);
    match fill_bench(&mut bench, stage, row, number) {
        Ok(()) => {
            let status = call::<Brand>(alloc, &row.words, &mut bench, Blank::new(1));
            Ok(Ended { status, bench })
        }
        Err(OutOfMemory) => {
            drop(bench);
            Err(AllocError)
        }
    }
}
