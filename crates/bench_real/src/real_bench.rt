//! `RealBench` and its counts of faults.
ghost use Rattle.std.specs.Prelude.{◌≡◌, [], true, IfSome, if◌then◌else◌};
ghost use Rattle.sim_base.specs.Causes.{WriteCause};
ghost use Rattle.sim_base.specs.Outside.{ReadFits};
ghost use Rattle.bench_real.specs.Sinks.{is_open};

use crate::copying::{complain, print_whole, read_up_to, write_whole};
use crate::lines::LineReader;
use arrayvec::ArrayVec;
use sim_base::{Bench, LineEnd, Port, ReadEnd, WriteEnd};
use std::fs::File;
use std::io::ErrorKind;
use std::rt::{Files, Runtime};

/// Where an opened port leads.
#[derive(Drop)]
enum Sink<F> {
    Closed,
    Standard,
    Opened(F),
}

/// The system as a bench: Serial is standard output and Complaint is standard error; Wave and
/// Report lead to files, or with the name `-` to standard output. Requests are the lines of standard input. It tells no content.
#[derive(Drop)]
pub struct RealBench<R: Runtime> {
    rt: R,
    // What stands where standard input, output or error is closed.
    stands: (Option<R::File>, Option<R::File>, Option<R::File>),
    requests: LineReader<R::Reader>,
    wave: Sink<R::File>,
    report: Sink<R::File>,
    read_faults: u64,
    serial_faults: u64,
    wave_faults: u64,
    report_faults: u64,
    complaint_faults: u64,
}

impl<R: Runtime> RealBench<R> {
    /// A bench over the runtime that `main` was given, with no port of its own open.
    pub fn new(rt: R) -> RealBench<R> {
        let stands = (stand(&rt), stand(&rt), stand(&rt));
        let requests = LineReader::new(rt.reader());
        RealBench {
            rt,
            stands,
            requests,
            wave: Sink::Closed,
            report: Sink::Closed,
            read_faults: 0,
            serial_faults: 0,
            wave_faults: 0,
            report_faults: 0,
            complaint_faults: 0,
        }
    }
}

/// A file that can only be read. The system gives a file the least number that is free, so where standard output is closed an
/// output would take its number, and the bytes that are sent would go into it; with this one there, writing them fails.
fn stand<R: Runtime>(rt: &R) -> Option<R::File> {
    File::open(rt, "/dev/null").ok()
}

fn open_sink<R: Runtime>(rt: &R, name: &str) -> Option<Sink<R::File>>
    ensures { IfSome result (λ sink. is_open sink ≡ true) }
{
    if name == "-" {
        return Some(Sink::Standard);
    }
    match File::create(rt, name) {
        Ok(file) => Some(Sink::Opened(file)),
        Err(_) => None,
    }
}

fn write_sink<R: Runtime>(rt: &R, sink: &mut Sink<R::File>, bytes: &[u8]) -> bool
    ensures { is_open sink.new ≡ is_open sink.old }
{
    match sink {
        Sink::Closed => false,
        Sink::Standard => print_whole(rt, bytes),
        Sink::Opened(file) => write_whole(file, bytes),
    }
}

fn read_whole<R: Runtime>(rt: &R, name: &str, limit: u32, into: &mut Vec<u8>) -> ReadEnd
    requires { into.old.items ≡ [] }
    ensures { ReadFits result limit into.new.items }
{
    let end = match File::open(rt, name) {
        Ok(file) => read_up_to(file, limit, into),
        Err(error) if error.kind() == ErrorKind::NotFound => ReadEnd::Missing,
        Err(_) => ReadEnd::Failed,
    };
    match end {
        ReadEnd::Ok => {}
        ReadEnd::Missing | ReadEnd::TooLong | ReadEnd::Failed | ReadEnd::OutOfMemory =>
            into.clear(),
    }
    end
}

/// The end of a write, whose count of faults rises where it failed.
fn ended(done: bool, faults: &mut u64) -> WriteEnd
    ensures answer { result ≡ (if done then WriteEnd.Ok else WriteEnd.Failed) }
    ensures cause { WriteCause result faults.old faults.new }
{
    if done {
        WriteEnd::Ok
    } else {
        *faults = faults.saturating_add(1);
        WriteEnd::Failed
    }
}

impl<R: Runtime> Bench for RealBench<R> {
    ghost use Rattle.std.specs.Prelude.{None, true, refl};
    ghost use Rattle.sim_base.specs.declared.bench.Port.TheVariants as ports;
    ghost use Rattle.bench_real.specs.Sinks.{is_open};

    ghost outside = { λ b. record {
      files = None;
      requests = None;
      written = λ p. None;
      name = λ p. None;
      opened = elim [ ports.Serial ↦ true | ports.Wave ↦ is_open b.wave | ports.Report ↦ is_open b.report | ports.Complaint ↦ true ];
      read_faults = b.read_faults;
      faults = elim [ ports.Serial ↦ b.serial_faults | ports.Wave ↦ b.wave_faults | ports.Report ↦ b.report_faults | ports.Complaint ↦ b.complaint_faults ];
    } };

    fn read_file(&mut self, name: &str, limit: u32, into: &mut Vec<u8>) -> ReadEnd {
        let end = read_whole(&self.rt, name, limit, into);
        if end == ReadEnd::Failed {
            self.read_faults = self.read_faults.saturating_add(1);
        }
        end
    }

    fn read_line(&mut self, into: &mut ArrayVec<u8, 1024>) -> LineEnd {
        let end = self.requests.read_line(into);
        if end == LineEnd::Failed {
            self.read_faults = self.read_faults.saturating_add(1);
        }
        end
    }

    fn open_port(&mut self, port: Port, name: &str) -> WriteEnd {
        match port {
            Port::Wave => match open_sink(&self.rt, name) {
                Some(sink) => {
                    self.wave = sink;
                    WriteEnd::Ok
                }
                None => ended(false, &mut self.wave_faults),
            },
            Port::Report => match open_sink(&self.rt, name) {
                Some(sink) => {
                    self.report = sink;
                    WriteEnd::Ok
                }
                None => ended(false, &mut self.report_faults),
            },
            Port::Serial | Port::Complaint => unreachable!(),
        }
    }

    fn write(&mut self, port: Port, bytes: &[u8]) -> WriteEnd {
        match port {
            Port::Serial => ended(print_whole(&self.rt, bytes), &mut self.serial_faults),
            Port::Wave => {
                let done = write_sink(&self.rt, &mut self.wave, bytes);
                ended(done, &mut self.wave_faults)
            }
            Port::Report => {
                let done = write_sink(&self.rt, &mut self.report, bytes);
                ended(done, &mut self.report_faults)
            }
            Port::Complaint => ended(complain(&self.rt, bytes), &mut self.complaint_faults),
        }
    }

    ghost always_open = { λ _. (refl, refl) };
}
