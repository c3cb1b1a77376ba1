//! A bench in memory, for tests and for callers that keep their files themselves.
ghost use Rattle.std.specs.Prelude.{◌≡◌, ◌≢◌, ℕ, List, [], ◌+◌, ◌^◌, ◌-◌, ◌≤◌, ◌∷◌, ◌++◌, map, Some, Bool, true, false, OnErr, OnOk, OnErr, length, vec_capacity, string_bytes, if◌then◌else◌, Option, not, nat_lt};
ghost use Rattle.std.specs.Option.{option_map};
ghost use Rattle.sim_base.specs.Mem.{port_of, with_port, with_open, called, fails_next, file_in, line_end, lines_left, writes_on, write_end, stored, opens_on, opened, read_end, roomless, roomy, new_bench, outside_of, after_read, after_line, after_open, after_write};
ghost use Rattle.sim_base.specs.Causes.{ReadCause, LineCause, WriteCause};
ghost use Rattle.sim_base.specs.Outside.{ReadsFile, ReadFits, ReadsTold, TakesLine, LineTold, SamePorts, SameOthers, Opens, WriteLeaves, is_openable};
ghost use Rattle.sim_base.specs.declared.bench.Port.{Port};

use crate::bench::{Bench, LineEnd, Port, ReadEnd, WriteEnd};
use crate::fault::OutOfMemory;
use crate::list::List;
use arrayvec::ArrayVec;
use std::alloc::Global;
use std::marker::Model;

#[derive(Drop)]
struct StoredFile {
    name: String,
    bytes: Vec<u8>,
}

impl Model for StoredFile {
    ghost use Rattle.std.specs.Prelude.{List, ℕ, string_bytes};

    ghost Value = { List ℕ × List ℕ };

    ghost view = { λ f. (string_bytes f.name, f.bytes.items) };
}

#[derive(Drop)]
struct PortStore {
    bytes: Vec<u8>,
    room: usize,
    /// The name under which it was opened last.
    name: Option<ArrayVec<u8, 255>>,
    faults: u64,
}

impl Model for PortStore {
    ghost use Rattle.std.specs.Prelude.{◌≤◌, vec_capacity};
    ghost use Rattle.std.specs.Option.{option_map};
    ghost use Rattle.sim_base.specs.Mem.{Store};

    ghost Value = { Store };

    ghost view = { λ p. record { bytes = p.bytes.items; room = p.room; name = option_map (λ n. n.items) p.name; faults = p.faults } };

    ghost invariant = { λ p. p.room ≤ vec_capacity p.bytes };
}

fn copied(bytes: &[u8]) -> ArrayVec<u8, 255>
    requires { length bytes.now ≤ 255 }
    ensures { result.items ≡ bytes.now }
{
    let mut copy = ArrayVec::new();
    for b in bytes {
        copy.push(*b);
    }
    copy
}

impl PortStore {
    fn new(alloc: Global) -> PortStore
        ensures { result ≡ roomless }
    {
        PortStore {
            bytes: Vec::new(alloc),
            room: 0,
            name: None,
            faults: 0,
        }
    }

    fn append(&mut self, bytes: &[u8], fails: bool) -> WriteEnd
        ensures answer { result ≡ write_end (writes_on fails self.old bytes.now) }
        ensures leaves { self.new ≡ stored (writes_on fails self.old bytes.now) self.old bytes.now }
        ensures cause { WriteCause result self.old.faults self.new.faults }
    {
        let left = self.room.saturating_sub(self.bytes.len());
        if !fails && bytes.len() <= left {
            match self.bytes.extend_from_slice(bytes) {
                Ok(()) => WriteEnd::Ok,
                Err(_) => unreachable!(),
            }
        } else {
            self.faults = self.faults.saturating_add(1);
            WriteEnd::Failed
        }
    }

    fn open(&mut self, name: &str, fails: bool) -> WriteEnd
        ensures answer { result ≡ write_end (opens_on fails name.now) }
        ensures leaves { self.new ≡ opened (opens_on fails name.now) self.old name.now }
        ensures cause { WriteCause result self.old.faults self.new.faults }
    {
        let name = name.as_bytes();
        if !fails && name.len() <= 255 {
            self.bytes.clear();
            self.name = Some(copied(name));
            WriteEnd::Ok
        } else {
            self.faults = self.faults.saturating_add(1);
            WriteEnd::Failed
        }
    }

    fn name(&self) -> Option<&[u8]>
        ensures { option_map (λ n. n.now) result ≡ self.now.name }
    {
        match &self.name {
            Some(name) => Some(name.as_slice()),
            None => None,
        }
    }

    fn reserve(&mut self, bytes: usize) -> Result<(), OutOfMemory>
        ensures ok { OnOk result (self.new ≡ roomy self.old bytes) }
        ensures err { OnErr result (self.new ≡ self.old) }
    {
        if bytes > self.room {
            self.bytes.reserve(bytes.saturating_sub(self.bytes.len()))?;
            self.room = bytes;
        }
        Ok(())
    }
}

/// Keeps and tells its files, its requests, what is written, and the names under which ports were opened. A call
/// fails exactly where its number is listed, counted from 1 over the calls of `Bench`, where a write
/// passes the room of its port, or where a port is opened under a name of more than 255 bytes.
#[derive(Drop)]
pub struct MemBench {
    alloc: Global,
    files: Vec<StoredFile>,
    /// The lines that are still to be read.
    requests: Vec<List<u8>>,
    serial: PortStore,
    wave: PortStore,
    report: PortStore,
    complaint: PortStore,
    wave_open: bool,
    report_open: bool,
    read_faults: u64,
    calls: u64,
    failing: Vec<u32>,
}

impl Model for MemBench {
    ghost use Rattle.sim_base.specs.Mem.{MemState};

    ghost Value = { MemState };

    ghost view = { λ a. record {
      files = a.files.items;
      requests = a.requests.items;
      serial = a.serial;
      wave = a.wave;
      report = a.report;
      complaint = a.complaint;
      wave_open = a.wave_open;
      report_open = a.report_open;
      read_faults = a.read_faults;
      calls = a.calls;
      failing = a.failing.items;
    } };
}

/// Copies a line, unless it is too long.
fn copy_line(line: &[u8], into: &mut ArrayVec<u8, 1024>) -> LineEnd
    requires { into.old.items ≡ [] }
    ensures answer { result ≡ (if nat_lt 1024 (length line.now) then LineEnd.TooLong else LineEnd.Line) }
    ensures line { result ≡ LineEnd.Line → into.new.items ≡ line.now }
    ensures none { result ≢ LineEnd.Line → into.new.items ≡ [] }
{
    if line.len() > 1024 {
        return LineEnd::TooLong;
    }
    for b in line {
        into.push(*b);
    }
    LineEnd::Line
}

fn find_file<'a>(files: &'a [StoredFile], name: &str) -> Option<&'a StoredFile>
    ensures { option_map (λ f. f.now.1) result ≡ file_in name.now files.now }
{
    for file in files {
        if name == file.name.as_str() {
            return Some(file);
        }
    }
    None
}

impl MemBench {
    /// A bench without files, without room and without faults, whose Wave and Report are not open.
    pub fn new(alloc: Global) -> MemBench
        ensures { result ≡ new_bench }
    {
        MemBench {
            alloc,
            files: Vec::new(alloc),
            requests: Vec::new(alloc),
            serial: PortStore::new(alloc),
            wave: PortStore::new(alloc),
            report: PortStore::new(alloc),
            complaint: PortStore::new(alloc),
            wave_open: false,
            report_open: false,
            read_faults: 0,
            calls: 0,
            failing: Vec::new(alloc),
        }
    }

    /// Adds or replaces a file; if memory runs out, all is as before.
    pub fn add_file(&mut self, name: &str, bytes: &[u8]) -> Result<(), OutOfMemory>
        ensures ok { OnOk result (self.new ≡ record self.old { files = (name.now, bytes.now) ∷ self.old.files }) }
        ensures err { OnErr result (self.new ≡ self.old) }
    {
        let file = StoredFile {
            name: String::from_str(self.alloc, name)?,
            bytes: Vec::from_slice(self.alloc, bytes)?,
        };
        self.files.insert(0, file)?;
        Ok(())
    }

    /// Adds a line behind its requests, without the line feed at its end; if memory runs out, all is as before.
    pub fn add_request(&mut self, line: &[u8]) -> Result<(), OutOfMemory>
        ensures ok { OnOk result (self.new ≡ record self.old { requests = self.old.requests ++ line.now ∷ [] }) }
        ensures err { OnErr result (self.new ≡ self.old) }
    {
        let line = Vec::from_slice(self.alloc, line)?;
        self.requests.push(List::from_vec(line))?;
        Ok(())
    }

    /// Makes a port hold at least so many bytes; if memory runs out, all is as before.
    pub fn room(&mut self, port: Port, bytes: u32) -> Result<(), OutOfMemory>
        ensures ok { OnOk result (self.new ≡ with_port self.old port (roomy (port_of self.old port) bytes)) }
        ensures err { OnErr result (self.new ≡ self.old) }
    {
        match port {
            Port::Serial => self.serial.reserve(bytes as usize),
            Port::Wave => self.wave.reserve(bytes as usize),
            Port::Report => self.report.reserve(bytes as usize),
            Port::Complaint => self.complaint.reserve(bytes as usize),
        }
    }

    /// Lists the number of a call that is to fail; if memory runs out, all is as before.
    pub fn fail_call(&mut self, number: u32) -> Result<(), OutOfMemory>
        ensures ok { OnOk result (self.new ≡ record self.old { failing = self.old.failing ++ number ∷ [] }) }
        ensures err { OnErr result (self.new ≡ self.old) }
    {
        self.failing.push(number)?;
        Ok(())
    }

    /// What a port holds.
    pub fn written(&self, port: Port) -> &[u8]
        ensures { result.now ≡ (port_of self.now port).bytes }
    {
        match port {
            Port::Serial => self.serial.bytes.as_slice(),
            Port::Wave => self.wave.bytes.as_slice(),
            Port::Report => self.report.bytes.as_slice(),
            Port::Complaint => self.complaint.bytes.as_slice(),
        }
    }

    /// The name under which a port was opened last.
    pub fn name(&self, port: Port) -> Option<&[u8]>
        ensures { option_map (λ n. n.now) result ≡ (port_of self.now port).name }
    {
        match port {
            Port::Serial => self.serial.name(),
            Port::Wave => self.wave.name(),
            Port::Report => self.report.name(),
            Port::Complaint => self.complaint.name(),
        }
    }

    /// Counts a call, and answers whether it is to fail.
    fn count_call(&mut self) -> bool
        ensures fails { result ≡ fails_next self.old }
        ensures called { self.new ≡ called self.old }
    {
        let number = self.calls.saturating_add(1);
        let fails = self.failing.iter().any(|n| u64::from(*n) == number);
        self.calls = number;
        fails
    }

    fn store(&mut self, port: Port, bytes: &[u8], fails: bool) -> WriteEnd
        ensures answer { result ≡ write_end (writes_on fails (port_of self.old port) bytes.now) }
        ensures leaves { self.new ≡ with_port self.old port (stored (writes_on fails (port_of self.old port) bytes.now) (port_of self.old port) bytes.now) }
        ensures cause { WriteCause result (port_of self.old port).faults (port_of self.new port).faults }
    {
        match port {
            Port::Serial => self.serial.append(bytes, fails),
            Port::Wave => self.wave.append(bytes, fails),
            Port::Report => self.report.append(bytes, fails),
            Port::Complaint => self.complaint.append(bytes, fails),
        }
    }

    fn open_store(&mut self, port: Port, name: &str, fails: bool) -> WriteEnd
        ensures answer { result ≡ write_end (opens_on fails name.now) }
        ensures leaves { self.new ≡ with_open (with_port self.old port (opened (opens_on fails name.now) (port_of self.old port) name.now)) port (opens_on fails name.now) }
        ensures cause { WriteCause result (port_of self.old port).faults (port_of self.new port).faults }
    {
        let done = !fails && name.len() <= 255;
        match port {
            Port::Serial => self.serial.open(name, fails),
            Port::Wave => {
                self.wave_open = self.wave_open || done;
                self.wave.open(name, fails)
            }
            Port::Report => {
                self.report_open = self.report_open || done;
                self.report.open(name, fails)
            }
            Port::Complaint => self.complaint.open(name, fails),
        }
    }

    /// Copies a file of at most so many bytes.
    fn copy_file(&self, name: &str, limit: u32, into: &mut Vec<u8>) -> ReadEnd
        requires { into.old.items ≡ [] }
        ensures read { ReadsFile result (file_in name.now self.now.files) limit into.new.items }
        ensures fits { ReadFits result limit into.new.items }
        ensures answer { result ≢ ReadEnd.OutOfMemory → result ≡ read_end (file_in name.now self.now.files) limit }
    {
        match find_file(&self.files, name) {
            None => ReadEnd::Missing,
            Some(file) if file.bytes.len() > limit as usize => ReadEnd::TooLong,
            Some(file) => match into.extend_from_slice(file.bytes.as_slice()) {
                Ok(()) => ReadEnd::Ok,
                Err(_) => ReadEnd::OutOfMemory,
            },
        }
    }

    /// Takes the next line of requests out.
    fn take_line(&mut self, into: &mut ArrayVec<u8, 1024>) -> LineEnd
        requires { into.old.items ≡ [] }
        ensures takes { TakesLine result self.old.requests into.new.items self.new.requests }
        ensures none { result ≢ LineEnd.Line → into.new.items ≡ [] }
        ensures answer { result ≡ line_end self.old.requests }
        ensures leaves { self.new ≡ record self.old { requests = lines_left self.old.requests } }
    {
        if self.requests.is_empty() {
            return LineEnd::Over;
        }
        let line = self.requests.remove(0);
        copy_line(line.as_slice(), into)
    }
}

impl Bench for MemBench {
    ghost use Rattle.std.specs.Prelude.{refl};
    ghost use Rattle.sim_base.specs.Mem.{outside_of};

    ghost outside = { outside_of };

    fn read_file(&mut self, name: &str, limit: u32, into: &mut Vec<u8>) -> ReadEnd
        requires { into.old.items ≡ [] }
        ensures told { ReadsTold result (outside_of self.old).files name.now limit into.new.items }
        ensures fits { ReadFits result limit into.new.items }
        ensures cause { ReadCause result self.old.read_faults self.new.read_faults }
        ensures ports { SamePorts (outside_of self.old) (outside_of self.new) }
        ensures failed { fails_next self.old ≡ true → result ≡ ReadEnd.Failed }
        ensures answer { fails_next self.old ≡ false → result ≢ ReadEnd.OutOfMemory → result ≡ read_end (file_in name.now self.old.files) limit }
        ensures leaves { self.new ≡ after_read self.old }
    {
        if self.count_call() {
            self.read_faults = self.read_faults.saturating_add(1);
            return ReadEnd::Failed;
        }
        self.copy_file(name, limit, into)
    }

    fn read_line(&mut self, into: &mut ArrayVec<u8, 1024>) -> LineEnd
        requires { into.old.items ≡ [] }
        ensures told { LineTold result (outside_of self.old).requests into.new.items (outside_of self.new).requests }
        ensures none { result ≢ LineEnd.Line → into.new.items ≡ [] }
        ensures cause { LineCause result self.old.read_faults self.new.read_faults }
        ensures ports { SamePorts (record (outside_of self.old) { requests = (outside_of self.new).requests }) (outside_of self.new) }
        ensures failed { fails_next self.old ≡ true → result ≡ LineEnd.Failed }
        ensures answer { fails_next self.old ≡ false → result ≡ line_end self.old.requests }
        ensures leaves { self.new ≡ after_line self.old }
    {
        if self.count_call() {
            self.read_faults = self.read_faults.saturating_add(1);
            return LineEnd::Failed;
        }
        self.take_line(into)
    }

    fn open_port(&mut self, port: Port, name: &str) -> WriteEnd
        requires { is_openable port ≡ true }
        ensures opens { Opens result port name.now (outside_of self.old) (outside_of self.new) }
        ensures others { SameOthers port (outside_of self.old) (outside_of self.new) }
        ensures answer { result ≡ write_end (opens_on (fails_next self.old) name.now) }
        ensures leaves { self.new ≡ after_open self.old port name.now }
    {
        let fails = self.count_call();
        self.open_store(port, name, fails)
    }

    fn write(&mut self, port: Port, bytes: &[u8]) -> WriteEnd
        requires { (outside_of self.old).opened port ≡ true }
        ensures leaves { WriteLeaves result ((outside_of self.old).written port) ((outside_of self.new).written port) bytes.now }
        ensures cause { WriteCause result ((outside_of self.old).faults port) ((outside_of self.new).faults port) }
        ensures named { (outside_of self.new).name port ≡ (outside_of self.old).name port }
        ensures opened { (outside_of self.new).opened port ≡ (outside_of self.old).opened port }
        ensures others { SameOthers port (outside_of self.old) (outside_of self.new) }
        ensures answer { result ≡ write_end (writes_on (fails_next self.old) (port_of self.old port) bytes.now) }
        ensures state { self.new ≡ after_write self.old port bytes.now }
    {
        let fails = self.count_call();
        self.store(port, bytes, fails)
    }

    ghost always_open = { λ _. (refl, refl) };
}
