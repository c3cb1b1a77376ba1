//! The environment of the program, as a trait: files, ports and counts of faults.
ghost use Rattle.std.specs.Prelude.{◌≡◌, ◌≢◌, ℕ, [], Bool, true};
ghost use Rattle.sim_base.specs.declared.bench.Port.{Port};
ghost use Rattle.sim_base.specs.declared.bench.Port.TheVariants as ports;
ghost use Rattle.sim_base.specs.Causes.{ReadCause, LineCause, WriteCause};
ghost use Rattle.sim_base.specs.Outside.{Outside, SamePorts, SameOthers, Opens, WriteLeaves, ReadsTold, ReadFits, LineTold, is_openable};

use arrayvec::ArrayVec;

/// Where the program writes: the serial bytes, the wave, the report, and the one line of a complaint.
#[derive(Clone, Copy, Debug, PartialEq, Eq)]
pub enum Port {
    Serial,
    Wave,
    Report,
    Complaint,
}

#[derive(Clone, Copy, Debug, PartialEq, Eq)]
pub enum ReadEnd {
    Ok,
    Missing,
    TooLong,
    Failed,
    OutOfMemory,
}

/// What comes next where a line of requests is read.
#[derive(Clone, Copy, Debug, PartialEq, Eq)]
pub enum LineEnd {
    Line,
    /// A line of more than 1,024 bytes, which is passed over.
    TooLong,
    /// No line is left.
    Over,
    Failed,
}

#[derive(Clone, Copy, Debug, PartialEq, Eq)]
pub enum WriteEnd {
    Ok,
    Failed,
}

/// Files, requests and ports. A count of faults never falls, and a call raises the one count that it names
/// and only where it answers `Failed`.
pub trait Bench {
    /// Files, requests, ports and counts of faults.
    ghost outside: { Self → Outside };

    /// Reads a whole file of at most `limit` bytes into an empty Vec, which stays empty after every
    /// answer but `Ok`.
    fn read_file(&mut self, name: &str, limit: u32, into: &mut Vec<u8>) -> ReadEnd
        requires { into.old.items ≡ [] }
        ensures told { ReadsTold result (outside self.old).files name.now limit into.new.items }
        ensures fits { ReadFits result limit into.new.items }
        ensures cause { ReadCause result (outside self.old).read_faults (outside self.new).read_faults }
        ensures ports { SamePorts (outside self.old) (outside self.new) };

    /// Reads the next line of requests into an empty ArrayVec, without the line feed at its end; the last line may have none.
    /// The ArrayVec stays empty after every answer but `Line`.
    fn read_line(&mut self, into: &mut ArrayVec<u8, 1024>) -> LineEnd
        requires { into.old.items ≡ [] }
        ensures told { LineTold result (outside self.old).requests into.new.items (outside self.new).requests }
        ensures none { result ≢ LineEnd.Line → into.new.items ≡ [] }
        ensures cause { LineCause result (outside self.old).read_faults (outside self.new).read_faults }
        ensures ports { SamePorts (record (outside self.old) { requests = (outside self.new).requests }) (outside self.new) };

    /// Opens Wave or Report on the file of this name, which is empty then; `-` is standard output.
    fn open_port(&mut self, port: Port, name: &str) -> WriteEnd
        requires { is_openable port ≡ true }
        ensures opens { Opens result port name.now (outside self.old) (outside self.new) }
        ensures others { SameOthers port (outside self.old) (outside self.new) };

    /// Appends to an open port; of a write that fails a first part may stand there.
    fn write(&mut self, port: Port, bytes: &[u8]) -> WriteEnd
        requires { (outside self.old).opened port ≡ true }
        ensures leaves { WriteLeaves result ((outside self.old).written port) ((outside self.new).written port) bytes.now }
        ensures cause { WriteCause result ((outside self.old).faults port) ((outside self.new).faults port) }
        ensures named { (outside self.new).name port ≡ (outside self.old).name port }
        ensures opened { (outside self.new).opened port ≡ (outside self.old).opened port }
        ensures others { SameOthers port (outside self.old) (outside self.new) };

    /// Serial and Complaint are open from the start.
    ghost always_open: { (b : Self) → ((outside b).opened ports.Serial ≡ true) × ((outside b).opened ports.Complaint ≡ true) };
}
