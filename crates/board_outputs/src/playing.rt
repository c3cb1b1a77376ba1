//! A board that runs from cycle 0, and what it writes.
ghost use Rattle.std.specs.Prelude.{◌≡◌, ◌≤◌, ◌<◌, true, is_some};
ghost use Rattle.std.specs.Option.{option_map};
ghost use Rattle.sim_base.specs.Outside.{is_openable};
ghost use Rattle.text_model.specs.Wave.{wave_text};
ghost use Rattle.vcd_text.specs.Ports.{texts, Writes as WritesTexts};
ghost use Rattle.board_outputs.specs.Outputs.{outputs_of};
ghost use Rattle.board_outputs.specs.Ran.{OpensNamed, WritesUpToReport};
ghost use Rattle.board_outputs.specs.Start.{HasRun, IsAtStart, bytes_in, rows_in, wakes_in};

use board_run::{Board, RunEnd};
use part_law::Part;
use sim_base::{Bench, MOST_CYCLES, Port, Steps, WriteEnd};
use std::snapshot::Snapshot;
use std::sync::ledger::Ledger;
use vcd_text::{WaveHead, WaveWriter};

/// Where the texts of a run go: its bytes on Serial or nowhere, its wave and its report each in a file,
/// if one is named; `-` is standard output.
#[derive(Clone, Copy)]
pub struct Outputs<'a> {
    pub serial: bool,
    pub wave: Option<&'a str>,
    pub report: Option<&'a str>,
}

/// Opens a port on a file, if one is named.
fn open_named<B: Bench>(port: Port, name: Option<&str>, bench: &mut B) -> WriteEnd
    requires { is_openable port ≡ true }
    ensures { OpensNamed port (option_map (λ f. f.now) name.entry) result (B.outside bench.old) (B.outside bench.new) }
{
    match name {
        Some(name) => bench.open_port(port, name),
        None => WriteEnd::Ok,
    }
}

/// Runs the board from cycle 0 up to cycle `n` and writes what is wanted of its wave and its bytes.
fn play<P: Part, B: Bench, L: Ledger>(
    board: &mut Board<P>,
    head: &mut WaveHead,
    n: u64,
    wave: bool,
    serial: bool,
    bench: &mut B,
    steps: &mut Steps<L>,
) -> WriteEnd
    requires start { IsAtStart board.old }
    requires some { 0 < n }
    requires end { n ≤ MOST_CYCLES }
    requires opened { wave ≡ true → (B.outside bench.old).opened Port.Wave ≡ true }
    ensures wrote { WritesTexts result
        (texts wave serial (wave_text head.old.variables (rows_in P.Part board.old n) n) (bytes_in P.Part board.old n))
        (B.outside bench.old) (B.outside bench.new) }
    ensures ran { result ≡ WriteEnd.Ok → HasRun P.Part board.old n board.new steps.old steps.new }
{
    let start = Snapshot::of(&*bench);
    let mut writer = WaveWriter::new(head, bench, &start, wave, serial);
    match board.run(n, &mut writer, steps) {
        RunEnd::Done => writer.end(n),
        RunEnd::WriteFault => WriteEnd::Failed,
    }
}

/// Opens the outputs, runs the board from cycle 0 up to cycle `n`, and writes its wave and its bytes while it
/// runs; the report is left to be written.
pub fn open_and_play<P: Part, B: Bench, L: Ledger>(
    board: &mut Board<P>,
    head: &mut WaveHead,
    n: u64,
    outputs: Outputs,
    bench: &mut B,
    steps: &mut Steps<L>,
) -> WriteEnd
    requires start { IsAtStart board.old }
    requires some { 0 < n }
    requires end { n ≤ MOST_CYCLES }
    ensures wrote { WritesUpToReport result (outputs_of outputs.entry)
        (wave_text head.old.variables (rows_in P.Part board.old n) n) (bytes_in P.Part board.old n) (wakes_in P.Part board.old n)
        (B.outside bench.old) (B.outside bench.new) }
    ensures opened { result ≡ WriteEnd.Ok → is_some outputs.entry.report ≡ true → (B.outside bench.new).opened Port.Report ≡ true }
    ensures ran { result ≡ WriteEnd.Ok → HasRun P.Part board.old n board.new steps.old steps.new }
{
    match open_named(Port::Wave, outputs.wave, bench) {
        WriteEnd::Ok => {}
        WriteEnd::Failed => return WriteEnd::Failed,
    }
    match open_named(Port::Report, outputs.report, bench) {
        WriteEnd::Ok => {}
        WriteEnd::Failed => return WriteEnd::Failed,
    }
    let wave = outputs.wave.is_some();
    play(board, head, n, wave, outputs.serial, bench, steps)
}
