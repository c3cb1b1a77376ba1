//! A live board and its writer.
ghost use Rattle.std.specs.Prelude.{◌≡◌, ◌+◌, ◌≤◌, [], true, false};
ghost use Rattle.board_live.specs.LiveView.{wakes_by};
ghost use Rattle.vcd_text.specs.Ports.{Writes, Leaves, BreaksOff};
ghost use Rattle.wave_live.specs.Plays.{IsPlaying, writer_of, begun_by, texts_by};

use board_live::LiveBoard;
use board_run::RunEnd;
use part_law::Part;
use sim_base::{Bench, MOST_CYCLES, Port, Steps, WriteEnd};
use std::snapshot::Snapshot;
use std::sync::ledger::Ledger;
use vcd_text::{WaveHead, WaveMark, WaveWriter};

/// A live board, the head of its wave, and what its writer keeps between two pieces.
#[derive(Drop)]
pub struct Play<P: Part> {
    pub live: LiveBoard<P>,
    pub head: WaveHead,
    pub mark: WaveMark,
}

/// A live board at cycle 0 of whose wave and bytes nothing was written yet. `start` is the bench as it is lent: it has no bytes,
/// and clauses alone read it.
pub fn begin<P: Part, B: Bench>(
    live: LiveBoard<P>,
    head: WaveHead,
    wave: bool,
    serial: bool,
    bench: &mut B,
    start: &Snapshot<B>,
) -> Play<P>
    requires cycle { live.cycle ≡ 0 }
    requires lent { start.now.value ≡ bench.old }
    requires opened { wave ≡ true → (B.outside bench.old).opened Port.Wave ≡ true }
    ensures live { result.live ≡ live }
    ensures shown { result.head.variables ≡ head.variables }
    ensures wanted { ((writer_of result).wave ≡ wave) × ((writer_of result).serial ≡ serial) }
    ensures plays { IsPlaying P.Part result (B.outside start.now.value) (B.outside bench.new) }
{
    let mut head = head;
    let writer = WaveWriter::new(&mut head, bench, start, wave, serial);
    let mark = writer.mark();
    Play { live, head, mark }
}

/// Goes on to cycle n, at most `MOST_CYCLES`, and writes what is wanted of what the cycles before n show. If a write fails, the
/// live board is over.
pub fn play_to<P: Part, B: Bench, L: Ledger>(
    play: &mut Play<P>,
    n: u64,
    bench: &mut B,
    start: &Snapshot<B>,
    steps: &mut Steps<L>,
) -> WriteEnd
    requires alive { play.old.live.over ≡ false }
    requires order { play.old.live.cycle ≤ n }
    requires end { n ≤ MOST_CYCLES }
    requires plays { IsPlaying P.Part play.old (B.outside start.now.value) (B.outside bench.old) }
    ensures live { result ≡ WriteEnd.Ok → play.new.live ≡ record play.old.live { cycle = n } }
    ensures shown { result ≡ WriteEnd.Ok → play.new.head.variables ≡ play.old.head.variables }
    ensures plays { result ≡ WriteEnd.Ok → IsPlaying P.Part play.new (B.outside start.now.value) (B.outside bench.new) }
    ensures steps { result ≡ WriteEnd.Ok → steps.new + wakes_by P.Part play.old.live play.old.live.cycle
        ≡ steps.old + wakes_by P.Part play.old.live n }
    ensures over { result ≡ WriteEnd.Failed → play.new.live.over ≡ true }
    ensures broke { result ≡ WriteEnd.Failed → BreaksOff (texts_by P.Part play.old n) (B.outside start.now.value) (B.outside bench.new) }
{
    let mut writer = WaveWriter::again(&mut play.head, bench, start, play.mark);
    match play.live.run_to(n, &mut writer, steps) {
        RunEnd::Done => {
            play.mark = writer.mark();
            WriteEnd::Ok
        }
        RunEnd::WriteFault => WriteEnd::Failed,
    }
}

/// Writes what is kept of the wave, if one is wanted: its ports have the texts of all that the live board has shown, but for the
/// wave's last line.
pub fn flush<P: Part, B: Bench>(play: &mut Play<P>, bench: &mut B, start: &Snapshot<B>) -> WriteEnd
    requires { IsPlaying P.Part play.old (B.outside start.now.value) (B.outside bench.old) }
    ensures live { play.new.live ≡ play.old.live }
    ensures none_kept { result ≡ WriteEnd.Ok → play.new.head ≡ record (play.old.head) { text = [] } }
    ensures plays { result ≡ WriteEnd.Ok → IsPlaying P.Part play.new (B.outside start.now.value) (B.outside bench.new) }
    ensures wrote { result ≡ WriteEnd.Ok → Leaves (begun_by P.Part play.old) (B.outside start.now.value) (B.outside bench.new) }
    ensures broke { result ≡ WriteEnd.Failed → BreaksOff (begun_by P.Part play.old) (B.outside start.now.value) (B.outside bench.new) }
{
    let mut writer = WaveWriter::again(&mut play.head, bench, start, play.mark);
    match writer.flush() {
        WriteEnd::Ok => {
            play.mark = writer.mark();
            WriteEnd::Ok
        }
        WriteEnd::Failed => WriteEnd::Failed,
    }
}

/// Writes the end of the wave, if one is wanted: its ports have the texts of a run to the live board's cycle.
pub fn close<P: Part, B: Bench>(play: &mut Play<P>, bench: &mut B, start: &Snapshot<B>) -> WriteEnd
    requires alive { play.old.live.over ≡ false }
    requires plays { IsPlaying P.Part play.old (B.outside start.now.value) (B.outside bench.old) }
    ensures { Writes result (texts_by P.Part play.old play.old.live.cycle) (B.outside start.now.value) (B.outside bench.new) }
{
    let n = play.live.cycle();
    let mut writer = WaveWriter::again(&mut play.head, bench, start, play.mark);
    writer.end(n)
}
