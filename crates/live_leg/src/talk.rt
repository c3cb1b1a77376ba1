//! A live board that is asked.
ghost use Rattle.std.specs.Prelude.{◌≡◌, ℕ, ◌-◌, ◌<◌, ◌≤◌, List, [], ◌++◌, length, map, true, false, OnOk, OnErr};
ghost use Rattle.sim_base.specs.Outside.{Outside};
ghost use Rattle.text_model.specs.Wave.{begun_text};
ghost use Rattle.law_board.specs.Scripts.{with_input, SameRun};
ghost use Rattle.board_live.specs.LiveView.{rows_by, bytes_by};
ghost use Rattle.vcd_text.specs.Ports.{Leaves, BreaksOff, Writes};
ghost use Rattle.vcd_text.specs.Writers.{capped};
ghost use Rattle.live_leg.specs.Said.{HasSaid};
ghost use Rattle.live_leg.specs.SentView.{most_sent, sent_room};
ghost use Rattle.live_leg.specs.Talks.{MayTalk, HasGone, HasBroken, IsLegEnd, StaysFrom, tied_of, sent_by, begun_texts, whole_texts};

use crate::leg::Leg;
use crate::sent::Sent;
use board_live::LiveBoard;
use board_run::RunEnd;
use part_law::Part;
use sim_base::{Bench, Input, MOST_CYCLES, OutOfMemory, Port, Steps, WriteEnd};
use std::snapshot::Snapshot;
use std::sync::ledger::Ledger;
use vcd_text::{WaveHead, WaveMark, WaveWriter};

/// A live board, what its writer keeps between two legs, and the bytes of a leg.
#[derive(Drop)]
pub struct Talk<P: Part> {
    pub live: LiveBoard<P>,
    pub head: WaveHead,
    pub mark: WaveMark,
    pub sent: Sent,
    /// The cycle from which on the bytes are kept.
    pub from: u64,
}

/// A conversation over a live board at cycle 0, in which nothing was said yet. `start` is the bench as it is lent: it has no bytes,
/// and clauses alone read it.
pub fn begin<P: Part, B: Bench>(
    live: LiveBoard<P>,
    head: WaveHead,
    sent: Sent,
    wave: bool,
    bench: &mut B,
    start: &Snapshot<B>,
) -> Talk<P>
    requires cycle { live.cycle ≡ 0 }
    requires alive { live.over ≡ false }
    requires few { length live.start ≤ 64 }
    requires lent { start.now.value ≡ bench.old }
    requires opened { wave ≡ true → (B.outside bench.old).opened Port.Wave ≡ true }
    ensures live { result.live ≡ live }
    ensures from { result.from ≡ 0 }
    ensures tied { tied_of result ≡ record { variables = head.variables; wave = wave } }
    ensures talks { MayTalk P.Part result (B.outside start.now.value) (B.outside bench.new) }
    ensures said { HasSaid (B.outside start.now.value) (B.outside bench.new) [] }
    ensures requests { (B.outside bench.new).requests ≡ (B.outside bench.old).requests }
{
    let mut head = head;
    let mut sent = sent;
    sent.restart();
    let writer = WaveWriter::new(&mut head, bench, start, wave, true);
    let mark = writer.mark();
    Talk {
        live,
        head,
        mark,
        sent,
        from: 0,
    }
}

/// Writes a text on Serial.
pub fn say<P: Part, B: Bench>(
    talk: &mut Talk<P>,
    text: &[u8],
    bench: &mut B,
    start: &Snapshot<B>,
) -> WriteEnd
    requires { MayTalk P.Part talk.old (B.outside start.now.value) (B.outside bench.old) }
    ensures live { talk.new.live ≡ talk.old.live }
    ensures sent { talk.new.sent ≡ talk.old.sent }
    ensures from { talk.new.from ≡ talk.old.from }
    ensures tied { result ≡ WriteEnd.Ok → tied_of talk.new ≡ tied_of talk.old }
    ensures talks { result ≡ WriteEnd.Ok → MayTalk P.Part talk.new (B.outside start.now.value) (B.outside bench.new) }
    ensures said { result ≡ WriteEnd.Ok → HasSaid (B.outside bench.old) (B.outside bench.new) text.now }
    ensures broke { result ≡ WriteEnd.Failed → (said : List ℕ) → HasSaid (B.outside start.now.value) (B.outside bench.old) said
        → BreaksOff (begun_texts P.Part talk.old talk.old.live.cycle (said ++ text.now)) (B.outside start.now.value) (B.outside bench.new) }
    ensures requests { (B.outside bench.new).requests ≡ (B.outside bench.old).requests }
{
    let mut writer = WaveWriter::again(&mut talk.head, bench, start, talk.mark);
    match writer.send(text) {
        WriteEnd::Ok => {
            talk.mark = writer.mark();
            WriteEnd::Ok
        }
        WriteEnd::Failed => WriteEnd::Failed,
    }
}

/// Writes the bytes of the leg on Serial.
pub fn say_sent<P: Part, B: Bench>(
    talk: &mut Talk<P>,
    bench: &mut B,
    start: &Snapshot<B>,
) -> WriteEnd
    requires { MayTalk P.Part talk.old (B.outside start.now.value) (B.outside bench.old) }
    ensures live { talk.new.live ≡ talk.old.live }
    ensures sent { talk.new.sent ≡ talk.old.sent }
    ensures from { talk.new.from ≡ talk.old.from }
    ensures tied { result ≡ WriteEnd.Ok → tied_of talk.new ≡ tied_of talk.old }
    ensures talks { result ≡ WriteEnd.Ok → MayTalk P.Part talk.new (B.outside start.now.value) (B.outside bench.new) }
    ensures said { result ≡ WriteEnd.Ok → HasSaid (B.outside bench.old) (B.outside bench.new) talk.old.sent.bytes }
    ensures broke { result ≡ WriteEnd.Failed → (said : List ℕ) → HasSaid (B.outside start.now.value) (B.outside bench.old) said
        → BreaksOff (begun_texts P.Part talk.old talk.old.live.cycle (said ++ talk.old.sent.bytes)) (B.outside start.now.value) (B.outside bench.new) }
    ensures requests { (B.outside bench.new).requests ≡ (B.outside bench.old).requests }
{
    let mut writer = WaveWriter::again(&mut talk.head, bench, start, talk.mark);
    match writer.send(talk.sent.bytes()) {
        WriteEnd::Ok => {
            talk.mark = writer.mark();
            WriteEnd::Ok
        }
        WriteEnd::Failed => WriteEnd::Failed,
    }
}

/// From now on the bytes of the live board's cycle and of later ones are kept, and no others.
pub fn begin_leg<P: Part>(talk: &mut Talk<P>)
    requires { talk.old.live.over ≡ false }
    ensures new { talk.new ≡ record talk.old { sent = record talk.old.sent { bytes = []; first = talk.old.sent.total }; from = talk.old.live.cycle } }
    ensures talks { (a b : Outside) → MayTalk P.Part talk.old a b → MayTalk P.Part talk.new a b }
{
    talk.sent.empty();
    talk.from = talk.live.cycle();
}

/// Gives a part a value in the live board's cycle or a later one. If memory runs out, all is as before.
pub fn give<P: Part>(talk: &mut Talk<P>, input: Input) -> Result<(), OutOfMemory>
    requires later { talk.old.live.cycle ≤ input.cycle }
    requires part { input.part < length talk.old.live.start }
    ensures ok { OnOk result (talk.new ≡ record talk.old { live = record talk.old.live { inputs = with_input talk.old.live.inputs input } }) }
    ensures err { OnErr result (talk.new ≡ talk.old) }
    ensures past { (n : ℕ) → n ≤ talk.old.live.cycle
        → SameRun P.machine talk.old.live.wiring talk.old.live.inputs talk.new.live.inputs None (map P.state talk.old.live.start) 0 n }
    ensures talks { (a b : Outside) → MayTalk P.Part talk.old a b → MayTalk P.Part talk.new a b }
{
    talk.live.give(input)
}

/// Goes on by a stretch of one part or by one event, not after cycle n, at most `MOST_CYCLES`. Only the last of its cycles brings
/// bytes. If a write fails, the live board is over.
pub fn advance<P: Part, B: Bench, L: Ledger>(
    talk: &mut Talk<P>,
    n: u64,
    bench: &mut B,
    start: &Snapshot<B>,
    steps: &mut Steps<L>,
) -> WriteEnd
    requires order { talk.old.live.cycle < n }
    requires end { n ≤ MOST_CYCLES }
    requires short { length talk.old.sent.bytes < most_sent }
    requires talks { MayTalk P.Part talk.old (B.outside start.now.value) (B.outside bench.old) }
    ensures further { talk.old.live.cycle < talk.new.live.cycle }
    ensures within { talk.new.live.cycle ≤ n }
    ensures silent { bytes_by P.Part talk.old.live (talk.new.live.cycle - 1) ≡ bytes_by P.Part talk.old.live talk.old.live.cycle }
    ensures still { StaysFrom P.Part talk.old.live talk.old.live.cycle talk.new.live.cycle }
    ensures gone { result ≡ WriteEnd.Ok
        → HasGone P.Part talk.old talk.new (B.outside start.now.value) (B.outside bench.old) (B.outside bench.new) steps.old steps.new }
    ensures broke { result ≡ WriteEnd.Failed → HasBroken P.Part talk.old talk.new (B.outside start.now.value) (B.outside bench.old) (B.outside bench.new) }
    ensures requests { (B.outside bench.new).requests ≡ (B.outside bench.old).requests }
{
    let begun = Snapshot::of(&*bench);
    let writer = WaveWriter::again(&mut talk.head, bench, start, talk.mark);
    let mut leg = Leg {
        writer,
        sent: &mut talk.sent,
        begun: &begun,
    };
    match talk.live.advance(n, &mut leg, steps) {
        RunEnd::Done => {
            talk.mark = leg.writer.mark();
            WriteEnd::Ok
        }
        RunEnd::WriteFault => WriteEnd::Failed,
    }
}

/// Goes on to cycle n, at most `MOST_CYCLES`, where so many bytes are kept as there is room for. If a write fails, the live board
/// is over.
pub fn run_to<P: Part, B: Bench, L: Ledger>(
    talk: &mut Talk<P>,
    n: u64,
    bench: &mut B,
    start: &Snapshot<B>,
    steps: &mut Steps<L>,
) -> WriteEnd
    requires order { talk.old.live.cycle ≤ n }
    requires end { n ≤ MOST_CYCLES }
    requires room { length (sent_by P.Part talk.old.live talk.old.from n) ≤ sent_room }
    requires talks { MayTalk P.Part talk.old (B.outside start.now.value) (B.outside bench.old) }
    ensures cycle { result ≡ WriteEnd.Ok → talk.new.live.cycle ≡ n }
    ensures gone { result ≡ WriteEnd.Ok
        → HasGone P.Part talk.old talk.new (B.outside start.now.value) (B.outside bench.old) (B.outside bench.new) steps.old steps.new }
    ensures over { result ≡ WriteEnd.Failed → talk.new.live.over ≡ true }
    ensures broke { result ≡ WriteEnd.Failed → (said : List ℕ) → HasSaid (B.outside start.now.value) (B.outside bench.old) said
        → BreaksOff (begun_texts P.Part talk.old n said) (B.outside start.now.value) (B.outside bench.new) }
    ensures requests { (B.outside bench.new).requests ≡ (B.outside bench.old).requests }
{
    let begun = Snapshot::of(&*bench);
    let writer = WaveWriter::again(&mut talk.head, bench, start, talk.mark);
    let mut leg = Leg {
        writer,
        sent: &mut talk.sent,
        begun: &begun,
    };
    match talk.live.run_to(n, &mut leg, steps) {
        RunEnd::Done => {
            talk.mark = leg.writer.mark();
            WriteEnd::Ok
        }
        RunEnd::WriteFault => WriteEnd::Failed,
    }
}

/// Goes on to the first cycle by which 65,536 bytes are kept, not after cycle n, at most `MOST_CYCLES`. If a write fails, the live
/// board is over, in a cycle not after that one.
pub fn run_on<P: Part, B: Bench, L: Ledger>(
    talk: &mut Talk<P>,
    n: u64,
    bench: &mut B,
    start: &Snapshot<B>,
    steps: &mut Steps<L>,
) -> WriteEnd
    requires order { talk.old.live.cycle ≤ n }
    requires end { n ≤ MOST_CYCLES }
    requires talks { MayTalk P.Part talk.old (B.outside start.now.value) (B.outside bench.old) }
    ensures ends { result ≡ WriteEnd.Ok → IsLegEnd P.Part talk.old.live talk.old.from talk.old.live.cycle n talk.new.live.cycle }
    ensures within { talk.new.live.cycle ≤ n }
    ensures before { (u : ℕ) → talk.old.live.cycle ≤ u → u < talk.new.live.cycle → length (sent_by P.Part talk.old.live talk.old.from u) < most_sent }
    ensures gone { result ≡ WriteEnd.Ok
        → HasGone P.Part talk.old talk.new (B.outside start.now.value) (B.outside bench.old) (B.outside bench.new) steps.old steps.new }
    ensures broke { result ≡ WriteEnd.Failed → HasBroken P.Part talk.old talk.new (B.outside start.now.value) (B.outside bench.old) (B.outside bench.new) }
    ensures requests { (B.outside bench.new).requests ≡ (B.outside bench.old).requests }
{
    while talk.live.cycle() < n && !talk.sent.is_full() {
        match advance(talk, n, bench, start, steps) {
            WriteEnd::Ok => {}
            WriteEnd::Failed => return WriteEnd::Failed,
        }
    }
    WriteEnd::Ok
}

/// Writes what is kept of the wave, if one is wanted: Wave has the text of all that the live board has shown, but for the last line.
pub fn flush<P: Part, B: Bench>(talk: &mut Talk<P>, bench: &mut B, start: &Snapshot<B>) -> WriteEnd
    requires { MayTalk P.Part talk.old (B.outside start.now.value) (B.outside bench.old) }
    ensures live { talk.new.live ≡ talk.old.live }
    ensures sent { talk.new.sent ≡ talk.old.sent }
    ensures from { talk.new.from ≡ talk.old.from }
    ensures tied { result ≡ WriteEnd.Ok → tied_of talk.new ≡ tied_of talk.old }
    ensures talks { result ≡ WriteEnd.Ok → MayTalk P.Part talk.new (B.outside start.now.value) (B.outside bench.new) }
    ensures said { result ≡ WriteEnd.Ok → (B.outside bench.new).written Port.Serial ≡ (B.outside bench.old).written Port.Serial }
    ensures wrote { result ≡ WriteEnd.Ok → (said : List ℕ) → HasSaid (B.outside start.now.value) (B.outside bench.old) said
        → Leaves (begun_texts P.Part talk.old talk.old.live.cycle said) (B.outside start.now.value) (B.outside bench.new) }
    ensures broke { result ≡ WriteEnd.Failed → (said : List ℕ) → HasSaid (B.outside start.now.value) (B.outside bench.old) said
        → BreaksOff (begun_texts P.Part talk.old talk.old.live.cycle said) (B.outside start.now.value) (B.outside bench.new) }
    ensures requests { (B.outside bench.new).requests ≡ (B.outside bench.old).requests }
{
    let mut writer = WaveWriter::again(&mut talk.head, bench, start, talk.mark);
    match writer.flush() {
        WriteEnd::Ok => {
            talk.mark = writer.mark();
            WriteEnd::Ok
        }
        WriteEnd::Failed => WriteEnd::Failed,
    }
}

/// How many bytes the text of a wanted wave has, without its last line; a number that reaches 2^64 - 1 stays there.
pub fn wave_length<P: Part>(talk: &Talk<P>) -> u64
    ensures { (a b : Outside) → MayTalk P.Part talk.now a b → (tied_of talk.now).wave ≡ true
        → result ≡ capped (length (begun_text talk.now.head.variables (rows_by P.Part talk.now.live talk.now.live.cycle))) }
{
    talk.mark.text_length()
}

/// Writes the end of the wave, if one is wanted.
pub fn close<P: Part, B: Bench>(talk: &mut Talk<P>, bench: &mut B, start: &Snapshot<B>) -> WriteEnd
    requires { MayTalk P.Part talk.old (B.outside start.now.value) (B.outside bench.old) }
    ensures wrote { (said : List ℕ) → HasSaid (B.outside start.now.value) (B.outside bench.old) said
        → Writes result (whole_texts P.Part talk.old talk.old.live.cycle said) (B.outside start.now.value) (B.outside bench.new) }
    ensures requests { (B.outside bench.new).requests ≡ (B.outside bench.old).requests }
{
    let n = talk.live.cycle();
    let mut writer = WaveWriter::again(&mut talk.head, bench, start, talk.mark);
    writer.end(n)
}
