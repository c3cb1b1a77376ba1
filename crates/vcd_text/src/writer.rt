//! Who writes the wave and the serial bytes while a run goes on.
ghost use Rattle.std.specs.Prelude.{◌≡◌, ℕ, ◌+◌, ◌≤◌, List, [], ◌∷◌, ◌++◌, Bool, true, false, Option, None, Some, if◌then◌else◌, length};
ghost use Rattle.sim_base.specs.declared.bench.Port.{Port};
ghost use Rattle.sim_base.specs.declared.bench.WriteEnd.{WriteEnd};
ghost use Rattle.sim_base.specs.Causes.{Rose};
ghost use Rattle.sim_base.specs.Outside.{Outside};
ghost use Rattle.sim_base.specs.Rows.{Row, Handed, Appends};
ghost use Rattle.text_model.specs.Wave.{wave_text, wave_count};
ghost use Rattle.vcd_text.specs.Heads.{gathered};
ghost use Rattle.vcd_text.specs.Ports.{texts, Writes};
ghost use Rattle.vcd_text.specs.Writers.{Tied, texts_of, place_of, outside_of, last_of, has_seen, looks_at_rows, is_whole};
ghost use Rattle.vcd_text.specs.Writers.{faults_of, Stands, HasStopped, capped, state_of, marked, whole_by};

use crate::head::WaveHead;
use sim_base::{Bench, Drive, Level, MOST_CYCLES, Port, Watcher, WriteEnd};
use std::snapshot::Snapshot;

/// Writes the wave of the rows on Wave and the bytes on Serial, each where it is wanted; where neither
/// is, it counts both, and where bytes alone are wanted, it looks at no row. Rows after the first are
/// kept until they are much, or the wave ends; bytes are written as they come.
#[derive(Drop)]
pub struct WaveWriter<'a, B: Bench> {
    head: &'a mut WaveHead,
    bench: &'a mut B,
    /// The bench as it was lent.
    start: &'a Snapshot<B>,
    wave: bool,
    serial: bool,
    whole: bool,
    last: u64,
    changes: u64,
    sent: u64,
    text_length: u64,
}

/// What a writer that is laid aside keeps beside its head.
#[derive(Clone, Copy)]
pub struct WaveMark {
    wave: bool,
    serial: bool,
    last: u64,
    changes: u64,
    sent: u64,
    text_length: u64,
}

impl WaveMark {
    /// How long the text of the rows is, where rows are looked at; a number that reaches 2^64 - 1 stays there.
    pub fn text_length(self) -> u64
        ensures { result ≡ self.text_length }
    {
        self.text_length
    }
}

fn write_wave<B: Bench>(wanted: bool, text: &[u8], bench: &mut B) -> WriteEnd
    requires { wanted ≡ true → (B.outside bench.old).opened Port.Wave ≡ true }
    ensures wrote { Writes result (texts wanted false text.now []) (B.outside bench.old) (B.outside bench.new) }
    ensures requests { (B.outside bench.new).requests ≡ (B.outside bench.old).requests }
{
    if !wanted || text.is_empty() {
        return WriteEnd::Ok;
    }
    bench.write(Port::Wave, text)
}

/// Writes the text that the head keeps, where it is the first, or is much, or is not wanted: then none
/// is kept.
fn pass_on<B: Bench>(first: bool, wanted: bool, head: &mut WaveHead, bench: &mut B) -> WriteEnd
    requires { wanted ≡ true → (B.outside bench.old).opened Port.Wave ≡ true }
    ensures rest { head.new ≡ record head.old { text = head.new.text } }
    ensures room { length head.new.text ≤ gathered }
    ensures gone { (gone : List ℕ) × (gone ++ head.new.text ≡ head.old.text)
        × Writes result (texts wanted false gone []) (B.outside bench.old) (B.outside bench.new) }
    ensures requests { (B.outside bench.new).requests ≡ (B.outside bench.old).requests }
{
    if wanted && !first && head.has_room() {
        return WriteEnd::Ok;
    }
    let end = write_wave(wanted, head.text(), bench);
    head.clear();
    end
}

fn write_serial<B: Bench>(wanted: bool, bytes: &[u8], bench: &mut B) -> WriteEnd
    ensures wrote { Writes result (texts false wanted [] bytes.now) (B.outside bench.old) (B.outside bench.new) }
    ensures requests { (B.outside bench.new).requests ≡ (B.outside bench.old).requests }
{
    if !wanted {
        return WriteEnd::Ok;
    }
    bench.write(Port::Serial, bytes)
}

/// Whether rows are looked at: they are written, or counted.
#[inline(always)]
fn looks_at_rows(wave: bool, serial: bool) -> bool
    ensures { result ≡ looks_at_rows wave serial }
{
    wave || !serial
}

/// A count of what is not wanted, with this much more.
fn counted(count: u64, wanted: bool, more: u64) -> u64
    ensures { result ≡ (if wanted then count else capped (count + more)) }
{
    if wanted {
        count
    } else {
        count.saturating_add(more)
    }
}

fn is_ok(end: WriteEnd) -> bool
    ensures ok { end ≡ WriteEnd.Ok → result ≡ true }
    ensures failed { end ≡ WriteEnd.Failed → result ≡ false }
{
    match end {
        WriteEnd::Ok => true,
        WriteEnd::Failed => false,
    }
}

impl<'a, B: Bench> Watcher for WaveWriter<'a, B> {
    ghost stands = { Stands B.outside };

    ghost stopped = { HasStopped B.outside };

    ghost whole = { is_whole B.outside };

    ghost last = { last_of };

    ghost seen = { has_seen };

    ghost faults = { faults_of B.outside };

    ghost Place = { Tied };

    ghost place = { place_of B.outside };

    fn row(&mut self, t: u64, levels: &[Level], drives: &[Drive], changed: &[u16]) -> WriteEnd {
        if !looks_at_rows(self.wave, self.serial) {
            self.head.pass_row();
            self.last = t;
            return WriteEnd::Ok;
        }
        let first = !self.head.has_started();
        let before = self.head.text().len();
        let more = self.head.take_row(t, levels, drives, changed);
        let longer = self.head.text().len().saturating_sub(before);
        self.text_length = self.text_length.saturating_add(longer as u64);
        self.changes = counted(self.changes, self.wave, more);
        self.last = t;
        let end = pass_on(first, self.wave, self.head, self.bench);
        self.whole = is_ok(end);
        end
    }

    fn byte(&mut self, b: u8) -> WriteEnd {
        self.sent = counted(self.sent, self.serial, 1);
        let end = write_serial(self.serial, &[b], self.bench);
        self.whole = is_ok(end);
        end
    }
}

impl<'a, B: Bench> WaveWriter<'a, B> {
    /// A writer that has written nothing yet. `start` is the bench as it is lent: it has no bytes,
    /// and clauses alone read it.
    pub fn new(
        head: &'a mut WaveHead,
        bench: &'a mut B,
        start: &'a Snapshot<B>,
        wave: bool,
        serial: bool,
    ) -> WaveWriter<'a, B>
        requires lent { start.now.value ≡ bench.old }
        requires opened { wave ≡ true → (B.outside bench.old).opened Port.Wave ≡ true }
        ensures place { place_of B.outside result ≡ record {
          reference = bench.entry.ghost_name;
          keeps = head.entry.ghost_name;
          start = B.outside bench.old;
          requests = (B.outside bench.old).requests;
          variables = head.old.variables;
          wave = wave;
          serial = serial;
        } }
        ensures whole { is_whole B.outside result ≡ true }
        ensures last { last_of result ≡ None }
        ensures stands { Stands B.outside result [] [] }
    {
        head.restart();
        WaveWriter {
            head,
            bench,
            start,
            wave,
            serial,
            whole: true,
            last: 0,
            changes: 0,
            sent: 0,
            text_length: 0,
        }
    }

    /// What it keeps beside its head when it is laid aside.
    pub fn mark(&self) -> WaveMark
        requires { is_whole B.outside self.now ≡ true }
        ensures { marked (state_of self.now).head result ≡ state_of self.now }
    {
        WaveMark {
            wave: self.wave,
            serial: self.serial,
            last: self.last,
            changes: self.changes,
            sent: self.sent,
            text_length: self.text_length,
        }
    }

    /// A writer that was laid aside, with its head and its mark, over the bench. `start` is the bench as it was lent at first.
    pub fn again(
        head: &'a mut WaveHead,
        bench: &'a mut B,
        start: &'a Snapshot<B>,
        mark: WaveMark,
    ) -> WaveWriter<'a, B>
        requires { whole_by (marked head.old mark) (B.outside bench.old) ≡ true }
        ensures state { state_of result ≡ marked head.old mark }
        ensures outside { outside_of B.outside result ≡ B.outside bench.old }
        ensures place { place_of B.outside result ≡ record {
          reference = bench.entry.ghost_name;
          keeps = head.entry.ghost_name;
          start = B.outside start.now.value;
          requests = (B.outside bench.old).requests;
          variables = head.old.variables;
          wave = (marked head.old mark).wave;
          serial = (marked head.old mark).serial;
        } }
    {
        WaveWriter {
            head,
            bench,
            start,
            wave: mark.wave,
            serial: mark.serial,
            whole: true,
            last: mark.last,
            changes: mark.changes,
            sent: mark.sent,
            text_length: mark.text_length,
        }
    }

    /// Writes more bytes on a wanted Serial, all at once.
    pub fn send(&mut self, bytes: &[u8]) -> WriteEnd
        requires { is_whole B.outside self.old ≡ true }
        ensures ok { result ≡ WriteEnd.Ok → Handed (is_whole B.outside) (faults_of B.outside) (Stands B.outside) self.old self.new [] bytes.now }
        ensures failed { result ≡ WriteEnd.Failed → Rose (faults_of B.outside self.old) (faults_of B.outside self.new)
            × Appends (Stands B.outside self.old) (HasStopped B.outside self.new) [] bytes.now }
        ensures head { (state_of self.new).head ≡ (state_of self.old).head }
        ensures last { last_of self.new ≡ last_of self.old }
        ensures place { place_of B.outside self.new ≡ place_of B.outside self.old }
    {
        self.sent = counted(self.sent, self.serial, bytes.len() as u64);
        let end = write_serial(self.serial, bytes, self.bench);
        self.whole = is_ok(end);
        end
    }

    /// Writes what is kept of a wanted Wave, so that it has the text of all rows so far.
    pub fn flush(&mut self) -> WriteEnd
        requires { is_whole B.outside self.old ≡ true }
        ensures ok { result ≡ WriteEnd.Ok → Handed (is_whole B.outside) (faults_of B.outside) (Stands B.outside) self.old self.new [] [] }
        ensures failed { result ≡ WriteEnd.Failed → Rose (faults_of B.outside self.old) (faults_of B.outside self.new)
            × Appends (Stands B.outside self.old) (HasStopped B.outside self.new) [] [] }
        ensures none_kept { (state_of self.new).head ≡ record ((state_of self.old).head) { text = [] } }
        ensures last { last_of self.new ≡ last_of self.old }
        ensures place { place_of B.outside self.new ≡ place_of B.outside self.old }
    {
        let end = write_wave(self.wave, self.head.text(), self.bench);
        self.head.clear();
        self.whole = is_ok(end);
        end
    }

    /// Ends a wanted Wave with the time of cycle `n`, the cycle at which the run ends.
    pub fn end(&mut self, n: u64) -> WriteEnd
        requires end { n ≤ MOST_CYCLES }
        requires whole { is_whole B.outside self.old ≡ true }
        ensures ends { (rows : List Row) → (bytes : List ℕ) → Stands B.outside self.old rows bytes
            → Writes result (texts_of (place_of B.outside self.old) (wave_text (place_of B.outside self.old).variables rows n) bytes)
            (place_of B.outside self.old).start (outside_of B.outside self.new) }
        ensures failed { result ≡ WriteEnd.Failed → Rose (faults_of B.outside self.old) (faults_of B.outside self.new) }
        ensures over { is_whole B.outside self.new ≡ false }
        ensures place { place_of B.outside self.new ≡ place_of B.outside self.old }
    {
        self.head.take_end(n);
        self.whole = false;
        write_wave(self.wave, self.head.text(), self.bench)
    }

    /// How many value changes the rows have after the initial values, and how many bytes there are,
    /// where neither is written; a number that reaches 2^64 - 1 stays there.
    pub fn counts(&self) -> (u64, u64)
        requires whole { is_whole B.outside self.now ≡ true }
        requires wave { (place_of B.outside self.now).wave ≡ false }
        requires serial { (place_of B.outside self.now).serial ≡ false }
        ensures { (rows : List Row) → (bytes : List ℕ) → Stands B.outside self.now rows bytes
            → (result.0 ≡ capped (wave_count (place_of B.outside self.now).variables rows)) × (result.1 ≡ capped (length bytes)) }
    {
        (self.changes, self.sent)
    }
}
