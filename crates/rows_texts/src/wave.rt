//! Rows of waves: variables between commas, and behind each `|` what a run hands out. The answer is the wave with `¶`
//! for each line feed (of more than 2,000 bytes the last 28), the bytes of the serial port, and how many changes and
//! bytes a writer counts that writes neither.
ghost use Rattle.std.specs.Prelude.{◌≡◌, ◌≤◌, ◌<◌, ◌+◌, [], ◌∷◌, ◌++◌, if◌then◌else◌, length, slice_get, true, false, None, IfOk, OnOk};
ghost use Rattle.sim_base.specs.Rows.{AreBut, IsBehind};
ghost use Rattle.sim_base.specs.declared.bench.Port.{Port};
ghost use Rattle.sim_base.specs.declared.bench.WriteEnd.{WriteEnd};
ghost use Rattle.vcd_text.specs.Writers.{is_whole};

use crate::answer::Answer;
use crate::row::str_of;
use sim_base::{
    Bench, Drive, Level, List, MOST_CYCLES, MemBench, OutOfMemory, Port, Watcher, WriteEnd,
};
use std::alloc::{AllocError, Global};
use std::mem::drop;
use std::snapshot::Snapshot;
use vcd_text::{Source, Variable, WaveHead, WaveWriter};

/// - `4 net Low Z pin High`: the row of a cycle, the levels by net and the drives by pin
/// - `byte 85`: a byte
/// - `end 16`: the cycle at which the run ends
#[derive(Drop)]
enum Event {
    Row(u64, Vec<Level>, Vec<Drive>),
    Byte(u8),
    End(u64),
}

pub fn wave_answer(alloc: Global, made: &mut Answer, text: &[u8]) {
    let text = str_of(text);
    let (names, rest) = text.split_once('|').unwrap_or((text, ""));
    match head_of(alloc, names) {
        Ok(mut head) => answer_under(alloc, made, &mut head, rest),
        Err(OutOfMemory) => made.run_out(),
    }
}

/// The head of a wave of variables.
pub fn head_of(alloc: Global, names: &str) -> Result<WaveHead, OutOfMemory> {
    let variables = variables_of(alloc, names)?;
    if variables.len() > 8930 {
        return Err(OutOfMemory);
    }
    WaveHead::of(alloc, variables)
}

fn answer_under(alloc: Global, made: &mut Answer, head: &mut WaveHead, rest: &str) {
    let mut events = Vec::new(alloc);
    match read_events(alloc, &mut events, rest) {
        Ok(()) => answer_to(alloc, made, head, events.as_slice()),
        Err(OutOfMemory) => made.run_out(),
    }
    drop(events);
}

fn read_events(alloc: Global, events: &mut Vec<Event>, rest: &str) -> Result<(), OutOfMemory> {
    for part in rest.split('|') {
        read_event(alloc, events, part)?;
    }
    Ok(())
}

fn read_event(alloc: Global, events: &mut Vec<Event>, part: &str) -> Result<(), OutOfMemory> {
    let event = event_of(alloc, part)?;
    events.push(event)?;
    Ok(())
}

fn answer_to(alloc: Global, made: &mut Answer, head: &mut WaveHead, events: &[Event]) {
    let mut bench = MemBench::new(alloc);
    match make_room(&mut bench) {
        Ok(()) => answer_on(alloc, made, head, &mut bench, events),
        Err(OutOfMemory) => made.run_out(),
    }
    drop(bench);
}

fn make_room(bench: &mut MemBench) -> Result<(), OutOfMemory> {
    bench.room(Port::Wave, 20_000)?;
    bench.room(Port::Serial, 100)
}

fn answer_on(
    alloc: Global,
    made: &mut Answer,
    head: &mut WaveHead,
    bench: &mut MemBench,
    events: &[Event],
) {
    write(alloc, head, bench, events);
    let counts = count(alloc, head, events);
    tell_wave(made, str_of(end_of(bench.written(Port::Wave))));
    tell_rest(made, str_of(bench.written(Port::Serial)), counts);
}

fn event_of(alloc: Global, text: &str) -> Result<Event, AllocError> {
    let words: Vec<&str> = text.split_whitespace().collect(alloc)?;
    event_by(alloc, words.as_slice())
}

fn event_by(alloc: Global, words: &[&str]) -> Result<Event, AllocError> {
    match words {
        ["byte", value] => Ok(Event::Byte(value.parse::<u8>().unwrap_or(0))),
        ["end", cycle] => Ok(Event::End(number(cycle))),
        [cycle, rest @ ..] => row_of(alloc, number(cycle), rest),
        [] => Ok(Event::Byte(0)),
    }
}

fn row_of(alloc: Global, cycle: u64, words: &[&str]) -> Result<Event, AllocError> {
    let mut levels = Vec::new(alloc);
    let mut drives = Vec::new(alloc);
    read_row(words, &mut levels, &mut drives)?;
    Ok(Event::Row(cycle, levels, drives))
}

fn read_row(
    words: &[&str],
    levels: &mut Vec<Level>,
    drives: &mut Vec<Drive>,
) -> Result<(), AllocError> {
    let mut is_pin = false;
    for word in words {
        match *word {
            "net" => is_pin = false,
            "pin" => is_pin = true,
            word => push_word(word, is_pin, levels, drives)?,
        }
    }
    Ok(())
}

fn push_word(
    word: &str,
    is_pin: bool,
    levels: &mut Vec<Level>,
    drives: &mut Vec<Drive>,
) -> Result<(), AllocError> {
    if is_pin {
        drives.push(drive_of(word))?;
    } else {
        levels.push(level_of(word))?;
    }
    Ok(())
}

fn level_of(word: &str) -> Level {
    match word {
        "Low" => Level::Low,
        "High" => Level::High,
        "X" => Level::X,
        "Z" => Level::Z,
        position => Level::Wiped(place(position)),
    }
}

fn drive_of(word: &str) -> Drive {
    match word {
        "Low" => Drive::Low,
        "High" => Drive::High,
        "PullLow" => Drive::PullLow,
        "PullHigh" => Drive::PullHigh,
        "Z" => Drive::Z,
        position => Drive::Wiper(place(position)),
    }
}

fn number(word: &str) -> u64 {
    word.parse::<u64>().unwrap_or(0)
}

fn place(word: &str) -> u16 {
    word.parse::<u16>().unwrap_or(0)
}

/// `net NAME 0`, `strong NAME 0` or `weak NAME 0`: the level of a net, and what a pin drives.
fn variables_of(alloc: Global, texts: &str) -> Result<List<Variable>, OutOfMemory> {
    let mut variables = List::new(alloc);
    read_variables(alloc, &mut variables, texts)?;
    Ok(variables)
}

fn read_variables(
    alloc: Global,
    variables: &mut List<Variable>,
    texts: &str,
) -> Result<(), OutOfMemory> {
    for text in texts.split(',') {
        read_variable(alloc, variables, text)?;
    }
    Ok(())
}

fn read_variable(
    alloc: Global,
    variables: &mut List<Variable>,
    text: &str,
) -> Result<(), OutOfMemory> {
    let words: Vec<&str> = text.split_whitespace().collect(alloc)?;
    push_variable(alloc, variables, words.as_slice())
}

fn push_variable(
    alloc: Global,
    variables: &mut List<Variable>,
    words: &[&str],
) -> Result<(), OutOfMemory> {
    if let [kind, name, at] = words {
        let name = String::from_str(alloc, name)?;
        let shows = shown(kind, place(at));
        variables.push(Variable { name, shows })?;
    }
    Ok(())
}

fn shown(kind: &str, at: u16) -> Source {
    match kind {
        "strong" => Source::Strong(at),
        "weak" => Source::Weak(at),
        _ => Source::Net(at),
    }
}

fn is_other(net: usize, before: &[Level], after: &[Level]) -> bool
    ensures { result ≡ false → slice_get after.now net ≡ slice_get before.now net }
{
    before.get(net).copied() != after.get(net).copied()
}

fn note(other: bool, net: u16, nets: &mut Vec<u16>) -> Result<(), AllocError>
    ensures { OnOk result (nets.new.items ≡ (if other then nets.old.items ++ net ∷ [] else nets.old.items)) }
{
    if other {
        nets.push(net)?;
    }
    Ok(())
}

/// The nets whose level is another one than before.
fn changed_nets(alloc: Global, before: &[Level], after: &[Level]) -> Result<Vec<u16>, AllocError>
    requires before { length before.now ≤ 65535 }
    requires after { length after.now ≤ 65535 }
    ensures { IfOk result (λ v. AreBut v.items before.now after.now) }
{
    let mut nets = Vec::new(alloc);
    for net in 0..before.len().max(after.len()) {
        note(is_other(net, before, after), net as u16, &mut nets)?;
    }
    Ok(nets)
}

/// Hands out a row, if its cycle is at least that one; `before` are the levels of the row before it.
fn hand_row<W: Watcher>(
    alloc: Global,
    out: &mut W,
    least: u64,
    before: &[Level],
    cycle: u64,
    levels: &[Level],
    drives: &[Drive],
) -> WriteEnd
    requires whole { W.whole out.old ≡ true }
    requires behind { IsBehind W.last W.seen out.old least before.now }
    requires few { length before.now ≤ 65535 }
    ensures cycle { result ≡ WriteEnd.Ok → cycle < MOST_CYCLES }
    ensures few { result ≡ WriteEnd.Ok → length levels.now ≤ 65535 }
    ensures whole { result ≡ WriteEnd.Ok → W.whole out.new ≡ true }
    ensures behind { result ≡ WriteEnd.Ok → IsBehind W.last W.seen out.new (cycle + 1) levels.now }
    ensures place { W.place out.new ≡ W.place out.old }
{
    if cycle < least || cycle >= MOST_CYCLES || levels.len() > 65_535 {
        return WriteEnd::Failed;
    }
    match changed_nets(alloc, before, levels) {
        Ok(changed) => out.row(cycle, levels, drives, &changed),
        Err(AllocError) => WriteEnd::Failed,
    }
}

/// Hands out rows of rising cycles, and bytes.
fn hand_out<W: Watcher>(alloc: Global, out: &mut W, events: &[Event]) -> WriteEnd
    requires whole { W.whole out.old ≡ true }
    requires first { W.last out.old ≡ None }
    ensures whole { result ≡ WriteEnd.Ok → W.whole out.new ≡ true }
    ensures place { W.place out.new ≡ W.place out.old }
{
    let mut least: u64 = 0;
    let mut before: &[Level] = &[];
    for event in events {
        match event {
            Event::Row(cycle, levels, drives) => {
                let cycle = *cycle;
                let levels = levels.as_slice();
                match hand_row(alloc, out, least, before, cycle, levels, drives.as_slice()) {
                    WriteEnd::Ok => {
                        least = cycle + 1;
                        before = levels;
                    }
                    WriteEnd::Failed => return WriteEnd::Failed,
                }
            }
            Event::Byte(value) => match out.byte(*value) {
                WriteEnd::Ok => {}
                WriteEnd::Failed => return WriteEnd::Failed,
            },
            Event::End(_) => {}
        }
    }
    WriteEnd::Ok
}

/// Writes all that is handed out.
fn write<B: Bench>(alloc: Global, head: &mut WaveHead, bench: &mut B, events: &[Event]) {
    if bench.open_port(Port::Wave, "wave.vcd") == WriteEnd::Failed {
        return;
    }
    write_events(alloc, head, bench, events);
}

fn write_events<B: Bench>(alloc: Global, head: &mut WaveHead, bench: &mut B, events: &[Event])
    requires { (B.outside bench.old).opened Port.Wave ≡ true }
{
    let start = Snapshot::of(&*bench);
    let mut writer = WaveWriter::new(head, bench, &start, true, true);
    if hand_out(alloc, &mut writer, events) == WriteEnd::Ok {
        end(&mut writer, events);
    }
}

fn end<B: Bench>(writer: &mut WaveWriter<B>, events: &[Event])
    requires { is_whole B.outside writer.old ≡ true }
{
    if let [.., Event::End(cycle)] = events {
        if *cycle <= MOST_CYCLES {
            writer.end(*cycle);
        }
    }
}

/// The changes and bytes of which none is wanted.
fn count(alloc: Global, head: &mut WaveHead, events: &[Event]) -> (u64, u64) {
    let mut bench = MemBench::new(alloc);
    let counts = count_on(alloc, head, &mut bench, events);
    drop(bench);
    counts
}

fn count_on<B: Bench>(
    alloc: Global,
    head: &mut WaveHead,
    bench: &mut B,
    events: &[Event],
) -> (u64, u64) {
    let start = Snapshot::of(&*bench);
    let mut writer = WaveWriter::new(head, bench, &start, false, false);
    match hand_out(alloc, &mut writer, events) {
        WriteEnd::Ok => writer.counts(),
        WriteEnd::Failed => (0, 0),
    }
}

/// The last bytes of a wave that is long, else all of it.
fn end_of(wave: &[u8]) -> &[u8] {
    if wave.len() > 2000 {
        &wave[wave.len() - 28..]
    } else {
        wave
    }
}

fn tell_wave(made: &mut Answer, wave: &str) {
    for line in wave.lines() {
        made.tell_all(&[line, "¶"]);
    }
}

fn tell_rest(made: &mut Answer, serial: &str, counts: (u64, u64)) {
    let (changes, bytes) = counts;
    made.tell_all(&[" serial '", serial]);
    made.tell_number("', ", changes);
    made.tell_number(" changes, ", bytes);
    made.tell(" bytes");
}
