//! `serve FOLDER [--script FILE] [--vcd FILE] [--budget N]`: a project whose script is written while it runs.
ghost use Rattle.std.specs.Prelude.{◌≡◌, ℕ, List, [], true, length};
ghost use Rattle.std.specs.List.{All};
ghost use Rattle.std.specs.Option.{option_map};
ghost use Rattle.sim_outcome_model.specs.Happens.{TalkEnds, Counts};
ghost use Rattle.sim_outcome_model.specs.Work.{SaidNothing};
ghost use Rattle.sim_io.specs.Outcomes.{outcome_of};
ghost use Rattle.any_part.specs.AnyPart.{AnyState};
ghost use Rattle.any_part.specs.Start.{Contents as Given};
ghost use Rattle.board_build.specs.declared.plan.Plan.{Plan as Planned};
ghost use Rattle.board_outputs.specs.Ran.{OpensNamed};
ghost use Rattle.cli_project.specs.Works.{script_path};
ghost use Rattle.law_isolation.specs.Isolated.{Isolated};
ghost use Rattle.live_model.specs.Board.{Setup};
ghost use Rattle.live_model.specs.Standing.{Standing, opened};
ghost use Rattle.live_project.specs.Start.{setup_of};
ghost use Rattle.live_start.specs.Start.{IsReady};
ghost use Rattle.cli_serve.specs.Answer.{ServeAnswer, ServeSuch};
ghost use Rattle.cli_serve.specs.Conversed.{Asks, Conversed, Held, ended_by, is_calm};

use crate::talker::Talker;
use arrayvec::ArrayVec;
use cli_project::{ScriptedProject, Work, read_work};
use live_project::{Live, Next, Ready};
use project_run::Contents;
use sim_base::{Bench, LineEnd, Port, Steps, WriteEnd};
use sim_io::WorkEnd;
use std::alloc::Global;
use std::mem::drop;
use std::snapshot::Snapshot;
use std::sync::ledger::Ledger;

/// How a conversation ended, but for the end of its wave.
#[derive(Clone, Copy)]
pub enum Ended {
    /// By `quit` or by the last request.
    Whole,
    /// A request could not be read.
    RequestFailed,
    WriteFailed,
}

/// What comes of an answer; None where another request may come.
fn ended_by(next: Next) -> Option<Ended>
    ensures { result ≡ ended_by next }
{
    match next {
        Next::Request => None,
        Next::Quit => Some(Ended::Whole),
        Next::WriteFailed => Some(Ended::WriteFailed),
    }
}

/// Reads the next request and answers it; None where another one may come.
fn one_request<T: Talker, B: Bench, L: Ledger>(
    live: &mut T,
    bench: &mut B,
    start: &Snapshot<B>,
    steps: &mut Steps<L>,
) -> Option<Ended>
    requires may { T.MayAnswer live.old (B.outside start.now.value) (B.outside bench.old) }
    ensures asks { (b : Setup AnyState) (s : Standing) (said : List ℕ) → T.IsAt b live.old s said (B.outside start.now.value) (B.outside bench.old) →
        Asks T.IsAt b (B.outside start.now.value) s said result live.new (B.outside bench.old) (B.outside bench.new) steps.old steps.new }
    ensures may { is_calm result ≡ true → T.MayAnswer live.new (B.outside start.now.value) (B.outside bench.new) }
{
    let mut line = ArrayVec::new();
    match bench.read_line(&mut line) {
        LineEnd::Line => ended_by(live.answer(line.as_slice(), bench, start, steps)),
        LineEnd::TooLong => ended_by(live.answer_long(bench, start)),
        LineEnd::Over => Some(Ended::Whole),
        LineEnd::Failed => Some(Ended::RequestFailed),
    }
}

/// Greets, and answers requests until none comes any more.
fn converse<T: Talker, B: Bench, L: Ledger>(
    live: &mut T,
    bench: &mut B,
    start: &Snapshot<B>,
    steps: &mut Steps<L>,
) -> Ended
    requires may { T.MayAnswer live.old (B.outside start.now.value) (B.outside bench.old) }
    ensures conversed { (b : Setup AnyState) (s : Standing) → T.IsAt b live.old s [] (B.outside start.now.value) (B.outside bench.old) →
        Conversed T.IsAt b (B.outside start.now.value) s result live.new (B.outside bench.old) (B.outside bench.new) steps.old steps.new }
    ensures may { result ≡ Ended.Whole → T.MayAnswer live.new (B.outside start.now.value) (B.outside bench.new) }
{
    match live.greet(bench, start) {
        WriteEnd::Ok => {}
        WriteEnd::Failed => return Ended::WriteFailed,
    }
    for _ in 0..u64::MAX {
        match one_request(live, bench, start, steps) {
            Some(ended) => return ended,
            None => {}
        }
    }
    Ended::Whole
}

/// Opens the wave on a file, if one is named.
fn open_wave<B: Bench>(name: Option<&str>, bench: &mut B) -> WriteEnd
    ensures { OpensNamed Port.Wave (option_map (λ f. f.now) name.entry) result (B.outside bench.old) (B.outside bench.new) }
{
    match name {
        Some(name) => bench.open_port(Port::Wave, name),
        None => WriteEnd::Ok,
    }
}

/// Holds a whole conversation, and ends the wave.
fn talk<T: Talker, B: Bench, L: Ledger>(
    live: &mut T,
    bench: &mut B,
    start: &Snapshot<B>,
    steps: &mut Steps<L>,
) -> WorkEnd
    requires may { T.MayAnswer live.old (B.outside start.now.value) (B.outside bench.old) }
    ensures held { (b : Setup AnyState) (s : Standing) → T.IsAt b live.old s [] (B.outside start.now.value) (B.outside bench.old) →
        Held b (B.outside start.now.value) s (outcome_of result) (B.outside bench.old) (B.outside bench.new) steps.old steps.new }
{
    match converse(live, bench, start, steps) {
        Ended::Whole => match live.end(bench, start) {
            WriteEnd::Ok => WorkEnd::Accepted,
            WriteEnd::Failed => WorkEnd::WriteFailed,
        },
        Ended::RequestFailed => WorkEnd::RequestFailed,
        Ended::WriteFailed => WorkEnd::WriteFailed,
    }
}

/// Holds the conversation of a live board at cycle 0, whose wave is wanted or not.
fn hold_talk<B: Bench, L: Ledger>(
    ready: Ready,
    wave: bool,
    bench: &mut B,
    steps: &mut Steps<L>,
) -> WorkEnd
    requires ready { (has : Given) × (plan : Planned) × IsReady has plan ready }
    requires opened { wave ≡ true → (B.outside bench.old).opened Port.Wave ≡ true }
    ensures held { (has : Given) (plan : Planned) → IsReady has plan ready →
        Held (setup_of has plan wave) (B.outside bench.old) (opened plan.inputs) (outcome_of result) (B.outside bench.old) (B.outside bench.new) steps.old steps.new }
{
    let start = Snapshot::of(&*bench);
    let mut live = Live::open(ready, wave, bench, &start);
    let outcome = talk(&mut live, bench, &start, steps);
    drop(live);
    outcome
}

/// Reads a project, opens its live board, whose script may have values already, and answers what it is asked. Each call into a chip
/// gets so much fuel.
pub fn serve<B: Bench, L: Ledger>(
    alloc: Global,
    scripted: ScriptedProject<'_>,
    budget: u32,
    wave: Option<&str>,
    bench: &mut B,
    steps: &mut Steps<L>,
) -> WorkEnd
    ensures ends { TalkEnds (ServeAnswer (B.outside bench.old).requests scripted.entry.folder.now budget (script_path scripted.entry) (option_map (λ f. f.now) wave.entry))
        (outcome_of result) (B.outside bench.old) (B.outside bench.new) }
    ensures isolated { TalkEnds (ServeSuch Isolated (B.outside bench.old).requests scripted.entry.folder.now budget (script_path scripted.entry) (option_map (λ f. f.now) wave.entry))
        (outcome_of result) (B.outside bench.old) (B.outside bench.new) }
    ensures counts { Counts (ServeAnswer (B.outside bench.old).requests scripted.entry.folder.now budget (script_path scripted.entry) (option_map (λ f. f.now) wave.entry))
        (outcome_of result) (B.outside bench.old) steps.old steps.new }
    ensures silent { SaidNothing (B.outside bench.old) (B.outside bench.new) }
{
    let work = match read_work(alloc, scripted, None, bench) {
        Ok(work) => work,
        Err(outcome) => return outcome,
    };
    let Work {
        flash,
        chips,
        plan,
        ..
    } = work;
    let contents = Contents {
        flash,
        chips: chips.as_slice(),
        budget,
    };
    let Ok(ready) = Ready::load(alloc, contents, plan) else {
        return WorkEnd::OutOfMemory;
    };
    match open_wave(wave, bench) {
        WriteEnd::Ok => hold_talk(ready, wave.is_some(), bench, steps),
        WriteEnd::Failed => {
            drop(ready);
            WorkEnd::WriteFailed
        }
    }
}
