//! `replay FOLDER WAVE --us N [--script FILE] [--vcd FILE] [--report FILE]`: a project with a player of what a wave says in
//! place of each chip.
ghost use Rattle.std.specs.Prelude.{◌≡◌, ◌≤◌, ◌<◌, ◌+◌, Some, IfOk};
ghost use Rattle.sim_base.specs.Outside.{Outside, SamePorts};
ghost use Rattle.sim_outcome_model.specs.Outcome as ends;
ghost use Rattle.sim_outcome_model.specs.Happens.{Ends, Counts};
ghost use Rattle.sim_io.specs.Outcomes.{outcome_of};
ghost use Rattle.cli_project.specs.Works.{IsSound, script_path, work_of};
ghost use Rattle.board_outputs.specs.Outputs.{outputs_of};
ghost use Rattle.board_outputs.specs.Ran.{Ran};
ghost use Rattle.sim_outcome_model.specs.Work.{Got, SaidNothing, Then};
ghost use Rattle.project_model.specs.Work.{WorkIn};
ghost use Rattle.cli_replay.specs.Answer.{PlayIn, RepeatAnswer, RepeatIn, ReplayAnswer, RowsIn, play_wakes, replay_texts};
ghost use Rattle.cli_replay.specs.Plays.{IsReady, play_of};

use board_outputs::Outputs;
use board_run::Board;
use cli_project::{ScriptedProject, Work, read_work};
use part_played::load_played;
use project_run::{Loaded, make_head, write_run};
use sim_base::{Bench, Fault, LONGEST_RUN, MOST_CYCLES, Steps};
use sim_io::{Stop, WorkEnd, stopped};
use std::alloc::Global;
use std::mem::drop;
use std::sync::ledger::Ledger;
use vcd_text::{DriveRows, WaveHead, read_wave};

/// A project, the head of its wave, and what a wave says of each pin of its board.
#[derive(Drop)]
struct Play {
    work: Work,
    head: WaveHead,
    rows: DriveRows,
}

/// What the wave of a work says in `n` cycles, at most `LONGEST_RUN`.
fn read_rows(alloc: Global, name: &str, work: Work, n: u32) -> Result<Play, WorkEnd>
    requires sound { IsSound (work_of work) }
    requires some { 0 < n }
    requires end { n ≤ LONGEST_RUN }
    ensures got { (a : Outside) → Got play_of outcome_of result (RowsIn name.now n (work_of work)) a a }
    ensures repeated { (a : Outside) → Got play_of outcome_of result (RepeatIn name.now n (work_of work)) a a }
    ensures ready { IfOk result (IsReady n) }
{
    // Each drop is one call, where one at the end of the scope is proved field by field on each way out.
    let Ok(head) = make_head(alloc, &work.plan, work.chips.as_slice()) else {
        drop(work);
        return Err(WorkEnd::OutOfMemory);
    };
    let pins = work.plan.wiring.net_of.len();
    match read_wave(alloc, &head, pins, n, work.wave.as_slice()) {
        Ok(rows) => Ok(Play { work, head, rows }),
        Err(Fault::Refused(refusal)) => {
            drop((head, work));
            Err(stopped(alloc, name, Stop::Refused(refusal)))
        }
        Err(Fault::OutOfMemory) => {
            drop((head, work));
            Err(WorkEnd::OutOfMemory)
        }
    }
}

/// The work that a project, its script and a wave hold, and what the wave says in `n` cycles.
fn read_play<B: Bench>(
    alloc: Global,
    scripted: ScriptedProject<'_>,
    wave: &str,
    n: u32,
    bench: &mut B,
) -> Result<Play, WorkEnd>
    requires some { 0 < n }
    requires end { n ≤ LONGEST_RUN }
    ensures got { Got play_of outcome_of result (PlayIn scripted.entry.folder.now wave.now (script_path scripted.entry) n)
        (B.outside bench.old) (B.outside bench.new) }
    ensures repeated { Got play_of outcome_of result
        (Then (WorkIn scripted.entry.folder.now (script_path scripted.entry) (Some wave.now)) (RepeatIn wave.now n))
        (B.outside bench.old) (B.outside bench.new) }
    ensures ports { SamePorts (B.outside bench.old) (B.outside bench.new) }
    ensures ready { IfOk result (IsReady n) }
{
    let work = read_work(alloc, scripted, Some(wave), bench)?;
    read_rows(alloc, wave, work, n)
}

/// Takes all memory that the run of a project for `n` cycles needs, and runs it with players of the wave's rows in place of its
/// chips.
fn play_board<B: Bench, L: Ledger>(
    alloc: Global,
    play: Play,
    n: u64,
    outputs: Outputs,
    bench: &mut B,
    steps: &mut Steps<L>,
) -> WorkEnd
    requires ready { IsReady n play }
    requires some { 0 < n }
    requires end { n ≤ MOST_CYCLES }
    ensures ran { Ran (outcome_of result) (replay_texts (outputs_of outputs.entry) n (play_of play)) (B.outside bench.old) (B.outside bench.new) }
    ensures steps { outcome_of result ≡ ends.Accepted → steps.new ≡ steps.old + play_wakes (play_of play) n }
{
    let Play { work, head, rows } = play;
    let Work {
        project,
        flash,
        diagram,
        chips,
        plan,
        wave,
    } = work;
    // Each drop is one call, where one at the end of the scope is proved field by field on each way out.
    drop((project, diagram, wave));
    let Ok(parts) = load_played(alloc, &plan, flash, chips.as_slice(), &rows) else {
        drop((chips, rows));
        drop((plan, head));
        return WorkEnd::OutOfMemory;
    };
    drop((chips, rows));
    let planned = plan.parts;
    let Ok(board) = Board::new(alloc, parts, plan.wiring, plan.inputs) else {
        drop((planned, head));
        return WorkEnd::OutOfMemory;
    };
    let loaded = Loaded {
        board,
        parts: planned,
        head,
    };
    write_run(loaded, n, false, outputs, bench, steps)
}

/// Runs a project under its script for so many microseconds, 16 cycles each, with a player of what a wave says in place of each
/// chip, and writes its texts where the outputs say. No module of a chip is run.
pub fn replay<B: Bench, L: Ledger>(
    alloc: Global,
    scripted: ScriptedProject<'_>,
    wave: &str,
    micros: u32,
    outputs: Outputs,
    bench: &mut B,
    steps: &mut Steps<L>,
) -> WorkEnd
    requires some { 0 < micros }
    requires end { micros ≤ 10000000 }
    ensures ends { Ends (ReplayAnswer scripted.entry.folder.now wave.now micros (script_path scripted.entry) (outputs_of outputs.entry))
        (outcome_of result) (B.outside bench.old) (B.outside bench.new) }
    ensures repeated { Ends (RepeatAnswer scripted.entry.folder.now wave.now micros (script_path scripted.entry) (outputs_of outputs.entry))
        (outcome_of result) (B.outside bench.old) (B.outside bench.new) }
    ensures counts { Counts (ReplayAnswer scripted.entry.folder.now wave.now micros (script_path scripted.entry) (outputs_of outputs.entry))
        (outcome_of result) (B.outside bench.old) steps.old steps.new }
    ensures silent { SaidNothing (B.outside bench.old) (B.outside bench.new) }
{
    match read_play(alloc, scripted, wave, 16 * micros, bench) {
        Ok(play) => play_board(alloc, play, 16 * micros as u64, outputs, bench, steps),
        Err(outcome) => outcome,
    }
}
