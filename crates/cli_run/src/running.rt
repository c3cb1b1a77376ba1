//! `run FOLDER --us N [--script FILE] [--vcd FILE] [--report FILE] [--budget N]`: a project.
ghost use Rattle.std.specs.Prelude.{◌≡◌, ◌≤◌, ◌<◌};
ghost use Rattle.sim_outcome_model.specs.Happens.{Ends, Counts};
ghost use Rattle.sim_outcome_model.specs.Work.{SaidNothing};
ghost use Rattle.sim_io.specs.Outcomes.{outcome_of};
ghost use Rattle.cli_project.specs.Works.{script_path};
ghost use Rattle.board_outputs.specs.Outputs.{outputs_of};
ghost use Rattle.law_isolation.specs.Isolated.{Isolated};
ghost use Rattle.cli_run.specs.Answer.{RunAnswer, AnswerSuch};

use board_outputs::Outputs;
use cli_project::{ScriptedProject, Work, read_work};
use project_run::{Contents, run_board};
use sim_base::{Bench, Steps};
use sim_io::WorkEnd;
use std::alloc::Global;
use std::sync::ledger::Ledger;

/// Runs a project under its script for so many microseconds, 16 cycles each, where each call into a chip gets so much fuel,
/// and writes its texts where the outputs say.
pub fn run<B: Bench, L: Ledger>(
    alloc: Global,
    scripted: ScriptedProject<'_>,
    micros: u32,
    budget: u32,
    outputs: Outputs,
    bench: &mut B,
    steps: &mut Steps<L>,
) -> WorkEnd
    requires some { 0 < micros }
    requires end { micros ≤ 10000000 }
    ensures ends { Ends (RunAnswer scripted.entry.folder.now micros (script_path scripted.entry) budget (outputs_of outputs.entry))
        (outcome_of result) (B.outside bench.old) (B.outside bench.new) }
    ensures isolated { Ends (AnswerSuch Isolated scripted.entry.folder.now micros (script_path scripted.entry) budget (outputs_of outputs.entry))
        (outcome_of result) (B.outside bench.old) (B.outside bench.new) }
    ensures counts { Counts (RunAnswer scripted.entry.folder.now micros (script_path scripted.entry) budget (outputs_of outputs.entry))
        (outcome_of result) (B.outside bench.old) steps.old steps.new }
    ensures silent { SaidNothing (B.outside bench.old) (B.outside bench.new) }
{
    match read_work(alloc, scripted, None, bench) {
        Ok(work) => {
            let Work {
                flash,
                chips,
                plan,
                ..
            } = work;
            let contents = Contents {
                flash,
                chips: chips.as_slice(),
                budget,
            };
            run_board(
                alloc,
                contents,
                plan,
                16 * micros as u64,
                outputs,
                bench,
                steps,
            )
        }
        Err(outcome) => outcome,
    }
}
