//! `bare HEX --us N`: one Uno without wires.
ghost use Rattle.std.specs.Prelude.{◌≡◌, ◌≤◌, ◌<◌, ◌+◌, [], IfOk, map};
ghost use Rattle.sim_outcome_model.specs.Outcome as ends;
ghost use Rattle.sim_outcome_model.specs.Happens.{Ends, Counts};
ghost use Rattle.sim_outcome_model.specs.Work.{SaidNothing};
ghost use Rattle.sim_io.specs.Outcomes.{outcome_of};
ghost use Rattle.avr_mcu.specs.Mcu.{McuAt};
ghost use Rattle.board_outputs.specs.Ran.{Ran};
ghost use Rattle.board_outputs.specs.Start.{IsAtStart};
ghost use Rattle.cli_bare.specs.Answer.{BareAnswer};
ghost use Rattle.cli_bare.specs.Bare.{uno_wiring, uno_plan, uno_starts, bare_run};

use crate::uno::{make_parts, make_plan};
use avr_mcu::Mcu;
use board_build::Plan;
use board_outputs::{Outputs, open_and_play, wave_head};
use board_run::Board;
use sim_base::{Bench, Flash, MOST_CYCLES, OutOfMemory, Steps, WriteEnd};
use sim_io::{HexFile, WorkEnd, read_document};
use std::alloc::Global;
use std::mem::drop;
use std::sync::ledger::Ledger;

/// The board of the plan, whose Uno has this flash.
fn make_board(alloc: Global, plan: Plan, flash: Flash) -> Result<Board<Mcu>, OutOfMemory>
    requires { plan ≡ uno_plan }
    ensures wiring { IfOk result (λ b. b.wiring ≡ uno_wiring) }
    ensures inputs { IfOk result (λ b. b.inputs ≡ []) }
    ensures states { IfOk result (λ b. map (λ (p : McuAt). p.mcu) b.parts ≡ uno_starts flash) }
    ensures start { IfOk result (λ b. IsAtStart b) }
{
    match make_parts(alloc, flash) {
        Ok(parts) => Board::new(alloc, parts, plan.wiring, plan.inputs),
        Err(error) => {
            // One call, where a drop at the end of the scope is proved list by list.
            drop(plan);
            Err(error)
        }
    }
}

/// Takes all memory that the run needs, and runs the board with its wave on standard output.
fn run_bare<B: Bench, L: Ledger>(
    alloc: Global,
    flash: Flash,
    n: u64,
    bench: &mut B,
    steps: &mut Steps<L>,
) -> WorkEnd
    requires some { 0 < n }
    requires end { n ≤ MOST_CYCLES }
    ensures ran { Ran (outcome_of result) (bare_run flash n) (B.outside bench.old) (B.outside bench.new) }
    ensures steps { outcome_of result ≡ ends.Accepted → steps.new ≡ steps.old + (bare_run flash n).wakes }
{
    let Ok(plan) = make_plan(alloc) else {
        return WorkEnd::OutOfMemory;
    };
    let Ok(mut head) = wave_head(alloc, &plan, &[]) else {
        drop(plan);
        return WorkEnd::OutOfMemory;
    };
    let Ok(mut board) = make_board(alloc, plan, flash) else {
        drop(head);
        return WorkEnd::OutOfMemory;
    };
    let outputs = Outputs {
        serial: false,
        wave: Some("-"),
        report: None,
    };
    let end = open_and_play(&mut board, &mut head, n, outputs, bench, steps);
    drop(board);
    drop(head);
    match end {
        WriteEnd::Ok => WorkEnd::Accepted,
        WriteEnd::Failed => WorkEnd::WriteFailed,
    }
}

/// Writes the wave of so many microseconds, 16 cycles each, of the firmware of file `hex`.
pub fn bare<B: Bench, L: Ledger>(
    alloc: Global,
    hex: &str,
    micros: u32,
    bench: &mut B,
    steps: &mut Steps<L>,
) -> WorkEnd
    requires some { 0 < micros }
    requires end { micros ≤ 10000000 }
    ensures ends { Ends (BareAnswer hex.now micros) (outcome_of result) (B.outside bench.old) (B.outside bench.new) }
    ensures counts { Counts (BareAnswer hex.now micros) (outcome_of result) (B.outside bench.old) steps.old steps.new }
    ensures silent { SaidNothing (B.outside bench.old) (B.outside bench.new) }
{
    match read_document::<HexFile, B>(alloc, hex, bench) {
        Ok(flash) => run_bare(alloc, flash, 16 * micros as u64, bench, steps),
        Err(outcome) => outcome,
    }
}
