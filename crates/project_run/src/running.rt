//! A board of a plan, from its start.
ghost use Rattle.std.specs.Prelude.{◌≡◌, ◌≤◌, ◌<◌, ◌+◌, IfOk, length};
ghost use Rattle.board_model.specs.Fits.{AreInputs};
ghost use Rattle.board_build.specs.IsPlan.{IsPlan};
ghost use Rattle.std.specs.List.{All};
ghost use Rattle.chip_module.specs.Sources.{HasFewPins, pins_of};
ghost use Rattle.sim_outcome_model.specs.Outcome as ends;
ghost use Rattle.sim_io.specs.Outcomes.{outcome_of};
ghost use Rattle.board_outputs.specs.Outputs.{outputs_of};
ghost use Rattle.board_outputs.specs.Ran.{Ran};
ghost use Rattle.board_outputs.specs.Variables.{board_variables};
ghost use Rattle.project_run.specs.Contents.{contents_of};
ghost use Rattle.project_run.specs.Run.{IsLoaded, run_texts, run_wakes};

use crate::playing::{Loaded, write_run};
use any_part::{AnyPart, load};
use board_build::Plan;
use board_outputs::{Outputs, wave_head};
use board_run::Board;
use chip_module::{ChipSource, pins_of};
use sim_base::{Bench, Flash, MOST_CYCLES, OutOfMemory, Steps};
use sim_io::WorkEnd;
use std::alloc::Global;
use std::mem::drop;
use std::sync::ledger::Ledger;
use vcd_text::WaveHead;

/// The head of the wave, with the room for its text.
pub fn make_head(alloc: Global, plan: &Plan, chips: &[ChipSource]) -> Result<WaveHead, OutOfMemory>
    requires plan { IsPlan (pins_of chips.now) plan.now }
    requires few_pins { All HasFewPins chips.now }
    ensures { IfOk result (λ h. h.variables ≡ board_variables (pins_of chips.now) plan.now) }
{
    let pins = pins_of(alloc, chips)?;
    wave_head(alloc, plan, pins.as_slice())
}

/// What the parts of a board are loaded with: the flash image, the chips of its project, and the fuel of each call into a chip.
pub struct Contents<'a> {
    pub flash: Flash,
    pub chips: &'a [ChipSource],
    pub budget: u32,
}

/// Loads the board of a plan with these contents, and makes the head of its wave.
pub fn load_board(
    alloc: Global,
    contents: Contents<'_>,
    plan: Plan,
) -> Result<Loaded<AnyPart>, OutOfMemory>
    requires plan { IsPlan (pins_of contents.chips.now) plan }
    requires few_pins { All HasFewPins contents.chips.now }
    requires inputs { AreInputs (length plan.parts) plan.inputs }
    ensures { IfOk result (IsLoaded (contents_of contents.entry) plan) }
{
    let Contents {
        flash,
        chips,
        budget,
    } = contents;
    // Each drop is one call, where one at the end of the scope is proved field by field on each way out.
    let Ok(head) = make_head(alloc, &plan, chips) else {
        drop(flash);
        drop(plan);
        return Err(OutOfMemory);
    };
    let Ok(parts) = load(alloc, &plan, flash, chips, budget) else {
        drop(head);
        drop(plan);
        return Err(OutOfMemory);
    };
    let planned = plan.parts;
    let Ok(board) = Board::new(alloc, parts, plan.wiring, plan.inputs) else {
        drop(head);
        drop(planned);
        return Err(OutOfMemory);
    };
    Ok(Loaded {
        board,
        parts: planned,
        head,
    })
}

/// Takes all memory that the run of a plan for `n` cycles needs, at most `MOST_CYCLES`, and runs it with
/// these contents. The wave and the report are opened, then the wave and the bytes are written, and then the report.
pub fn run_board<B: Bench, L: Ledger>(
    alloc: Global,
    contents: Contents<'_>,
    plan: Plan,
    n: u64,
    outputs: Outputs,
    bench: &mut B,
    steps: &mut Steps<L>,
) -> WorkEnd
    requires plan { IsPlan (pins_of contents.chips.now) plan }
    requires few_pins { All HasFewPins contents.chips.now }
    requires inputs { AreInputs (length plan.parts) plan.inputs }
    requires some { 0 < n }
    requires end { n ≤ MOST_CYCLES }
    ensures ran { Ran (outcome_of result)
        (run_texts (outputs_of outputs.entry) (contents_of contents.entry) plan n)
        (B.outside bench.old) (B.outside bench.new) }
    ensures steps { outcome_of result ≡ ends.Accepted →
        steps.new ≡ steps.old + run_wakes (contents_of contents.entry) plan n }
{
    match load_board(alloc, contents, plan) {
        Ok(loaded) => write_run(loaded, n, true, outputs, bench, steps),
        Err(OutOfMemory) => WorkEnd::OutOfMemory,
    }
}
