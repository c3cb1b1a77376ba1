//! A plan of which nothing is written.
ghost use Rattle.std.specs.Prelude.{◌≡◌, ◌≤◌, ◌<◌, length, IfOk};
ghost use Rattle.std.specs.List.{All};
ghost use Rattle.sim_base.specs.Outside.{SamePorts};
ghost use Rattle.board_model.specs.Fits.{AreInputs};
ghost use Rattle.board_build.specs.IsPlan.{IsPlan};
ghost use Rattle.chip_module.specs.Sources.{HasFewPins, pins_of};
ghost use Rattle.project_run.specs.Contents.{contents_of};
ghost use Rattle.project_run.specs.Counted.{IsCounted};

use crate::running::{Contents, load_board};
use board_build::Plan;
use board_outputs::count;
use sim_base::{Bench, MOST_CYCLES, OutOfMemory, Steps};
use std::alloc::Global;
use std::mem::drop;
use std::sync::ledger::Ledger;

/// Runs a plan for `n` cycles, at most `MOST_CYCLES`, as `run_board` does, and writes nothing: it answers how many value
/// changes its wave has after the initial values, and how many bytes its Uno sends.
pub fn count_board<B: Bench, L: Ledger>(
    alloc: Global,
    contents: Contents<'_>,
    plan: Plan,
    n: u64,
    bench: &mut B,
    steps: &mut Steps<L>,
) -> Result<(u64, u64), OutOfMemory>
    requires plan { IsPlan (pins_of contents.chips.now) plan }
    requires few_pins { All HasFewPins contents.chips.now }
    requires inputs { AreInputs (length plan.parts) plan.inputs }
    requires some { 0 < n }
    requires end { n ≤ MOST_CYCLES }
    ensures counted { IfOk result (λ r. IsCounted (contents_of contents.entry) plan n r.0 r.1 steps.old steps.new) }
    ensures ports { SamePorts (B.outside bench.old) (B.outside bench.new) }
    ensures reads { (B.outside bench.new).read_faults ≡ (B.outside bench.old).read_faults }
{
    let mut loaded = load_board(alloc, contents, plan)?;
    let counts = count(&mut loaded.board, &mut loaded.head, n, bench, steps);
    drop(loaded);
    Ok(counts)
}
