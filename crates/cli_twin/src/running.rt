//! `twin FOLDER_A FOLDER_B --us N [--budget N]`: two projects that differ in what their chips are made of, on one board.
ghost use Rattle.std.specs.Prelude.{◌≡◌, ◌≤◌, ◌<◌, [], map, IfOk, string_bytes};
ghost use Rattle.std.specs.List.{All};
ghost use Rattle.sim_outcome_model.specs.Happens.{Ends, Counts};
ghost use Rattle.sim_outcome_model.specs.Work.{SaidNothing};
ghost use Rattle.board_model.specs.Fits.{IsWiring};
ghost use Rattle.board_model.specs.Fresh.{AreFresh};
ghost use Rattle.board_build.specs.IsPlan.{IsPlan};
ghost use Rattle.chip_module.specs.Sources.{HasFewPins, pins_of};
ghost use Rattle.board_twin.specs.Twins.{AreTwins, HaveNoContacts, IsTwin, other_states};
ghost use Rattle.sim_io.specs.Outcomes.{outcome_of};
ghost use Rattle.cli_twin.specs.Answer.{TwinAnswer};
ghost use Rattle.cli_twin.specs.Found.{Found, IsLoaded, twin_view};
ghost use Rattle.cli_twin.specs.Pairs.{IsReady, pair_of};

use crate::chips::load_chips;
use crate::line::line;
use crate::pair::{Pair, read_pair};
use any_part::{AnyPart, load};
use board_build::Plan;
use board_run::Board;
use board_twin::{Twin, TwinEnd};
use chip_module::ChipSource;
use cli_project::Work;
use part_law::Part;
use sim_base::{Bench, Flash, List, MOST_CYCLES, OutOfMemory, Port, Steps, Wiring};
use sim_io::{WorkEnd, write_text};
use std::alloc::Global;
use std::mem::drop;
use std::sync::ledger::Ledger;

/// Runs a board beside the chips of another for `n` cycles. No script is for a twin.
fn run_beside<P: Part + Drop, L: Ledger>(
    alloc: Global,
    parts: List<P>,
    chips: List<P>,
    wiring: Wiring,
    n: u64,
    steps: &mut Steps<L>,
) -> Result<TwinEnd, OutOfMemory>
    requires wiring { IsWiring wiring }
    requires fresh { AreFresh P.machine P.state P.now P.wakes parts }
    requires twins { AreTwins P.machine P.state P.now P.wakes (twin_view parts chips wiring) }
    requires contacts { HaveNoContacts P.machine wiring (map P.state parts) (other_states P.state (twin_view parts chips wiring)) }
    requires end { n ≤ MOST_CYCLES }
    ensures { IfOk result (λ end. IsTwin P.machine wiring [] (map P.state parts) (other_states P.state (twin_view parts chips wiring))
        n end steps.old steps.new) }
{
    // Each drop is one call, where one at the end of the scope is proved field by field on each way out.
    let Ok(board) = Board::new(alloc, parts, wiring, List::new(alloc)) else {
        drop(chips);
        return Err(OutOfMemory);
    };
    let mut twin = Twin::new(alloc, board, chips)?;
    let end = twin.run(n, steps);
    drop(twin);
    Ok(end)
}

/// The parts of a project's board, and the chips of another.
fn load_sides(
    alloc: Global,
    flash: Flash,
    plan: &Plan,
    chips: &[ChipSource],
    others: &[ChipSource],
    budget: u32,
) -> Result<(List<AnyPart>, List<AnyPart>), OutOfMemory>
    requires plan { IsPlan (pins_of chips.now) plan.now }
    requires few_pins { All HasFewPins chips.now }
    requires few_others { All HasFewPins others.now }
    requires pins { pins_of chips.now ≡ pins_of others.now }
    ensures { IfOk result (λ r. IsLoaded (record { flash = flash; chips = chips.now; budget = budget })
        (record { flash = flash; chips = others.now; budget = budget }) plan.now r.0 r.1) }
{
    let parts = load(alloc, plan, flash, chips, budget)?;
    let Ok(beside) = load_chips(alloc, plan, others, budget) else {
        drop(parts);
        return Err(OutOfMemory);
    };
    Ok((parts, beside))
}

/// Runs a pair for `n` cycles, and answers the line of its first difference.
fn found_line<L: Ledger>(
    alloc: Global,
    pair: Pair,
    budget: u32,
    n: u64,
    steps: &mut Steps<L>,
) -> Result<String, OutOfMemory>
    requires ready { IsReady pair }
    requires end { n ≤ MOST_CYCLES }
    ensures found { IfOk result (λ s. Found budget n (pair_of pair) (string_bytes s) steps.old steps.new) }
{
    let Pair { one, other } = pair;
    let Work {
        project,
        flash,
        diagram,
        chips,
        plan,
        wave,
    } = one;
    drop((project, diagram, wave));
    let others = other.chips.as_slice();
    let Ok((parts, beside)) = load_sides(alloc, flash, &plan, chips.as_slice(), others, budget)
    else {
        drop((other, chips, plan));
        return Err(OutOfMemory);
    };
    drop((other, plan.inputs));
    let planned = plan.parts;
    let Ok(end) = run_beside(alloc, parts, beside, plan.wiring, n, steps) else {
        drop((chips, planned));
        return Err(OutOfMemory);
    };
    let text = line(alloc, chips.as_slice(), planned.as_slice(), n, end);
    drop((chips, planned));
    Ok(text?)
}

/// Runs the projects of two folders that differ in what their chips are made of alone, for so many microseconds, 16 cycles each,
/// and writes on Report, which is standard output, in which cycle a chip first drives otherwise, or that none does. Each call into
/// a chip gets so much fuel. What the projects do not share is refused with 95 TwinDiffers.
pub fn twin<B: Bench, L: Ledger>(
    alloc: Global,
    folder: &str,
    other: &str,
    micros: u32,
    budget: u32,
    bench: &mut B,
    steps: &mut Steps<L>,
) -> WorkEnd
    requires some { 0 < micros }
    requires end { micros ≤ 10000000 }
    ensures ends { Ends (TwinAnswer folder.now other.now micros budget) (outcome_of result) (B.outside bench.old) (B.outside bench.new) }
    ensures counts { Counts (TwinAnswer folder.now other.now micros budget) (outcome_of result) (B.outside bench.old) steps.old steps.new }
    ensures silent { SaidNothing (B.outside bench.old) (B.outside bench.new) }
{
    match read_pair(alloc, folder, other, bench) {
        Ok(pair) => match found_line(alloc, pair, budget, 16 * micros as u64, steps) {
            Ok(line) => write_text(bench, Port::Report, &[line.as_bytes()]),
            Err(_) => WorkEnd::OutOfMemory,
        },
        Err(end) => end,
    }
}
