//! `make SEED --us N`: the generated board runs, and one line says what it counts.
ghost use Rattle.std.specs.Prelude.{◌≡◌, ◌≤◌, ◌<◌, ◌+◌, IfOk, string_bytes};
ghost use Rattle.sim_base.specs.Outside.{SameOthers, SamePorts};
ghost use Rattle.sim_outcome_model.specs.Happens.{Ends, Counts};
ghost use Rattle.sim_outcome_model.specs.Outcome as ends;
ghost use Rattle.sim_outcome_model.specs.Stop.{printed};
ghost use Rattle.sim_outcome_model.specs.Work.{RanOn, SaidNothing};
ghost use Rattle.project_run.specs.Run.{run_wakes};
ghost use Rattle.cli_project.specs.Works.{IsSound, work_of};
ghost use Rattle.sim_io.specs.Outcomes.{outcome_of};
ghost use Rattle.cli_make.specs.Answer.{MakeAnswer, contents, line, made_line};

use crate::project::made_work;
use cli_project::Work;
use project_run::{Contents, count_board};
use sim_base::{Bench, MOST_CYCLES, OutOfMemory, Port, Steps};
use sim_io::{WorkEnd, write_text};
use std::alloc::{AllocError, Global};
use std::sync::ledger::Ledger;

/// The fuel of each call into a chip.
const BUDGET: u32 = 1_000_000;

/// The line of what was counted.
fn line(alloc: Global, seed: u32, n: u64, changes: u64, sent: u64) -> Result<String, AllocError>
    ensures { IfOk result (λ s. string_bytes s ≡ line seed n changes sent) }
{
    format!(in alloc; "make {seed} cycles {n} changes {changes} serial {sent}\n")
}

/// Runs a seed's board for `n` cycles, and answers the line of what it counts.
fn counted_line<B: Bench, L: Ledger>(
    alloc: Global,
    seed: u32,
    n: u64,
    work: Work,
    bench: &mut B,
    steps: &mut Steps<L>,
) -> Result<String, OutOfMemory>
    requires sound { IsSound (work_of work) }
    requires some { 0 < n }
    requires end { n ≤ MOST_CYCLES }
    ensures line { IfOk result (λ s. string_bytes s ≡ made_line seed n (work_of work)) }
    ensures ports { SamePorts (B.outside bench.old) (B.outside bench.new) }
    ensures reads { (B.outside bench.new).read_faults ≡ (B.outside bench.old).read_faults }
    ensures steps { IfOk result (λ s. steps.new ≡ steps.old + run_wakes (contents (work_of work)) work.plan n) }
{
    let Work {
        flash,
        chips,
        plan,
        ..
    } = work;
    let contents = Contents {
        flash,
        chips: chips.as_slice(),
        budget: BUDGET,
    };
    let (changes, sent) = count_board(alloc, contents, plan, n, bench, steps)?;
    Ok(line(alloc, seed, n, changes, sent)?)
}

/// Runs a seed's board for `n` cycles, and writes the line of what it counts on Report, which is standard output.
fn run_made<B: Bench, L: Ledger>(
    alloc: Global,
    seed: u32,
    n: u64,
    work: Work,
    bench: &mut B,
    steps: &mut Steps<L>,
) -> WorkEnd
    requires sound { IsSound (work_of work) }
    requires some { 0 < n }
    requires end { n ≤ MOST_CYCLES }
    ensures ran { RanOn Port.Report (outcome_of result) (printed (made_line seed n (work_of work))) (B.outside bench.old) (B.outside bench.new) }
    ensures others { SameOthers Port.Report (B.outside bench.old) (B.outside bench.new) }
    ensures steps { outcome_of result ≡ ends.Accepted → steps.new ≡ steps.old + run_wakes (contents (work_of work)) work.plan n }
{
    match counted_line(alloc, seed, n, work, bench, steps) {
        Ok(line) => write_text(bench, Port::Report, &[line.as_bytes()]),
        Err(_) => WorkEnd::OutOfMemory,
    }
}

/// Runs the board of a seed for so many microseconds, 16 cycles each, and writes on Report, which is standard output, how
/// many cycles that are, how many value changes its wave has after the initial values, and how many bytes its Uno sends.
pub fn make<B: Bench, L: Ledger>(
    alloc: Global,
    seed: u32,
    micros: u32,
    bench: &mut B,
    steps: &mut Steps<L>,
) -> WorkEnd
    requires some { 0 < micros }
    requires end { micros ≤ 10000000 }
    ensures ends { Ends (MakeAnswer seed micros) (outcome_of result) (B.outside bench.old) (B.outside bench.new) }
    ensures counts { Counts (MakeAnswer seed micros) (outcome_of result) (B.outside bench.old) steps.old steps.new }
    ensures silent { SaidNothing (B.outside bench.old) (B.outside bench.new) }
{
    match made_work(alloc, seed) {
        Ok(work) => run_made(alloc, seed, 16 * micros as u64, work, bench, steps),
        Err(end) => end,
    }
}
