//! A board that runs from cycle 0, and what it writes, its report too.
ghost use Rattle.std.specs.Prelude.{◌≡◌, ◌≤◌, ◌<◌, ◌+◌, List, true, false, map};
ghost use Rattle.text_model.specs.Wave.{wave_text};
ghost use Rattle.sim_outcome_model.specs.Outcome as ends;
ghost use Rattle.sim_io.specs.Outcomes.{outcome_of};
ghost use Rattle.board_report.specs.Report.{shown_text};
ghost use Rattle.board_outputs.specs.Outputs.{outputs_of};
ghost use Rattle.board_outputs.specs.Ran.{Ran};
ghost use Rattle.board_outputs.specs.Run.{texts_for};
ghost use Rattle.board_outputs.specs.Start.{IsAtStart, bytes_in, rows_in, states_in, wakes_in};
ghost use Rattle.project_run.specs.Reports.{Reports};

use board_build::PlanPart;
use board_outputs::{Outputs, open_and_play};
use board_report::{Shown, write_report_of};
use board_run::Board;
use part_law::Part;
use sim_base::{Bench, List, MOST_CYCLES, Port, Steps, WriteEnd};
use sim_io::WorkEnd;
use std::mem::drop;
use std::sync::ledger::Ledger;
use vcd_text::WaveHead;

/// The board of a plan at cycle 0, its parts as they are planned, and the head of its wave.
#[derive(Drop)]
pub struct Loaded<P: Part> {
    pub board: Board<P>,
    pub parts: List<PlanPart>,
    pub head: WaveHead,
}

/// Writes the report of a board after `n` cycles, if it is wanted, with the lines of its chips or without.
fn report<P: Part + Shown, B: Bench>(
    wanted: bool,
    n: u64,
    chips: bool,
    loaded: &Loaded<P>,
    bench: &mut B,
) -> WriteEnd
    requires alive { loaded.now.board.given_up ≡ false }
    requires opened { wanted ≡ true → (B.outside bench.old).opened Port.Report ≡ true }
    ensures { Reports wanted (shown_text P.says chips n loaded.now.parts (map P.stood loaded.now.board.parts)) result
        (B.outside bench.old) (B.outside bench.new) }
{
    if wanted {
        write_report_of(
            n,
            chips,
            loaded.parts.as_slice(),
            loaded.board.parts().as_slice(),
            bench,
        )
    } else {
        WriteEnd::Ok
    }
}

/// Opens the outputs, runs the board from cycle 0 up to cycle `n`, and writes its texts: first the wave
/// and the bytes while it runs, then the report.
pub fn write_run<P: Part + Shown + Drop, B: Bench, L: Ledger>(
    loaded: Loaded<P>,
    n: u64,
    chips: bool,
    outputs: Outputs,
    bench: &mut B,
    steps: &mut Steps<L>,
) -> WorkEnd
    requires start { IsAtStart loaded.board }
    requires some { 0 < n }
    requires end { n ≤ MOST_CYCLES }
    ensures ran { (stand : List P.Stood) →
        ((parts : List P) → map P.state parts ≡ states_in P.Part loaded.board n → map P.stood parts ≡ stand) →
        Ran (outcome_of result) (texts_for (outputs_of outputs.entry)
        (wave_text loaded.head.variables (rows_in P.Part loaded.board n) n) (bytes_in P.Part loaded.board n)
        (shown_text P.says chips n loaded.parts stand) (wakes_in P.Part loaded.board n))
        (B.outside bench.old) (B.outside bench.new) }
    ensures steps { outcome_of result ≡ ends.Accepted → steps.new ≡ steps.old + wakes_in P.Part loaded.board n }
{
    let mut loaded = loaded;
    // Each drop is one call, where one at the end of the scope is proved field by field on each way out.
    match open_and_play(
        &mut loaded.board,
        &mut loaded.head,
        n,
        outputs,
        bench,
        steps,
    ) {
        WriteEnd::Ok => {}
        WriteEnd::Failed => {
            drop(loaded);
            return WorkEnd::WriteFailed;
        }
    }
    let end = report(outputs.report.is_some(), n, chips, &loaded, bench);
    drop(loaded);
    match end {
        WriteEnd::Ok => WorkEnd::Accepted,
        WriteEnd::Failed => WorkEnd::WriteFailed,
    }
}
