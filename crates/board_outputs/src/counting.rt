//! A board that runs from cycle 0, of whose wave and bytes nothing is written.
ghost use Rattle.std.specs.Prelude.{◌≡◌, ◌≤◌, ◌<◌, ◌+◌, length};
ghost use Rattle.sim_base.specs.Outside.{SamePorts};
ghost use Rattle.text_model.specs.Wave.{wave_count};
ghost use Rattle.vcd_text.specs.Writers.{capped};
ghost use Rattle.board_outputs.specs.Start.{IsAtStart, bytes_in, rows_in, wakes_in};

use board_run::{Board, RunEnd};
use part_law::Part;
use sim_base::{Bench, MOST_CYCLES, Steps};
use std::snapshot::Snapshot;
use std::sync::ledger::Ledger;
use vcd_text::{WaveHead, WaveWriter};

/// Runs the board from cycle 0 up to cycle `n`, and counts the value changes of its wave and its bytes.
pub fn count<P: Part, B: Bench, L: Ledger>(
    board: &mut Board<P>,
    head: &mut WaveHead,
    n: u64,
    bench: &mut B,
    steps: &mut Steps<L>,
) -> (u64, u64)
    requires start { IsAtStart board.old }
    requires some { 0 < n }
    requires end { n ≤ MOST_CYCLES }
    ensures changes { result.0 ≡ capped (wave_count head.old.variables (rows_in P.Part board.old n)) }
    ensures sent { result.1 ≡ capped (length (bytes_in P.Part board.old n)) }
    ensures ports { SamePorts (B.outside bench.old) (B.outside bench.new) }
    ensures reads { (B.outside bench.new).read_faults ≡ (B.outside bench.old).read_faults }
    ensures steps { steps.new ≡ steps.old + wakes_in P.Part board.old n }
{
    let start = Snapshot::of(&*bench);
    let mut writer = WaveWriter::new(head, bench, &start, false, false);
    match board.run(n, &mut writer, steps) {
        RunEnd::Done => writer.counts(),
        RunEnd::WriteFault => unreachable!(),
    }
}
