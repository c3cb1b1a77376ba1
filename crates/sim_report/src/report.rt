//! A line of the report, written.
ghost use Rattle.std.specs.Prelude.{◌≡◌, true};
ghost use Rattle.sim_base.specs.Outside.{SameOthers};
ghost use Rattle.sim_outcome_model.specs.Work.{Wrote};
ghost use Rattle.sim_report.specs.Lines.{line_of};

use crate::line::{id, rest, subject};
use crate::row::ReportRow;
use sim_base::{Bench, Port, WriteEnd};
use sim_io::write_next;

/// Writes a line on Report: all of it, or a first part where a write fails.
pub fn write_report<B: Bench>(row: &ReportRow, bench: &mut B) -> WriteEnd
    requires { (B.outside bench.old).opened Port.Report ≡ true }
    ensures wrote { Wrote result Port.Report (line_of row.now) (B.outside bench.old) (B.outside bench.new) }
    ensures named { (B.outside bench.new).name Port.Report ≡ (B.outside bench.old).name Port.Report }
    ensures opened { (B.outside bench.new).opened Port.Report ≡ (B.outside bench.old).opened Port.Report }
    ensures others { SameOthers Port.Report (B.outside bench.old) (B.outside bench.new) }
{
    let end = bench.write(Port::Report, subject(row));
    let end = match id(row) {
        Some(id) => {
            let end = write_next(end, bench, Port::Report, b" ");
            write_next(end, bench, Port::Report, id.bytes())
        }
        None => end,
    };
    write_next(end, bench, Port::Report, rest(row).as_slice())
}
