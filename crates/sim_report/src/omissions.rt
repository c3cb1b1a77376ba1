//! The lines of what firmware asked for that is left out, written.
ghost use Rattle.std.specs.Prelude.{◌≡◌, true};
ghost use Rattle.sim_base.specs.Outside.{SameOthers};
ghost use Rattle.sim_outcome_model.specs.Work.{WroteOn};
ghost use Rattle.sim_report.specs.Lines.{line_of};
ghost use Rattle.sim_report.specs.Omissions.{asked_text, omissions_text};

use crate::report::write_report;
use crate::row::ReportRow;
use avr_omit::{Asked, Omission, Omissions};
use sim_base::{Bench, Name, Port, WriteEnd};

// Writes a line where the writing so far has not failed.
fn write_line<B: Bench>(end: WriteEnd, row: &ReportRow, bench: &mut B) -> WriteEnd
    requires { (B.outside bench.old).opened Port.Report ≡ true }
    ensures next { WroteOn end result Port.Report (line_of row.now) (B.outside bench.old) (B.outside bench.new) }
    ensures named { (B.outside bench.new).name Port.Report ≡ (B.outside bench.old).name Port.Report }
    ensures opened { (B.outside bench.new).opened Port.Report ≡ true }
    ensures others { SameOthers Port.Report (B.outside bench.old) (B.outside bench.new) }
{
    match end {
        WriteEnd::Ok => write_report(row, bench),
        WriteEnd::Failed => WriteEnd::Failed,
    }
}

// The line of a thing that is left out, where it was asked for.
fn write_asked<B: Bench>(
    end: WriteEnd,
    id: &Name,
    omission: Omission,
    asked: Option<Asked>,
    bench: &mut B,
) -> WriteEnd
    requires { (B.outside bench.old).opened Port.Report ≡ true }
    ensures next { WroteOn end result Port.Report (asked_text id.now omission asked) (B.outside bench.old) (B.outside bench.new) }
    ensures named { (B.outside bench.new).name Port.Report ≡ (B.outside bench.old).name Port.Report }
    ensures opened { (B.outside bench.new).opened Port.Report ≡ true }
    ensures others { SameOthers Port.Report (B.outside bench.old) (B.outside bench.new) }
{
    match asked {
        Some(asked) => write_line(end, &ReportRow::Omits(id.copy(), omission, asked), bench),
        None => end,
    }
}

/// Writes a line on Report for each thing that is left out and that the firmware of this Uno asked for, where the writing so
/// far has not failed: all of them, or a first part where a write fails.
pub fn write_omissions<B: Bench>(
    end: WriteEnd,
    id: &Name,
    asked: &Omissions,
    bench: &mut B,
) -> WriteEnd
    requires { (B.outside bench.old).opened Port.Report ≡ true }
    ensures next { WroteOn end result Port.Report (omissions_text id.now asked.now) (B.outside bench.old) (B.outside bench.new) }
    ensures named { (B.outside bench.new).name Port.Report ≡ (B.outside bench.old).name Port.Report }
    ensures opened { (B.outside bench.new).opened Port.Report ≡ true }
    ensures others { SameOthers Port.Report (B.outside bench.old) (B.outside bench.new) }
{
    let mut end = end;
    for omission in Omission::all() {
        end = write_asked(end, id, *omission, asked.first(*omission), bench);
    }
    end
}
