//! The lines of a console.
ghost use Rattle.std.specs.Prelude.{◌≡◌, ◌++◌, List, ℕ, true, []};
ghost use Rattle.sim_base.specs.Outside.{SameOthers};
ghost use Rattle.sim_outcome_model.specs.Work.{WroteOn};
ghost use Rattle.chip_report.specs.Lines.{shown, console_opening, console_text};
ghost use Rattle.chip_report.specs.Writing.{Goes, written, byte_text, line_end};

use crate::piece::{Piece, begin, put};
use sim_base::{Bench, Name, Port, WriteEnd};
use sim_io::write_next;

fn shown(b: u8) -> u8
    ensures { result ≡ shown b }
{
    if (0x20..=0x7E).contains(&b) { b } else { b'?' }
}

fn written(b: u8) -> u8
    ensures { result ≡ written b }
{
    if b == b'\n' { b } else { shown(b) }
}

/// Adds the text of a byte.
fn put_byte<B: Bench>(
    end: WriteEnd,
    piece: &mut Piece,
    id: &Name,
    begun: bool,
    b: u8,
    bench: &mut B,
) -> WriteEnd
    requires { (B.outside bench.old).opened Port.Report ≡ true }
    ensures goes { (rest : List ℕ) → Goes end (piece.old.items ++ (byte_text (console_opening id.now) begun b ++ rest)) result (piece.new.items ++ rest) (B.outside bench.old) (B.outside bench.new) }
    ensures named { (B.outside bench.new).name Port.Report ≡ (B.outside bench.old).name Port.Report }
    ensures opened { (B.outside bench.new).opened Port.Report ≡ true }
    ensures others { SameOthers Port.Report (B.outside bench.old) (B.outside bench.new) }
{
    let text = [written(b)];
    if begun {
        put(end, piece, &text, bench)
    } else {
        let end = begin(end, piece, id, b" | ", bench);
        put(end, piece, &text, bench)
    }
}

/// Ends a line that is begun.
fn end_line<B: Bench>(end: WriteEnd, piece: &mut Piece, begun: bool, bench: &mut B) -> WriteEnd
    requires { (B.outside bench.old).opened Port.Report ≡ true }
    ensures goes { (rest : List ℕ) → Goes end (piece.old.items ++ (line_end begun ++ rest)) result (piece.new.items ++ rest) (B.outside bench.old) (B.outside bench.new) }
    ensures named { (B.outside bench.new).name Port.Report ≡ (B.outside bench.old).name Port.Report }
    ensures opened { (B.outside bench.new).opened Port.Report ≡ true }
    ensures others { SameOthers Port.Report (B.outside bench.old) (B.outside bench.new) }
{
    if begun {
        put(end, piece, b"\n", bench)
    } else {
        end
    }
}

/// Writes the lines of what a chip printed.
fn write_printed<B: Bench>(end: WriteEnd, id: &Name, text: &[u8], bench: &mut B) -> WriteEnd
    requires { (B.outside bench.old).opened Port.Report ≡ true }
    ensures next { WroteOn end result Port.Report (console_text id.now text.now) (B.outside bench.old) (B.outside bench.new) }
    ensures named { (B.outside bench.new).name Port.Report ≡ (B.outside bench.old).name Port.Report }
    ensures opened { (B.outside bench.new).opened Port.Report ≡ true }
    ensures others { SameOthers Port.Report (B.outside bench.old) (B.outside bench.new) }
{
    let mut piece = Piece::new();
    let mut begun = false;
    let mut end = end;
    for b in text {
        end = put_byte(end, &mut piece, id, begun, *b, bench);
        begun = *b != b'\n';
    }
    let end = end_line(end, &mut piece, begun, bench);
    write_next(end, bench, Port::Report, piece.as_slice())
}

/// Writes the lines of what a chip printed, where the writing so far has not failed. A chip that printed nothing costs no
/// call of the environment.
pub fn write_console<B: Bench>(end: WriteEnd, id: &Name, text: &[u8], bench: &mut B) -> WriteEnd
    requires { (B.outside bench.old).opened Port.Report ≡ true }
    ensures next { WroteOn end result Port.Report (console_text id.now text.now) (B.outside bench.old) (B.outside bench.new) }
    ensures named { (B.outside bench.new).name Port.Report ≡ (B.outside bench.old).name Port.Report }
    ensures opened { (B.outside bench.new).opened Port.Report ≡ true }
    ensures others { SameOthers Port.Report (B.outside bench.old) (B.outside bench.new) }
    ensures silent { text.now ≡ [] → B.outside bench.new ≡ B.outside bench.old }
{
    if text.is_empty() {
        end
    } else {
        write_printed(end, id, text, bench)
    }
}
