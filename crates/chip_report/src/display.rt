//! The lines of a display.
ghost use Rattle.std.specs.Prelude.{◌≡◌, ◌*◌, ◌<◌, ◌++◌, List, ℕ, length, true};
ghost use Rattle.sim_base.specs.Outside.{SameOthers};
ghost use Rattle.sim_outcome_model.specs.Work.{WroteOn};
ghost use Rattle.sim_report.specs.Lines.{hex_digit, hex_byte};
ghost use Rattle.chip_report.specs.Lines.{is_drawn, row_opening, row_text, frame_text};
ghost use Rattle.chip_report.specs.Writing.{Goes};

use crate::piece::{Piece, begin, put};
use sim_base::{Bench, Name, Port, WriteEnd};
use sim_io::write_next;

fn is_drawn(row: &[u8]) -> bool
    ensures { result ≡ is_drawn row.now }
{
    row.iter().any(|b| *b != 0)
}

fn hex_digit(d: u8) -> u8
    requires { d < 16 }
    ensures { result ≡ hex_digit d }
{
    if d < 10 { b'0' + d } else { b'A' + (d - 10) }
}

fn byte_digits(b: u8) -> [u8; 2]
    ensures { result ≡ hex_byte b }
{
    [hex_digit(b / 16), hex_digit(b % 16)]
}

/// Begins the line of row y.
fn begin_row<B: Bench>(
    end: WriteEnd,
    piece: &mut Piece,
    id: &Name,
    y: u32,
    bench: &mut B,
) -> WriteEnd
    requires { (B.outside bench.old).opened Port.Report ≡ true }
    ensures goes { (rest : List ℕ) → Goes end (piece.old.items ++ (row_opening id.now y ++ rest)) result (piece.new.items ++ rest) (B.outside bench.old) (B.outside bench.new) }
    ensures named { (B.outside bench.new).name Port.Report ≡ (B.outside bench.old).name Port.Report }
    ensures opened { (B.outside bench.new).opened Port.Report ≡ true }
    ensures others { SameOthers Port.Report (B.outside bench.old) (B.outside bench.new) }
{
    let mut digits = itoa::Buffer::new();
    let end = begin(end, piece, id, b" row ", bench);
    let end = put(end, piece, digits.format(y).as_bytes(), bench);
    put(end, piece, b" ", bench)
}

/// Writes the line of a row that is drawn.
fn write_drawn<B: Bench>(end: WriteEnd, id: &Name, y: u32, row: &[u8], bench: &mut B) -> WriteEnd
    requires opened { (B.outside bench.old).opened Port.Report ≡ true }
    requires drawn { is_drawn row.now ≡ true }
    ensures next { WroteOn end result Port.Report (row_text id.now y row.now) (B.outside bench.old) (B.outside bench.new) }
    ensures named { (B.outside bench.new).name Port.Report ≡ (B.outside bench.old).name Port.Report }
    ensures opened { (B.outside bench.new).opened Port.Report ≡ true }
    ensures others { SameOthers Port.Report (B.outside bench.old) (B.outside bench.new) }
{
    let mut piece = Piece::new();
    let mut end = begin_row(end, &mut piece, id, y, bench);
    for b in row {
        let digits = byte_digits(*b);
        end = put(end, &mut piece, &digits, bench);
    }
    let end = put(end, &mut piece, b"\n", bench);
    write_next(end, bench, Port::Report, piece.as_slice())
}

fn write_row<B: Bench>(end: WriteEnd, id: &Name, y: u32, row: &[u8], bench: &mut B) -> WriteEnd
    requires { (B.outside bench.old).opened Port.Report ≡ true }
    ensures next { WroteOn end result Port.Report (row_text id.now y row.now) (B.outside bench.old) (B.outside bench.new) }
    ensures named { (B.outside bench.new).name Port.Report ≡ (B.outside bench.old).name Port.Report }
    ensures opened { (B.outside bench.new).opened Port.Report ≡ true }
    ensures others { SameOthers Port.Report (B.outside bench.old) (B.outside bench.new) }
{
    if is_drawn(row) {
        write_drawn(end, id, y, row, bench)
    } else {
        end
    }
}

/// Writes the lines of a display, of which each row has `4 * width` bytes, where the writing so far has not failed.
pub fn write_frame<B: Bench>(
    end: WriteEnd,
    id: &Name,
    width: u32,
    height: u32,
    pixels: &[u8],
    bench: &mut B,
) -> WriteEnd
    requires opened { (B.outside bench.old).opened Port.Report ≡ true }
    requires size { length pixels.now ≡ 4 * (width * height) }
    ensures next { WroteOn end result Port.Report (frame_text id.now width height pixels.now) (B.outside bench.old) (B.outside bench.new) }
    ensures named { (B.outside bench.new).name Port.Report ≡ (B.outside bench.old).name Port.Report }
    ensures opened { (B.outside bench.new).opened Port.Report ≡ true }
    ensures others { SameOthers Port.Report (B.outside bench.old) (B.outside bench.new) }
{
    let count = 4 * width as usize;
    let mut end = end;
    let mut rest = pixels;
    for y in 0..height {
        let (row, others) = rest.split_at(count);
        end = write_row(end, id, y, row, bench);
        rest = others;
    }
    end
}
