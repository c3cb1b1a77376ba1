//! The end of the text that is written, which is kept until it is full.
ghost use Rattle.std.specs.Prelude.{◌≡◌, ◌+◌, ◌≤◌, ◌<◌, ◌++◌, List, ℕ, length, true, []};
ghost use Rattle.sim_base.specs.Outside.{SameOthers};
ghost use Rattle.sim_outcome_model.specs.Work.{WroteOn};
ghost use Rattle.chip_report.specs.Lines.{opening};
ghost use Rattle.chip_report.specs.Writing.{Goes};

use arrayvec::ArrayVec;
use sim_base::{Bench, Name, Port, WriteEnd};
use sim_io::write_next;

/// How many bytes are written at once, at most.
pub(crate) type Piece = ArrayVec<u8, 320>;

/// Adds bytes for which there is room.
fn add(piece: &mut Piece, bytes: &[u8])
    requires { length piece.old.items + length bytes.now ≤ 320 }
    ensures { piece.new.items ≡ piece.old.items ++ bytes.now }
{
    match piece.try_extend_from_slice(bytes) {
        Ok(()) => {}
        Err(_) => unreachable!(),
    }
}

/// Writes what is kept: then nothing is.
fn write_out<B: Bench>(end: WriteEnd, piece: &mut Piece, bench: &mut B) -> WriteEnd
    requires { (B.outside bench.old).opened Port.Report ≡ true }
    ensures empty { piece.new.items ≡ [] }
    ensures next { WroteOn end result Port.Report piece.old.items (B.outside bench.old) (B.outside bench.new) }
    ensures named { (B.outside bench.new).name Port.Report ≡ (B.outside bench.old).name Port.Report }
    ensures opened { (B.outside bench.new).opened Port.Report ≡ true }
    ensures others { SameOthers Port.Report (B.outside bench.old) (B.outside bench.new) }
{
    let end = write_next(end, bench, Port::Report, piece.as_slice());
    piece.clear();
    end
}

/// Writes what is kept, where it has 200 bytes or more.
fn make_room<B: Bench>(end: WriteEnd, piece: &mut Piece, bench: &mut B) -> WriteEnd
    requires { (B.outside bench.old).opened Port.Report ≡ true }
    ensures goes { (rest : List ℕ) → Goes end (piece.old.items ++ rest) result (piece.new.items ++ rest) (B.outside bench.old) (B.outside bench.new) }
    ensures room { length piece.new.items < 200 }
    ensures named { (B.outside bench.new).name Port.Report ≡ (B.outside bench.old).name Port.Report }
    ensures opened { (B.outside bench.new).opened Port.Report ≡ true }
    ensures others { SameOthers Port.Report (B.outside bench.old) (B.outside bench.new) }
{
    if piece.len() < 200 {
        end
    } else {
        write_out(end, piece, bench)
    }
}

/// Adds up to 120 bytes, for which it makes room.
pub(crate) fn put<B: Bench>(
    end: WriteEnd,
    piece: &mut Piece,
    bytes: &[u8],
    bench: &mut B,
) -> WriteEnd
    requires opened { (B.outside bench.old).opened Port.Report ≡ true }
    requires few { length bytes.now ≤ 120 }
    ensures goes { (rest : List ℕ) → Goes end (piece.old.items ++ (bytes.now ++ rest)) result (piece.new.items ++ rest) (B.outside bench.old) (B.outside bench.new) }
    ensures named { (B.outside bench.new).name Port.Report ≡ (B.outside bench.old).name Port.Report }
    ensures opened { (B.outside bench.new).opened Port.Report ≡ true }
    ensures others { SameOthers Port.Report (B.outside bench.old) (B.outside bench.new) }
{
    let end = make_room(end, piece, bench);
    add(piece, bytes);
    end
}

/// Writes what is kept, and then these bytes.
fn write_whole<B: Bench>(end: WriteEnd, piece: &mut Piece, bytes: &[u8], bench: &mut B) -> WriteEnd
    requires { (B.outside bench.old).opened Port.Report ≡ true }
    ensures goes { (rest : List ℕ) → Goes end (piece.old.items ++ (bytes.now ++ rest)) result (piece.new.items ++ rest) (B.outside bench.old) (B.outside bench.new) }
    ensures named { (B.outside bench.new).name Port.Report ≡ (B.outside bench.old).name Port.Report }
    ensures opened { (B.outside bench.new).opened Port.Report ≡ true }
    ensures others { SameOthers Port.Report (B.outside bench.old) (B.outside bench.new) }
{
    let end = write_out(end, piece, bench);
    write_next(end, bench, Port::Report, bytes)
}

/// Adds any number of bytes.
fn put_all<B: Bench>(end: WriteEnd, piece: &mut Piece, bytes: &[u8], bench: &mut B) -> WriteEnd
    requires { (B.outside bench.old).opened Port.Report ≡ true }
    ensures goes { (rest : List ℕ) → Goes end (piece.old.items ++ (bytes.now ++ rest)) result (piece.new.items ++ rest) (B.outside bench.old) (B.outside bench.new) }
    ensures named { (B.outside bench.new).name Port.Report ≡ (B.outside bench.old).name Port.Report }
    ensures opened { (B.outside bench.new).opened Port.Report ≡ true }
    ensures others { SameOthers Port.Report (B.outside bench.old) (B.outside bench.new) }
{
    if bytes.len() <= 120 {
        put(end, piece, bytes, bench)
    } else {
        write_whole(end, piece, bytes, bench)
    }
}

/// Begins a line of a chip: its id, and up to 120 bytes.
pub(crate) fn begin<B: Bench>(
    end: WriteEnd,
    piece: &mut Piece,
    id: &Name,
    word: &[u8],
    bench: &mut B,
) -> WriteEnd
    requires opened { (B.outside bench.old).opened Port.Report ≡ true }
    requires few { length word.now ≤ 120 }
    ensures goes { (rest : List ℕ) → Goes end (piece.old.items ++ (opening id.now word.now ++ rest)) result (piece.new.items ++ rest) (B.outside bench.old) (B.outside bench.new) }
    ensures named { (B.outside bench.new).name Port.Report ≡ (B.outside bench.old).name Port.Report }
    ensures opened { (B.outside bench.new).opened Port.Report ≡ true }
    ensures others { SameOthers Port.Report (B.outside bench.old) (B.outside bench.new) }
{
    let end = put(end, piece, b"chip ", bench);
    let end = put_all(end, piece, id.bytes(), bench);
    put(end, piece, word, bench)
}
