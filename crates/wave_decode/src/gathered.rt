//! The lines, gathered and written in pieces.
ghost use Rattle.std.specs.Prelude.{◌≡◌, ◌≤◌, ◌+◌, ◌++◌, ℕ, List, [], true, length};
ghost use Rattle.sim_base.specs.Outside.{Outside, SameOthers};
ghost use Rattle.sim_outcome_model.specs.Work.{Wrote, WroteOn};
ghost use Rattle.wave_decode.specs.Listening.{Gathers};

use crate::telling::Line;
use arrayvec::ArrayVec;
use sim_base::{Bench, Port, WriteEnd};

/// Lines that are not written yet.
pub(crate) type Gathered = ArrayVec<u8, 4096>;

/// Writes a text, if it is not empty.
fn write_text<B: Bench>(text: &[u8], bench: &mut B) -> WriteEnd
    requires { (B.outside bench.old).opened Port.Report ≡ true }
    ensures wrote { Wrote result Port.Report text.now (B.outside bench.old) (B.outside bench.new) }
    ensures named { (B.outside bench.new).name Port.Report ≡ (B.outside bench.old).name Port.Report }
    ensures opened { (B.outside bench.new).opened Port.Report ≡ true }
    ensures others { SameOthers Port.Report (B.outside bench.old) (B.outside bench.new) }
{
    if text.is_empty() {
        WriteEnd::Ok
    } else {
        bench.write(Port::Report, text)
    }
}

/// The same where the writing so far has not failed.
pub(crate) fn write_next<B: Bench>(end: WriteEnd, text: &[u8], bench: &mut B) -> WriteEnd
    requires { (B.outside bench.old).opened Port.Report ≡ true }
    ensures next { WroteOn end result Port.Report text.now (B.outside bench.old) (B.outside bench.new) }
    ensures named { (B.outside bench.new).name Port.Report ≡ (B.outside bench.old).name Port.Report }
    ensures opened { (B.outside bench.new).opened Port.Report ≡ true }
    ensures others { SameOthers Port.Report (B.outside bench.old) (B.outside bench.new) }
{
    match end {
        WriteEnd::Ok => write_text(text, bench),
        WriteEnd::Failed => WriteEnd::Failed,
    }
}

/// Writes what is gathered: then none is kept.
fn write_out<B: Bench>(end: WriteEnd, text: &mut Gathered, bench: &mut B) -> WriteEnd
    requires { (B.outside bench.old).opened Port.Report ≡ true }
    ensures empty { text.new.items ≡ [] }
    ensures next { WroteOn end result Port.Report text.old.items (B.outside bench.old) (B.outside bench.new) }
    ensures named { (B.outside bench.new).name Port.Report ≡ (B.outside bench.old).name Port.Report }
    ensures opened { (B.outside bench.new).opened Port.Report ≡ true }
    ensures others { SameOthers Port.Report (B.outside bench.old) (B.outside bench.new) }
{
    let end = write_next(end, text.as_slice(), bench);
    text.clear();
    end
}

/// Writes what is gathered, where a line more may have no room.
fn make_room<B: Bench>(end: WriteEnd, text: &mut Gathered, bench: &mut B) -> WriteEnd
    requires { (B.outside bench.old).opened Port.Report ≡ true }
    ensures room { length text.new.items ≤ 4000 }
    ensures gathers { (a : Outside) (told : List ℕ) → Gathers end text.old.items told a (B.outside bench.old) → Gathers result text.new.items told a (B.outside bench.new) }
    ensures named { (B.outside bench.new).name Port.Report ≡ (B.outside bench.old).name Port.Report }
    ensures opened { (B.outside bench.new).opened Port.Report ≡ true }
    ensures others { SameOthers Port.Report (B.outside bench.old) (B.outside bench.new) }
{
    if text.len() <= 4000 {
        end
    } else {
        write_out(end, text, bench)
    }
}

fn add(text: &mut Gathered, line: &[u8])
    requires { length text.old.items + length line.now ≤ 4096 }
    ensures { text.new.items ≡ text.old.items ++ line.now }
{
    match text.try_extend_from_slice(line) {
        Ok(()) => {}
        Err(_) => unreachable!(),
    }
}

/// Adds a line to what is gathered.
pub(crate) fn gather<B: Bench>(
    end: WriteEnd,
    text: &mut Gathered,
    line: &Line,
    bench: &mut B,
) -> WriteEnd
    requires { (B.outside bench.old).opened Port.Report ≡ true }
    ensures gathers { (a : Outside) (told : List ℕ) → Gathers end text.old.items told a (B.outside bench.old) → Gathers result text.new.items (told ++ line.now.items) a (B.outside bench.new) }
    ensures named { (B.outside bench.new).name Port.Report ≡ (B.outside bench.old).name Port.Report }
    ensures opened { (B.outside bench.new).opened Port.Report ≡ true }
    ensures others { SameOthers Port.Report (B.outside bench.old) (B.outside bench.new) }
{
    let end = make_room(end, text, bench);
    add(text, line.as_slice());
    end
}
