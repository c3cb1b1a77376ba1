//! The frames on a bus, from change to change.
ghost use Rattle.std.specs.Prelude.{◌≡◌, ◌≤◌, true, length, slice_get, unwrap_or, []};
ghost use Rattle.sim_base.specs.Outside.{SameOthers};
ghost use Rattle.sim_outcome_model.specs.Work.{Wrote};
ghost use Rattle.wave_decode.specs.Frames.{AreHeard, IsBus, frames_text, heard_text, line_count, nothing};
ghost use Rattle.wave_decode.specs.Rising.{IsRising};

use crate::bus::{Bus, Heard};
use crate::gathered::{Gathered, gather, write_next};
use crate::hear::hear;
use crate::levels::LevelRows;
use crate::wire::{Wire, first_cycle, wire_at};
use sim_base::{Bench, Level, Port, WriteEnd, reads_one};

fn nothing() -> Heard
    ensures { result ≡ nothing }
{
    Heard {
        from: 0,
        started: false,
        count: 0,
        value: 0,
    }
}

/// The rows of a line, none where there is no such line.
fn rows_of(levels: &LevelRows, k: usize) -> &[(u32, Level)]
    ensures { result.now ≡ unwrap_or (slice_get levels.now.rows k) [] }
{
    match levels.rows.get(k) {
        Some(rows) => rows.as_slice(),
        None => &[],
    }
}

/// Writes the lines of the frames on a bus from change to change of its lines' levels.
fn listen<B: Bench>(
    bus: Bus,
    n: u32,
    of_a: &[(u32, Level)],
    of_b: &[(u32, Level)],
    bench: &mut B,
) -> WriteEnd
    requires end { n ≤ 160000000 }
    requires bus { IsBus bus }
    requires a { IsRising 0 of_a.now }
    requires b { IsRising 0 of_b.now }
    requires opened { (B.outside bench.old).opened Port.Report ≡ true }
    ensures wrote { Wrote result Port.Report (heard_text bus n of_a.now of_b.now) (B.outside bench.old) (B.outside bench.new) }
    ensures named { (B.outside bench.new).name Port.Report ≡ (B.outside bench.old).name Port.Report }
    ensures opened { (B.outside bench.new).opened Port.Report ≡ true }
    ensures others { SameOthers Port.Report (B.outside bench.old) (B.outside bench.new) }
{
    if n == 0 {
        return WriteEnd::Ok;
    }
    let mut end = WriteEnd::Ok;
    let mut text = Gathered::new();
    let mut heard = nothing();
    let mut a = wire_at(
        Wire {
            level: Level::Z,
            rows: of_a,
        },
        0,
    );
    let mut b = wire_at(
        Wire {
            level: Level::Z,
            rows: of_b,
        },
        0,
    );
    let mut next = first_cycle(first_cycle(n, a.rows), b.rows);
    while next < n {
        let was = (reads_one(a.level), reads_one(b.level));
        a = wire_at(a, next);
        b = wire_at(b, next);
        let step = hear(bus, n, was, a, b, next, heard);
        heard = step.heard;
        end = gather(end, &mut text, &step.line, bench);
        next = first_cycle(first_cycle(n, a.rows), b.rows);
    }
    write_next(end, text.as_slice(), bench)
}

/// Writes the lines that tell the frames on a bus on Report: all of them, or a first part where a write
/// fails. It takes no memory.
pub fn frames<B: Bench>(rows: &LevelRows, bus: Bus, bench: &mut B) -> WriteEnd
    requires bus { IsBus bus }
    requires lines { length rows.now.rows ≡ line_count bus }
    requires heard { AreHeard rows.now }
    requires opened { (B.outside bench.old).opened Port.Report ≡ true }
    ensures wrote { Wrote result Port.Report (frames_text bus rows.now) (B.outside bench.old) (B.outside bench.new) }
    ensures named { (B.outside bench.new).name Port.Report ≡ (B.outside bench.old).name Port.Report }
    ensures opened { (B.outside bench.new).opened Port.Report ≡ true }
    ensures others { SameOthers Port.Report (B.outside bench.old) (B.outside bench.new) }
{
    listen(bus, rows.cycles, rows_of(rows, 0), rows_of(rows, 1), bench)
}
