//! The level of a line from a cycle on.
ghost use Rattle.std.specs.Prelude.{◌≡◌, ◌≤◌, ◌<◌, ℕ, suc, length, IfSome, IfNone};
ghost use Rattle.sim_base.specs.declared.signal.Level.{Level};
ghost use Rattle.wave_decode.specs.Rising.{first_cycle, level_at, IsRising};

use sim_base::Level;

/// A line in a cycle: its level, and the rows of later cycles.
#[derive(Clone, Copy)]
pub(crate) struct Wire<'a> {
    pub(crate) level: Level,
    pub(crate) rows: &'a [(u32, Level)],
}

/// The level of the next row, where it is not after a cycle, and the rows after it.
fn due_row(rows: &[(u32, Level)], t: u32) -> Option<(Level, &[(u32, Level)])>
    requires { IsRising 0 rows.now }
    ensures same { IfSome result (λ x. (found : Level) (u : ℕ) → t ≤ u → level_at found rows.now u ≡ level_at x.0 x.1.now u) }
    ensures rising { IfSome result (λ x. IsRising 0 x.1.now) }
    ensures shorter { IfSome result (λ x. length x.1.now < length rows.now) }
    ensures past { IfNone result (IsRising (suc t) rows.now) }
{
    match rows {
        [row, more @ ..] if row.0 <= t => Some((row.1, more)),
        _ => None,
    }
}

/// The line in a cycle that is not before its own.
pub(crate) fn wire_at<'a>(wire: Wire<'a>, t: u32) -> Wire<'a>
    requires { IsRising 0 wire.rows.now }
    ensures level { level_at wire.entry.level wire.entry.rows.now t ≡ result.level }
    ensures later { (u : ℕ) → t ≤ u → level_at result.level result.rows.now u ≡ level_at wire.entry.level wire.entry.rows.now u }
    ensures rising { IsRising (suc t) result.rows.now }
    ensures shorter { length result.rows.now ≤ length wire.entry.rows.now }
{
    let mut level = wire.level;
    let mut rows = wire.rows;
    while let Some((next, more)) = due_row(rows, t) {
        level = next;
        rows = more;
    }
    Wire { level, rows }
}

/// The cycle of the next row, where it is before cycle n.
pub(crate) fn first_cycle(n: u32, rows: &[(u32, Level)]) -> u32
    ensures { result ≡ first_cycle n rows.now }
{
    match rows {
        [row, ..] => row.0.min(n),
        [] => n,
    }
}
