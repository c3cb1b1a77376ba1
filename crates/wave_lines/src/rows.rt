//! The rows of a value that changes, kept while one change after another is read.
ghost use Rattle.std.specs.Prelude.{◌≡◌, Bool, OnOk};
ghost use Rattle.wave_lines.specs.Rows.{ends_at, ends_in, with_row, with_value, without_row};

use sim_base::{Drive, Level, OutOfMemory};

/// What rows are of.
pub trait RowValue: Copy {
    ghost same: { Self → Self → Bool };

    fn is_same(self, other: Self) -> bool
        ensures { result ≡ same self other };
}

impl RowValue for Drive {
    ghost use Rattle.wave_lines.specs.Same.{same_drive};

    ghost same = { same_drive };

    fn is_same(self, other: Drive) -> bool {
        self == other
    }
}

impl RowValue for Level {
    ghost use Rattle.wave_lines.specs.Same.{same_level};

    ghost same = { same_level };

    fn is_same(self, other: Level) -> bool {
        self == other
    }
}

fn ends_at<V: RowValue>(rows: &[(u32, V)], cycle: u32) -> bool
    ensures { result ≡ ends_at rows.now cycle }
{
    match rows.last() {
        Some(row) => row.0 == cycle,
        None => false,
    }
}

fn ends_in<V: RowValue>(rows: &[(u32, V)], value: V) -> bool
    ensures { result ≡ ends_in V.same rows.now value }
{
    match rows.last() {
        Some(row) => row.1.is_same(value),
        None => false,
    }
}

/// Takes off the row of this cycle, the greatest, if there is one.
fn take_off<V: RowValue>(rows: &mut Vec<(u32, V)>, cycle: u32)
    ensures { rows.new.items ≡ without_row rows.old.items cycle }
{
    if ends_at(rows, cycle) {
        rows.truncate(rows.len() - 1);
    }
}

fn put_on<V: RowValue>(rows: &mut Vec<(u32, V)>, cycle: u32, value: V) -> Result<(), OutOfMemory>
    ensures { OnOk result (rows.new.items ≡ with_row V.same rows.old.items cycle value) }
{
    if ends_in(rows, value) {
        return Ok(());
    }
    rows.push((cycle, value))?;
    Ok(())
}

/// Makes the value that of a cycle, the greatest so far, and of those after it.
pub fn set_row<V: RowValue>(
    rows: &mut Vec<(u32, V)>,
    cycle: u32,
    value: V,
) -> Result<(), OutOfMemory>
    ensures { OnOk result (rows.new.items ≡ with_value V.same rows.old.items cycle value) }
{
    take_off(rows, cycle);
    put_on(rows, cycle, value)
}
