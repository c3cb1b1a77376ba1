//! The rows of pins: from a row's cycle on, its drive.
ghost use Rattle.std.specs.Prelude.{◌≡◌, ◌≢◌, ◌≤◌, ◌<◌, ℕ, List, length, slice_index};
ghost use Rattle.std.specs.List.{All};
ghost use Rattle.part_law.specs.Spans.{IsIn};
ghost use Rattle.law_board.specs.Player.{drive_at, has_row};
ghost use Rattle.trace_run.specs.Rows.{AreAllPast, AreCounts, AreInOrder, ArePast, IsCount, IsNext, any_row, earlier};

use part_law::Span;
use sim_base::{Drive, List};

/// How many rows stand at or before a cycle, where so many do.
fn count_on(rows: &[(u32, Drive)], cycle: u64, from: usize) -> usize
    requires order { AreInOrder rows.now }
    requires past { ArePast rows.now cycle from }
    ensures { IsCount rows.now cycle result }
{
    let mut count = from;
    while count < rows.len() && u64::from(rows[count].0) <= cycle {
        count += 1;
    }
    count
}

/// The drive of the last of so many rows.
#[inline]
pub fn drive_of(rows: &[(u32, Drive)], count: usize) -> Drive
    requires { count ≤ length rows.now }
    ensures { (cycle : ℕ) → IsCount rows.now cycle count → result ≡ drive_at rows.now cycle }
{
    if count == 0 {
        Drive::Z
    } else {
        rows[count - 1].1
    }
}

/// The cycle of the first row behind so many.
fn next_row(rows: &[(u32, Drive)], count: usize) -> Option<u64>
    requires { AreInOrder rows.now }
    ensures { (cycle : ℕ) → IsCount rows.now cycle count → IsNext (has_row rows.now) cycle result }
{
    if count < rows.len() {
        Some(u64::from(rows[count].0))
    } else {
        None
    }
}

fn earlier(a: Option<u64>, b: Option<u64>) -> Option<u64>
    ensures { result ≡ earlier a b }
{
    match (a, b) {
        (Some(u), Some(v)) => Some(if u < v { u } else { v }),
        (None, b) => b,
        (a, None) => a,
    }
}

/// Some pins, and one more.
fn with_pin(moved: Span, pin: u8) -> Span
    requires { pin < 64 }
    ensures { (k : ℕ) → ¬ IsIn result k → (¬ IsIn moved k) × (k ≢ pin) }
{
    moved.joined(Span {
        from: pin,
        to: pin + 1,
    })
}

/// Some pins, and one more where more of its rows are past than before.
fn with_moved(moved: Span, pin: usize, before: usize, count: usize) -> Span
    requires { pin < 64 }
    ensures { (k : ℕ) → ¬ IsIn result k → (¬ IsIn moved k) × (k ≡ pin → count ≡ before) }
{
    if count == before {
        moved
    } else {
        with_pin(moved, pin as u8)
    }
}

/// Counts of each pin the rows at or before a cycle, where so many are. Answers the cycle of the first row of any pin behind it,
/// and the pins of which more are.
pub fn count_all(
    pins: &[List<(u32, Drive)>],
    cycle: u64,
    counts: &mut [usize; 64],
) -> (Option<u64>, Span)
    requires few { length pins.now ≤ 64 }
    requires order { All AreInOrder pins.now }
    requires past { AreAllPast pins.now cycle counts.old }
    ensures counts { AreCounts pins.now cycle counts.new }
    ensures next { IsNext (any_row pins.now) cycle result.0 }
    ensures moved { (pin : ℕ) → ¬ IsIn result.1 pin → slice_index counts.new pin ≡ slice_index counts.old pin }
{
    let mut next = None;
    let mut moved = Span::none();
    let mut i = pins.len();
    while i > 0 {
        i -= 1;
        let rows = pins[i].as_slice();
        let before = counts[i];
        let count = count_on(rows, cycle, before);
        moved = with_moved(moved, i, before, count);
        counts[i] = count;
        next = earlier(next_row(rows, count), next);
    }
    (next, moved)
}
