//! What a chip's pins drive, kept from wake to wake.
ghost use Rattle.std.specs.Prelude.{◌≡◌, ◌<◌, ◌≤◌, ℕ, true, Some, length, slice_get, slice_set};
ghost use Rattle.part_law.specs.Spans.{IsIn};
ghost use Rattle.chip_host.specs.Chip.{turned, chip_drive};
ghost use Rattle.chip_host.specs.Shown.{Shows};
ghost use Rattle.sim_base.specs.declared.limits.TheConstants.{MOST_CYCLES};

use crate::span::with_pin;
use crate::turns::Turns;
use part_law::Span;
use sim_base::Drive;

/// Whether two drives are the same; wipers, which no chip drives, count as different.
fn is_same(a: Drive, b: Drive) -> bool
    ensures { result ≡ true → a ≡ b }
{
    match (a, b) {
        (Drive::Z, Drive::Z) => true,
        (Drive::Low, Drive::Low) => true,
        (Drive::High, Drive::High) => true,
        (Drive::PullLow, Drive::PullLow) => true,
        (Drive::PullHigh, Drive::PullHigh) => true,
        _ => false,
    }
}

/// Keeps what a pin drives, which is one more of the pins that moved where it drove something else.
fn show_pin(pin: usize, drive: Drive, shown: &mut Vec<Drive>, moved: Span) -> Span
    requires few { length shown.old.items ≤ 64 }
    requires within { pin < length shown.old.items }
    ensures shown { shown.new.items ≡ slice_set shown.old.items pin drive }
    ensures moved { (k : ℕ) → ¬ IsIn result k → (¬ IsIn moved k) × (k ≡ pin → slice_get shown.old.items pin ≡ Some drive) }
{
    let before = shown[pin];
    shown[pin] = drive;
    if is_same(before, drive) {
        moved
    } else {
        with_pin(moved, pin as u8)
    }
}

/// Finds what each pin of a span drives, beside which all drive what they drove, and tells those that drove something else.
pub(crate) fn show(turns: &Turns, shown: &mut Vec<Drive>, span: Span) -> Span
    requires few { length shown.old.items ≤ 64 }
    requires others { (k : ℕ) → k < length shown.old.items → ¬ IsIn span k → slice_get shown.old.items k ≡ Some (chip_drive turns.now.chip k) }
    ensures room { length shown.new.items ≡ length shown.old.items }
    ensures shown { Shows turns.now.chip shown.new.items }
    ensures moved { (k : ℕ) → k < length shown.old.items → ¬ IsIn result k → slice_get shown.new.items k ≡ slice_get shown.old.items k }
{
    let mut moved = Span::none();
    let end = shown.len().min(usize::from(span.to));
    for pin in usize::from(span.from)..end {
        let drive = turns.pin_drive(pin as u8);
        moved = show_pin(pin, drive, shown, moved);
    }
    moved
}

/// All turns of a cycle, behind which it tells the pins that drove something else.
pub(crate) fn turn(turns: &mut Turns, shown: &mut Vec<Drive>) -> Span
    requires end { turns.old.cycle < MOST_CYCLES }
    requires count { turns.old.wakes ≤ turns.old.cycle }
    requires few { length shown.old.items ≤ 64 }
    requires shown { Shows turns.old.chip shown.old.items }
    ensures turned { turns.new ≡ turned turns.old }
    ensures room { length shown.new.items ≡ length shown.old.items }
    ensures shown { Shows turns.new.chip shown.new.items }
    ensures moved { (k : ℕ) → k < length shown.old.items → ¬ IsIn result k → slice_get shown.new.items k ≡ slice_get shown.old.items k }
{
    let span = turns.take_turns();
    if span.has_any() {
        show(turns, shown, span)
    } else {
        Span::none()
    }
}
