//! Distances on a wheel of greatest + 1 counts.
ghost use Rattle.std.specs.Prelude.{◌≡◌, ◌≤◌};
ghost use Rattle.avr_timer.specs.Counted.{lesser, ahead, behind, forward};

pub(crate) fn lesser(a: u16, b: u16) -> u16
    ensures { result ≡ lesser a b }
{
    if b < a { b } else { a }
}

/// How far it is forward from a count to the count x.
pub(crate) fn ahead(greatest: u16, count: u16, x: u16) -> u16
    requires { count ≤ greatest }
    ensures { result ≡ ahead greatest count x }
{
    if x < count {
        x + (greatest - count) + 1
    } else {
        x - count
    }
}

/// How far it is back from a count to the count x.
pub(crate) fn behind(greatest: u16, count: u16, x: u16) -> u16
    requires { x ≤ greatest }
    ensures { result ≡ behind greatest count x }
{
    if count < x {
        count + (greatest - x) + 1
    } else {
        count - x
    }
}

/// The count so many ticks forward.
pub(crate) fn forward(greatest: u16, count: u16, ticks: u16) -> u16
    requires { count ≤ greatest }
    ensures { result ≡ forward greatest count ticks }
{
    if greatest - count < ticks {
        ticks - (greatest - count) - 1
    } else {
        count + ticks
    }
}
