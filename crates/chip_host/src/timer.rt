//! Timers.
ghost use Rattle.std.specs.Prelude.{◌≡◌, ◌+◌, ◌≤◌, None};
ghost use Rattle.chip_host.specs.HostCall.{cycles_of, started};
ghost use Rattle.chip_host.specs.Chip.{again, is_at};
ghost use Rattle.chip_host.specs.FirstDue.{first_due};

use chip_engines::{due_from, earlier};
use sim_base::MOST_CYCLES;

/// A delay, as it was asked.
#[derive(Clone, Copy)]
pub enum Delay {
    Micros(u32),
    Nanos(u64),
}

/// A timer: the cycle in which it is due, and the delay after which it is due again.
#[derive(Clone, Copy)]
pub struct Timer {
    pub user: u32,
    pub callback: u32,
    pub due: Option<u64>,
    pub again: Option<Delay>,
}

/// The cycle that a delay ends with when it begins in this one.
fn end_of(from: u64, delay: Delay) -> u64
    requires { from ≤ MOST_CYCLES }
    ensures { result ≡ from + cycles_of delay }
{
    match delay {
        Delay::Micros(x) => {
            let cycles = 16 * u64::from(x);
            from + (if cycles == 0 { 1 } else { cycles })
        }
        Delay::Nanos(x) => {
            let cycles = ((2 * u128::from(x) + 124) / 125) as u64;
            from + (if cycles == 0 { 1 } else { cycles })
        }
    }
}

/// A timer that is started, and perhaps again and again.
pub(crate) fn started(now: u64, delay: Delay, again: bool, timer: Timer) -> Timer
    requires { now ≤ MOST_CYCLES }
    ensures { result ≡ started now delay again timer }
{
    Timer {
        user: timer.user,
        callback: timer.callback,
        due: Some(end_of(now, delay)),
        again: if again { Some(delay) } else { None },
    }
}

/// A timer that is stopped.
pub(crate) fn stopped(timer: Timer) -> Timer
    ensures { result ≡ record timer { due = None } }
{
    Timer {
        user: timer.user,
        callback: timer.callback,
        due: None,
        again: timer.again,
    }
}

/// A timer that is due, before its callback.
pub(crate) fn again(now: u64, timer: Timer) -> Timer
    requires { now ≤ MOST_CYCLES }
    ensures { result ≡ again now timer }
{
    Timer {
        user: timer.user,
        callback: timer.callback,
        due: match timer.again {
            Some(delay) => Some(end_of(now, delay)),
            None => None,
        },
        again: timer.again,
    }
}

/// Whether a timer is due in this cycle.
pub(crate) fn is_at(now: u64, due: Option<u64>) -> bool
    ensures { result ≡ is_at now due }
{
    match due {
        Some(cycle) => cycle == now,
        None => false,
    }
}

/// The first cycle from one on, and below the end, at which a timer is due.
pub(crate) fn first_due(timers: &[Timer], from: u64) -> Option<u64>
    ensures { result ≡ first_due from timers.now }
{
    match timers {
        [] => None,
        [timer, rest @ ..] => earlier(due_from(from, timer.due), first_due(rest, from)),
    }
}
