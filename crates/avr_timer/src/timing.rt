//! The cycles in which a counter ticks.
ghost use Rattle.std.specs.Prelude.{◌≡◌, ◌<◌, ◌≤◌};
ghost use Rattle.avr_timer.specs.Timing.{is_tick, ticks_in, ticks_to, begins, passed, tick_after, Begun};

use crate::mode::Mode;
use sim_base::MOST_CYCLES;

/// What makes a counter tick: its mode, the prescaler (divisor 0 where it stands), and the cycles of the
/// prescaler's last reset and of the count's last write.
#[derive(Clone, Copy, Debug, PartialEq, Eq)]
pub struct Timing {
    pub mode: Mode,
    pub divisor: u16,
    pub reset: u64,
    pub written: u64,
}

fn ticks_in(divisor: u64, cycles: u64) -> u64
    requires { 0 < divisor }
    ensures value { result ≡ ticks_in divisor cycles }
    ensures short { result ≤ cycles }
{
    if cycles == 0 {
        0
    } else {
        (cycles - 1) / divisor
    }
}

impl Timing {
    /// Whether the counter ticks in a cycle.
    pub fn is_tick(&self, cycle: u64) -> bool
        ensures { result ≡ is_tick self.now cycle }
    {
        (self.divisor > 0)
            && (self.reset < cycle)
            && (self.written < cycle)
            && ((cycle - self.reset) % u64::from(self.divisor) == 0)
    }

    fn begins(&self, cycle: u64) -> u64
        requires { cycle < 18446744073709551615 }
        ensures { result ≡ begins self.now cycle }
    {
        if self.written < cycle {
            cycle
        } else {
            cycle + 1
        }
    }

    fn ticks_to(&self, cycle: u64) -> u64
        requires runs { 0 < self.now.divisor }
        requires begun { self.now.reset ≤ cycle }
        ensures value { result ≡ ticks_to self.now cycle }
        ensures short { result ≤ cycle }
    {
        ticks_in(u64::from(self.divisor), cycle - self.reset)
    }

    /// The ticks in the cycles from one to before another.
    pub fn passed(&self, from: u64, to: u64) -> u64
        requires begun { Begun self.now from }
        requires forward { from ≤ to }
        requires end { to < 18446744073709551615 }
        ensures { result ≡ passed self.now from to }
    {
        if self.divisor == 0 {
            return 0;
        }
        let before = self.ticks_to(self.begins(from));
        self.ticks_to(to).saturating_sub(before)
    }

    /// The cycle of the tick after so many more.
    pub fn tick_after(&self, cycle: u64, ticks: u16) -> u64
        requires runs { 0 < self.now.divisor }
        requires divisor { self.now.divisor ≤ 1024 }
        requires begun { Begun self.now cycle }
        requires end { cycle ≤ MOST_CYCLES }
        ensures { result ≡ tick_after self.now cycle ticks }
    {
        let before = self.ticks_to(self.begins(cycle));
        self.reset + (before + u64::from(ticks) + 1) * u64::from(self.divisor)
    }
}
