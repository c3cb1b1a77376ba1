//! The clock of units that stand still in power-down.
ghost use Rattle.std.specs.Prelude.{◌≡◌, ◌+◌, ◌≤◌, min};
ghost use Rattle.avr_unit.specs.Clock.{IsBegun, own_cycle, does_run, board_cycle, stopped, started};

use sim_base::MOST_CYCLES;

/// Which cycle of their own the units are in: while the clock runs, the owner's cycle less so many; and while it stands,
/// always the same.
#[derive(Clone, Copy, Debug, PartialEq, Eq)]
pub enum Clock {
    Runs(u64),
    Stands(u64),
}

impl Clock {
    /// Whether it runs.
    #[inline]
    pub fn runs(self) -> bool
        ensures { result ≡ does_run self }
    {
        match self {
            Clock::Runs(_) => true,
            Clock::Stands(_) => false,
        }
    }

    /// The units' own cycle in a cycle of their owner.
    #[inline]
    pub fn own(self, cycle: u64) -> u64
        ensures value { result ≡ own_cycle self cycle }
        ensures least { IsBegun self cycle → result ≤ cycle }
    {
        match self {
            Clock::Runs(behind) => cycle.saturating_sub(behind),
            Clock::Stands(at) => at,
        }
    }

    /// The owner's cycle in which an event of the units' own cycle comes, `MOST_CYCLES` where it comes in none.
    #[inline]
    pub fn board(self, own: u64) -> u64
        ensures { result ≡ board_cycle self own }
    {
        match self {
            Clock::Runs(behind) => own.saturating_add(behind).min(MOST_CYCLES),
            Clock::Stands(_) => MOST_CYCLES,
        }
    }

    /// From this cycle on it stands.
    #[inline]
    pub fn stopped(self, cycle: u64) -> Clock
        ensures { result ≡ stopped self cycle }
    {
        Clock::Stands(self.own(cycle))
    }

    /// From this cycle on it runs.
    #[inline]
    pub fn started(self, cycle: u64) -> Clock
        requires { IsBegun self cycle }
        ensures { result ≡ started self cycle }
    {
        Clock::Runs(cycle - self.own(cycle))
    }
}
