//! An event that is to come, named by its cycle: the end of a conversion, the last cycle of a bit, a sample.
ghost use Rattle.std.specs.Prelude.{◌≡◌};
ghost use Rattle.avr_unit.specs.Coming.{comes, or_end, within_run};

use sim_base::MOST_CYCLES;

/// Whether it comes in this cycle.
#[inline]
pub fn comes(event: Option<u64>, cycle: u64) -> bool
    ensures { result ≡ comes event cycle }
{
    match event {
        Some(at) => at == cycle,
        None => false,
    }
}

/// Its cycle, or `MOST_CYCLES`, the end of a board's time.
#[inline]
pub fn or_end(event: Option<u64>) -> u64
    ensures { result ≡ or_end event }
{
    match event {
        Some(cycle) => cycle,
        None => MOST_CYCLES,
    }
}

/// A cycle, if it lies within a board's time.
#[inline]
pub fn within_run(cycle: u64) -> Option<u64>
    ensures { result ≡ within_run cycle }
{
    if cycle < MOST_CYCLES {
        Some(cycle)
    } else {
        None
    }
}
