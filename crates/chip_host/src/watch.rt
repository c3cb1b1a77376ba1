//! Watches on pins.
ghost use Rattle.std.specs.Prelude.{◌≡◌};
ghost use Rattle.chip_host.specs.Chip.{is_edge, reading};

use crate::lists::read_or;
use sim_base::{Level, reads_one};

/// A watch on a pin: 1 rising edges, 2 falling ones, 3 both.
#[derive(Clone, Copy)]
pub struct Watch {
    pub user: u32,
    pub edge: u32,
    pub callback: u32,
}

pub(crate) fn is_edge(edge: u32, before: bool, now: bool) -> bool
    ensures { result ≡ is_edge edge before now }
{
    match (before, now) {
        (false, true) => edge == 1 || edge == 3,
        (true, false) => edge == 2 || edge == 3,
        _ => false,
    }
}

/// What a pin reads; a pin that is not there reads 0.
pub(crate) fn reading(levels: &[Level], i: usize) -> bool
    ensures { result ≡ reading levels.now i }
{
    reads_one(read_or(levels, i, Level::Z))
}
