//! A run that nobody watches.
ghost use Rattle.std.specs.Prelude.{◌≡◌, ℕ, None, true};

use sim_base::{Drive, Level, Watcher, WriteEnd};

/// Takes no note of rows and bytes, and never fails.
#[derive(Drop)]
pub struct Unwatched {
    /// The cycle of the last row.
    pub last: Option<u64>,
}

impl Unwatched {
    pub fn new() -> Unwatched
        ensures { result.last ≡ None }
    {
        Unwatched { last: None }
    }
}

impl Watcher for Unwatched {
    ghost stands = { λ w rows bytes. Unit {0} };

    ghost stopped = { λ w rows bytes. Unit {0} };

    ghost whole = { λ w. true };

    ghost last = { λ w. w.last };

    ghost seen = { λ w levels. Unit {0} };

    ghost faults = { λ w. 0 };

    ghost Place = { ℕ };

    ghost place = { λ w. 0 };

    fn row(&mut self, t: u64, levels: &[Level], drives: &[Drive], changed: &[u16]) -> WriteEnd {
        self.last = Some(t);
        WriteEnd::Ok
    }

    fn byte(&mut self, b: u8) -> WriteEnd {
        WriteEnd::Ok
    }
}
