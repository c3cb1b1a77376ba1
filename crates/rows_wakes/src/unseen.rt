//! A watcher that looks at nothing.
ghost use Rattle.std.specs.Prelude.{◌≡◌, true, None};

use sim_base::{Drive, Level, Watcher, WriteEnd};

#[derive(Drop)]
pub struct Unseen {
    last: Option<u64>,
}

impl Unseen {
    pub fn new() -> Unseen
        ensures { result ≡ record { last = None } }
    {
        Unseen { last: None }
    }
}

impl Watcher for Unseen {
    ghost use Rattle.std.specs.Prelude.{◌≡◌, Bool, true};

    ghost stands = { λ w rows bytes. true ≡ true };

    ghost stopped = { λ w rows bytes. true ≡ true };

    ghost whole = { λ w. true };

    ghost last = { λ w. w.last };

    ghost seen = { λ w levels. true ≡ true };

    ghost faults = { λ w. 0 };

    ghost Place = { Bool };

    ghost place = { λ w. true };

    fn row(&mut self, t: u64, _levels: &[Level], _drives: &[Drive], _changed: &[u16]) -> WriteEnd {
        self.last = Some(t);
        WriteEnd::Ok
    }

    fn byte(&mut self, _b: u8) -> WriteEnd {
        WriteEnd::Ok
    }
}
