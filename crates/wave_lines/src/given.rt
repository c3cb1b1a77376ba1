//! Which variables have a value in cycle 0.
ghost use Rattle.std.specs.Prelude.{◌≡◌, ◌<◌, length, replicate, false, IfOk};
ghost use Rattle.std.specs.List.{list_all};
ghost use Rattle.wave_lines.specs.Gifts.{given_after};

use sim_base::OutOfMemory;
use std::alloc::Global;
use std::marker::Model;

/// Whether each variable has a value in cycle 0.
#[derive(Drop)]
pub struct Given {
    given: Vec<bool>,
}

impl Model for Given {
    ghost use Rattle.std.specs.Prelude.{List, Bool};

    ghost Value = { List Bool };

    ghost view = { λ g. g.given.items };
}

impl Given {
    /// Of so many variables none has one.
    pub fn new(alloc: Global, variables: usize) -> Result<Given, OutOfMemory>
        ensures { IfOk result (λ g. g ≡ replicate variables false) }
    {
        Ok(Given {
            given: vec![in alloc; false; variables]?,
        })
    }

    /// A variable has a value in a cycle.
    pub fn note(&mut self, i: usize, cycle: u32)
        requires { i < length self.old }
        ensures { self.new ≡ given_after self.old i cycle }
    {
        if cycle == 0 {
            self.given[i] = true;
        }
    }

    /// Whether all have one.
    pub fn are_all(&self) -> bool
        ensures { result ≡ list_all (λ g. g) self.now }
    {
        self.given.iter().all(|given| *given)
    }
}
