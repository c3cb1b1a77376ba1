//! The labels of a `br_table`, but for its default.
ghost use Rattle.std.specs.Prelude.{◌≡◌, IfOk};

use sim_base::List;
use std::alloc::{AllocError, Global};
use std::marker::Model;

/// A list of labels that takes the room of one pointer in an instruction.
#[derive(Drop)]
pub struct Labels {
    list: Box<List<u32>>,
}

impl Model for Labels {
    ghost use Rattle.std.specs.Prelude.{List, ℕ};

    ghost Value = { List ℕ };

    ghost view = { λ a. a.list.value };
}

impl Labels {
    pub fn new(alloc: Global, list: List<u32>) -> Result<Labels, AllocError>
        ensures { IfOk result (λ labels. labels ≡ list) }
    {
        Ok(Labels {
            list: Box::new(alloc, list)?,
        })
    }

    pub fn as_slice(&self) -> &[u32]
        ensures { result.now ≡ self.now }
    {
        self.list.as_slice()
    }
}
