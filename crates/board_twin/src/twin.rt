//! Two boards as one.
ghost use Rattle.std.specs.Prelude.{◌≡◌, ◌+◌, ◌≤◌, map, IfOk};
ghost use Rattle.board_twin.specs.Twins.{AreTwins, HaveNoContacts, IsTwin, other_states, wakes_in};

use crate::beside::Beside;
use crate::chips::Chips;
use board_run::Board;
use part_law::Part;
use sim_base::{Drive, Level, List, MOST_CYCLES, OutOfMemory, Steps};
use std::alloc::Global;
use std::marker::Model;
use std::sync::ledger::Ledger;

/// How a twin ended.
#[derive(Clone, Copy, Debug, PartialEq, Eq)]
pub enum TwinEnd {
    /// The chips drive the same in every cycle.
    Same,
    /// The first cycle in which a chip drives otherwise, in it the first such part, of this the first such pin, and what the
    /// two boards drive there.
    Differs {
        cycle: u64,
        part: u8,
        pin: u8,
        a: Drive,
        b: Drive,
    },
}

/// A board, and the chips of another that differs in them alone.
#[derive(Drop)]
pub struct Twin<P: Part> {
    beside: Beside<P>,
}

impl<P: Part> Model for Twin<P> {
    ghost use Rattle.board_twin.specs.Beside.{HasRoom, view_of};
    ghost use Rattle.board_twin.specs.Twins.{TwinView};

    ghost Value = { TwinView P };

    ghost view = { λ a. view_of a.beside };

    ghost invariant = { λ a. HasRoom a.beside };
}

impl<P: Part + Drop> Twin<P> {
    /// A board, and the chips of another in the order of its parts.
    pub fn new(alloc: Global, a: Board<P>, chips: List<P>) -> Result<Twin<P>, OutOfMemory>
        ensures { IfOk result (λ t. t ≡ record { board = a; chips = chips }) }
    {
        let levels = vec![in alloc; Level::Z; a.wiring().nets as usize]?;
        let own = vec![in alloc; Level::Z; a.wiring().net_of.len()]?;
        let chips = Chips {
            parts: chips,
            levels: List::from_vec(levels),
            own: List::from_vec(own),
        };
        Ok(Twin {
            beside: Beside { board: a, chips },
        })
    }
}

impl<P: Part> Twin<P> {
    /// Runs the two boards as one from cycle 0 to cycle n, and stops before the first cycle in which a chip drives otherwise. What
    /// is no chip is moved once; each set of chips is woken where it is active and nowhere else.
    pub fn run<L: Ledger>(&mut self, n: u64, steps: &mut Steps<L>) -> TwinEnd
        requires twins { AreTwins P.machine P.state P.now P.wakes self.old }
        requires end { n ≤ MOST_CYCLES }
        ensures twin { HaveNoContacts P.machine self.old.board.wiring (map P.state self.old.board.parts) (other_states P.state self.old)
            → IsTwin P.machine self.old.board.wiring self.old.board.inputs (map P.state self.old.board.parts) (other_states P.state self.old)
            n result steps.old steps.new }
        ensures woken { wakes_in P.wakes self.new + steps.old ≡ wakes_in P.wakes self.old + steps.new }
    {
        self.beside.run(n, steps)
    }
}
