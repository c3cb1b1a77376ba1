//! A board, and beside it the chips of a second one.
ghost use Rattle.std.specs.Prelude.{◌≡◌, ℕ, ◌+◌, ◌<◌, ◌≤◌, map, None, Some};
ghost use Rattle.std.specs.Option.{option_map};
ghost use Rattle.board_twin.specs.Beside.{HasRoom, OnWay, WentOn, difference_of, view_of};
ghost use Rattle.board_twin.specs.Twins.{AreTwins, HaveNoContacts, IsTwin, cycle_of, differs, other_states, wakes_in};

use crate::chips::{Chips, least_due};
use crate::compare::difference;
use crate::twin::TwinEnd;
use board_run::{Board, RunEnd, Unwatched};
use part_law::Part;
use sim_base::{MOST_CYCLES, Steps};
use std::sync::ledger::Ledger;

/// A board, and the chips of another that differs in them alone.
#[derive(Drop)]
pub(crate) struct Beside<P: Part> {
    pub(crate) board: Board<P>,
    pub(crate) chips: Chips<P>,
}

impl<P: Part> Beside<P> {
    /// How the chips of the two drive otherwise in the board's cycle, if they do.
    fn difference(&self) -> Option<TwinEnd>
        requires { (more : ℕ) × OnWay P.Part self.now more }
        ensures cycle { (e : TwinEnd) → result ≡ Some e → cycle_of e 0 ≡ self.now.board.cycle }
        ensures found { result ≡ option_map differs (difference_of P.Part self.now) }
    {
        let parts = self.board.parts().as_slice();
        let t = self.board.cycle();
        difference(parts, self.chips.parts.as_slice(), self.board.wiring(), t)
    }

    /// Goes on while the board shows nothing new and no chip is due, not after cycle n. It stays at cycle 0.
    fn go_still<L: Ledger>(&mut self, n: u64, steps: &mut Steps<L>)
        requires way { OnWay P.Part self.old steps.old }
        requires same { difference_of P.Part self.old ≡ None }
        requires end { n ≤ MOST_CYCLES }
        ensures from { self.old.board.cycle ≤ self.new.board.cycle }
        ensures within { self.old.board.cycle < self.new.board.cycle → self.new.board.cycle ≤ n }
        ensures same { self.new.board.cycle ≡ self.old.board.cycle → difference_of P.Part self.new ≡ None }
        ensures went { WentOn P.Part self.old self.new steps.old steps.new }
    {
        let t = self.board.cycle();
        let next = least_due(self.chips.parts.as_slice(), n);
        if t > 0 && t < next {
            self.board.run_still(next, steps);
        }
    }

    /// One cycle of the board, which nobody watches, and then of the chips.
    fn step<L: Ledger>(&mut self, steps: &mut Steps<L>)
        requires way { OnWay P.Part self.old steps.old }
        requires same { difference_of P.Part self.old ≡ None }
        requires end { self.old.board.cycle < MOST_CYCLES }
        ensures cycle { self.new.board.cycle ≡ self.old.board.cycle + 1 }
        ensures went { WentOn P.Part self.old self.new steps.old steps.new }
    {
        let t = self.board.cycle();
        match self.board.run(t + 1, &mut Unwatched::new(), steps) {
            RunEnd::Done => {}
            RunEnd::WriteFault => unreachable!(),
        }
        self.chips
            .turn(self.board.wiring(), self.board.levels(), t, steps);
    }

    /// Goes on: while the board shows nothing new and no chip is due, or by one cycle.
    fn advance<L: Ledger>(&mut self, n: u64, steps: &mut Steps<L>)
        requires way { OnWay P.Part self.old steps.old }
        requires same { difference_of P.Part self.old ≡ None }
        requires order { self.old.board.cycle < n }
        requires end { n ≤ MOST_CYCLES }
        ensures further { self.old.board.cycle < self.new.board.cycle }
        ensures within { self.new.board.cycle ≤ n }
        ensures went { WentOn P.Part self.old self.new steps.old steps.new }
    {
        let t = self.board.cycle();
        self.go_still(n, steps);
        if self.board.cycle() == t {
            self.step(steps);
        }
    }

    /// Runs a board at cycle 0 with chips beside it up to the first cycle in which one drives otherwise, or to cycle n.
    pub(crate) fn run<L: Ledger>(&mut self, n: u64, steps: &mut Steps<L>) -> TwinEnd
        requires twins { AreTwins P.machine P.state P.now P.wakes (view_of self.old) }
        requires room { HasRoom self.old }
        requires end { n ≤ MOST_CYCLES }
        ensures room { HasRoom self.new }
        ensures twin { HaveNoContacts P.machine self.old.board.wiring (map P.state self.old.board.parts) (other_states P.state (view_of self.old))
            → IsTwin P.machine self.old.board.wiring self.old.board.inputs (map P.state self.old.board.parts)
            (other_states P.state (view_of self.old)) n result steps.old steps.new }
        ensures woken { wakes_in P.wakes (view_of self.new) + steps.old ≡ wakes_in P.wakes (view_of self.old) + steps.new }
    {
        while self.board.cycle() < n {
            if let Some(end) = self.difference() {
                return end;
            }
            self.advance(n, steps);
        }
        TwinEnd::Same
    }
}
