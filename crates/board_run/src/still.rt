//! Parts are brought to the cycle of their engine, and an engine goes on while nothing new is shown.
ghost use Rattle.std.specs.Prelude.{◌≡◌, ◌-◌, ◌<◌, ◌≤◌};
ghost use Rattle.part_law.specs.Machine.{IsQuiet, IsFirstDue};
ghost use Rattle.board_run.specs.Lagging.{glided};
ghost use Rattle.board_run.specs.Legs.{AreAt};
ghost use Rattle.board_run.specs.Engine.{MayRun, Settled, Rests};

use crate::engine::Engine;
use crate::unwatched::Unwatched;
use part_law::Part;
use sim_base::{MOST_CYCLES, Steps};
use std::sync::ledger::Ledger;

/// Brings a part to the cycle, and asks it when it is due.
#[inline]
fn settle_one<P: Part>(part: &mut P, n: u64) -> Option<u64>
    requires end { n ≤ MOST_CYCLES }
    requires later { P.now part.old ≤ n }
    requires quiet { IsQuiet P.machine (P.state part.old) (P.now part.old) (n - P.now part.old) }
    ensures state { P.state part.new ≡ glided P.machine P.state P.now P.wakes n part.old }
    ensures now { P.now part.new ≡ n }
    ensures wakes { P.wakes part.new ≡ P.wakes part.old }
    ensures due { IsFirstDue P.machine (P.state part.new) (P.now part.new) result }
{
    part.settle(n);
    part.due()
}

impl<P: Part> Engine<P> {
    /// Brings every part to the cycle, and asks it when it is due.
    pub(crate) fn settle(&mut self)
        requires end { self.old.cycle ≤ MOST_CYCLES }
        requires may { MayRun P.Part self.old }
        ensures settled { Settled P.Part self.old self.new }
        ensures at { AreAt P.now self.new.cycle self.new.parts }
    {
        for i in 0..self.parts.len() {
            let due = settle_one(self.parts.item_mut(i), self.cycle);
            self.dues.set(i as u8, due);
        }
    }

    /// Goes on, not after n, by one stretch in which nothing new is shown: of one part by itself, or of no part. It
    /// stays where a drive or a contact changed, where the script has a value and where parts are due together.
    pub(crate) fn rest<L: Ledger>(&mut self, n: u64, steps: &mut Steps<L>)
        requires order { self.old.cycle < n }
        requires end { n ≤ MOST_CYCLES }
        requires may { MayRun P.Part self.old }
        ensures within { self.new.cycle ≤ n }
        ensures rests { Rests P.Part self.old self.new steps.old steps.new }
    {
        match self.find_alone(n) {
            Some((who, limit)) => {
                self.stretch(who, limit, &mut Unwatched::new(), steps);
            }
            None => self.skip(n),
        }
    }
}
