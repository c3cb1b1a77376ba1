//! What a board shows in a cycle.
ghost use Rattle.std.specs.Prelude.{◌≡◌, ◌<◌, map};
ghost use Rattle.board_run.specs.ReadingView.{IsRead, reread};
ghost use Rattle.board_run.specs.Engine.{wiring_of, MayRun, Watches, ShowedCycle};

use crate::engine::Engine;
use crate::hand::hand_row;
use crate::part_set::PartSet;
use part_law::Part;
use sim_base::{MOST_CYCLES, Watcher, WriteEnd};

impl<P: Part> Engine<P> {
    /// Resolves the nets, if a drive or a contact changed, and answers whether rows show what they showed before, and which
    /// parts have a pin whose level is another one than before.
    #[inline(always)]
    fn refresh(&mut self) -> (bool, PartSet)
        requires { MayRun P.Part self.old }
        ensures rest { self.new ≡ record self.old { reading = reread self.old.reading self.new.reading } }
        ensures read { IsRead P.machine (wiring_of self.old) (map P.state self.old.parts) self.old.reading (reread self.old.reading self.new.reading) result.0 result.1 }
    {
        if self.changed {
            self.reading.read()
        } else {
            (true, PartSet::none())
        }
    }

    /// Hands out the row of its cycle, where it has one, and tells which parts have a pin whose level is another one than
    /// before.
    #[inline]
    pub(crate) fn show<W: Watcher>(&mut self, out: &mut W) -> (WriteEnd, PartSet)
        requires end { self.old.cycle < MOST_CYCLES }
        requires may { MayRun P.Part self.old }
        requires watches { Watches W.Watcher self.old out.old }
        ensures { ShowedCycle P.Part W.Watcher result.0 self.old self.new result.1 out.old out.new }
    {
        let cycle = self.cycle;
        let (same, differ) = self.refresh();
        let there = (cycle == 0) | !same;
        let reading = &self.reading;
        let end = hand_row(
            there,
            cycle,
            reading.nets.levels(),
            reading.nets.drives(),
            reading.nets.changed(),
            out,
        );
        (end, differ)
    }
}
