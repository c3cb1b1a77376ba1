//! The engine of a board: it goes from one cycle in which something may happen to the next.
ghost use Rattle.std.specs.Prelude.{◌≡◌, ◌+◌, ◌-◌, ◌<◌, ◌≤◌, []};
ghost use Rattle.board_run.specs.Changes.{StaysSame};
ghost use Rattle.board_run.specs.Engine.{MayRun, Watches, Showed, bytes_to, states_of, wiring_of};

use crate::hand::{forget, hand_sent};
use crate::reading::Reading;
use crate::script::end_of_cycle;
use event_queue::DueTree;
use part_law::Part;
use sim_base::{Input, List, MOST_CYCLES, Steps, Watcher, WriteEnd};
use std::sync::ledger::Ledger;

/// The parts of a board, each of which stands where it was woken last, and what moves them.
#[derive(Drop)]
pub(crate) struct Engine<P> {
    pub(crate) parts: List<P>,
    pub(crate) inputs: List<Input>,
    /// The cycle whose step comes next.
    pub(crate) cycle: u64,
    /// At which script value it continues.
    pub(crate) input: usize,
    /// Whether a drive or a contact changed since the nets were resolved.
    pub(crate) changed: bool,
    /// When each part is due.
    pub(crate) dues: DueTree,
    pub(crate) reading: Reading,
    /// The byte that each part emitted in a cycle; between cycles none.
    pub(crate) answers: List<Option<u8>>,
}

impl<P: Part> Engine<P> {
    /// Runs the cycles up to n - 1; its parts may lag behind at the end. It ends with the cycle of the first write that fails.
    pub(crate) fn run<W: Watcher, L: Ledger>(
        &mut self,
        n: u64,
        out: &mut W,
        steps: &mut Steps<L>,
    ) -> WriteEnd
        requires order { self.old.cycle ≤ n }
        requires end { n ≤ MOST_CYCLES }
        requires may { MayRun P.Part self.old }
        requires watches { Watches W.Watcher self.old out.old }
        ensures within { self.new.cycle ≤ n }
        ensures cycle { result ≡ WriteEnd.Ok → self.new.cycle ≡ n }
        ensures showed { Showed P.Part W.Watcher result self.old self.new steps.old steps.new out.old out.new }
    {
        while self.cycle < n {
            match self.advance(n, out, steps) {
                WriteEnd::Ok => {}
                WriteEnd::Failed => return WriteEnd::Failed,
            }
        }
        WriteEnd::Ok
    }

    /// Goes on by a stretch of one part that is alone, or to the next cycle in which something may happen, and by that one. Only
    /// its last cycle brings bytes, and levels and drives are the same in all.
    pub(crate) fn advance<W: Watcher, L: Ledger>(
        &mut self,
        n: u64,
        out: &mut W,
        steps: &mut Steps<L>,
    ) -> WriteEnd
        requires order { self.old.cycle < n }
        requires end { n ≤ MOST_CYCLES }
        requires may { MayRun P.Part self.old }
        requires watches { Watches W.Watcher self.old out.old }
        ensures further { self.old.cycle < self.new.cycle }
        ensures within { self.new.cycle ≤ n }
        ensures silent { bytes_to P.Part self.old (self.new.cycle - 1) ≡ [] }
        ensures still { StaysSame P.machine (wiring_of self.old) self.old.inputs (states_of P.Part self.old) self.old.cycle (self.new.cycle - self.old.cycle) }
        ensures showed { Showed P.Part W.Watcher result self.old self.new steps.old steps.new out.old out.new }
    {
        match self.find_alone(n) {
            Some((who, limit)) => self.stretch(who, limit, out, steps),
            None => self.next_event(n, out, steps),
        }
    }

    /// Passes over the cycles in which nothing happens, and goes on by the next one, if that is before n.
    #[inline(always)]
    fn next_event<W: Watcher, L: Ledger>(
        &mut self,
        n: u64,
        out: &mut W,
        steps: &mut Steps<L>,
    ) -> WriteEnd
        requires order { self.old.cycle < n }
        requires end { n ≤ MOST_CYCLES }
        requires may { MayRun P.Part self.old }
        requires watches { Watches W.Watcher self.old out.old }
        ensures further { self.old.cycle < self.new.cycle }
        ensures within { self.new.cycle ≤ n }
        ensures silent { bytes_to P.Part self.old (self.new.cycle - 1) ≡ [] }
        ensures still { StaysSame P.machine (wiring_of self.old) self.old.inputs (states_of P.Part self.old) self.old.cycle (self.new.cycle - self.old.cycle) }
        ensures showed { Showed P.Part W.Watcher result self.old self.new steps.old steps.new out.old out.new }
    {
        self.skip(n);
        if self.cycle < n {
            self.event(out, steps)
        } else {
            WriteEnd::Ok
        }
    }

    /// One cycle: its row, a wake of each part that is active, their bytes.
    fn event<W: Watcher, L: Ledger>(&mut self, out: &mut W, steps: &mut Steps<L>) -> WriteEnd
        requires end { self.old.cycle < MOST_CYCLES }
        requires may { MayRun P.Part self.old }
        requires watches { Watches W.Watcher self.old out.old }
        ensures cycle { self.new.cycle ≡ self.old.cycle + 1 }
        ensures showed { Showed P.Part W.Watcher result self.old self.new steps.old steps.new out.old out.new }
    {
        let after = self.cycle + 1;
        let (shown, differ) = self.show(out);
        let end = end_of_cycle(self.inputs.as_slice(), self.input, self.cycle);
        let woken = self.turn(differ, end, steps);
        self.cycle = after;
        self.input = end;
        self.changed = woken.changed;
        match shown {
            WriteEnd::Ok => hand_sent(woken.sent, &mut self.answers, out),
            WriteEnd::Failed => {
                forget(&mut self.answers);
                WriteEnd::Failed
            }
        }
    }
}
