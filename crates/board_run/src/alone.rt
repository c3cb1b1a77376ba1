//! One part goes on by itself, while no other is due.
ghost use Rattle.std.specs.Prelude.{◌≡◌, ◌-◌, ◌<◌, ◌≤◌, [], true};
ghost use Rattle.law_board.specs.Steady.{IsSteady};
ghost use Rattle.board_run.specs.Lagging.{MayTurn};
ghost use Rattle.board_run.specs.Legs.{WentBy};
ghost use Rattle.board_run.specs.Engine.{wiring_of, MayRun, MayStretch, Watches, Showed, states_of, bytes_to};

use crate::engine::Engine;
use crate::hand::hand_byte;
use part_law::{Part, Went};
use sim_base::{MOST_CYCLES, Steps, Watcher, WriteEnd};
use std::sync::ledger::Ledger;

/// A part that was left behind goes on by itself from cycle t, up to the limit or its first wake that may show something.
#[inline(always)]
fn go_alone<P: Part, L: Ledger>(
    part: &mut P,
    due: &mut Option<u64>,
    t: u64,
    limit: u64,
    steps: &mut Steps<L>,
) -> Went
    requires order { t < limit }
    requires end { limit ≤ MOST_CYCLES }
    requires may { MayTurn P.machine P.state P.now P.wakes t due.old part.old }
    requires valid { P.machine.valid (P.state part.old) (P.now part.old) ≡ true }
    ensures { WentBy P.machine P.state P.now P.wakes P.moves t limit part.old part.new due.new result steps.old steps.new }
{
    part.settle(t);
    let went = part.go_on(limit, steps);
    *due = part.due();
    went
}

impl<P: Part> Engine<P> {
    /// Part `who` goes on by itself, the nets are told what it drives and connects, and its byte is handed out.
    pub(crate) fn stretch<W: Watcher, L: Ledger>(
        &mut self,
        who: u8,
        limit: u64,
        out: &mut W,
        steps: &mut Steps<L>,
    ) -> WriteEnd
        requires end { limit ≤ MOST_CYCLES }
        requires may { MayRun P.Part self.old }
        requires alone { MayStretch self.old who limit limit }
        requires watches { Watches W.Watcher self.old out.old }
        ensures further { self.old.cycle < self.new.cycle }
        ensures within { self.new.cycle ≤ limit }
        ensures silent { bytes_to P.Part self.old (self.new.cycle - 1) ≡ [] }
        ensures steady { IsSteady P.machine (wiring_of self.old) self.old.inputs (states_of P.Part self.old) self.old.cycle (self.new.cycle - self.old.cycle) }
        ensures showed { Showed P.Part W.Watcher result self.old self.new steps.old steps.new out.old out.new }
    {
        let i = who as usize;
        let mut due = self.dues.due(who);
        let went = go_alone(self.parts.item_mut(i), &mut due, self.cycle, limit, steps);
        self.dues.set(who, due);
        let first = self.reading.wiring().first_pin.as_slice()[i] as usize;
        self.changed = self.tell(went.changed, i, first);
        self.cycle = went.to;
        hand_byte(went.byte, out)
    }
}
