//! A live board.
ghost use Rattle.std.specs.Prelude.{◌≡◌, ℕ, ◌+◌, ◌-◌, ◌<◌, ◌≤◌, List, length, map, true, false, None, OnOk, OnErr};
ghost use Rattle.sim_base.specs.Causes.{Rose};
ghost use Rattle.board_model.specs.Board.{drives_of, contacts_of, levels_of};
ghost use Rattle.board_model.specs.Fits.{AreInputs};
ghost use Rattle.law_board.specs.Scripts.{with_input, SameRun};
ghost use Rattle.law_board.specs.Stretch.{IsStretch};
ghost use Rattle.board_run.specs.Changes.{LastTells};
ghost use Rattle.board_live.specs.LiveView.{LiveView, states_by, bytes_by, wakes_by};
ghost use Rattle.board_live.specs.Follows.{Follows, StoppedBefore};

use board_run::{Board, RunEnd};
use part_law::Part;
use sim_base::{Drive, Input, List, MOST_CYCLES, OutOfMemory, Steps, Watcher};
use std::marker::Model;
use std::snapshot::Snapshot;
use std::sync::ledger::Ledger;

/// A board that runs from cycle 0 as far as it is told, and takes values for its parts on the way.
#[derive(Drop)]
pub struct LiveBoard<P: Part> {
    board: Board<P>,
    /// The parts at cycle 0, which clauses alone read.
    start: Snapshot<List<P>>,
}

impl<P: Part> Model for LiveBoard<P> {
    ghost use Rattle.board_live.specs.LiveView.{LiveView};
    ghost use Rattle.board_live.specs.Played.{IsPlayed};

    ghost Value = { LiveView P };

    ghost view = { λ a. record {
      start = a.start.value;
      wiring = a.board.wiring;
      inputs = a.board.inputs;
      cycle = a.board.cycle;
      over = a.board.given_up;
    } };

    ghost invariant = { λ a. IsPlayed P.Part a.start.value a.board };
}

impl<P: Part> LiveBoard<P> {
    /// A live board over a board at cycle 0. The values of its script count as given.
    pub fn open(board: Board<P>) -> LiveBoard<P>
        requires cycle { board.cycle ≡ 0 }
        requires alive { board.given_up ≡ false }
        requires before { board.before ≡ None }
        requires inputs { AreInputs (length board.parts) board.inputs }
        ensures { result ≡ record { start = board.parts; wiring = board.wiring; inputs = board.inputs; cycle = 0; over = false } }
    {
        let start = Snapshot::of(board.parts());
        LiveBoard { board, start }
    }

    /// The cycle whose step comes next.
    pub fn cycle(&self) -> u64
        requires { self.now.over ≡ false }
        ensures value { result ≡ self.now.cycle }
        ensures end { result ≤ MOST_CYCLES }
    {
        self.board.cycle()
    }

    /// The parts as they stand.
    pub fn parts(&self) -> &List<P>
        requires { self.now.over ≡ false }
        ensures { map P.state result.now ≡ states_by P.Part self.now self.now.cycle }
    {
        self.board.parts()
    }

    /// The next cycle in which something may happen, from its own on, or `MOST_CYCLES`: before it no part is active.
    pub fn next(&self) -> u64
        requires { self.now.over ≡ false }
        ensures from { self.now.cycle ≤ result }
        ensures within { result ≤ MOST_CYCLES }
        ensures quiet { self.now.cycle < result
            → IsStretch P.machine self.now.wiring self.now.inputs (states_by P.Part self.now self.now.cycle) self.now.cycle (result - self.now.cycle) }
    {
        self.board.next()
    }

    /// Whether a drive or a contact changed in the last step.
    pub fn has_moved(&self) -> bool
        requires { self.now.over ≡ false }
        ensures { 0 < self.now.cycle → LastTells P.machine self.now.wiring self.now.inputs result (map P.state self.now.start) 0 self.now.cycle }
    {
        self.board.has_moved()
    }

    /// What each pin drives in the live board's cycle.
    pub fn drives(&self) -> &[Drive]
        requires { self.now.over ≡ false }
        ensures drives { result.now ≡ drives_of P.machine (states_by P.Part self.now self.now.cycle) }
        ensures pins { length result.now ≡ length self.now.wiring.net_of }
    {
        self.board.drives()
    }

    /// Which contacts are closed in it.
    pub fn closed(&self) -> &[bool]
        requires { self.now.over ≡ false }
        ensures closed { result.now ≡ contacts_of P.machine (states_by P.Part self.now self.now.cycle) }
        ensures contacts { length result.now ≡ length self.now.wiring.contacts }
    {
        self.board.closed()
    }

    /// All values that were given, in the order of their cycles: the script of a run that hands out the same.
    pub fn inputs(&self) -> &List<Input>
        ensures values { result.now ≡ self.now.inputs }
        ensures script { AreInputs (length self.now.start) self.now.inputs }
    {
        self.board.inputs()
    }

    /// Gives a part a value in the live board's cycle or a later one. Where a part has several in one cycle, the last counts.
    /// If memory runs out, the live board is as before.
    pub fn give(&mut self, input: Input) -> Result<(), OutOfMemory>
        requires later { self.old.cycle ≤ input.cycle }
        requires part { input.part < length self.old.start }
        ensures ok { OnOk result (self.new ≡ record self.old { inputs = with_input self.old.inputs input }) }
        ensures err { OnErr result (self.new ≡ self.old) }
        ensures past { (n : ℕ) → n ≤ self.old.cycle
            → SameRun P.machine self.old.wiring self.old.inputs self.new.inputs None (map P.state self.old.start) 0 n }
    {
        self.board.give(input)
    }

    /// Goes on to cycle n, at most `MOST_CYCLES`, and hands out what the cycles before n show. If a write fails, the live board is over.
    pub fn run_to<W: Watcher, L: Ledger>(
        &mut self,
        n: u64,
        out: &mut W,
        steps: &mut Steps<L>,
    ) -> RunEnd
        requires alive { self.old.over ≡ false }
        requires order { self.old.cycle ≤ n }
        requires end { n ≤ MOST_CYCLES }
        requires follows { Follows P.Part W.Watcher self.old out.old }
        ensures live { result ≡ RunEnd.Done → self.new ≡ record self.old { cycle = n } }
        ensures follows { result ≡ RunEnd.Done → Follows P.Part W.Watcher self.new out.new }
        ensures steps { result ≡ RunEnd.Done → steps.new + wakes_by P.Part self.old self.old.cycle ≡ steps.old + wakes_by P.Part self.old n }
        ensures over { result ≡ RunEnd.WriteFault → self.new.over ≡ true }
        ensures fault { result ≡ RunEnd.WriteFault → Rose (W.faults out.old) (W.faults out.new) }
        ensures stopped { result ≡ RunEnd.WriteFault → StoppedBefore P.Part W.Watcher self.old n out.new }
        ensures place { W.place out.new ≡ W.place out.old }
    {
        if n <= self.board.cycle() {
            return RunEnd::Done;
        }
        self.board.run(n, out, steps)
    }

    /// Goes on by a stretch of one part or by one event, not after cycle n, at most `MOST_CYCLES`, and hands out what the cycles
    /// that it runs show. Only the last of them brings bytes, and levels and drives are the same in all. If a write fails, the live
    /// board is over.
    pub fn advance<W: Watcher, L: Ledger>(
        &mut self,
        n: u64,
        out: &mut W,
        steps: &mut Steps<L>,
    ) -> RunEnd
        requires alive { self.old.over ≡ false }
        requires order { self.old.cycle < n }
        requires end { n ≤ MOST_CYCLES }
        requires follows { Follows P.Part W.Watcher self.old out.old }
        ensures further { self.old.cycle < self.new.cycle }
        ensures within { self.new.cycle ≤ n }
        ensures live { result ≡ RunEnd.Done → self.new ≡ record self.old { cycle = self.new.cycle } }
        ensures follows { result ≡ RunEnd.Done → Follows P.Part W.Watcher self.new out.new }
        ensures silent { bytes_by P.Part self.old (self.new.cycle - 1) ≡ bytes_by P.Part self.old self.old.cycle }
        ensures still { (u : ℕ) → self.old.cycle ≤ u → u < self.new.cycle
            → (levels_of P.machine self.old.wiring (states_by P.Part self.old u) ≡ levels_of P.machine self.old.wiring (states_by P.Part self.old self.old.cycle))
            × (drives_of P.machine (states_by P.Part self.old u) ≡ drives_of P.machine (states_by P.Part self.old self.old.cycle)) }
        ensures steps { result ≡ RunEnd.Done → steps.new + wakes_by P.Part self.old self.old.cycle ≡ steps.old + wakes_by P.Part self.old self.new.cycle }
        ensures over { result ≡ RunEnd.WriteFault → self.new.over ≡ true }
        ensures fault { result ≡ RunEnd.WriteFault → Rose (W.faults out.old) (W.faults out.new) }
        ensures stopped { result ≡ RunEnd.WriteFault → StoppedBefore P.Part W.Watcher self.old self.new.cycle out.new }
        ensures place { W.place out.new ≡ W.place out.old }
    {
        self.board.advance(n, out, steps)
    }
}
