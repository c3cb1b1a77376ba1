//! A part that drives what was recorded.
ghost use Rattle.std.specs.Prelude.{◌≡◌, ◌≤◌, ◌<◌, ◌+◌, ℕ, length, slice_get};
ghost use Rattle.std.specs.List.{All};
ghost use Rattle.part_law.specs.Spans.{IsIn, no_pins};
ghost use Rattle.law_board.specs.Player.{new_player, player};
ghost use Rattle.trace_run.specs.PlayerAt.{stepped};
ghost use Rattle.trace_run.specs.Rows.{AreInOrder};

use crate::rows::{count_all, drive_of};
use part_law::{Part, Span};
use sim_base::{Drive, Level, List, MOST_CYCLES};
use std::marker::Model;

/// A part that drives on each of its pins what the pin's rows say, whatever the levels are: from a row's cycle on, its drive.
#[derive(Drop)]
pub struct Player {
    rows: List<List<(u32, Drive)>>,
    /// Of each pin how many rows stand at or before `cycle`.
    counts: [usize; 64],
    /// The levels of its last step.
    held: [Level; 64],
    cycle: u64,
    /// The cycle of the first row behind `cycle`.
    next: Option<u64>,
    wakes: u64,
    /// The pins of which a row came with its last wake.
    moved: Span,
}

impl Model for Player {
    ghost use Rattle.std.specs.Prelude.{◌≤◌, length, take};
    ghost use Rattle.std.specs.List.{All};
    ghost use Rattle.sim_base.specs.declared.limits.TheConstants.{MOST_CYCLES};
    ghost use Rattle.trace_run.specs.PlayerAt.{PlayerAt};
    ghost use Rattle.trace_run.specs.Rows.{AreCounts, AreInOrder, IsNext, any_row};

    ghost Value = { PlayerAt };

    ghost view = { λ p. record {
      player = record { rows = p.rows; cycle = p.cycle; held = take (length p.rows) p.held };
      wakes = p.wakes;
      moved = p.moved;
    } };

    ghost invariant = { λ p. record {
      few : length p.rows ≤ 64;
      rows : All AreInOrder p.rows;
      counts : AreCounts p.rows p.cycle p.counts;
      next : IsNext (any_row p.rows) p.cycle p.next;
      end : p.cycle ≤ MOST_CYCLES;
    } };
}

impl Player {
    /// A player of these rows at cycle 0, a list for each pin, whose cycles rise from 0 on.
    pub fn new(rows: List<List<(u32, Drive)>>) -> Self
        requires few { length rows ≤ 64 }
        requires order { All AreInOrder rows }
        ensures { result ≡ record { player = new_player rows; wakes = 0; moved = no_pins } }
    {
        let mut counts = [0; 64];
        let (next, _moved) = count_all(rows.as_slice(), 0, &mut counts);
        Player {
            rows,
            counts,
            held: [Level::Z; 64],
            cycle: 0,
            next,
            wakes: 0,
            moved: Span::none(),
        }
    }

    /// Whether it is due in its cycle.
    fn is_due(&self) -> bool
        ensures { result ≡ player.due self.now.player self.now.player.cycle }
    {
        self.cycle == 0 || self.next == Some(self.cycle + 1)
    }

    /// Goes on by a step on the levels that it holds.
    fn step(&mut self)
        requires end { self.old.player.cycle < MOST_CYCLES }
        requires count { self.old.wakes ≤ self.old.player.cycle }
        ensures player { self.new.player ≡ stepped self.old.player }
        ensures wakes { self.new.wakes ≡ self.old.wakes + 1 }
        ensures others { (pin : ℕ) → ¬ IsIn self.new.moved pin → slice_get (player.drives self.new.player) pin ≡ slice_get (player.drives self.old.player) pin }
    {
        let due = self.is_due();
        self.cycle += 1;
        self.wakes += 1;
        if due {
            let (next, moved) = count_all(self.rows.as_slice(), self.cycle, &mut self.counts);
            self.next = next;
            self.moved = moved;
        } else {
            self.moved = Span::none();
        }
    }
}

impl Part for Player {
    ghost use Rattle.std.specs.Prelude.{nat_lt};
    ghost use Rattle.part_law.specs.Spans.{is_in};
    ghost use Rattle.law_board.specs.Player.{PlayerState, player};
    ghost use Rattle.law_board.specs.PlayerLaws.{player_laws};

    ghost State = { PlayerState };

    ghost machine = { player };

    ghost state = { λ p. p.player };

    ghost now = { λ p. p.player.cycle };

    ghost wakes = { λ p. p.wakes };

    ghost changes = { λ p. nat_lt p.moved.from p.moved.to };

    ghost moves = { λ p pin. is_in p.moved pin };

    fn pins(&self) -> u8 {
        self.rows.len() as u8
    }

    fn contacts(&self) -> u8 {
        0
    }

    fn drive(&self, pin: u8) -> Drive {
        let pin = usize::from(pin);
        let rows = self.rows.as_slice()[pin].as_slice();
        drive_of(rows, self.counts[pin])
    }

    fn contact(&self, i: u8) -> bool {
        false
    }

    fn due(&self) -> Option<u64> {
        if self.cycle == 0 {
            return Some(0);
        }
        match self.next {
            Some(next) if next <= MOST_CYCLES => Some(next - 1),
            _ => None,
        }
    }

    fn woken(&self) -> u64 {
        self.wakes
    }

    fn changed(&self) -> bool {
        self.moved.has_any()
    }

    #[tactic(auto, using(part_law::proofs::SpanLemmas::in_span))]
    fn moved(&self) -> Span {
        self.moved
    }

    fn settle(&mut self, to: u64) {
        self.cycle = to;
    }

    fn wake(&mut self, levels: &[Level], input: Option<u16>) -> Option<u8> {
        self.held[..self.rows.len()].copy_from_slice(levels);
        self.step();
        None
    }

    fn wake_held(&mut self, input: Option<u16>) -> Option<u8> {
        self.step();
        None
    }

    ghost laws = { player_laws };
}
