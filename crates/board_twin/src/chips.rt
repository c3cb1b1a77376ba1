//! The chips of a second board, which are moved beside a first.
ghost use Rattle.std.specs.Prelude.{◌≡◌, ℕ, ◌+◌, ◌-◌, ◌<◌, ◌≤◌, length, map, take, not, None, Some, slice_get};
ghost use Rattle.part_law.specs.Machine.{IsQuiet};
ghost use Rattle.board_model.specs.Board.{level_at};
ghost use Rattle.board_model.specs.Rows.{same_level, same_list};
ghost use Rattle.law_board.specs.Stands.{Stands};
ghost use Rattle.board_run.specs.Lagging.{glided, to_wake};
ghost use Rattle.board_twin.specs.Beside.{AreBehind, ChipsTurned, MayTurnChip, TookTurn, TurnedChip, wake_in};

use board_run::level_of_net;
use part_law::Part;
use sim_base::{Level, List, MOST_CYCLES, Steps, Wiring};
use std::sync::ledger::Ledger;

/// Chips in the order of the parts that they stand for, each of which stands where it was woken last.
#[derive(Drop)]
pub(crate) struct Chips<P> {
    pub(crate) parts: List<P>,
    /// The levels of the nets that they hold on their pins.
    pub(crate) levels: List<Level>,
    /// Room for the levels of the pins of one.
    pub(crate) own: List<Level>,
}

fn is_same_level(a: Level, b: Level) -> bool
    ensures { result ≡ same_level a b }
{
    a == b
}

/// Writes the levels of these nets, and tells whether one is another than before.
fn read_levels(nets: &[u16], before: &[Level], now: &[Level], own: &mut List<Level>) -> bool
    requires room { length nets.now ≤ length own.old }
    ensures own { take (length nets.now) own.new ≡ map (level_at now.now) nets.now }
    ensures long { length own.new ≡ length own.old }
    ensures differs { result ≡ not (same_list same_level (map (level_at now.now) nets.now) (map (level_at before.now) nets.now)) }
{
    let mut same = true;
    for i in 0..nets.len() {
        let level = level_of_net(now, nets[i]);
        let was = level_of_net(before, nets[i]);
        same = same & is_same_level(level, was);
        *own.item_mut(i) = level;
    }
    !same
}

fn first_of(levels: &[Level], count: usize) -> &[Level]
    requires { count ≤ length levels.now }
    ensures { result.now ≡ take count levels.now }
{
    &levels[..count]
}

/// Whether a chip is woken in a cycle: it is due, or a level on its pins differs from the one that it holds.
fn is_to_wake(due: Option<u64>, t: u64, differs: bool) -> bool
    ensures { result ≡ to_wake due t None differs }
{
    match due {
        Some(u) => u == t || differs,
        None => differs,
    }
}

/// The turn of a chip in a cycle, on these levels of its pins: it is woken where it is active.
fn take_turn<P: Part, L: Ledger>(
    chip: &mut P,
    own: &[Level],
    differs: bool,
    t: u64,
    steps: &mut Steps<L>,
)
    requires end { t < MOST_CYCLES }
    requires stands { Stands P.machine t (P.now chip.old) (P.state chip.old) (glided P.machine P.state P.now P.wakes t chip.old) }
    requires count { P.wakes chip.old ≤ P.now chip.old }
    requires pins { length own.now ≡ length (P.machine.drives (P.state chip.old)) }
    requires differs { 0 < t → differs ≡ not (same_list same_level own.now (P.machine.held (P.state chip.old))) }
    ensures took { TookTurn P.Part t own.now chip.old chip.new }
    ensures woken { P.wakes chip.new + steps.old ≡ P.wakes chip.old + steps.new }
    ensures steps { steps.new ≡ steps.old + wake_in P.Part t own.now (glided P.machine P.state P.now P.wakes t chip.old) }
{
    if is_to_wake(chip.due(), t, differs) {
        chip.settle(t);
        steps.tick();
        chip.wake(own, None);
    }
}

/// The cycle in which the chip is due, if it is before `n`, and else `n`.
fn earlier<P: Part>(chip: &P, n: u64) -> u64
    requires end { n ≤ MOST_CYCLES }
    ensures within { result ≤ n }
    ensures quiet { IsQuiet P.machine (P.state chip.now) (P.now chip.now) (result - P.now chip.now) }
{
    match chip.due() {
        Some(u) if u < n => u,
        _ => n,
    }
}

/// The first cycle in which one of these chips is due, if it is before `n`, and else `n`.
pub(crate) fn least_due<P: Part>(chips: &[P], n: u64) -> u64
    requires end { n ≤ MOST_CYCLES }
    ensures within { result ≤ n }
    ensures quiet { (j : ℕ) (q : _) → slice_get chips.now j ≡ Some q → IsQuiet P.machine (P.state q) (P.now q) (result - P.now q) }
{
    let mut least = n;
    for j in 0..chips.len() {
        least = earlier(&chips[j], least);
    }
    least
}

impl<P: Part> Chips<P> {
    /// Gives chip j its turn in a cycle, on the levels of these nets.
    fn turn_chip<L: Ledger>(
        &mut self,
        j: usize,
        nets: &[u16],
        now: &[Level],
        t: u64,
        steps: &mut Steps<L>,
    )
        requires end { t < MOST_CYCLES }
        requires may { MayTurnChip P.Part t nets.now self.old j }
        ensures { TurnedChip P.Part t (map (level_at now.now) nets.now) j self.old self.new steps.old steps.new }
    {
        let differs = read_levels(nets, self.levels.as_slice(), now, &mut self.own);
        let own = first_of(self.own.as_slice(), nets.len());
        take_turn(self.parts.item_mut(j), own, differs, t, steps);
    }

    /// Gives each its turn in a cycle, on the levels that the board had in it.
    pub(crate) fn turn<L: Ledger>(
        &mut self,
        wiring: &Wiring,
        now: &[Level],
        t: u64,
        steps: &mut Steps<L>,
    )
        requires end { t < MOST_CYCLES }
        requires places { length wiring.now.first_pin ≡ length wiring.now.chip }
        requires levels { length now.now ≡ wiring.now.nets }
        requires behind { AreBehind P.Part wiring.now t self.old }
        ensures turned { ChipsTurned P.Part wiring.now now.now t self.old (length wiring.now.chip) self.new steps.old steps.new }
        ensures levels { self.new.levels ≡ now.now }
        ensures own { length self.new.own ≡ length self.old.own }
    {
        let net_of = wiring.net_of.as_slice();
        let mut j = 0;
        for k in 0..wiring.chip.len() {
            if wiring.chip.as_slice()[k] {
                let first = wiring.first_pin.as_slice()[k] as usize;
                let pins = self.parts.as_slice()[j].pins() as usize;
                self.turn_chip(j, &net_of[first..first + pins], now, t, steps);
                j += 1;
            }
        }
        self.levels.as_mut_slice().copy_from_slice(now);
    }
}
