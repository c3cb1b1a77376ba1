//! A cycle in which only the active parts are woken.
ghost use Rattle.std.specs.Prelude.{◌≡◌, ◌≢◌, ℕ, ◌+◌, ◌<◌, ◌≤◌, Bool, [], length, map};
ghost use Rattle.std.specs.Prelude.{Some, None, true, false, if◌then◌else◌, slice_get, slice_index};
ghost use Rattle.part_law.specs.Machine.{IsFirstDue, MayWake};
ghost use Rattle.board_model.specs.Board.{level_at, input_at};
ghost use Rattle.board_run.specs.Lagging.{is_at, to_wake, glided, AreLate, MayTurn, Wakes, turned, OthersStay};
ghost use Rattle.board_run.specs.Parts.{has_part};
ghost use Rattle.board_run.specs.Engine.{wiring_of, own_of, MayTurnOn, TurnedOn, MayTurnPart, TurnedTo, TurnedAt, TurnedPart};

use crate::engine::Engine;
use crate::gather::find_input;
use crate::part_set::PartSet;
use event_queue::DueTree;
use part_law::Part;
use sim_base::{Input, Level, MOST_CYCLES, Steps};
use std::sync::ledger::Ledger;

/// Whether a drive or a contact changed where parts were woken, and whether one sent a byte.
#[derive(Clone, Copy)]
pub(crate) struct Woken {
    pub(crate) changed: bool,
    pub(crate) sent: bool,
}

/// Whether this is the due cycle.
#[inline]
fn is_at(due: Option<u64>, t: u64) -> bool
    ensures { result ≡ is_at due t }
{
    match due {
        Some(u) => u == t,
        None => false,
    }
}

/// Whether a part is due, addressed by the script, or has a level on its pins that it does not hold.
#[inline]
fn is_to_wake(due: Option<u64>, t: u64, input: Option<u16>, differs: bool) -> bool
    ensures { result ≡ to_wake due t input differs }
{
    is_at(due, t) || input.is_some() || differs
}

/// Wakes a part that was left behind; answers its byte, and whether a drive or a contact may have changed.
#[inline(always)]
fn wake_late<P: Part, L: Ledger>(
    part: &mut P,
    due: &mut Option<u64>,
    own: &[Level],
    input: Option<u16>,
    t: u64,
    steps: &mut Steps<L>,
) -> (Option<u8>, bool)
    requires end { t < MOST_CYCLES }
    requires may { MayTurn P.machine P.state P.now P.wakes t due.old part.old }
    requires pins { length own.now ≡ length (P.machine.drives (P.state part.old)) }
    requires active { MayWake P.machine (glided P.machine P.state P.now P.wakes t part.old) t own.now input }
    ensures wakes { Wakes P.machine P.state P.now P.wakes t own.now input part.old part.new result.0 result.1 }
    ensures first { IsFirstDue P.machine (P.state part.new) (P.now part.new) due.new }
    ensures others { OthersStay P.machine P.state P.now P.wakes P.moves t part.old part.new }
    ensures steps { steps.new ≡ steps.old + 1 }
{
    part.settle(t);
    steps.tick();
    let byte = part.wake(own, input);
    *due = part.due();
    (byte, part.changed())
}

/// A part's turn in a cycle: where it is active it is woken on the levels of its pins.
#[inline(always)]
fn take_turn_on<P: Part, L: Ledger>(
    part: &mut P,
    due: &mut Option<u64>,
    own: &[Level],
    differs: bool,
    input: Option<u16>,
    t: u64,
    steps: &mut Steps<L>,
) -> (Option<u8>, bool)
    requires end { t < MOST_CYCLES }
    requires may { MayTurn P.machine P.state P.now P.wakes t due.old part.old }
    requires pins { length own.now ≡ length (P.machine.drives (P.state part.old)) }
    requires differs { differs ≡ true → 0 < t → P.machine.held (P.state part.old) ≢ own.now }
    ensures { TurnedTo P.Part t own.now input differs part.old part.new due.old due.new result.0 result.1 steps.old steps.new }
{
    if is_to_wake(*due, t, input, differs) {
        wake_late(part, due, own, input, t, steps)
    } else {
        (None, false)
    }
}

/// Has a part hear its levels, of which one differs from the one that it holds, where it may and is never due. It answers
/// None where the part has to take its turn.
#[inline(always)]
fn hear_levels<P: Part, L: Ledger>(
    may_hear: bool,
    part: &mut P,
    due: Option<u64>,
    levels: &[Level],
    t: u64,
    steps: &mut Steps<L>,
) -> Option<bool>
    requires end { t < MOST_CYCLES }
    requires may { MayTurn P.machine P.state P.now P.wakes t due part.old }
    requires pins { length (P.machine.drives (P.state part.old)) ≤ length levels.now }
    requires differs { may_hear ≡ true → 0 < t → P.machine.held (P.state part.old) ≢ own_of P.Part part.old levels.now }
    ensures stays { result ≡ None → (part.new ≡ part.old) × (steps.new ≡ steps.old) }
    ensures asked { (touched : Bool) → result ≡ Some touched → (may_hear ≡ true) × (due ≡ None) }
    ensures turned { (touched : Bool) → result ≡ Some touched
        → TurnedTo P.Part t (own_of P.Part part.old levels.now) None true part.old part.new None None None touched steps.old steps.new }
{
    if !may_hear || due.is_some() {
        return None;
    }
    let heard = part.hear(levels, t);
    if heard.is_some() {
        steps.tick();
    }
    heard
}

/// These parts and those that the script addresses.
fn with_given(parts: PartSet, given: &[Input]) -> PartSet
    ensures marked { (t k : ℕ) → k < 64 → has_part result k ≡ false → (has_part parts k ≡ false) × (input_at given.now t k ≡ None) }
    ensures silent { given.now ≡ [] → result ≡ parts }
{
    let mut set = parts;
    for input in given {
        if input.part < 64 {
            set = set.with(input.part as usize);
        }
    }
    set
}

/// The least part that is due in cycle t, or the end where none is.
#[inline]
fn first_at(dues: &DueTree, t: u64, end: usize) -> usize
    requires end { end ≡ length dues.now }
    requires late { AreLate dues.now t }
    ensures within { result ≤ end }
    ensures due { result < end → slice_get dues.now result ≡ Some (Some t) }
    ensures passed { (k : ℕ) → k < result → slice_get dues.now k ≢ Some (Some t) }
{
    match dues.first() {
        Some((u, who)) if u == t => who as usize,
        _ => end,
    }
}

/// The least part that is due in cycle t, or the end, after the turn of part `i`. If it comes after part `i`, it is as before
/// that turn.
#[inline]
fn first_again(dues: &DueTree, t: u64, i: usize, before: usize, end: usize) -> usize
    requires before { before ≤ end }
    requires end { end ≡ length dues.now }
    requires late { AreLate dues.now t }
    requires passed { (k : ℕ) → k < i + 1 → slice_get dues.now k ≢ Some (Some t) }
    requires rest { i < before → (k : ℕ) → k < before → slice_get dues.now k ≢ Some (Some t) }
    ensures behind { i < end → i + 1 ≤ result }
    ensures within { result ≤ end }
    ensures passed { (k : ℕ) → k < result → slice_get dues.now k ≢ Some (Some t) }
{
    if i < before {
        before
    } else {
        first_at(dues, t, end)
    }
}

impl<P: Part> Engine<P> {
    /// Gives the parts that may be active their turn on the levels that were read: those that are due, addressed by the
    /// script, or on a net whose level changed. Where one is active it is woken, and the nets are told what it drives and
    /// connects. The script's values before a place are those of the cycle. It leaves the bytes in `answers`.
    #[inline(always)]
    pub(crate) fn turn<L: Ledger>(
        &mut self,
        differ: PartSet,
        end: usize,
        steps: &mut Steps<L>,
    ) -> Woken
        requires may { MayTurnOn P.Part self.old differ }
        requires given_within { (self.old.input ≤ end) × (end ≤ length self.old.inputs) }
        ensures { TurnedOn P.Part self.old self.new differ end result steps.old steps.new }
    {
        let given = &self.inputs.as_slice()[self.input..end];
        let marked = with_given(differ, given);
        let silent = given.is_empty();
        let mut sent = false;
        let mut changed = false;
        let count = self.parts.len();
        let mut least = first_at(&self.dues, self.cycle, count);
        let mut i = marked.next(0, least);
        while i < count {
            let may_hear = silent && i < least;
            let woken = self.turn_part(i, may_hear, differ, end, steps);
            sent = sent | woken.sent;
            changed = changed | woken.changed;
            least = first_again(&self.dues, self.cycle, i, least, count);
            i = marked.next(i + 1, least);
        }
        Woken { changed, sent }
    }

    /// The turn of part `i`, where it is active; the nets are told what it drives and connects then.
    #[inline(always)]
    fn turn_part<L: Ledger>(
        &mut self,
        i: usize,
        may_hear: bool,
        differ: PartSet,
        end: usize,
        steps: &mut Steps<L>,
    ) -> Woken
        requires { MayTurnPart P.Part self.old i may_hear differ end }
        ensures { TurnedPart P.Part self.old self.new i differ end result steps.old steps.new }
    {
        let first = self.reading.wiring().first_pin.as_slice()[i];
        let woken = self.wake_at(i, first, may_hear, differ, end, steps);
        let changed = self.tell(woken.changed, i, first as usize);
        Woken {
            changed,
            sent: woken.sent,
        }
    }

    /// The same, of which the nets are not told yet; the part's pins begin at a place. It hears their levels if it may and
    /// can. The answer tells whether a drive or a contact may have changed.
    #[inline(always)]
    fn wake_at<L: Ledger>(
        &mut self,
        i: usize,
        first: u16,
        may_hear: bool,
        differ: PartSet,
        end: usize,
        steps: &mut Steps<L>,
    ) -> Woken
        requires may { MayTurnPart P.Part self.old i may_hear differ end }
        requires first { first ≡ slice_index (wiring_of self.old).first_pin i }
        ensures { TurnedAt P.Part self.old self.new i differ end result steps.old steps.new }
    {
        let reading = &self.reading;
        let levels = &reading.nets.pin_levels()[first as usize..];
        let part = self.parts.item_mut(i);
        let mut due = self.dues.due(i as u8);
        if let Some(touched) = hear_levels(may_hear, part, due, levels, self.cycle, steps) {
            return Woken {
                changed: touched,
                sent: false,
            };
        }
        let pins = part.pins() as usize;
        let input = find_input(&self.inputs.as_slice()[self.input..end], self.cycle, i);
        let differs = differ.has(i);
        let (byte, touched) = take_turn_on(
            part,
            &mut due,
            &levels[..pins],
            differs,
            input,
            self.cycle,
            steps,
        );
        self.dues.set(i as u8, due);
        *self.answers.item_mut(i) = byte;
        Woken {
            changed: touched,
            sent: byte.is_some(),
        }
    }
}
