//! Calls on a group of units, after each of which it is known what comes next.
ghost use Rattle.std.specs.Prelude.{◌≡◌, ◌+◌, ◌<◌, ℕ, List, length, replicate};
ghost use Rattle.sim_base.specs.declared.signal.Level.{Level};
ghost use Rattle.sim_base.specs.declared.signal.Level.TheVariants as levels;
ghost use Rattle.avr_mcu.specs.Ask.{Ask, Told, after, levels_after, IsFit, left, Tells};
ghost use Rattle.avr_mcu.specs.Ready.{Ready};
ghost use Rattle.avr_unit.specs.Placed.{StepMoves};

use avr_unit::{AwakeGroup, Group, PORT_PINS, Pad, Signal, notices};
use part_law::Span;
use sim_base::{Level, MOST_CYCLES};

/// The first cycle in which a unit has an event, or `MOST_CYCLES`, and the least vector that is enabled and flagged, or
/// `VECTORS`.
#[derive(Clone, Copy)]
pub(crate) struct Next {
    pub(crate) due: u64,
    pub(crate) request: u8,
}

// What comes next: found anew only behind a call that may change it.
#[inline]
fn next_of<G: Group>(group: &G, levels: &[Level]) -> Next
    requires { length levels.now ≡ PORT_PINS }
    ensures { (t : ℕ) → G.stands group.now levels.now t → Ready G.machine (G.state group.now) (G.until group.now) (G.stands group.now) levels.now t result.due result.request }
{
    Next {
        due: group.due(),
        request: group.request(levels),
    }
}

/// The group after reset, at cycle 0.
pub(crate) fn begin<G: Group>() -> (G, Next)
    ensures state { G.state result.0 0 ≡ G.machine.reset }
    ensures ready { Ready G.machine (G.state result.0) (G.until result.0) (G.stands result.0) (replicate PORT_PINS levels.Z) 0 result.1.due result.1.request }
{
    let group = G::new();
    let next = next_of(&group, &[Level::Z; PORT_PINS]);
    (group, next)
}

/// A call on a group of units, after which it is known what comes next. Each kind of call is a type: so one function serves all of
/// them, which alone names the type of all units (`ask` of `units.rt`).
pub(crate) trait Asking {
    type Answer;

    ghost ask: { Self → Ask };

    ghost told: { Self.Answer → Told };

    /// Makes the call in a cycle, from the levels before to those now; of a call that is no step the first alone count.
    fn of<G: AwakeGroup>(
        self,
        group: &mut G,
        next: &mut Next,
        cycle: u64,
        before: &[Level],
        now: &[Level],
    ) -> Self::Answer
        requires fit { IsFit (ask self) cycle }
        requires before { length before.now ≡ PORT_PINS }
        requires levels { length now.now ≡ PORT_PINS }
        requires ready { Ready G.machine (G.state group.old) (G.until group.old) (G.stands group.old) before.now cycle next.old.due next.old.request }
        ensures told { Tells G.machine G.touch (ask self) (G.state group.old cycle) cycle before.now now.now (told result) }
        ensures state { G.state group.new (after (ask self) cycle) ≡ left G.machine (ask self) (G.state group.old cycle) cycle before.now now.now }
        ensures ready { Ready G.machine (G.state group.new) (G.until group.new) (G.stands group.new) (levels_after (ask self) before.now now.now) (after (ask self) cycle) next.new.due next.new.request };
}

/// Reads a register, if the group has it.
#[derive(Clone, Copy)]
pub(crate) struct Read {
    pub(crate) reg: u8,
}

impl Asking for Read {
    ghost use Rattle.avr_mcu.specs.Ask as asks;

    type Answer = Option<u8>;

    ghost ask = { λ s. asks.Read s.reg };

    ghost told = { λ x. asks.Value x };

    #[inline]
    fn of<G: AwakeGroup>(
        self,
        group: &mut G,
        next: &mut Next,
        cycle: u64,
        before: &[Level],
        _now: &[Level],
    ) -> Option<u8> {
        if G::has(self.reg) {
            let value = group.read(cycle, before, self.reg);
            if !G::reading_keeps(self.reg) {
                *next = next_of(group, before);
            }
            Some(value)
        } else {
            None
        }
    }
}

/// Writes a register, if the group has it: the pins that were touched before with those of which that may change what they are asked
/// for.
#[derive(Clone, Copy)]
pub(crate) struct Write {
    pub(crate) reg: u8,
    pub(crate) value: u8,
    pub(crate) touched: Span,
}

impl Asking for Write {
    ghost use Rattle.avr_mcu.specs.Ask as asks;

    type Answer = Option<Span>;

    ghost ask = { λ s. asks.Write s.reg s.value s.touched };

    ghost told = { λ x. asks.Pins x };

    #[inline]
    fn of<G: AwakeGroup>(
        self,
        group: &mut G,
        next: &mut Next,
        cycle: u64,
        before: &[Level],
        _now: &[Level],
    ) -> Option<Span> {
        if G::has(self.reg) {
            let touched = group.write(cycle, before, self.reg, self.value, self.touched);
            if !G::writing_keeps_next(self.reg) {
                *next = next_of(group, before);
            }
            Some(touched)
        } else {
            None
        }
    }
}

/// Writes one bit of a register alone, with the same answer.
#[derive(Clone, Copy)]
pub(crate) struct WriteBit {
    pub(crate) reg: u8,
    pub(crate) bit: u8,
    pub(crate) value: bool,
    pub(crate) touched: Span,
}

impl Asking for WriteBit {
    ghost use Rattle.avr_mcu.specs.Ask as asks;

    type Answer = Option<Span>;

    ghost ask = { λ s. asks.WriteBit s.reg s.bit s.value s.touched };

    ghost told = { λ x. asks.Pins x };

    #[inline]
    fn of<G: AwakeGroup>(
        self,
        group: &mut G,
        next: &mut Next,
        cycle: u64,
        before: &[Level],
        _now: &[Level],
    ) -> Option<Span> {
        if G::has(self.reg) {
            let touched = group.write_bit(
                cycle,
                before,
                self.reg,
                self.bit,
                self.value,
                self.touched,
            );
            if !G::writing_keeps_next(self.reg) {
                *next = next_of(group, before);
            }
            Some(touched)
        } else {
            None
        }
    }
}

/// Clears what entering a vector clears.
#[derive(Clone, Copy)]
pub(crate) struct Taken {
    pub(crate) vector: u8,
}

impl Asking for Taken {
    ghost use Rattle.avr_mcu.specs.Ask as asks;

    type Answer = ();

    ghost ask = { λ s. asks.Taken s.vector };

    ghost told = { λ x. asks.Nothing };

    #[inline]
    fn of<G: AwakeGroup>(
        self,
        group: &mut G,
        next: &mut Next,
        cycle: u64,
        before: &[Level],
        _now: &[Level],
    ) {
        group.taken(cycle, before, self.vector);
        *next = next_of(group, before);
    }
}

/// Hands on what reaches the units beside the bus and the vectors.
impl Asking for Signal {
    ghost use Rattle.avr_mcu.specs.Ask as asks;

    type Answer = ();

    ghost ask = { λ s. asks.Gets s };

    ghost told = { λ x. asks.Nothing };

    fn of<G: AwakeGroup>(
        self,
        group: &mut G,
        next: &mut Next,
        cycle: u64,
        before: &[Level],
        _now: &[Level],
    ) {
        group.give(cycle, before, self);
        *next = next_of(group, before);
    }
}

/// One cycle, in which nothing needs to be done if no unit notices: the byte that leaves, whether it ends in a reset of the watchdog,
/// and the pins of which it may have changed what they are asked for.
#[derive(Clone, Copy)]
pub(crate) struct Hear;

impl Asking for Hear {
    ghost use Rattle.avr_mcu.specs.Ask as asks;

    type Answer = (Option<u8>, bool, Span);

    ghost ask = { λ s. asks.Step };

    ghost told = { λ x. asks.Stepped x.0 x.1 x.2 };

    #[inline]
    fn of<G: AwakeGroup>(
        self,
        group: &mut G,
        next: &mut Next,
        cycle: u64,
        before: &[Level],
        now: &[Level],
    ) -> (Option<u8>, bool, Span) {
        if notices(group, next.due, cycle, before, now) {
            step(group, next, cycle, before, now)
        } else {
            (None, false, Span::none())
        }
    }
}

/// The same where a unit has an event.
#[derive(Clone, Copy)]
pub(crate) struct Turn;

impl Asking for Turn {
    ghost use Rattle.avr_mcu.specs.Ask as asks;

    type Answer = (Option<u8>, bool, Span);

    ghost ask = { λ s. asks.Step };

    ghost told = { λ x. asks.Stepped x.0 x.1 x.2 };

    #[inline(always)]
    fn of<G: AwakeGroup>(
        self,
        group: &mut G,
        next: &mut Next,
        cycle: u64,
        before: &[Level],
        now: &[Level],
    ) -> (Option<u8>, bool, Span) {
        step(group, next, cycle, before, now)
    }
}

// One cycle, from the levels before to those now: the byte that leaves, whether it ends in a reset of the watchdog, and the
// pins of which it may have changed what they are asked for.
#[inline(always)]
fn step<G: AwakeGroup>(
    group: &mut G,
    next: &mut Next,
    cycle: u64,
    before: &[Level],
    now: &[Level],
) -> (Option<u8>, bool, Span)
    requires before { length before.now ≡ PORT_PINS }
    requires levels { length now.now ≡ PORT_PINS }
    requires end { cycle < MOST_CYCLES }
    requires ready { Ready G.machine (G.state group.old) (G.until group.old) (G.stands group.old) before.now cycle next.old.due next.old.request }
    ensures byte { result.0 ≡ G.machine.sends (G.state group.old cycle) cycle }
    ensures resets { result.1 ≡ G.machine.power.resets (G.state group.old cycle) cycle }
    ensures pads { StepMoves G.machine (G.state group.old cycle) cycle before.now now.now result.2 }
    ensures state { G.state group.new (cycle + 1) ≡ G.machine.step (G.state group.old cycle) cycle before.now now.now }
    ensures ready { Ready G.machine (G.state group.new) (G.until group.new) (G.stands group.new) now.now (cycle + 1) next.new.due next.new.request }
{
    let resets = group.resets(cycle);
    let (byte, moved) = group.step(cycle, before, now, (None, Span::none()));
    *next = next_of(group, now);
    (byte, resets, moved)
}

/// What the units ask together of a pin, 14 to 19 being A0 to A5.
pub(crate) fn pad_of<G: Group>(group: &G, pin: u8) -> Pad
    requires { pin < PORT_PINS }
    ensures { (l : List Level) (t : ℕ) → G.stands group.now l t → result ≡ G.machine.pad (G.state group.now t) pin }
{
    group.asked(pin, Pad::untouched())
}
