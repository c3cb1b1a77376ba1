//! A unit beside a group of units.
ghost use Rattle.std.specs.Prelude.{◌≡◌, ℕ, ◌+◌, ◌-◌, ◌<◌, ◌≤◌, List, true, false, length, if◌then◌else◌};
ghost use Rattle.sim_base.specs.declared.signal.Level.{Level};
ghost use Rattle.avr_unit.specs.Both.{first_of_two};
ghost use Rattle.avr_unit.specs.Placed.{hull};
ghost use Rattle.avr_unit.specs.Reach.{touched_if};

use crate::group::{AwakeGroup, Group};
use crate::late::Late;
use crate::pad::Pad;
use crate::pins::PORT_PINS;
use crate::signal::Signal;
use crate::unit::{Awake, Unit};
use part_law::Span;
use sim_base::Level;

/// A unit beside a group of units, as a group: a register is read from the first that has it, and a write goes to each.
/// Each can be asked alone. Nested, this is any number of units, of which each is one bound for a caller.
#[derive(Drop)]
pub struct Both<U, G> {
    pub first: Late<U>,
    pub second: G,
}

impl<U: Unit, G: Group> Group for Both<U, G> {
    ghost use Rattle.std.specs.Prelude.{◌≡◌, min};
    ghost use Rattle.avr_unit.specs.Both.{both, both_laws};
    ghost use Rattle.avr_unit.specs.BothLaws.{both_wait, first_both};
    ghost use Rattle.avr_unit.specs.Late.{late_waits, late_first};
    ghost use Rattle.avr_unit.specs.Reach.{alone, alone_touches, both_touch, both_touches};

    ghost State = { U.State × G.State };

    ghost machine = { both U.machine G.machine };

    ghost state = { λ s t. (⟦<Late<U> as Group>⟧.state s.first t, G.state s.second t) };

    ghost touch = { both_touch U.machine G.machine (alone U.reach) G.touch };

    ghost until = { λ s. min (⟦<Late<U> as Group>⟧.until s.first) (G.until s.second) };

    ghost stands = { λ s l t. ⟦<Late<U> as Group>⟧.stands s.first l t × G.stands s.second l t };

    fn new() -> Both<U, G> {
        Both {
            first: Late::new(),
            second: G::new(),
        }
    }

    // Each `has` is a set of constants: so put, they become one jump by the address, however many units there are.
    #[inline(always)]
    fn has(reg: u8) -> bool {
        U::has(reg) || G::has(reg)
    }

    #[inline]
    fn hears(&self, before: &[Level], now: &[Level]) -> bool {
        self.first.hears(before, now) | self.second.hears(before, now)
    }

    #[inline(always)]
    fn reading_keeps(reg: u8) -> bool {
        if U::has(reg) {
            U::reading_keeps(reg)
        } else {
            G::reading_keeps(reg)
        }
    }

    #[inline(always)]
    fn writing_keeps_next(reg: u8) -> bool {
        if U::has(reg) {
            if G::has(reg) {
                U::writing_keeps_next(reg) & G::writing_keeps_next(reg)
            } else {
                U::writing_keeps_next(reg)
            }
        } else {
            G::writing_keeps_next(reg)
        }
    }

    #[inline]
    fn read(&mut self, cycle: u64, levels: &[Level], reg: u8) -> u8 {
        if U::has(reg) {
            self.first.read(cycle, levels, reg)
        } else {
            self.second.read(cycle, levels, reg)
        }
    }

    #[inline]
    fn write(&mut self, cycle: u64, levels: &[Level], reg: u8, value: u8, touched: Span) -> Span {
        let more = write_where(&mut self.second, cycle, levels, reg, value, touched);
        write_where(&mut self.first, cycle, levels, reg, value, more)
    }

    #[inline]
    fn write_bit(
        &mut self,
        cycle: u64,
        levels: &[Level],
        reg: u8,
        bit: u8,
        value: bool,
        touched: Span,
    ) -> Span {
        let more = write_bit_where(&mut self.second, cycle, levels, reg, bit, value, touched);
        write_bit_where(&mut self.first, cycle, levels, reg, bit, value, more)
    }

    fn step(
        &mut self,
        cycle: u64,
        before: &[Level],
        now: &[Level],
        others: (Option<u8>, Span),
    ) -> (Option<u8>, Span) {
        let more = self.second.step(cycle, before, now, others);
        self.first.step(cycle, before, now, more)
    }

    #[inline]
    fn due(&self) -> u64 {
        self.first.due().min(self.second.due())
    }

    #[inline]
    fn request(&self, levels: &[Level]) -> u8 {
        self.first.request(levels).min(self.second.request(levels))
    }

    fn see(&mut self, levels: &[Level]) {
        self.first.see(levels);
        self.second.see(levels);
    }

    fn taken(&mut self, cycle: u64, levels: &[Level], vector: u8) {
        self.first.taken(cycle, levels, vector);
        self.second.taken(cycle, levels, vector);
    }

    #[inline(always)]
    fn asked(&self, pin: u8, others: Pad) -> Pad {
        let more = self.second.asked(pin, others);
        self.first.asked(pin, more)
    }

    ghost laws = { both_laws U.machine G.machine U.laws G.laws };

    ghost touches = { both_touches U.machine G.machine (alone U.reach) G.touch (alone_touches U.machine U.reach U.reaches) G.touches };

    ghost waits = { λ s l t u h le soon. both_wait U.machine G.machine (⟦<Late<U> as Group>⟧.until s.first) (G.until s.second) (⟦<Late<U> as Group>⟧.state s.first) (G.state s.second) (⟦<Late<U> as Group>⟧.stands s.first) (G.stands s.second) l t u (λ l t u h le soon. late_waits U.machine (U.shows s.first.unit) s.first.due s.first.request l t u h le soon) (G.waits s.second) h le soon };

    ghost first = { λ s l t h. first_both U.machine G.machine (⟦<Late<U> as Group>⟧.state s.first t, G.state s.second t) t (⟦<Late<U> as Group>⟧.until s.first) (G.until s.second) (late_first U.machine (U.shows s.first.unit) s.first.due s.first.request l t h.0) (G.first s.second l t h.1) };
}

impl<U: Awake, G: AwakeGroup> AwakeGroup for Both<U, G> {
    #[inline]
    fn rouses(&self, levels: &[Level]) -> bool {
        self.first.rouses(levels) | self.second.rouses(levels)
    }

    #[inline]
    fn resets(&self, cycle: u64) -> bool {
        self.first.resets(cycle) | self.second.resets(cycle)
    }

    fn give(&mut self, cycle: u64, levels: &[Level], signal: Signal) {
        self.first.give(cycle, levels, signal);
        self.second.give(cycle, levels, signal);
    }
}

#[inline]
pub(crate) fn first_of_two(first: Option<u8>, second: Option<u8>) -> Option<u8>
    ensures { result ≡ first_of_two first second }
{
    match first {
        Some(x) => Some(x),
        None => second,
    }
}

// Writes a register where the group has it, and answers the pins that were touched before with those of which that may change
// what they are asked for.
#[inline]
pub(crate) fn write_where<G: Group>(
    group: &mut G,
    cycle: u64,
    levels: &[Level],
    reg: u8,
    value: u8,
    touched: Span,
) -> Span
    requires levels { length levels.now ≡ PORT_PINS }
    requires here { G.stands group.old levels.now cycle }
    ensures moved { result ≡ touched_if (G.machine.has reg) (G.touch.writes (G.state group.old cycle) reg value) touched }
    ensures state { G.state group.new cycle ≡ (if G.machine.has reg then G.machine.write (G.state group.old cycle) cycle reg value else G.state group.old cycle) }
    ensures stands { G.stands group.new levels.now cycle }
{
    if G::has(reg) {
        group.write(cycle, levels, reg, value, touched)
    } else {
        touched
    }
}

// Writes one bit of a register where the group has it, with the same answer.
#[inline]
pub(crate) fn write_bit_where<G: Group>(
    group: &mut G,
    cycle: u64,
    levels: &[Level],
    reg: u8,
    bit: u8,
    value: bool,
    touched: Span,
) -> Span
    requires bit { bit < 8 }
    requires levels { length levels.now ≡ PORT_PINS }
    requires here { G.stands group.old levels.now cycle }
    ensures moved { result ≡ touched_if (G.machine.has reg) (G.touch.bits (G.state group.old cycle) reg bit value) touched }
    ensures state { G.state group.new cycle ≡ (if G.machine.has reg then G.machine.write_bit (G.state group.old cycle) cycle reg bit value else G.state group.old cycle) }
    ensures stands { G.stands group.new levels.now cycle }
{
    if G::has(reg) {
        group.write_bit(cycle, levels, reg, bit, value, touched)
    } else {
        touched
    }
}

/// The least span that has the pins of both. `Span::joined` is that only where its second has any, since it takes the
/// bounds of one without pins, from 0 up to 0, as they are.
#[inline]
pub fn hull(a: Span, b: Span) -> Span
    ensures { result ≡ hull a b }
{
    if b.has_any() { a.joined(b) } else { a }
}
