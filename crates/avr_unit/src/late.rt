//! A unit that lags behind.
ghost use Rattle.std.specs.Prelude.{◌≡◌, ℕ, ◌+◌, ◌-◌, ◌<◌, ◌≤◌, List, true, false, length};
ghost use Rattle.sim_base.specs.declared.signal.Level.{Level};
ghost use Rattle.avr_unit.specs.UnitMachine.{At, FirstDue};
ghost use Rattle.avr_unit.specs.Late.{LateStands, late_state, Lags, Rests, Behind};
ghost use Rattle.avr_unit.specs.Pad.{joined};
ghost use Rattle.avr_unit.specs.Signals.{signalled};
ghost use Rattle.part_law.specs.Spans.{is_in};

use crate::both::{first_of_two, hull};
use crate::group::{AwakeGroup, Group};
use crate::pad::Pad;
use crate::pins::PORT_PINS;
use crate::signal::Signal;
use crate::unit::{Awake, Unit};
use part_law::Span;
use sim_base::{Level, MOST_CYCLES};

/// A unit that stands at its own cycle, until it is asked or has an event. Its first cycle with an event and
/// what it requests are kept, and found anew only where the unit was touched.
#[derive(Drop)]
pub struct Late<U> {
    unit: U,
    due: u64,
    request: u8,
}

impl<U: Unit> Late<U> {
    /// The unit, at its own cycle.
    pub fn unit(&self) -> &U
        ensures { (l : List Level) (t : ℕ) → ⟦<Late<U> as Group>⟧.stands self.now l t → Behind U.machine (U.shows result.now) t (⟦<Late<U> as Group>⟧.state self.now t) }
    {
        &self.unit
    }
}

impl<U: Unit> Group for Late<U> {
    ghost use Rattle.avr_unit.specs.Late.{LateStands, late_state, late_waits, late_first};
    ghost use Rattle.avr_unit.specs.Reach.{alone, alone_touches};

    ghost State = { U.State };

    ghost machine = { U.machine };

    ghost state = { λ s t. late_state U.machine (U.shows s.unit) t };

    ghost touch = { alone U.reach };

    ghost until = { λ s. s.due };

    ghost stands = { λ s l t. LateStands U.machine (U.shows s.unit) s.due s.request l t };

    fn new() -> Late<U> {
        let unit = U::new();
        let due = first_due(&unit);
        let request = unit.request(&[Level::Z; PORT_PINS]);
        Late { unit, due, request }
    }

    #[inline(always)]
    fn has(reg: u8) -> bool {
        U::has(reg)
    }

    #[inline]
    fn hears(&self, before: &[Level], now: &[Level]) -> bool {
        self.unit.hears(before, now)
    }

    #[inline(always)]
    fn reading_keeps(reg: u8) -> bool {
        U::reading_keeps(reg)
    }

    #[inline(always)]
    fn writing_keeps_next(reg: u8) -> bool {
        U::writing_keeps_next(reg)
    }

    fn read(&mut self, cycle: u64, levels: &[Level], reg: u8) -> u8 {
        catch_up(&mut self.unit, self.due, cycle);
        let value = self.unit.read(levels, reg);
        if !U::reading_keeps(reg) {
            self.due = first_due(&self.unit);
            self.request = self.unit.request(levels);
        }
        value
    }

    fn write(&mut self, cycle: u64, levels: &[Level], reg: u8, value: u8, touched: Span) -> Span {
        catch_up(&mut self.unit, self.due, cycle);
        let moved = self.unit.write(reg, value);
        self.due = first_due(&self.unit);
        self.request = self.unit.request(levels);
        hull(touched, moved)
    }

    fn write_bit(
        &mut self,
        cycle: u64,
        levels: &[Level],
        reg: u8,
        bit: u8,
        value: bool,
        touched: Span,
    ) -> Span {
        catch_up(&mut self.unit, self.due, cycle);
        let moved = self.unit.write_bit(reg, bit, value);
        self.due = first_due(&self.unit);
        self.request = self.unit.request(levels);
        hull(touched, moved)
    }

    fn step(
        &mut self,
        cycle: u64,
        before: &[Level],
        now: &[Level],
        others: (Option<u8>, Span),
    ) -> (Option<u8>, Span) {
        if rests(&self.unit, self.due, cycle, before, now) {
            return others;
        }
        catch_up(&mut self.unit, self.due, cycle);
        let (byte, moved) = self.unit.step(before, now);
        self.due = first_due(&self.unit);
        self.request = self.unit.request(now);
        (first_of_two(byte, others.0), hull(others.1, moved))
    }

    #[inline]
    fn due(&self) -> u64 {
        self.due
    }

    #[inline]
    fn request(&self, _levels: &[Level]) -> u8 {
        self.request
    }

    fn see(&mut self, levels: &[Level]) {
        self.request = self.unit.request(levels);
    }

    fn taken(&mut self, cycle: u64, levels: &[Level], vector: u8) {
        catch_up(&mut self.unit, self.due, cycle);
        self.unit.taken(vector);
        self.due = first_due(&self.unit);
        self.request = self.unit.request(levels);
    }

    #[inline(always)]
    fn asked(&self, pin: u8, others: Pad) -> Pad {
        asked(&self.unit, pin, others)
    }

    ghost laws = { U.laws };

    ghost touches = { alone_touches U.machine U.reach U.reaches };

    ghost waits = { λ s l t u h le soon. late_waits U.machine (U.shows s.unit) s.due s.request l t u h le soon };

    ghost first = { λ s l t h. late_first U.machine (U.shows s.unit) s.due s.request l t h };
}

impl<U: Awake> AwakeGroup for Late<U> {
    #[inline]
    fn rouses(&self, levels: &[Level]) -> bool {
        self.unit.rouses(levels)
    }

    #[inline]
    fn resets(&self, cycle: u64) -> bool {
        self.unit.resets(cycle)
    }

    fn give(&mut self, cycle: u64, levels: &[Level], signal: Signal) {
        catch_up(&mut self.unit, self.due, cycle);
        give(&mut self.unit, signal);
        self.due = first_due(&self.unit);
        self.request = self.unit.request(levels);
    }
}

// Goes on to a cycle, over cycles without an event.
#[inline]
fn catch_up<U: Unit>(unit: &mut U, due: u64, cycle: u64)
    requires here { Lags U.machine (U.shows unit.old) due cycle }
    ensures { U.shows unit.new ≡ record { unit = late_state U.machine (U.shows unit.old) cycle; cycle = cycle } }
{
    let _ = due;
    unit.skip(cycle);
}

// The first cycle with an event, or `MOST_CYCLES`.
#[inline]
fn first_due<U: Unit>(unit: &U) -> u64
    requires end { (U.shows unit.now).cycle ≤ MOST_CYCLES }
    ensures { FirstDue U.machine (U.shows unit.now).unit (U.shows unit.now).cycle result }
{
    match unit.due() {
        Some(cycle) => cycle,
        None => MOST_CYCLES,
    }
}

// Whether a cycle leaves the unit as it lags: it has no event there, and takes no notice of the change of the levels.
#[inline(always)]
fn rests<U: Unit>(unit: &U, due: u64, cycle: u64, before: &[Level], now: &[Level]) -> bool
    requires before { length before.now ≡ PORT_PINS }
    requires levels { length now.now ≡ PORT_PINS }
    requires here { Lags U.machine (U.shows unit.now) due cycle }
    ensures { result ≡ true → Rests U.machine (U.shows unit.now) due before.now now.now cycle }
{
    if due <= cycle {
        false
    } else {
        !unit.hears(before, now)
    }
}

// Hands on a signal.
#[inline]
fn give<U: Awake>(unit: &mut U, signal: Signal)
    ensures { U.shows unit.new ≡ record (U.shows unit.old) { unit = signalled U.machine signal (U.shows unit.old).unit (U.shows unit.old).cycle } }
{
    match signal {
        Signal::Wdr => unit.wdr(),
        Signal::Doze => unit.doze(),
        Signal::Restart => unit.restart(),
    }
}

// What the unit, which asks something of its pins alone, and others ask together of a pin.
#[inline(always)]
fn asked<U: Unit>(unit: &U, pin: u8, others: Pad) -> Pad
    requires { pin < PORT_PINS }
    ensures { result ≡ joined (U.machine.pad (U.shows unit.now).unit pin) others }
{
    if has_pin(U::pins(), pin) {
        unit.pad(pin).joined(others)
    } else {
        others
    }
}

// Whether a pin is one of the span.
#[inline]
fn has_pin(pins: Span, pin: u8) -> bool
    ensures { result ≡ is_in pins pin }
{
    (pins.from <= pin) & (pin < pins.to)
}
