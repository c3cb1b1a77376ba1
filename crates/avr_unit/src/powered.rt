//! All units of the microcontroller: those that go on in power-down, and the others, whose clock stands in it.
ghost use Rattle.std.specs.Prelude.{◌≡◌, ℕ, ◌+◌, ◌-◌, ◌<◌, ◌≤◌, ◌||◌, List, true, false, length};
ghost use Rattle.sim_base.specs.declared.signal.Level.{Level};
ghost use Rattle.avr_unit.specs.Clock.{IsBegun, own_cycle, does_run, clocked_at};
ghost use Rattle.avr_unit.specs.Clocked.{clocked};
ghost use Rattle.avr_unit.specs.UnitMachine.{least};
ghost use Rattle.avr_unit.specs.Both.{first_of_two};
ghost use Rattle.avr_unit.specs.Placed.{StepMoves, IsWithin};

use crate::both::{write_bit_where, write_where};
use crate::clock::Clock;
use crate::group::{AwakeGroup, Group};
use crate::pad::Pad;
use crate::pins::PORT_PINS;
use crate::request::VECTORS;
use crate::signal::Signal;
use part_law::Span;
use sim_base::{Level, MOST_CYCLES};

/// Units of which `awake` go on in power-down. The others count cycles of their own by `clock`.
#[derive(Drop)]
pub struct Powered<A, B> {
    pub awake: A,
    pub clocked: B,
    pub clock: Clock,
}

impl<A: AwakeGroup, B: Group + Drop> Group for Powered<A, B> {
    ghost use Rattle.std.specs.Prelude.{min};
    ghost use Rattle.avr_unit.specs.Clock.{board_cycle, clocked_at};
    ghost use Rattle.avr_unit.specs.Clocked.{Clocked};
    ghost use Rattle.avr_unit.specs.Power.{powered, powered_laws};
    ghost use Rattle.avr_unit.specs.PowerLaws.{PowerStands, power_waits, power_first};
    ghost use Rattle.avr_unit.specs.Reach.{powered_touch, powered_touches};

    ghost State = { A.State × Clocked B.State };

    ghost machine = { powered A.machine B.machine };

    ghost state = { λ s t. (A.state s.awake t, clocked_at s.clock (B.state s.clocked) t) };

    ghost touch = { powered_touch A.machine B.machine A.touch B.touch };

    ghost until = { λ s. min (A.until s.awake) (board_cycle s.clock (B.until s.clocked)) };

    ghost stands = { λ s l t. PowerStands s.clock (A.stands s.awake) (B.stands s.clocked) l t };

    fn new() -> Powered<A, B> {
        Powered {
            awake: A::new(),
            clocked: B::new(),
            clock: Clock::Runs(0),
        }
    }

    #[inline(always)]
    fn has(reg: u8) -> bool {
        A::has(reg) || B::has(reg)
    }

    #[inline]
    fn hears(&self, before: &[Level], now: &[Level]) -> bool {
        self.awake.hears(before, now) | self.clocked.hears(before, now)
    }

    #[inline(always)]
    fn reading_keeps(reg: u8) -> bool {
        if A::has(reg) {
            A::reading_keeps(reg)
        } else {
            B::reading_keeps(reg)
        }
    }

    #[inline(always)]
    fn writing_keeps_next(reg: u8) -> bool {
        if A::has(reg) {
            if B::has(reg) {
                A::writing_keeps_next(reg) & B::writing_keeps_next(reg)
            } else {
                A::writing_keeps_next(reg)
            }
        } else {
            B::writing_keeps_next(reg)
        }
    }

    #[inline]
    fn read(&mut self, cycle: u64, levels: &[Level], reg: u8) -> u8 {
        if A::has(reg) {
            self.awake.read(cycle, levels, reg)
        } else {
            self.clocked.read(self.clock.own(cycle), levels, reg)
        }
    }

    #[inline]
    fn write(&mut self, cycle: u64, levels: &[Level], reg: u8, value: u8, touched: Span) -> Span {
        let own = self.clock.own(cycle);
        let more = write_where(&mut self.clocked, own, levels, reg, value, touched);
        write_where(&mut self.awake, cycle, levels, reg, value, more)
    }

    #[inline]
    fn write_bit(
        &mut self,
        cycle: u64,
        levels: &[Level],
        reg: u8,
        bit: u8,
        value: bool,
        touched: Span,
    ) -> Span {
        let own = self.clock.own(cycle);
        let more = write_bit_where(&mut self.clocked, own, levels, reg, bit, value, touched);
        write_bit_where(&mut self.awake, cycle, levels, reg, bit, value, more)
    }

    fn step(
        &mut self,
        cycle: u64,
        before: &[Level],
        now: &[Level],
        others: (Option<u8>, Span),
    ) -> (Option<u8>, Span) {
        let more = step_clocked(&mut self.clocked, self.clock, cycle, before, now, others);
        self.awake.step(cycle, before, now, more)
    }

    #[inline]
    fn due(&self) -> u64 {
        self.awake.due().min(self.clock.board(self.clocked.due()))
    }

    #[inline]
    fn request(&self, levels: &[Level]) -> u8 {
        if is_heard(&self.awake, self.clock, levels) {
            self.awake.request(levels).min(self.clocked.request(levels))
        } else {
            VECTORS
        }
    }

    fn see(&mut self, levels: &[Level]) {
        self.awake.see(levels);
        self.clocked.see(levels);
    }

    fn taken(&mut self, cycle: u64, levels: &[Level], vector: u8) {
        self.awake.taken(cycle, levels, vector);
        self.clocked.taken(self.clock.own(cycle), levels, vector);
        self.clock = self.clock.started(cycle);
    }

    #[inline(always)]
    fn asked(&self, pin: u8, others: Pad) -> Pad {
        let more = self.clocked.asked(pin, others);
        self.awake.asked(pin, more)
    }

    ghost laws = { powered_laws A.machine B.machine A.laws B.laws };

    ghost touches = { powered_touches A.machine B.machine A.touch B.touch A.touches B.touches };

    ghost waits = { λ s l t u h le soon. power_waits A.machine B.machine s.clock (A.until s.awake) (B.until s.clocked) (A.state s.awake) (B.state s.clocked) (A.stands s.awake) (B.stands s.clocked) l t u (A.waits s.awake) (B.waits s.clocked) h le soon };

    ghost first = { λ s l t h. power_first A.machine B.machine s.clock (A.until s.awake) (B.until s.clocked) (A.state s.awake) (B.state s.clocked) t h.begun (A.first s.awake l t h.awake) (B.first s.clocked l _ h.clocked) };
}

impl<A: AwakeGroup, B: Group + Drop> AwakeGroup for Powered<A, B> {
    fn rouses(&self, levels: &[Level]) -> bool {
        self.awake.rouses(levels)
    }

    #[inline]
    fn resets(&self, cycle: u64) -> bool {
        self.awake.resets(cycle)
    }

    fn give(&mut self, cycle: u64, levels: &[Level], signal: Signal) {
        match signal {
            Signal::Wdr => self.awake.give(cycle, levels, Signal::Wdr),
            Signal::Doze => self.clock = self.clock.stopped(cycle),
            Signal::Restart => {
                self.awake.give(cycle, levels, Signal::Restart);
                self.clocked = B::new();
                self.clocked.see(levels);
                self.clock = Clock::Runs(cycle);
            }
        }
    }
}

// Whether requests count: in power-down only while something is there that ends it.
#[inline]
fn is_heard<A: AwakeGroup>(awake: &A, clock: Clock, levels: &[Level]) -> bool
    requires { length levels.now ≡ PORT_PINS }
    ensures { (t : ℕ) → A.stands awake.now levels.now t → result ≡ (does_run clock || A.machine.power.rouses (A.state awake.now t) levels.now) }
{
    clock.runs() || awake.rouses(levels)
}

// One cycle of units by a clock, which may stand: then nothing of them moves.
fn step_clocked<B: Group>(
    units: &mut B,
    clock: Clock,
    cycle: u64,
    before: &[Level],
    now: &[Level],
    others: (Option<u8>, Span),
) -> (Option<u8>, Span)
    requires before { length before.now ≡ PORT_PINS }
    requires levels { length now.now ≡ PORT_PINS }
    requires end { cycle < MOST_CYCLES }
    requires begun { IsBegun clock cycle }
    requires here { B.stands units.old before.now (own_cycle clock cycle) }
    ensures byte { result.0 ≡ first_of_two ((clocked B.machine).sends (clocked_at clock (B.state units.old) cycle) cycle) others.0 }
    ensures others { IsWithin others.1 result.1 }
    ensures pads { StepMoves (clocked B.machine) (clocked_at clock (B.state units.old) cycle) cycle before.now now.now result.1 }
    ensures state { clocked_at clock (B.state units.new) (cycle + 1) ≡ (clocked B.machine).step (clocked_at clock (B.state units.old) cycle) cycle before.now now.now }
    ensures stands { B.stands units.new now.now (own_cycle clock (cycle + 1)) }
{
    match clock {
        Clock::Runs(_) => units.step(clock.own(cycle), before, now, others),
        Clock::Stands(_) => {
            units.see(now);
            others
        }
    }
}
