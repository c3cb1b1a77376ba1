//! What a hardware unit is to the microcontroller.
ghost use Rattle.std.specs.Prelude.{◌≡◌, ℕ, ◌+◌, ◌-◌, ◌<◌, ◌≤◌, Bool, true, false, length};
ghost use Rattle.avr_unit.specs.UnitMachine.{UnitMachine, At, Laws, least, steps, IsQuiet, IsFirstDue};
ghost use Rattle.avr_unit.specs.Unheard.{UnheardFrom};
ghost use Rattle.avr_unit.specs.Placed.{Placed, StepMoves};
ghost use Rattle.avr_unit.specs.Next.{WritesKeepNext};
ghost use Rattle.avr_unit.specs.Reach.{Reach, Reaches};

use crate::pad::Pad;
use crate::pins::PORT_PINS;
use part_law::Span;
use sim_base::{Level, MOST_CYCLES};

/// A hardware unit, before the step of its cycle. Levels are those of the Uno's pins 0 to 13 and A0 to A5;
/// who owns the unit keeps them and hands them in. `shows` is the unit as single cycles of `machine` leave it, and `reach` the pins
/// that a write reaches.
pub trait Unit {
    ghost State: { Type 0 };

    ghost machine: { UnitMachine State };

    ghost shows: { Self → At State };

    ghost reach: { Reach State };

    /// The unit after reset, at cycle 0.
    fn new() -> Self
        ensures { shows result ≡ record { unit = machine.reset; cycle = 0 } };

    /// Whether a data address is one of its registers.
    fn has(reg: u8) -> bool
        ensures { result ≡ machine.has reg };

    /// The pins of which it may ask something (data sheet, "Alternate Port Functions").
    fn pins() -> Span
        ensures { Placed machine result };

    /// Whether a write of the register, or of one bit of it, leaves its events to come and what it requests.
    #[inline(always)]
    fn writing_keeps_next(reg: u8) -> bool
        ensures { result ≡ true → WritesKeepNext machine reg }
    {
        let _ = reg;
        false
    }

    /// Whether it takes notice of a change of the levels, before its first event.
    fn hears(&self, before: &[Level], now: &[Level]) -> bool
        requires before { length before.now ≡ PORT_PINS }
        requires levels { length now.now ≡ PORT_PINS }
        ensures { result ≡ false → UnheardFrom machine (shows self.now).unit (shows self.now).cycle before.now now.now };

    /// Whether a read of the register leaves the unit as it is.
    #[inline(always)]
    fn reading_keeps(reg: u8) -> bool
        ensures { result ≡ true → (u : State) (t : ℕ) → machine.read u t reg ≡ u }
    {
        let _ = reg;
        false
    }

    /// Reads a register, on the levels of the cycle before.
    fn read(&mut self, levels: &[Level], reg: u8) -> u8
        requires register { machine.has reg ≡ true }
        requires levels { length levels.now ≡ PORT_PINS }
        ensures value { result ≡ machine.answers (shows self.old).unit (shows self.old).cycle levels.now reg }
        ensures state { shows self.new ≡ record (shows self.old) { unit = machine.read (shows self.old).unit (shows self.old).cycle reg } };

    /// Writes a register, and answers the pins of which that may change what it asks.
    fn write(&mut self, reg: u8, value: u8) -> Span
        requires { machine.has reg ≡ true }
        ensures moved { result ≡ reach.writes (shows self.old).unit reg value }
        ensures state { shows self.new ≡ record (shows self.old) { unit = machine.write (shows self.old).unit (shows self.old).cycle reg value } };

    /// Writes one bit alone, as SBI and CBI do, with the same answer.
    fn write_bit(&mut self, reg: u8, bit: u8, value: bool) -> Span
        requires register { machine.has reg ≡ true }
        requires bit { bit < 8 }
        ensures moved { result ≡ reach.bits (shows self.old).unit reg bit value }
        ensures state { shows self.new ≡ record (shows self.old) { unit = machine.write_bit (shows self.old).unit (shows self.old).cycle reg bit value } };

    /// Goes to cycle `to`, over cycles without an event.
    fn skip(&mut self, to: u64)
        requires forward { (shows self.old).cycle ≤ to }
        requires end { to ≤ MOST_CYCLES }
        requires quiet { IsQuiet machine (shows self.old).unit (shows self.old).cycle (to - (shows self.old).cycle) }
        ensures { shows self.new ≡ record { unit = steps machine (shows self.old).unit (shows self.old).cycle (to - (shows self.old).cycle); cycle = to } };

    /// Steps over its cycle, from the levels of the cycle before and of this one. Answers the byte that leaves, and the pins of
    /// which the step may have changed what it asks.
    fn step(&mut self, before: &[Level], now: &[Level]) -> (Option<u8>, Span)
        requires before { length before.now ≡ PORT_PINS }
        requires levels { length now.now ≡ PORT_PINS }
        requires end { (shows self.old).cycle < MOST_CYCLES }
        ensures byte { result.0 ≡ machine.sends (shows self.old).unit (shows self.old).cycle }
        ensures pads { StepMoves machine (shows self.old).unit (shows self.old).cycle before.now now.now result.1 }
        ensures state { shows self.new ≡ record { unit = machine.step (shows self.old).unit (shows self.old).cycle before.now now.now; cycle = (shows self.old).cycle + 1 } };

    /// The next cycle with an event of its own.
    fn due(&self) -> Option<u64>
        ensures { IsFirstDue machine (shows self.now).unit (shows self.now).cycle result };

    /// The least vector that is enabled and flagged while the pins have these levels, or `VECTORS`.
    fn request(&self, levels: &[Level]) -> u8
        requires { length levels.now ≡ PORT_PINS }
        ensures { result ≡ least (machine.requests (shows self.now).unit levels.now) };

    /// Clears what entering a vector clears.
    fn taken(&mut self, vector: u8)
        ensures { shows self.new ≡ record (shows self.old) { unit = machine.taken (shows self.old).unit vector } };

    /// What it asks of an Uno pin, 14 to 19 being A0 to A5.
    fn pad(&self, pin: u8) -> Pad
        requires { pin < PORT_PINS }
        ensures { result ≡ machine.pad (shows self.now).unit pin };

    ghost laws: { Laws machine };

    ghost reaches: { Reaches machine reach };
}

/// A unit that continues in power-down, and that has a part in ending it and in resets of the watchdog. The clock of another unit
/// stops there, and a reset makes it anew.
pub trait Awake: Unit {
    /// Whether something of its own that ends power-down is enabled and flagged while the pins have these levels.
    fn rouses(&self, levels: &[Level]) -> bool
        requires { length levels.now ≡ PORT_PINS }
        ensures { result ≡ Self.machine.power.rouses (Self.shows self.now).unit levels.now };

    /// What WDR does.
    fn wdr(&mut self)
        ensures { Self.shows self.new ≡ record (Self.shows self.old) { unit = Self.machine.power.wdr (Self.shows self.old).unit (Self.shows self.old).cycle } };

    /// Whether the step of a cycle ends in a reset, where none before it has an event.
    fn resets(&self, cycle: u64) -> bool
        ensures { result ≡ Self.machine.power.resets (Self.shows self.now).unit cycle };

    /// What the watchdog's reset leaves of a unit that goes on in power-down, in the cycle after the step that ended in it.
    fn restart(&mut self)
        ensures { Self.shows self.new ≡ record (Self.shows self.old) { unit = Self.machine.power.restart (Self.shows self.old).unit } };

    /// What entering power-down does.
    fn doze(&mut self)
        ensures { Self.shows self.new ≡ record (Self.shows self.old) { unit = Self.machine.power.doze (Self.shows self.old).unit } };
}
