//! Units that are asked at one cycle.
ghost use Rattle.std.specs.Prelude.{◌≡◌, ℕ, ◌+◌, ◌-◌, ◌<◌, ◌≤◌, List, true, false, length, replicate, None};
ghost use Rattle.sim_base.specs.declared.signal.Level.{Level};
ghost use Rattle.sim_base.specs.declared.signal.Level.TheVariants as levels;
ghost use Rattle.avr_unit.specs.UnitMachine.{UnitMachine, Laws, least, steps, IsQuiet, FirstDue};
ghost use Rattle.avr_unit.specs.Unheard.{Unheard};
ghost use Rattle.avr_unit.specs.Pad.{joined};
ghost use Rattle.avr_unit.specs.Both.{first_of_two};
ghost use Rattle.avr_unit.specs.Placed.{StepMoves, IsWithin};
ghost use Rattle.avr_unit.specs.Next.{WritesKeepNext};
ghost use Rattle.avr_unit.specs.Reach.{Touch, Touches};
ghost use Rattle.avr_unit.specs.Signals.{signalled};

use crate::pad::Pad;
use crate::pins::PORT_PINS;
use crate::signal::Signal;
use part_law::Span;
use sim_base::{Level, MOST_CYCLES};

/// Any number of units as one machine, which an owner asks at its own cycle, and which holds the levels of the
/// cycle before: `state` is what they show at a cycle, and `stands` says that they may be asked there.
pub trait Group {
    ghost State: { Type 0 };

    ghost machine: { UnitMachine State };

    ghost state: { Self → ℕ → State };

    /// The pins that a write touches.
    ghost touch: { Touch State };

    /// The first cycle with an event.
    ghost until: { Self → ℕ };

    /// That they may be asked in a cycle, on the levels of the cycle before: no event lies before it.
    ghost stands: { Self → List Level → ℕ → Type 0 };

    /// The units after reset, at cycle 0; each level is Z.
    fn new() -> Self
        ensures state { state result 0 ≡ machine.reset }
        ensures stands { stands result (replicate PORT_PINS levels.Z) 0 };

    /// Whether a data address is a register of one of them.
    fn has(reg: u8) -> bool
        ensures { result ≡ machine.has reg };

    /// Whether one of them takes notice of a change of the levels: where none does they may be asked on the others too.
    fn hears(&self, before: &[Level], now: &[Level]) -> bool
        requires before { length before.now ≡ PORT_PINS }
        requires levels { length now.now ≡ PORT_PINS }
        ensures { result ≡ false → (t : ℕ) → stands self.now before.now t → Unheard machine (state self.now t) t before.now now.now × stands self.now now.now t };

    /// Whether a read of the register leaves them as they are.
    fn reading_keeps(reg: u8) -> bool
        ensures { result ≡ true → (s : State) (t : ℕ) → machine.read s t reg ≡ s };

    /// Whether a write of the register, or of one bit of it, leaves their events to come and what they request.
    fn writing_keeps_next(reg: u8) -> bool
        ensures { result ≡ true → WritesKeepNext machine reg };

    /// Reads a register in a cycle.
    fn read(&mut self, cycle: u64, levels: &[Level], reg: u8) -> u8
        requires register { machine.has reg ≡ true }
        requires levels { length levels.now ≡ PORT_PINS }
        requires here { stands self.old levels.now cycle }
        ensures value { result ≡ machine.answers (state self.old cycle) cycle levels.now reg }
        ensures state { state self.new cycle ≡ machine.read (state self.old cycle) cycle reg }
        ensures stands { stands self.new levels.now cycle };

    /// Writes a register in a cycle, and answers the pins that were touched before with those of which that may change what they
    /// are asked for.
    fn write(&mut self, cycle: u64, levels: &[Level], reg: u8, value: u8, touched: Span) -> Span
        requires register { machine.has reg ≡ true }
        requires levels { length levels.now ≡ PORT_PINS }
        requires here { stands self.old levels.now cycle }
        ensures moved { result ≡ touch.writes (state self.old cycle) reg value touched }
        ensures state { state self.new cycle ≡ machine.write (state self.old cycle) cycle reg value }
        ensures stands { stands self.new levels.now cycle };

    /// Writes one bit alone, as SBI and CBI do, with the same answer.
    fn write_bit(
        &mut self,
        cycle: u64,
        levels: &[Level],
        reg: u8,
        bit: u8,
        value: bool,
        touched: Span,
    ) -> Span
        requires register { machine.has reg ≡ true }
        requires bit { bit < 8 }
        requires levels { length levels.now ≡ PORT_PINS }
        requires here { stands self.old levels.now cycle }
        ensures moved { result ≡ touch.bits (state self.old cycle) reg bit value touched }
        ensures state { state self.new cycle ≡ machine.write_bit (state self.old cycle) cycle reg bit value }
        ensures stands { stands self.new levels.now cycle };

    /// Steps over a cycle, from the levels before to those now: a unit without an event that takes no notice of the change is
    /// not touched. Answers the byte that leaves, and the pins of which the step may have changed what they are asked for, with
    /// those of others beside them.
    fn step(
        &mut self,
        cycle: u64,
        before: &[Level],
        now: &[Level],
        others: (Option<u8>, Span),
    ) -> (Option<u8>, Span)
        requires before { length before.now ≡ PORT_PINS }
        requires levels { length now.now ≡ PORT_PINS }
        requires end { cycle < MOST_CYCLES }
        requires here { stands self.old before.now cycle }
        ensures byte { result.0 ≡ first_of_two (machine.sends (state self.old cycle) cycle) others.0 }
        ensures others { IsWithin others.1 result.1 }
        ensures pads { StepMoves machine (state self.old cycle) cycle before.now now.now result.1 }
        ensures state { state self.new (cycle + 1) ≡ machine.step (state self.old cycle) cycle before.now now.now }
        ensures stands { stands self.new now.now (cycle + 1) };

    /// The first cycle with an event, or `MOST_CYCLES`.
    fn due(&self) -> u64
        ensures { result ≡ until self.now };

    /// The least vector that is enabled and flagged, or `VECTORS`.
    fn request(&self, levels: &[Level]) -> u8
        requires { length levels.now ≡ PORT_PINS }
        ensures { (t : ℕ) → stands self.now levels.now t → result ≡ least (machine.requests (state self.now t) levels.now) };

    /// Other levels stand on the pins, and they take no step: what stood on the others stands on these.
    fn see(&mut self, levels: &[Level])
        requires { length levels.now ≡ PORT_PINS }
        ensures until { until self.new ≡ until self.old }
        ensures state { (t : ℕ) → state self.new t ≡ state self.old t }
        ensures stands { (l : List Level) (t : ℕ) → stands self.old l t → stands self.new levels.now t };

    /// Clears what entering a vector in a cycle clears.
    fn taken(&mut self, cycle: u64, levels: &[Level], vector: u8)
        requires levels { length levels.now ≡ PORT_PINS }
        requires here { stands self.old levels.now cycle }
        ensures state { state self.new cycle ≡ machine.taken (state self.old cycle) vector }
        ensures stands { stands self.new levels.now cycle };

    /// What they and others ask together of an Uno pin, 14 to 19 being A0 to A5.
    fn asked(&self, pin: u8, others: Pad) -> Pad
        requires { pin < PORT_PINS }
        ensures { (l : List Level) (t : ℕ) → stands self.now l t → result ≡ joined (machine.pad (state self.now t) pin) others };

    ghost laws: { Laws machine };

    ghost touches: { Touches machine touch };

    /// Over cycles without an event nothing needs to be done.
    ghost waits: { (s : Self) (l : List Level) (t u : ℕ) → stands s l t → t ≤ u → u ≤ until s → stands s l u × (state s u ≡ steps machine (state s t) t (u - t)) };

    ghost first: { (s : Self) (l : List Level) (t : ℕ) → stands s l t → FirstDue machine (state s t) t (until s) };
}

/// Units that continue in power-down.
pub trait AwakeGroup: Group {
    /// Whether something that ends power-down is enabled and flagged.
    fn rouses(&self, levels: &[Level]) -> bool
        requires { length levels.now ≡ PORT_PINS }
        ensures { (t : ℕ) → Self.stands self.now levels.now t → result ≡ Self.machine.power.rouses (Self.state self.now t) levels.now };

    /// Whether the step of a cycle ends in a reset.
    fn resets(&self, cycle: u64) -> bool
        ensures { (l : List Level) → Self.stands self.now l cycle → result ≡ Self.machine.power.resets (Self.state self.now cycle) cycle };

    /// Hands on what reaches units in a cycle beside the bus and the vectors.
    fn give(&mut self, cycle: u64, levels: &[Level], signal: Signal)
        requires levels { length levels.now ≡ PORT_PINS }
        requires here { Self.stands self.old levels.now cycle }
        ensures state { Self.state self.new cycle ≡ signalled Self.machine signal (Self.state self.old cycle) cycle }
        ensures stands { Self.stands self.new levels.now cycle };
}

/// Goes on to a cycle over cycles without an event: nothing needs to be done.
#[inline]
pub fn wait<G: Group>(group: &G, cycle: u64, to: u64, levels: &[Level])
    requires here { G.stands group.now levels.now cycle }
    requires forward { cycle ≤ to }
    requires end { to ≤ MOST_CYCLES }
    requires quiet { IsQuiet G.machine (G.state group.now cycle) cycle (to - cycle) }
    ensures stands { G.stands group.now levels.now to }
    ensures state { G.state group.now to ≡ steps G.machine (G.state group.now cycle) cycle (to - cycle) }
    ensures requests { (l : List Level) → least (G.machine.requests (G.state group.now to) l) ≡ least (G.machine.requests (G.state group.now cycle) l) }
{
    let _ = group;
    let _ = cycle;
    let _ = to;
    let _ = levels;
}

/// Whether a unit has an event or takes notice of the change of the levels; `due` is the first cycle with an event. Where none
/// does, nothing needs to be done.
#[inline]
pub fn notices<G: Group>(group: &G, due: u64, cycle: u64, before: &[Level], now: &[Level]) -> bool
    requires due { due ≡ G.until group.now }
    requires before { length before.now ≡ PORT_PINS }
    requires levels { length now.now ≡ PORT_PINS }
    requires here { G.stands group.now before.now cycle }
    ensures quiet { result ≡ false → cycle < due }
    ensures unheard { result ≡ false → Unheard G.machine (G.state group.now cycle) cycle before.now now.now }
    ensures stands { result ≡ false → G.stands group.now now.now cycle }
{
    if due <= cycle {
        true
    } else {
        group.hears(before, now)
    }
}
