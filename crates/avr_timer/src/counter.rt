//! The counter: TCNTn with its direction, channels and flags.
ghost use Rattle.std.specs.Prelude.{◌≡◌, ◌≤◌, ◌<◌, ◌-◌, ℕ, true, false, Bool};
ghost use Rattle.avr_timer.specs.Modes.{is_icr, is_phase};
ghost use Rattle.avr_timer.specs.Count.{cleared, tick, upward, slope, top_of, turned, direction, overflows, next, has_event};
ghost use Rattle.avr_timer.specs.Counted.{IsMode, Holds, last, icr_or, wait_up, wait_down, is_back, wait, place, counted};
ghost use Rattle.avr_timer.specs.Outputs.{compare_pads, turned_pins};
ghost use Rattle.avr_timer.specs.Timing.{counter_step, counter_steps, IsStill, IsNext, Begun};

use crate::channel::{Channel, compare_pad, loads, turned_pin};
use crate::mode::{Kind, Mode, Top, is_icr, is_phase};
use crate::timing::Timing;
use crate::wheel::{ahead, behind, forward, lesser};
use avr_unit::{Pad, hull};
use part_law::Span;
use sim_base::MOST_CYCLES;

/// TCNTn, whether it goes down, the channels, ICRn with ICFn, and TOVn. A timer without ICRn leaves those two 0.
#[derive(Clone, Copy, Debug, PartialEq, Eq)]
pub struct Counter {
    pub count: u16,
    pub down: bool,
    pub a: Channel,
    pub b: Channel,
    pub icr: u16,
    pub icf: bool,
    pub tov: bool,
}

fn direction(kind: Kind, top: u16, count: u16, down: bool) -> bool
    ensures { result ≡ direction kind top count down }
{
    match kind {
        Kind::Normal | Kind::Ctc | Kind::Fast => down,
        Kind::Phase | Kind::PhaseFrequency => turned(top, count, down),
    }
}

fn turned(top: u16, count: u16, down: bool) -> bool
    ensures value { result ≡ turned top count down }
    ensures up { result ≡ false → count < top }
    ensures back { result ≡ true → 0 < top → 0 < count }
{
    if count >= top {
        true
    } else if count == 0 {
        false
    } else {
        down
    }
}

fn overflows(kind: Kind, greatest: u16, top: u16, count: u16) -> bool
    ensures { result ≡ overflows kind greatest top count }
{
    match kind {
        Kind::Normal | Kind::Ctc => count == greatest,
        Kind::Fast => count == top,
        Kind::Phase | Kind::PhaseFrequency => count == 0,
    }
}

fn upward(greatest: u16, top: u16, count: u16) -> u16
    requires { count ≤ greatest }
    ensures { result ≡ upward greatest top count }
{
    if (count == top) | (count == greatest) {
        0
    } else {
        count + 1
    }
}

fn slope(top: u16, count: u16, before: bool) -> u16
    ensures { result ≡ slope top count (turned top count before) }
{
    if top == 0 {
        0
    } else if turned(top, count, before) {
        count - 1
    } else {
        count + 1
    }
}

fn next(kind: Kind, greatest: u16, top: u16, count: u16, before: bool) -> u16
    requires { count ≤ greatest }
    ensures { result ≡ next kind greatest top count (direction kind top count before) }
{
    match kind {
        Kind::Normal | Kind::Ctc | Kind::Fast => upward(greatest, top, count),
        Kind::Phase | Kind::PhaseFrequency => slope(top, count, before),
    }
}

impl Counter {
    /// The counter after reset.
    pub fn new() -> Counter
        ensures { result ≡ cleared }
    {
        Counter {
            count: 0,
            down: false,
            a: Channel::still(),
            b: Channel::still(),
            icr: 0,
            icf: false,
            tov: false,
        }
    }

    /// What it asks of an Uno pin, with OCnA and OCnB on these two.
    pub fn pad(&self, mode: &Mode, oca: u8, ocb: u8, pin: u8) -> Pad
        ensures { result ≡ compare_pads oca ocb mode.now self.now pin }
    {
        if pin == oca {
            compare_pad(mode.kind, mode.com_a, self.a.latch)
        } else if pin == ocb {
            compare_pad(mode.kind, mode.com_b, self.b.latch)
        } else {
            Pad::untouched()
        }
    }

    /// The pins of its outputs whose latches were others before, with those between.
    pub fn turned(&self, mode: &Mode, before_a: bool, before_b: bool, oca: u8, ocb: u8) -> Span
        requires first { oca < 255 }
        requires second { ocb < 255 }
        ensures { result ≡ turned_pins oca ocb mode.now before_a before_b self.now }
    {
        hull(
            turned_pin(mode.kind, mode.com_a, before_a, self.a.latch, oca),
            turned_pin(mode.kind, mode.com_b, before_b, self.b.latch, ocb),
        )
    }

    fn top(&self, mode: &Mode) -> u16
        ensures { result ≡ top_of mode.now self.now }
    {
        match mode.top {
            Top::Ocr => self.a.active,
            Top::Icr => self.icr,
            Top::Fixed(count) => count,
        }
    }

    /// Does one tick.
    pub fn tick(&mut self, mode: &Mode)
        requires { self.old.count ≤ mode.now.greatest }
        ensures { self.new ≡ tick mode.now self.old }
    {
        let count = self.count;
        let top = self.top(mode);
        let before = self.down;
        let down = direction(mode.kind, top, count, before);
        self.down = down;
        self.a = self.a.compared(mode.kind, mode.com_a, top, count, down);
        self.b = self.b.compared(mode.kind, mode.com_b, top, count, down);
        self.icf = self.icf | (is_icr(mode.top) & (count == self.icr));
        self.tov = self.tov | overflows(mode.kind, mode.greatest, top, count);
        self.count = next(mode.kind, mode.greatest, top, count, before);
    }

    /// Whether a tick finds a match, sets TOV or loads.
    pub fn has_event(&self, mode: &Mode) -> bool
        ensures { result ≡ has_event mode.now self.now }
    {
        let count = self.count;
        let top = self.top(mode);
        (count == self.a.active)
            | (count == self.b.active)
            | (is_icr(mode.top) & (count == self.icr))
            | overflows(mode.kind, mode.greatest, top, count)
            | loads(mode.kind, top, count)
    }

    // Whether the next tick goes back.
    fn is_back(&self, mode: &Mode) -> bool
        ensures { result ≡ is_back mode.now self.now }
    {
        is_phase(mode.kind) & direction(mode.kind, self.top(mode), self.count, self.down)
    }

    fn wait_up(&self, mode: &Mode) -> u16
        requires { Holds mode.now.greatest self.now }
        ensures { result ≡ wait_up mode.now self.now }
    {
        let end = last(mode.kind, mode.greatest, self.top(mode));
        let a = ahead(mode.greatest, self.count, self.a.active);
        let b = ahead(mode.greatest, self.count, self.b.active);
        let icr = ahead(mode.greatest, self.count, icr_or(mode.top, self.icr, end));
        lesser(
            lesser(a, b),
            lesser(icr, ahead(mode.greatest, self.count, end)),
        )
    }

    fn wait_down(&self, mode: &Mode) -> u16
        requires { Holds mode.now.greatest self.now }
        ensures { result ≡ wait_down mode.now self.now }
    {
        let a = behind(mode.greatest, self.count, self.a.active);
        let b = behind(mode.greatest, self.count, self.b.active);
        let icr = behind(mode.greatest, self.count, icr_or(mode.top, self.icr, 0));
        lesser(lesser(a, b), lesser(icr, self.count))
    }

    /// How many ticks pass before the next one with an event.
    pub fn wait(&self, mode: &Mode) -> u16
        requires { Holds mode.now.greatest self.now }
        ensures { result ≡ wait mode.now self.now }
    {
        if self.has_event(mode) {
            0
        } else if self.is_back(mode) {
            if self.top(mode) == 0 {
                1
            } else {
                self.wait_down(mode)
            }
        } else {
            self.wait_up(mode)
        }
    }

    /// So many ticks of which none has an event.
    pub fn glide(&mut self, mode: &Mode, ticks: u16)
        requires mode { IsMode mode.now }
        requires holds { Holds mode.now.greatest self.old }
        requires quiet { ticks ≤ wait mode.now self.old }
        ensures { self.new ≡ counted mode.now self.old ticks }
    {
        if ticks > 0 {
            let down = direction(mode.kind, self.top(mode), self.count, self.down);
            self.count = self.place(mode, ticks);
            self.down = down;
        }
    }

    /// Goes from one cycle to a later one, over cycles without an event.
    pub fn skip(&mut self, timing: &Timing, from: u64, to: u64)
        requires mode { IsMode timing.now.mode }
        requires holds { Holds timing.now.mode.greatest self.old }
        requires begun { Begun timing.now from }
        requires forward { from ≤ to }
        requires end { to ≤ MOST_CYCLES }
        requires still { IsStill timing.now self.old from (to - from) }
        ensures state { self.new ≡ counter_steps timing.now self.old from (to - from) }
        ensures holds { Holds timing.now.mode.greatest self.new }
    {
        let ticks = timing.passed(from, to);
        self.glide(&timing.mode, ticks as u16);
    }

    /// Goes over one cycle.
    pub fn step(&mut self, timing: &Timing, cycle: u64)
        requires mode { IsMode timing.now.mode }
        requires holds { Holds timing.now.mode.greatest self.old }
        ensures state { self.new ≡ counter_step timing.now self.old cycle }
        ensures holds { Holds timing.now.mode.greatest self.new }
    {
        if timing.is_tick(cycle) {
            self.tick(&timing.mode);
        }
    }

    /// The next cycle with an event, from `cycle` on.
    pub fn due(&self, timing: &Timing, cycle: u64) -> Option<u64>
        requires mode { IsMode timing.now.mode }
        requires holds { Holds timing.now.mode.greatest self.now }
        requires begun { Begun timing.now cycle }
        requires end { cycle ≤ MOST_CYCLES }
        requires divisor { timing.now.divisor ≤ 1024 }
        ensures { IsNext timing.now self.now cycle result }
    {
        if timing.divisor == 0 {
            return None;
        }
        let next = timing.tick_after(cycle, self.wait(&timing.mode));
        if next < MOST_CYCLES { Some(next) } else { None }
    }

    fn place(&self, mode: &Mode, ticks: u16) -> u16
        requires holds { Holds mode.now.greatest self.now }
        requires quiet { ticks ≤ wait mode.now self.now }
        ensures { result ≡ place mode.now self.now ticks }
    {
        if self.is_back(mode) {
            if self.top(mode) == 0 {
                0
            } else {
                self.count - ticks
            }
        } else {
            forward(mode.greatest, self.count, ticks)
        }
    }
}

fn last(kind: Kind, greatest: u16, top: u16) -> u16
    ensures { result ≡ last kind greatest top }
{
    match kind {
        Kind::Normal | Kind::Ctc => greatest,
        Kind::Fast | Kind::Phase | Kind::PhaseFrequency => top,
    }
}

fn icr_or(top: Top, icr: u16, other: u16) -> u16
    ensures { result ≡ icr_or top icr other }
{
    match top {
        Top::Icr => icr,
        Top::Ocr | Top::Fixed(_) => other,
    }
}
