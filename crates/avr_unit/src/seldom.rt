//! Units that seldom have an event.
ghost use Rattle.std.specs.Prelude.{◌≡◌, ℕ, ◌+◌, ◌-◌, ◌<◌, ◌≤◌, List, true, false, length};
ghost use Rattle.sim_base.specs.declared.signal.Level.{Level};

use crate::group::{Group, notices};
use crate::pad::Pad;
use crate::pins::PORT_PINS;
use part_law::Span;
use sim_base::Level;

/// Units of which the first cycle with an event and the least request are kept, so that a cycle in which none of them has an event
/// or takes notice of a change of the levels costs as much as for one of them.
#[derive(Drop)]
pub struct Seldom<G> {
    group: G,
    due: u64,
    request: u8,
}

impl<G: Group> Group for Seldom<G> {
    ghost use Rattle.avr_unit.specs.Seldom.{SeldomStands, seldom_waits, seldom_first};

    ghost State = { G.State };

    ghost machine = { G.machine };

    ghost state = { λ s t. G.state s.group t };

    ghost touch = { G.touch };

    ghost until = { λ s. s.due };

    ghost stands = { λ s l t. SeldomStands G.machine (G.state s.group) (G.until s.group) (G.stands s.group) s.due s.request l t };

    fn new() -> Seldom<G> {
        let group = G::new();
        let due = group.due();
        let request = group.request(&[Level::Z; PORT_PINS]);
        Seldom {
            group,
            due,
            request,
        }
    }

    #[inline(always)]
    fn has(reg: u8) -> bool {
        G::has(reg)
    }

    #[inline]
    fn hears(&self, before: &[Level], now: &[Level]) -> bool {
        self.group.hears(before, now)
    }

    #[inline(always)]
    fn reading_keeps(reg: u8) -> bool {
        G::reading_keeps(reg)
    }

    #[inline(always)]
    fn writing_keeps_next(reg: u8) -> bool {
        G::writing_keeps_next(reg)
    }

    #[inline]
    fn read(&mut self, cycle: u64, levels: &[Level], reg: u8) -> u8 {
        let value = self.group.read(cycle, levels, reg);
        if !G::reading_keeps(reg) {
            self.due = self.group.due();
            self.request = self.group.request(levels);
        }
        value
    }

    #[inline]
    fn write(&mut self, cycle: u64, levels: &[Level], reg: u8, value: u8, touched: Span) -> Span {
        let moved = self.group.write(cycle, levels, reg, value, touched);
        self.due = self.group.due();
        self.request = self.group.request(levels);
        moved
    }

    #[inline]
    fn write_bit(
        &mut self,
        cycle: u64,
        levels: &[Level],
        reg: u8,
        bit: u8,
        value: bool,
        touched: Span,
    ) -> Span {
        let moved = self
            .group
            .write_bit(cycle, levels, reg, bit, value, touched);
        self.due = self.group.due();
        self.request = self.group.request(levels);
        moved
    }

    #[inline]
    fn step(
        &mut self,
        cycle: u64,
        before: &[Level],
        now: &[Level],
        others: (Option<u8>, Span),
    ) -> (Option<u8>, Span) {
        if notices(&self.group, self.due, cycle, before, now) {
            let moved = self.group.step(cycle, before, now, others);
            self.due = self.group.due();
            self.request = self.group.request(now);
            moved
        } else {
            others
        }
    }

    #[inline]
    fn due(&self) -> u64 {
        self.due
    }

    #[inline]
    fn request(&self, _levels: &[Level]) -> u8 {
        self.request
    }

    fn see(&mut self, levels: &[Level]) {
        self.group.see(levels);
        self.request = self.group.request(levels);
    }

    fn taken(&mut self, cycle: u64, levels: &[Level], vector: u8) {
        self.group.taken(cycle, levels, vector);
        self.due = self.group.due();
        self.request = self.group.request(levels);
    }

    #[inline(always)]
    fn asked(&self, pin: u8, others: Pad) -> Pad {
        self.group.asked(pin, others)
    }

    ghost laws = { G.laws };

    ghost touches = { G.touches };

    ghost waits = { λ s l t u h le soon. seldom_waits G.machine (G.state s.group) (G.until s.group) (G.stands s.group) G.laws (G.waits s.group) (G.first s.group) s.due s.request l t u h le soon };

    ghost first = { λ s l t h. seldom_first G.machine (G.state s.group) (G.until s.group) (G.stands s.group) (G.first s.group) s.due s.request l t h };
}
