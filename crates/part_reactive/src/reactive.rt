//! A part of a board made of its behaviour.
ghost use Rattle.std.specs.Prelude.{◌≡◌, ◌≤◌, ◌<◌, ◌+◌, ℕ, length, replicate, false, true};
ghost use Rattle.sim_base.specs.declared.signal.Level.TheVariants as levels;
ghost use Rattle.part_reactive.specs.Reaction.{at_start, reactive};

use crate::behaviour::Behaviour;
use part_law::Part;
use sim_base::{Drive, Level, MOST_CYCLES};
use std::marker::Model;

/// A part that does nothing by itself, before the step of `cycle`, with the levels of its last step.
#[derive(Drop)]
pub struct Reactive<B: Behaviour> {
    behaviour: B,
    pins: u8,
    held: [Level; 32],
    cycle: u64,
    wakes: u64,
    changed: bool,
}

impl<B: Behaviour> Model for Reactive<B> {
    ghost use Rattle.std.specs.Prelude.{◌≤◌, ◌≡◌, ◌==◌, ◌||◌, length, take, true};
    ghost use Rattle.part_reactive.specs.ReactiveAt.{ReactiveAt};
    ghost use Rattle.sim_base.specs.declared.limits.TheConstants.{MOST_CYCLES};

    ghost Value = { ReactiveAt B };

    ghost view = { λ p. record { behaviour = p.behaviour; held = take p.pins p.held; cycle = p.cycle; wakes = p.wakes; changed = p.changed } };

    ghost invariant = { λ p. record {
      end : p.cycle ≤ MOST_CYCLES;
      few : p.pins ≤ 32;
      pins : p.pins ≡ length (B.reaction.drives (B.own p.behaviour));
      counted : B.reaction.counted (B.own p.behaviour) ≤ p.wakes;
      agrees : (p.cycle == 0 || B.reaction.agrees (B.own p.behaviour) (take p.pins p.held)) ≡ true;
    } };
}

/// Keeps these levels in place of those of the step before.
#[inline]
fn keep(levels: &[Level], held: &mut [Level])
    requires { length held.old ≡ length levels.now }
    ensures { held.new ≡ levels.now }
{
    // most parts have two pins, and two moves cost less than a call that copies
    if levels.len() == 2 {
        held[0] = levels[0];
        held[1] = levels[1];
    } else {
        held.copy_from_slice(levels);
    }
}

impl<B: Behaviour> Reactive<B> {
    /// A part with this behaviour at cycle 0, when nothing has driven its pins yet.
    pub fn new(behaviour: B) -> Self
        requires { B.reaction.counted (B.own behaviour) ≡ 0 }
        ensures { result ≡ record { behaviour = behaviour; held = replicate (length (B.reaction.drives (B.own behaviour))) levels.Z; cycle = 0; wakes = 0; changed = false } }
    {
        let pins = behaviour.pins();
        Reactive {
            behaviour,
            pins,
            held: [Level::Z; 32],
            cycle: 0,
            wakes: 0,
            changed: false,
        }
    }

    pub fn behaviour(&self) -> &B
        ensures { result.now ≡ self.now.behaviour }
    {
        &self.behaviour
    }

    /// The levels of its last step.
    pub fn held(&self) -> &[Level]
        ensures { result.now ≡ self.now.held }
    {
        &self.held[..usize::from(self.pins)]
    }
}

impl<B: Behaviour> Part for Reactive<B> {
    ghost use Rattle.std.specs.Prelude.{true};
    ghost use Rattle.part_reactive.specs.Reaction.{Reacting, reactive, reactive_laws};

    ghost State = { Reacting B.Own };

    ghost machine = { reactive B.reaction };

    ghost state = { λ p. record { own = B.own p.behaviour; held = p.held } };

    ghost now = { λ p. p.cycle };

    ghost wakes = { λ p. p.wakes };

    ghost changes = { λ p. p.changed };

    fn pins(&self) -> u8 {
        self.pins
    }

    fn contacts(&self) -> u8 {
        self.behaviour.contacts()
    }

    fn drive(&self, pin: u8) -> Drive {
        self.behaviour.drive(pin)
    }

    fn contact(&self, i: u8) -> bool {
        self.behaviour.contact(i)
    }

    fn due(&self) -> Option<u64> {
        if self.cycle == 0 { Some(0) } else { None }
    }

    fn woken(&self) -> u64 {
        self.wakes
    }

    fn changed(&self) -> bool {
        self.changed
    }

    fn settle(&mut self, to: u64) {
        self.cycle = to;
    }

    fn wake(&mut self, levels: &[Level], input: Option<u16>) -> Option<u8> {
        let pins = usize::from(self.pins);
        self.changed = self.behaviour.react(&self.held[..pins], levels, input);
        keep(levels, &mut self.held[..pins]);
        self.cycle += 1;
        self.wakes += 1;
        None
    }

    #[inline(always)]
    fn hear(&mut self, levels: &[Level], t: u64) -> Option<bool> {
        let pins = usize::from(self.pins);
        let levels = &levels[..pins];
        let changed = self.behaviour.react(&self.held[..pins], levels, None);
        self.changed = changed;
        keep(levels, &mut self.held[..pins]);
        self.cycle = t + 1;
        self.wakes += 1;
        Some(changed)
    }

    fn wake_held(&mut self, input: Option<u16>) -> Option<u8> {
        // the same levels once more change nothing after cycle 0
        self.changed = if self.cycle == 0 || input.is_some() {
            let held = &self.held[..usize::from(self.pins)];
            self.behaviour.react(held, held, input)
        } else {
            false
        };
        self.cycle += 1;
        self.wakes += 1;
        None
    }

    ghost laws = { reactive_laws B.reaction B.laws };
}
