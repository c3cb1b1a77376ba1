//! Parts whose drives and contacts depend on a set value alone.
ghost use Rattle.std.specs.Prelude.{◌≡◌, ◌<◌};
ghost use Rattle.parts_basic.specs.Passive.{set_to, source_drive, new_passive};

use part_catalog::{Kind, Settings, greatest_value, pin_count};
use part_reactive::Behaviour;
use sim_base::{Drive, Level};
use std::marker::Model;

/// A switch, a keypad, a potentiometer, a source of levels, a supply, a resistor, a junction or a text, with its
/// value: which contacts are closed, where the wiper is, or what the source drives.
#[derive(Drop)]
pub struct Passive {
    kind: Kind,
    value: u16,
}

impl Model for Passive {
    ghost use Rattle.parts_basic.specs.Passive.{PassiveState};

    ghost Value = { PassiveState };

    ghost view = { λ a. record { kind = a.kind; value = a.value } };
}

fn set_to(kind: Kind, value: u16) -> u16
    ensures { result ≡ set_to kind value }
{
    value.min(greatest_value(kind).unwrap_or(0))
}

fn source_drive(value: u16) -> Drive
    ensures { result ≡ source_drive value }
{
    match value {
        0 => Drive::Low,
        1 => Drive::High,
        _ => Drive::Z,
    }
}

impl Passive {
    /// Such a part as its attributes set it; a value above the greatest counts as the greatest.
    pub fn new(kind: Kind, settings: Settings) -> Self
        ensures { result ≡ new_passive kind settings }
    {
        Passive {
            kind,
            value: set_to(kind, settings.number),
        }
    }

    /// The value that it is set to: 0 and 1 for a button or a slide switch, 0 to 255 for a DIP switch,
    /// 0 to 1023 for a potentiometer, 0 to 65,535 for a keypad, and for a source 0 Low, 1 High and 2 open.
    pub fn value(&self) -> u16
        ensures { result ≡ self.now.value }
    {
        self.value
    }
}

impl Behaviour for Passive {
    ghost use Rattle.parts_basic.specs.Passive.{PassiveState, passive, passive_laws};

    ghost Own = { PassiveState };

    ghost reaction = { passive };

    ghost own = { λ a. a };

    fn pins(&self) -> u8 {
        pin_count(self.kind)
    }

    fn contacts(&self) -> u8 {
        match self.kind {
            Kind::Pushbutton => 1,
            Kind::SlideSwitch => 2,
            Kind::DipSwitch8 => 8,
            Kind::MembraneKeypad => 16,
            _ => 0,
        }
    }

    fn drive(&self, pin: u8) -> Drive {
        match self.kind {
            Kind::Vcc => Drive::High,
            Kind::Gnd => Drive::Low,
            Kind::Potentiometer if pin == 1 => Drive::Wiper(self.value),
            Kind::Source => source_drive(self.value),
            _ => Drive::Z,
        }
    }

    fn contact(&self, i: u8) -> bool {
        match self.kind {
            Kind::Pushbutton => self.value == 1,
            Kind::SlideSwitch => self.value == u16::from(i),
            Kind::DipSwitch8 => i < 8 && (self.value >> i) % 2 == 1,
            Kind::MembraneKeypad => i < 16 && (self.value >> i) % 2 == 1,
            _ => false,
        }
    }

    fn react(&mut self, _before: &[Level], _now: &[Level], input: Option<u16>) -> bool {
        match input {
            Some(new) => {
                let value = set_to(self.kind, new);
                let changed = value != self.value;
                self.value = value;
                changed
            }
            None => false,
        }
    }

    ghost laws = { passive_laws };
}
