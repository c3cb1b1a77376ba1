//! The kinds of parts, by the names of their types.
ghost use Rattle.std.specs.Prelude.{◌≡◌, List, ℕ, map};
ghost use Rattle.std.specs.Borrow.{Bor};
ghost use Rattle.part_catalog.specs.declared.kind.Kind.{Kind};
ghost use Rattle.part_catalog.specs.Kinds.{types, kind_in, named_kind};

/// A kind of part, the Arduino Uno among them. The text display has a kind for each way in which it
/// can be wired.
#[derive(Clone, Copy, Debug, PartialEq, Eq)]
pub enum Kind {
    ArduinoUno,
    Led,
    Pushbutton,
    SlideSwitch,
    DipSwitch8,
    Resistor,
    Junction,
    Text,
    Vcc,
    Gnd,
    Potentiometer,
    GateNot,
    GateBuffer,
    GateAnd2,
    GateOr2,
    GateNand2,
    GateNor2,
    GateXor2,
    GateXnor2,
    ShiftRegister595,
    SevenSegment,
    Lcd1602Full,
    Lcd1602I2c,
    Ssd1306,
    MembraneKeypad,
    Source,
}

fn type_names() -> &'static [(&'static str, Kind)]
    ensures { map (λ (x : Bor (List ℕ) × Kind). (x.0.now, x.1)) result.now ≡ types }
{
    &[
        ("wokwi-arduino-uno", Kind::ArduinoUno),
        ("wokwi-led", Kind::Led),
        ("wokwi-pushbutton", Kind::Pushbutton),
        ("wokwi-slide-switch", Kind::SlideSwitch),
        ("wokwi-dip-switch-8", Kind::DipSwitch8),
        ("wokwi-resistor", Kind::Resistor),
        ("wokwi-junction", Kind::Junction),
        ("wokwi-text", Kind::Text),
        ("wokwi-vcc", Kind::Vcc),
        ("wokwi-gnd", Kind::Gnd),
        ("wokwi-potentiometer", Kind::Potentiometer),
        ("wokwi-gate-not", Kind::GateNot),
        ("wokwi-gate-buffer", Kind::GateBuffer),
        ("wokwi-gate-and-2", Kind::GateAnd2),
        ("wokwi-gate-or-2", Kind::GateOr2),
        ("wokwi-gate-nand-2", Kind::GateNand2),
        ("wokwi-gate-nor-2", Kind::GateNor2),
        ("wokwi-gate-xor-2", Kind::GateXor2),
        ("wokwi-gate-xnor-2", Kind::GateXnor2),
        ("wokwi-74hc595", Kind::ShiftRegister595),
        ("wokwi-7segment", Kind::SevenSegment),
        ("wokwi-lcd1602", Kind::Lcd1602Full),
        ("board-ssd1306", Kind::Ssd1306),
        ("wokwi-membrane-keypad", Kind::MembraneKeypad),
        ("board-source", Kind::Source),
    ]
}

fn find_kind(names: &[(&str, Kind)], text: &str) -> Option<Kind>
    ensures { result ≡ kind_in (map (λ (x : Bor (List ℕ) × Kind). (x.0.now, x.1)) names.now) text.now }
{
    for (name, kind) in names {
        if *name == text {
            return Some(*kind);
        }
    }
    None
}

/// The kind of a type of part; None exactly where there is no such type. The text display has its
/// full pins here, and `kind_with` may change that.
#[tactic(auto, unfolding(crate::specs::Kinds::named_kind))]
pub fn kind_of(text: &str) -> Option<Kind>
    ensures { result ≡ named_kind text.now }
{
    find_kind(type_names(), text)
}
