//! The pins of the kinds, which count from 0.
ghost use Rattle.std.specs.Prelude.{◌≡◌, ◌<◌, ◌≤◌, List, ℕ, map, length, true, Some};
ghost use Rattle.std.specs.List.{list_all, slice_get};
ghost use Rattle.std.specs.Borrow.{Bor};
ghost use Rattle.sim_base.specs.Names.{is_name};
ghost use Rattle.part_catalog.specs.Pins.{pin_names, number_of, joins_of, contacts_in};

use crate::kind::Kind;
use arrayvec::ArrayVec;
use sim_base::Name;

static UNO: [&str; 31] = [
    "0", "1", "2", "3", "4", "5", "6", "7", "8", "9", "10", "11", "12", "13", "A0", "A1", "A2",
    "A3", "A4", "A5", "A4.2", "A5.2", "GND.1", "GND.2", "GND.3", "5V", "3.3V", "VIN", "IOREF",
    "AREF", "RESET",
];

#[tactic(auto, unfolding(crate::specs::Pins::pin_names))]
fn texts(kind: Kind) -> &'static [&'static str]
    ensures are { map (λ (t : Bor (List ℕ)). t.now) result.now ≡ pin_names kind }
    ensures named { list_all (λ (t : Bor (List ℕ)). is_name t.now) result.now ≡ true }
    ensures few { length result.now ≤ 31 }
{
    match kind {
        Kind::ArduinoUno => &UNO,
        Kind::Led => &["A", "C"],
        Kind::Pushbutton => &["1.l", "1.r", "2.l", "2.r"],
        Kind::SlideSwitch => &["1", "2", "3"],
        Kind::DipSwitch8 => &[
            "1a", "2a", "3a", "4a", "5a", "6a", "7a", "8a", "1b", "2b", "3b", "4b", "5b", "6b",
            "7b", "8b",
        ],
        Kind::Resistor => &["1", "2"],
        Kind::Junction => &["J"],
        Kind::Text => &[],
        Kind::Vcc => &["VCC"],
        Kind::Gnd => &["GND"],
        Kind::Potentiometer => &["GND", "SIG", "VCC"],
        Kind::GateNot | Kind::GateBuffer => &["IN", "OUT"],
        Kind::GateAnd2
        | Kind::GateOr2
        | Kind::GateNand2
        | Kind::GateNor2
        | Kind::GateXor2
        | Kind::GateXnor2 => &["A", "B", "OUT"],
        Kind::ShiftRegister595 => &[
            "DS", "SHCP", "STCP", "MR", "OE", "Q0", "Q1", "Q2", "Q3", "Q4", "Q5", "Q6", "Q7",
            "Q7S", "GND", "VCC",
        ],
        Kind::SevenSegment => &[
            "A", "B", "C", "D", "E", "F", "G", "DP", "COM", "COM.1", "COM.2",
        ],
        Kind::Lcd1602Full => &[
            "VSS", "VDD", "V0", "RS", "RW", "E", "D0", "D1", "D2", "D3", "D4", "D5", "D6", "D7",
            "A", "K",
        ],
        Kind::Lcd1602I2c => &["GND", "VCC", "SDA", "SCL"],
        Kind::Ssd1306 => &["GND", "VCC", "SCL", "SDA"],
        Kind::MembraneKeypad => &["R1", "R2", "R3", "R4", "C1", "C2", "C3", "C4"],
        Kind::Source => &["OUT"],
    }
}

/// How many pins a kind has, at most 31.
pub fn pin_count(kind: Kind) -> u8
    ensures count { result ≡ length (pin_names kind) }
    ensures few { result ≤ 31 }
{
    texts(kind).len() as u8
}

fn pin_text(kind: Kind, pin: u8) -> &'static str
    requires { pin < length (pin_names kind) }
    ensures text { slice_get (pin_names kind) pin ≡ Some result.now }
    ensures named { is_name result.now ≡ true }
{
    texts(kind)[pin as usize]
}

/// The name of a pin that the kind has.
pub fn pin_name(kind: Kind, pin: u8) -> Name
    requires { pin < length (pin_names kind) }
    ensures { slice_get (pin_names kind) pin ≡ Some result }
{
    match Name::read(pin_text(kind, pin)) {
        Some(name) => name,
        None => unreachable!(),
    }
}

/// The pin with a name; None exactly where the kind has none.
pub fn pin_number(kind: Kind, pin: &Name) -> Option<u8>
    ensures { result ≡ number_of kind pin.now }
{
    let name = pin.bytes();
    let texts = texts(kind);
    for i in 0..texts.len() {
        if name == texts[i].as_bytes() {
            return Some(i as u8);
        }
    }
    None
}

fn listed(pairs: &[(u8, u8)]) -> ArrayVec<(u8, u8), 32>
    requires { length pairs.now ≤ 32 }
    ensures { result.items ≡ pairs.now }
{
    let mut list = ArrayVec::new();
    for pair in pairs {
        list.push(*pair);
    }
    list
}

/// The pairs of pins that a kind joins for good.
#[tactic(auto, unfolding(crate::specs::Pins::joins_of, crate::specs::Pins::pin_names))]
pub fn joins(kind: Kind) -> ArrayVec<(u8, u8), 32>
    ensures { result.items ≡ joins_of kind }
{
    match kind {
        Kind::ArduinoUno => listed(&[(18, 20), (19, 21)]),
        Kind::Pushbutton => listed(&[(0, 1), (2, 3)]),
        Kind::SevenSegment => listed(&[(8, 9), (8, 10)]),
        _ => ArrayVec::new(),
    }
}

/// The pairs of pins between which a kind has a contact, in the order of its contacts.
#[tactic(auto, unfolding(crate::specs::Pins::contacts_in, crate::specs::Pins::pin_names))]
pub fn contacts_of(kind: Kind) -> ArrayVec<(u8, u8), 32>
    ensures { result.items ≡ contacts_in kind }
{
    match kind {
        Kind::Pushbutton => listed(&[(0, 2)]),
        Kind::SlideSwitch => listed(&[(0, 1), (1, 2)]),
        Kind::DipSwitch8 => listed(&[
            (0, 8),
            (1, 9),
            (2, 10),
            (3, 11),
            (4, 12),
            (5, 13),
            (6, 14),
            (7, 15),
        ]),
        // each row with each column
        Kind::MembraneKeypad => listed(&[
            (0, 4),
            (0, 5),
            (0, 6),
            (0, 7),
            (1, 4),
            (1, 5),
            (1, 6),
            (1, 7),
            (2, 4),
            (2, 5),
            (2, 6),
            (2, 7),
            (3, 4),
            (3, 5),
            (3, 6),
            (3, 7),
        ]),
        _ => ArrayVec::new(),
    }
}
