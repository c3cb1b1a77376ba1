//! What a part reads of its attributes.
ghost use Rattle.std.specs.Prelude.{◌≡◌, ◌≤◌, codes};
ghost use Rattle.std.specs.Option.{option_map};
ghost use Rattle.part_catalog.specs.Attributes.{attribute, number, address, which, both, read_or, decimal_to, settings_from, wired_kind, greatest_of};

use crate::kind::Kind;
use sim_base::{List, Text};
use text_numerals::read_numeral;

/// What the attributes of a part set: a value at the start or an address, and a choice, which is 0
/// for `anode` and `full` and 1 for `cathode` and `i2c`. What a part has not is 0.
#[derive(Clone, Copy, Debug, PartialEq, Eq)]
pub struct Settings {
    pub number: u16,
    pub choice: u8,
}

fn attribute_text<'a>(name: &str, attrs: &'a [(Text, Text)]) -> Option<&'a str>
    ensures { option_map (λ t. t.now) result ≡ attribute name.now attrs.now }
{
    let mut found: Option<&'a str> = None;
    for (key, text) in attrs {
        if key.as_str() == name {
            found = Some(text.as_str());
        }
    }
    found
}

fn number(radix: u8, longest: usize, greatest: u16, text: &[u8]) -> Option<u16>
    requires radix { radix ≤ 16 }
    requires longest { longest ≤ 5 }
    ensures { result ≡ number radix longest greatest text.now }
{
    match read_numeral(radix, longest, text) {
        Some(n) if n <= u64::from(greatest) => Some(n as u16),
        _ => None,
    }
}

fn decimal_to(greatest: u16, text: &str) -> Option<u16>
    ensures { result ≡ decimal_to greatest text.now }
{
    number(10, 5, greatest, text.as_bytes())
}

fn address(text: &str) -> Option<u16>
    ensures { result ≡ address text.now }
{
    match text.as_bytes().strip_prefix(b"0x") {
        Some(digits) => number(16, 2, 127, digits),
        None => decimal_to(127, text),
    }
}

fn which(first: &str, second: &str, text: &str) -> Option<u8>
    ensures { result ≡ which first.now second.now text.now }
{
    if text == first {
        Some(0)
    } else if text == second {
        Some(1)
    } else {
        None
    }
}

fn value_to(usual: u16, greatest: u16, attrs: &[(Text, Text)]) -> Option<u16>
    ensures { result ≡ read_or usual (decimal_to greatest) (attribute (codes "value") attrs.now) }
{
    match attribute_text("value", attrs) {
        Some(text) => decimal_to(greatest, text),
        None => Some(usual),
    }
}

fn display_address(usual: u16, attrs: &[(Text, Text)]) -> Option<u16>
    ensures { result ≡ read_or usual address (attribute (codes "i2cAddress") attrs.now) }
{
    match attribute_text("i2cAddress", attrs) {
        Some(text) => address(text),
        None => Some(usual),
    }
}

fn choice(name: &str, first: &str, second: &str, attrs: &[(Text, Text)]) -> Option<u8>
    ensures { result ≡ read_or 0 (which first.now second.now) (attribute name.now attrs.now) }
{
    match attribute_text(name, attrs) {
        Some(text) => which(first, second, text),
        None => Some(0),
    }
}

fn both(number: Option<u16>, choice: Option<u8>) -> Option<Settings>
    ensures { result ≡ both number choice }
{
    Some(Settings {
        number: number?,
        choice: choice?,
    })
}

/// The settings of a part; None exactly where an attribute that it reads has a text of another form.
#[tactic(auto, unfolding(crate::specs::Attributes::settings_from))]
pub fn settings_of(kind: Kind, attrs: &List<(Text, Text)>) -> Option<Settings>
    ensures { result ≡ settings_from kind attrs.now }
{
    let attrs = attrs.as_slice();
    match kind {
        Kind::SlideSwitch => both(value_to(0, 1, attrs), Some(0)),
        Kind::Potentiometer => both(value_to(0, 1023, attrs), Some(0)),
        Kind::SevenSegment => both(Some(0), choice("common", "anode", "cathode", attrs)),
        Kind::Lcd1602Full | Kind::Lcd1602I2c => both(
            display_address(0x27, attrs),
            choice("pins", "full", "i2c", attrs),
        ),
        Kind::Ssd1306 => both(display_address(0x3C, attrs), Some(0)),
        Kind::Source => both(value_to(2, 2, attrs), Some(0)),
        _ => both(Some(0), Some(0)),
    }
}

/// The kind with the pins that the attribute `pins` chooses: another one for the text display where
/// it is `i2c`.
pub fn kind_with(kind: Kind, attrs: &List<(Text, Text)>) -> Kind
    ensures { result ≡ wired_kind kind attrs.now }
{
    match (kind, attribute_text("pins", attrs.as_slice())) {
        (Kind::Lcd1602Full, Some("i2c")) => Kind::Lcd1602I2c,
        _ => kind,
    }
}

/// The greatest value that a script may set on a part of this kind; None where it may set none.
pub fn greatest_value(kind: Kind) -> Option<u16>
    ensures { result ≡ greatest_of kind }
{
    match kind {
        Kind::Pushbutton | Kind::SlideSwitch => Some(1),
        Kind::Source => Some(2),
        Kind::DipSwitch8 => Some(255),
        Kind::Potentiometer => Some(1023),
        Kind::MembraneKeypad => Some(0xFFFF),
        _ => None,
    }
}
