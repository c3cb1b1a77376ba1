//! Rows of the catalogue of parts.
use crate::answer::Answer;
use crate::row::str_of;
use part_catalog::{
    Kind, contacts_of, greatest_value, joins, kind_of, kind_with, pin_count, pin_name, pin_number,
    settings_of,
};
use sim_base::{List, Name, OutOfMemory, Text};
use std::alloc::{AllocError, Global};

const KINDS: [Kind; 26] = [
    Kind::ArduinoUno,
    Kind::Led,
    Kind::Pushbutton,
    Kind::SlideSwitch,
    Kind::DipSwitch8,
    Kind::Resistor,
    Kind::Junction,
    Kind::Text,
    Kind::Vcc,
    Kind::Gnd,
    Kind::Potentiometer,
    Kind::GateNot,
    Kind::GateBuffer,
    Kind::GateAnd2,
    Kind::GateOr2,
    Kind::GateNand2,
    Kind::GateNor2,
    Kind::GateXor2,
    Kind::GateXnor2,
    Kind::ShiftRegister595,
    Kind::SevenSegment,
    Kind::Lcd1602Full,
    Kind::Lcd1602I2c,
    Kind::Ssd1306,
    Kind::MembraneKeypad,
    Kind::Source,
];

/// - `type TEXT`: its kind; each row below has a kind as its second word
/// - `pins KIND`, `pin KIND NAME`, `name KIND NUMBER`: the count, the number and the name of pins
/// - `joins KIND`, `contacts KIND`: pairs of pins
/// - `greatest KIND`: the greatest value
/// - `set KIND KEY VALUE`, `wired KIND KEY VALUE`: settings and kind by an attribute; the value may be left out
pub fn catalogue_answer(alloc: Global, made: &mut Answer, bytes: &[u8]) {
    match words_of(alloc, bytes) {
        Ok(words) => answer(alloc, made, words.as_slice()),
        Err(AllocError) => made.run_out(),
    }
}

fn words_of(alloc: Global, bytes: &[u8]) -> Result<Vec<&str>, AllocError> {
    str_of(bytes).split(' ').collect(alloc)
}

fn answer(alloc: Global, made: &mut Answer, words: &[&str]) {
    match words {
        ["type", text] => tell_kind(alloc, made, kind_of(text)),
        [ask, kind, rest @ ..] => match kind_named(alloc, kind) {
            Ok(Some(kind)) => answer_of(alloc, made, ask, kind, rest),
            Ok(None) => made.tell("no kind"),
            Err(AllocError) => made.run_out(),
        },
        _ => made.tell("no row"),
    }
}

fn kind_text(alloc: Global, kind: Kind) -> Result<String, AllocError> {
    format!(in alloc; "{kind:?}")
}

fn is_named(alloc: Global, kind: Kind, name: &str) -> Result<bool, AllocError> {
    let text = kind_text(alloc, kind)?;
    Ok(text.as_str() == name)
}

fn kind_named(alloc: Global, name: &str) -> Result<Option<Kind>, AllocError> {
    for kind in KINDS {
        if is_named(alloc, kind, name)? {
            return Ok(Some(kind));
        }
    }
    Ok(None)
}

fn tell_kind(alloc: Global, made: &mut Answer, kind: Option<Kind>) {
    match kind {
        Some(kind) => made.tell_made(kind_text(alloc, kind)),
        None => made.tell("none"),
    }
}

fn tell_value(made: &mut Answer, value: Option<u16>) {
    match value {
        Some(value) => made.tell_number("", u64::from(value)),
        None => made.tell("none"),
    }
}

fn answer_of(alloc: Global, made: &mut Answer, ask: &str, kind: Kind, rest: &[&str]) {
    match rest {
        [] => answer_alone(made, ask, kind),
        [word] => answer_to(made, ask, kind, word),
        [key, value] => answer_with(alloc, made, ask, kind, key, value),
        _ => made.tell("no row"),
    }
}

fn answer_alone(made: &mut Answer, ask: &str, kind: Kind) {
    match ask {
        "pins" => tell_value(made, Some(pin_count(kind) as u16)),
        "joins" => tell_pairs(made, joins(kind).as_slice()),
        "contacts" => tell_pairs(made, contacts_of(kind).as_slice()),
        "greatest" => tell_value(made, greatest_value(kind)),
        _ => made.tell("no row"),
    }
}

fn answer_to(made: &mut Answer, ask: &str, kind: Kind, word: &str) {
    match ask {
        "pin" => tell_value(made, numbered(kind, word)),
        "name" => tell_pin(made, kind, word.parse::<u8>().unwrap_or(255)),
        _ => made.tell("no row"),
    }
}

fn answer_with(alloc: Global, made: &mut Answer, ask: &str, kind: Kind, key: &str, value: &str) {
    match attributes(alloc, key, value) {
        Ok(attrs) => answer_by(alloc, made, ask, kind, &attrs),
        Err(OutOfMemory) => made.run_out(),
    }
}

fn answer_by(alloc: Global, made: &mut Answer, ask: &str, kind: Kind, attrs: &List<(Text, Text)>) {
    match ask {
        "set" => tell_settings(made, kind, attrs),
        "wired" => tell_kind(alloc, made, Some(kind_with(kind, attrs))),
        _ => made.tell("no row"),
    }
}

fn numbered(kind: Kind, name: &str) -> Option<u16> {
    let number = pin_number(kind, &Name::read(name)?)?;
    Some(number as u16)
}

fn tell_pin(made: &mut Answer, kind: Kind, pin: u8) {
    if pin < pin_count(kind) {
        let name = pin_name(kind, pin);
        made.tell(name.as_str());
    } else {
        made.tell("none");
    }
}

fn tell_pairs(made: &mut Answer, pairs: &[(u8, u8)]) {
    for (one, other) in pairs {
        tell_pair(made, *one, *other);
    }
    if made.is_empty() {
        made.tell("none");
    }
}

fn tell_pair(made: &mut Answer, one: u8, other: u8) {
    made.separate(" ");
    made.tell_number("", u64::from(one));
    made.tell_number("-", u64::from(other))
}

/// A list of one attribute.
fn attributes(alloc: Global, key: &str, value: &str) -> Result<List<(Text, Text)>, OutOfMemory> {
    let attr = attribute(alloc, key, value)?;
    let mut attrs = List::new(alloc);
    attrs.push(attr)?;
    Ok(attrs)
}

fn attribute(alloc: Global, key: &str, value: &str) -> Result<(Text, Text), OutOfMemory> {
    let key = Text::from_str(alloc, key)?;
    let value = Text::from_str(alloc, value)?;
    Ok((key, value))
}

fn tell_settings(made: &mut Answer, kind: Kind, attrs: &List<(Text, Text)>) {
    match settings_of(kind, attrs) {
        Some(settings) => {
            made.tell_number("", u64::from(settings.number));
            made.tell_number(" ", u64::from(settings.choice))
        }
        None => made.tell("none"),
    }
}
