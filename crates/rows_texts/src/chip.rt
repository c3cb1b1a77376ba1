//! Rows of chips' files: the positions of the pins, each with its name or skipped, and the size of the display, if there
//! is one.
use crate::answer::Answer;
use crate::refused::refused;
use chip_json::{ChipPins, read_chip_display, read_chip_json};
use sim_base::{Display, Name};
use std::alloc::Global;

pub fn chip_answer(alloc: Global, made: &mut Answer, text: &[u8]) {
    match read_chip_json(alloc, text) {
        Ok(pins) => answer_with(alloc, made, &pins, text),
        Err(fault) => refused(made, &fault),
    }
}

/// The answer for a text with these pins.
fn answer_with(alloc: Global, made: &mut Answer, pins: &ChipPins, text: &[u8]) {
    match read_chip_display(alloc, text) {
        Ok(display) => {
            tell_pins(made, pins.as_slice());
            tell_display(made, display);
        }
        Err(fault) => refused(made, &fault),
    }
}

fn tell_pins(made: &mut Answer, pins: &[Option<Name>]) {
    for pin in pins {
        tell_pin(made, pin);
    }
}

fn tell_pin(made: &mut Answer, pin: &Option<Name>) {
    made.separate(" ");
    match pin {
        Some(name) => made.tell(name.as_str()),
        None => made.tell("-"),
    }
}

fn tell_display(made: &mut Answer, display: Option<Display>) {
    if let Some(display) = display {
        made.separate(" ");
        made.tell_number("", u64::from(display.width()));
        made.tell_number("x", u64::from(display.height()));
    }
}
