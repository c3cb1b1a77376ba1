//! A row is a unit's name and, behind a colon, what is done with a new one and what it answers; `#` begins a comment.
//! A number before the name, as in `10000 adc:`, has it played so often.
use crate::unit::{played, played_awake};
use avr_adc::Adc;
use avr_keep::Keep;
use avr_ports::Ports;
use avr_spi::Spi;
use avr_timer8::{Timer0, Timer2};
use avr_timer16::Timer16;
use avr_twi::Twi;
use avr_usart::Usart;

/// The first word of a row that is none, or that comes out otherwise.
pub(crate) fn unit_difference(line: &str) -> Option<&str> {
    let (row, _) = line.split_once('#').unwrap_or((line, ""));
    let (unit, words) = row.split_once(':').unwrap_or((row, ""));
    let (count, unit) = unit.split_once(' ').unwrap_or(("1", unit));
    for _ in 0..count.parse::<u16>().unwrap_or(1) {
        if let Some(word) = played_once(unit, words) {
            return Some(word);
        }
    }
    None
}

fn played_once<'a>(unit: &'a str, words: &'a str) -> Option<&'a str> {
    match unit {
        "adc" => played::<Adc>(words),
        "keep" => played_awake::<Keep>(words),
        "ports" => played_awake::<Ports>(words),
        "spi" => played::<Spi>(words),
        "timer0" => played::<Timer0>(words),
        "timer1" => played::<Timer16>(words),
        "timer2" => played::<Timer2>(words),
        "twi" => played::<Twi>(words),
        "usart" => played::<Usart>(words),
        _ => Some(unit),
    }
}
