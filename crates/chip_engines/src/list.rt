//! The engines of a chip: a list of places, with an engine or none at each.
ghost use Rattle.std.specs.Prelude.{◌≡◌, ◌<◌, ◌≤◌, IfSome, length, option_map};
ghost use Rattle.std.specs.List.{position_from};
ghost use Rattle.chip_engines.specs.Engine.{driven, is_free, place_drives, IsEngine};
ghost use Rattle.chip_engines.specs.Turned.{HasTurnedAt};
ghost use Rattle.chip_engines.specs.FirstDue.{first_serial, first_at, first_engine};

use crate::due::{due_from, earlier};
use crate::engine::{Engine, Turn};
use crate::serial::Serial;
use sim_base::{Drive, Level, MOST_CYCLES};

fn first_serial(serial: &Serial, from: u64) -> Option<u64>
    ensures { result ≡ first_serial from serial.now }
{
    match serial {
        Serial::Uart(uart) => earlier(
            due_from(from, uart.bit_end()),
            due_from(from, uart.next_sample()),
        ),
        Serial::Spi(spi) => {
            if spi.is_opening() {
                due_from(from, Some(from))
            } else {
                due_from(from, spi.next_turn())
            }
        }
        Serial::I2c(_) => None,
    }
}

fn first_at(place: &Option<Engine>, from: u64) -> Option<u64>
    ensures { result ≡ first_at from place.now }
{
    match place {
        Some(engine) => first_serial(&engine.serial, from),
        None => None,
    }
}

/// The first cycle from one on, and below the end, in which an engine has an event though no level changes.
pub fn first_engine(places: &[Option<Engine>], from: u64) -> Option<u64>
    ensures { result ≡ first_engine from places.now }
{
    match places {
        [] => None,
        [place] => first_at(place, from),
        [place, rest @ ..] => earlier(first_at(place, from), first_engine(rest, from)),
    }
}

fn place_drives(place: &Option<Engine>, pin: u32) -> Option<Drive>
    ensures { result ≡ place_drives pin place.now }
{
    match place {
        Some(engine) => engine.drives(pin),
        None => None,
    }
}

/// What the first engine that drives a pin drives it to.
pub fn driven(places: &[Option<Engine>], pin: u32) -> Option<Drive>
    ensures { result ≡ driven pin places.now }
{
    match places {
        [] => None,
        [place] => place_drives(place, pin),
        [place, rest @ ..] => match place_drives(place, pin) {
            Some(drive) => Some(drive),
            None => driven(rest, pin),
        },
    }
}

/// The turn of the engine at a place, on the levels of the chip's pins in the cycle before and in this one; None where none
/// stands there.
pub fn turn_at(
    place: &mut Option<Engine>,
    cycle: u64,
    before: &[Level],
    now: &[Level],
) -> Option<Turn>
    requires cycle { cycle < MOST_CYCLES }
    requires sound { IfSome place.old IsEngine }
    ensures turned { HasTurnedAt cycle before.now now.now place.old place.new result }
    ensures sound { IfSome place.new IsEngine }
{
    match place {
        Some(engine) => Some(engine.turn(cycle, before, now)),
        None => None,
    }
}

/// The first place without an engine.
pub fn free(places: &[Option<Engine>]) -> Option<u32>
    requires { length places.now ≤ 8 }
    ensures place { result ≡ position_from is_free 0 places.now }
    ensures within { IfSome result (λ i. i < length places.now) }
{
    for i in 0..places.len() {
        if places[i].is_none() {
            return Some(i as u32);
        }
    }
    None
}
