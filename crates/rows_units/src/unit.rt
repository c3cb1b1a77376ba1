//! A unit that does what the words of a row say.
//!
//! - `pin10=L`, `pins=H`: the level of a pin, or of all, in the cycle to come; before the first all are Z
//! - `C1=18`, `C0.1=1`: a register is written, or one bit of it
//! - `C0?20`, `C0?none`: a register is read, and has this value; there is none
//! - `C1.18?moves`, `C1.18?stays`: a register is written, and whether that may move a pin
//! - `to=40`: cycle by cycle up to this one, without a byte that leaves
//! - `next=136`, `next=136,55`: the next event is in this cycle, and this byte leaves there; it is gone over
//! - `next=none`: no event is to come
//! - `hears`, `deaf`: whether it takes notice of how the levels change in the cycle to come
//! - `asks=18`, `asks=none`: the vector that it requests; `enters=18`: that one is entered
//! - `drive1=Z`, `drive1.out=L`, `drive1.set=H`: what the pin drives: H, L, PullHigh or Z, and so with its DDR bit set, or
//!   with its bits of DDR and PORT set
//! - `rests`: no event is to come, and none at the end of a board's time
//! - `wdr`: what WDR does; `resets`, `lasts`: whether the step of its cycle ends in a reset; `restart`: the reset
//! - `rouses`, `dozes`: whether something of its own ends power-down
ghost use Rattle.std.specs.Prelude.{◌≡◌, ℕ, Some, true};

use crate::levels::{Turn, pin_of};
use avr_unit::{Awake, Pad, Unit, VECTORS};
use sim_base::{Drive, MOST_CYCLES};

/// Plays the words on a new unit, and answers the first one that is none or comes out otherwise.
pub(crate) fn played<U: Unit + Drop>(words: &str) -> Option<&str> {
    let mut unit = U::new();
    let mut turn = Turn::first();
    for word in words.split_whitespace() {
        if !plays(&mut unit, &mut turn, word) {
            return Some(word);
        }
    }
    None
}

/// The same of a unit that continues in power-down.
pub(crate) fn played_awake<U: Awake + Drop>(words: &str) -> Option<&str> {
    let mut unit = U::new();
    let mut turn = Turn::first();
    for word in words.split_whitespace() {
        if !plays_awake(&mut unit, &mut turn, word) {
            return Some(word);
        }
    }
    None
}

fn plays_awake<U: Awake>(unit: &mut U, turn: &mut Turn, word: &str) -> bool
    requires here { (U.shows unit.old).cycle ≡ turn.old.cycle }
    ensures here { (U.shows unit.new).cycle ≡ turn.new.cycle }
{
    match word {
        "resets" => unit.resets(turn.cycle),
        "lasts" => !unit.resets(turn.cycle),
        "rouses" => unit.rouses(&turn.before),
        "dozes" => !unit.rouses(&turn.before),
        "wdr" | "restart" => is_told(unit, word),
        _ => plays(unit, turn, word),
    }
}

fn plays<U: Unit>(unit: &mut U, turn: &mut Turn, word: &str) -> bool
    requires here { (U.shows unit.old).cycle ≡ turn.old.cycle }
    ensures here { (U.shows unit.new).cycle ≡ turn.new.cycle }
{
    if let Some((name, value)) = word.split_once('=') {
        return match name {
            "to" => goes_to(unit, turn, value),
            "next" => goes_over(unit, turn, value),
            "asks" => asked(unit, turn) == vector_of(value),
            "enters" => enters(unit, turn, value),
            _ if name.starts_with("pin") => turn.set(name, value).is_some(),
            _ if name.starts_with("drive") => drives(unit, name, value),
            _ => writes(unit, name, value).is_some(),
        };
    }
    match word {
        "hears" => unit.hears(&turn.before, &turn.now),
        "deaf" => !unit.hears(&turn.before, &turn.now),
        "rests" => rests(unit, turn),
        _ => reads(unit, turn, word) == Some(true),
    }
}

/// Steps cycle by cycle up to a cycle; no byte leaves.
fn goes_to<U: Unit>(unit: &mut U, turn: &mut Turn, value: &str) -> bool
    requires here { (U.shows unit.old).cycle ≡ turn.old.cycle }
    ensures here { (U.shows unit.new).cycle ≡ turn.new.cycle }
{
    let Ok(to) = value.parse::<u64>() else {
        return false;
    };
    while turn.cycle < to && turn.cycle < MOST_CYCLES {
        if unit.step(&turn.before, &turn.now).0.is_some() {
            turn.pass();
            return false;
        }
        turn.pass();
    }
    turn.cycle == to
}

/// Goes over the next event, which is in this cycle, and where this byte leaves.
fn goes_over<U: Unit>(unit: &mut U, turn: &mut Turn, value: &str) -> bool
    requires here { (U.shows unit.old).cycle ≡ turn.old.cycle }
    ensures here { (U.shows unit.new).cycle ≡ turn.new.cycle }
{
    match unit.due() {
        Some(due) => {
            unit.skip(due);
            let (byte, _) = unit.step(&turn.before, &turn.now);
            turn.cycle = due;
            turn.pass();
            let (cycle, sent) = value.split_once(',').unwrap_or((value, ""));
            cycle.parse::<u64>() == Ok(due) && byte == u8::from_str_radix(sent, 16).ok()
        }
        None => value == "none",
    }
}

/// Goes to the end of a board's time, before and behind which no event is to come.
fn rests<U: Unit>(unit: &mut U, turn: &mut Turn) -> bool
    requires here { (U.shows unit.old).cycle ≡ turn.old.cycle }
    ensures here { (U.shows unit.new).cycle ≡ turn.new.cycle }
{
    if unit.due().is_some() || turn.cycle > MOST_CYCLES {
        return false;
    }
    unit.skip(MOST_CYCLES);
    turn.cycle = MOST_CYCLES;
    unit.due().is_none()
}

/// Tells it of WDR, or of a reset of the watchdog.
fn is_told<U: Awake>(unit: &mut U, word: &str) -> bool
    ensures { (U.shows unit.new).cycle ≡ (U.shows unit.old).cycle }
{
    if word == "wdr" {
        unit.wdr();
    } else {
        unit.restart();
    }
    true
}

fn asked<U: Unit>(unit: &U, turn: &Turn) -> u8 {
    unit.request(&turn.before)
}

fn vector_of(text: &str) -> u8 {
    text.parse::<u8>().unwrap_or(VECTORS)
}

/// Enters the vector that is requested.
fn enters<U: Unit>(unit: &mut U, turn: &Turn, value: &str) -> bool
    ensures { (U.shows unit.new).cycle ≡ (U.shows unit.old).cycle }
{
    let vector = asked(unit, turn);
    if vector != vector_of(value) || vector == VECTORS {
        return false;
    }
    unit.taken(vector);
    true
}

/// What a pin drives, and so with its DDR bit set, or those of DDR and PORT: `drive1`, `drive1.out`, `drive1.set`.
fn drives<U: Unit>(unit: &U, name: &str, value: &str) -> bool {
    let Some(place) = name.strip_prefix("drive") else {
        return false;
    };
    let (pin, out) = place.split_once('.').unwrap_or((place, ""));
    let Some(pin) = pin_of(pin) else {
        return false;
    };
    let port = Pad {
        ddr: out == "out" || out == "set",
        port: out == "set",
        ..Pad::untouched()
    };
    value == name_of(unit.pad(pin).joined(port).drive())
}

fn name_of(drive: Drive) -> &'static str {
    match drive {
        Drive::High => "H",
        Drive::Low => "L",
        Drive::PullHigh => "PullHigh",
        _ => "Z",
    }
}

/// Writes a register or one bit of it: `C1`, `C1.3`.
fn writes<U: Unit>(unit: &mut U, name: &str, value: &str) -> Option<()>
    ensures { (U.shows unit.new).cycle ≡ (U.shows unit.old).cycle }
{
    let value = u8::from_str_radix(value, 16).ok()?;
    match name.split_once('.') {
        Some((name, bit)) => {
            let reg = register::<U>(name)?;
            let bit = bit.parse::<u8>().ok()?;
            if bit > 7 {
                return None;
            }
            unit.write_bit(reg, bit, value == 1);
        }
        None => {
            let reg = register::<U>(name)?;
            unit.write(reg, value);
        }
    }
    Some(())
}

/// Reads a register, or writes one and asks whether that may move a pin, and compares: `C0?20`, `C0?none`, `C1.18?moves`.
fn reads<U: Unit>(unit: &mut U, turn: &Turn, word: &str) -> Option<bool>
    ensures { (U.shows unit.new).cycle ≡ (U.shows unit.old).cycle }
{
    let (name, value) = word.split_once('?')?;
    if let Some((name, written)) = name.split_once('.') {
        let reg = register::<U>(name)?;
        let moved = unit.write(reg, u8::from_str_radix(written, 16).ok()?);
        return Some(value == if moved.has_any() { "moves" } else { "stays" });
    }
    let reg = u8::from_str_radix(name, 16).ok()?;
    if value == "none" || !U::has(reg) {
        return Some(value == "none" && !U::has(reg));
    }
    let read = unit.read(&turn.before, reg);
    Some(read == u8::from_str_radix(value, 16).ok()?)
}

/// The address of a register of the unit.
fn register<U: Unit>(name: &str) -> Option<u8>
    ensures { (reg : ℕ) → result ≡ Some reg → U.machine.has reg ≡ true }
{
    let reg = u8::from_str_radix(name, 16).ok()?;
    if U::has(reg) { Some(reg) } else { None }
}
