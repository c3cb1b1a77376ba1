//! What a bus says between one cycle and the next.
ghost use Rattle.std.specs.Prelude.{◌≡◌, ◌≤◌, ◌<◌, ◌+◌, ◌*◌, ◌/◌, []};
ghost use Rattle.sim_base.specs.Signal.{reads};
ghost use Rattle.wave_decode.specs.Bits.{bit_of, number_from, shifted};
ghost use Rattle.wave_decode.specs.Frames.{heard_at, i2c_at, i2c_bit, i2c_nine, IsBus, reads_at, spi_at, spi_bit, uart_at, uart_frame, uart_start};
ghost use Rattle.wave_decode.specs.Rising.{IsRising};
ghost use Rattle.wave_decode.specs.Wires.{read_later};

use crate::bus::{Bus, Heard};
use crate::telling::{Line, i2c_line, spi_line, start_line, stop_line, uart_line};
use crate::wire::{Wire, wire_at};
use sim_base::reads_one;

/// What is known of a bus after a cycle, and the line that tells what came in it, empty for nothing.
#[derive(Drop)]
pub(crate) struct Step {
    pub(crate) heard: Heard,
    pub(crate) line: Line,
}

/// Nothing to tell.
fn silent(heard: Heard) -> Step
    ensures heard { result.heard ≡ heard }
    ensures line { result.line.items ≡ [] }
{
    Step {
        heard,
        line: Line::new(),
    }
}

/// The last eight bits after one more.
fn shifted(value: u8, bit: bool) -> u8
    ensures { result ≡ shifted value bit }
{
    let doubled = 2 * u16::from(value);
    if bit {
        ((doubled + 1) % 256) as u8
    } else {
        (doubled % 256) as u8
    }
}

/// Eight bits after one that is taken at their top.
fn pushed(value: u8, bit: bool) -> u8
    ensures { result ≡ value / 2 + 128 * bit_of bit }
{
    if bit { value / 2 + 128 } else { value / 2 }
}

/// The byte whose bits a line has from a cycle on, the lowest first, and the line there.
fn byte_from(wire: Wire<'_>, bit: u32, t: u32) -> u8
    requires early { t ≤ 200000000 }
    requires bit { bit ≤ 1000000 }
    requires rising { IsRising 0 wire.rows.now }
    ensures { result ≡ number_from (read_later wire.entry.level wire.entry.rows.now) bit t 8 }
{
    let mut wire = wire;
    let mut value = 0;
    let mut at = t;
    for _ in 0..8u8 {
        wire = wire_at(wire, at);
        value = pushed(value, reads_one(wire.level));
        at += bit;
    }
    value
}

/// A frame begins at a cycle, in which the line is this.
fn uart_frame(bit: u32, n: u32, wire: Wire<'_>, t: u32, heard: Heard) -> Step
    requires early { t < n }
    requires end { n ≤ 160000000 }
    requires bit { bit ≤ 1000000 }
    requires rising { IsRising 0 wire.rows.now }
    ensures heard { result.heard ≡ (uart_frame bit n (read_later wire.entry.level wire.entry.rows.now) t heard).0 }
    ensures line { result.line.items ≡ (uart_frame bit n (read_later wire.entry.level wire.entry.rows.now) t heard).1 }
{
    let half = bit / 2;
    let stop = t + 9 * bit + half;
    if stop < n {
        let byte = byte_from(wire, bit, t + bit + half);
        Step {
            heard: Heard {
                from: stop + 1,
                ..heard
            },
            line: uart_line(t, byte, reads_one(wire_at(wire, stop).level)),
        }
    } else {
        silent(Heard { from: n, ..heard })
    }
}

/// The line falls at a cycle, in which it is this.
fn uart_start(bit: u32, n: u32, wire: Wire<'_>, t: u32, heard: Heard) -> Step
    requires early { t < n }
    requires end { n ≤ 160000000 }
    requires bit { bit ≤ 1000000 }
    requires rising { IsRising 0 wire.rows.now }
    ensures heard { result.heard ≡ (uart_start bit n (read_later wire.entry.level wire.entry.rows.now) t heard).0 }
    ensures line { result.line.items ≡ (uart_start bit n (read_later wire.entry.level wire.entry.rows.now) t heard).1 }
{
    let middle = t + bit / 2;
    if middle < n {
        if reads_one(wire_at(wire, middle).level) {
            silent(Heard {
                from: middle + 1,
                ..heard
            })
        } else {
            uart_frame(bit, n, wire, t, heard)
        }
    } else {
        silent(Heard { from: n, ..heard })
    }
}

/// Whether the clock is at the level at which an edge ends that reads a bit.
fn reads_at(mode: u8, clock: bool) -> bool
    requires { mode < 4 }
    ensures { result ≡ reads_at mode clock }
{
    match mode {
        0 | 3 => clock,
        _ => !clock,
    }
}

fn spi_bit(t: u32, bit: bool, heard: Heard) -> Step
    ensures heard { result.heard ≡ (spi_bit t bit heard).0 }
    ensures line { result.line.items ≡ (spi_bit t bit heard).1 }
{
    let value = shifted(heard.value, bit);
    if heard.count < 7 {
        silent(Heard {
            count: heard.count + 1,
            value,
            ..heard
        })
    } else {
        Step {
            heard: Heard { count: 0, ..heard },
            line: spi_line(t, value),
        }
    }
}

fn spi_at(mode: u8, was: bool, clock: bool, bit: bool, t: u32, heard: Heard) -> Step
    requires { mode < 4 }
    ensures heard { result.heard ≡ (spi_at mode was clock bit t heard).0 }
    ensures line { result.line.items ≡ (spi_at mode was clock bit t heard).1 }
{
    if was != clock && reads_at(mode, clock) {
        spi_bit(t, bit, heard)
    } else {
        silent(heard)
    }
}

fn i2c_nine(t: u32, bit: bool, heard: Heard) -> Step
    ensures heard { result.heard ≡ (i2c_nine t bit heard).0 }
    ensures line { result.line.items ≡ (i2c_nine t bit heard).1 }
{
    if heard.count < 8 {
        silent(Heard {
            count: heard.count + 1,
            value: shifted(heard.value, bit),
            ..heard
        })
    } else {
        Step {
            heard: Heard { count: 0, ..heard },
            line: i2c_line(t, heard.value, bit),
        }
    }
}

fn i2c_bit(t: u32, bit: bool, heard: Heard) -> Step
    ensures heard { result.heard ≡ (i2c_bit t bit heard).0 }
    ensures line { result.line.items ≡ (i2c_bit t bit heard).1 }
{
    if heard.started {
        i2c_nine(t, bit, heard)
    } else {
        silent(heard)
    }
}

fn begin(started: bool, heard: Heard) -> Heard
    ensures { result ≡ record heard { started = started; count = 0 } }
{
    Heard {
        started,
        count: 0,
        ..heard
    }
}

fn i2c_at(clock_was: bool, clock: bool, line_was: bool, line: bool, t: u32, heard: Heard) -> Step
    ensures heard { result.heard ≡ (i2c_at clock_was clock line_was line t heard).0 }
    ensures line { result.line.items ≡ (i2c_at clock_was clock line_was line t heard).1 }
{
    match (clock_was, clock, line_was, line) {
        (true, true, true, false) => Step {
            heard: begin(true, heard),
            line: start_line(t),
        },
        (true, true, false, true) => Step {
            heard: begin(false, heard),
            line: stop_line(t),
        },
        (false, true, _, _) => i2c_bit(t, line, heard),
        _ => silent(heard),
    }
}

fn uart_at(bit: u32, n: u32, was: bool, wire: Wire<'_>, t: u32, heard: Heard) -> Step
    requires early { t < n }
    requires end { n ≤ 160000000 }
    requires bit { bit ≤ 1000000 }
    requires rising { IsRising 0 wire.rows.now }
    ensures heard { result.heard ≡ (uart_at bit n (read_later wire.entry.level wire.entry.rows.now) was (reads wire.entry.level) t heard).0 }
    ensures line { result.line.items ≡ (uart_at bit n (read_later wire.entry.level wire.entry.rows.now) was (reads wire.entry.level) t heard).1 }
{
    if heard.from <= t && was && !reads_one(wire.level) {
        uart_start(bit, n, wire, t, heard)
    } else {
        silent(heard)
    }
}

/// What comes in a cycle of `n`, in which two lines are these and before which they read so.
pub(crate) fn hear(
    bus: Bus,
    n: u32,
    was: (bool, bool),
    a: Wire<'_>,
    b: Wire<'_>,
    t: u32,
    heard: Heard,
) -> Step
    requires early { t < n }
    requires end { n ≤ 160000000 }
    requires bus { IsBus bus }
    requires rising { IsRising 0 a.rows.now }
    ensures heard { result.heard ≡ (heard_at bus n (read_later a.entry.level a.entry.rows.now) was.0 (reads a.entry.level) was.1 (reads b.entry.level) t heard).0 }
    ensures line { result.line.items ≡ (heard_at bus n (read_later a.entry.level a.entry.rows.now) was.0 (reads a.entry.level) was.1 (reads b.entry.level) t heard).1 }
{
    match bus {
        Bus::Uart { bit } => uart_at(bit, n, was.0, a, t, heard),
        Bus::Spi { mode } => spi_at(
            mode,
            was.0,
            reads_one(a.level),
            reads_one(b.level),
            t,
            heard,
        ),
        Bus::I2c => i2c_at(
            was.0,
            reads_one(a.level),
            was.1,
            reads_one(b.level),
            t,
            heard,
        ),
    }
}
