//! The line that tells of a frame.
ghost use Rattle.std.specs.Prelude.{◌≡◌, ◌+◌, ◌<◌, ◌≤◌, ◌++◌, [], ◌∷◌, length, codes, decimal, if◌then◌else◌};
ghost use Rattle.wave_decode.specs.Frames.{byte_word, hex_digit, i2c_line, spi_line, start_line, stop_line, told_line, uart_line};

use arrayvec::ArrayVec;

/// A line that is built. None is longer than 96 bytes.
pub(crate) type Line = ArrayVec<u8, 96>;

fn add(line: &mut Line, bytes: &[u8])
    requires { length line.old.items + length bytes.now ≤ 96 }
    ensures { line.new.items ≡ line.old.items ++ bytes.now }
{
    match line.try_extend_from_slice(bytes) {
        Ok(()) => {}
        Err(_) => unreachable!(),
    }
}

fn hex_digit(d: u8) -> u8
    requires { d < 16 }
    ensures { result ≡ hex_digit d }
{
    if d < 10 { b'0' + d } else { b'A' + (d - 10) }
}

/// A bus and a cycle.
fn begun(bus: &[u8], t: u32) -> Line
    requires { length bus.now ≤ 4 }
    ensures text { result.items ≡ bus.now ++ codes " " ++ decimal t ++ codes " " }
    ensures short { length result.items ≤ 50 }
{
    let mut digits = itoa::Buffer::new();
    let mut line = Line::new();
    add(&mut line, bus);
    add(&mut line, b" ");
    add(&mut line, digits.format(t).as_bytes());
    add(&mut line, b" ");
    line
}

/// A line that says one thing more.
fn told(bus: &[u8], t: u32, what: &[u8]) -> Line
    requires bus { length bus.now ≤ 4 }
    requires what { length what.now ≤ 20 }
    ensures { result.items ≡ told_line bus.now t what.now }
{
    let mut line = begun(bus, t);
    add(&mut line, what);
    add(&mut line, b"\n");
    line
}

/// A byte, and a word about it.
fn told_byte(bus: &[u8], t: u32, byte: u8, word: &[u8]) -> Line
    requires bus { length bus.now ≤ 4 }
    requires word { length word.now ≤ 20 }
    ensures { result.items ≡ told_line bus.now t (byte_word byte ++ word.now) }
{
    let mut line = begun(bus, t);
    add(&mut line, b"0x");
    add(&mut line, &[hex_digit(byte / 16), hex_digit(byte % 16)]);
    add(&mut line, word);
    add(&mut line, b"\n");
    line
}

pub(crate) fn uart_line(t: u32, byte: u8, stop: bool) -> Line
    ensures { result.items ≡ uart_line t byte stop }
{
    if stop {
        told_byte(b"uart", t, byte, b" ok")
    } else {
        told_byte(b"uart", t, byte, b" framing")
    }
}

pub(crate) fn spi_line(t: u32, byte: u8) -> Line
    ensures { result.items ≡ spi_line t byte }
{
    told_byte(b"spi", t, byte, b"")
}

pub(crate) fn i2c_line(t: u32, byte: u8, ninth: bool) -> Line
    ensures { result.items ≡ i2c_line t byte ninth }
{
    if ninth {
        told_byte(b"i2c", t, byte, b" nack")
    } else {
        told_byte(b"i2c", t, byte, b" ack")
    }
}

pub(crate) fn start_line(t: u32) -> Line
    ensures { result.items ≡ start_line t }
{
    told(b"i2c", t, b"start")
}

pub(crate) fn stop_line(t: u32) -> Line
    ensures { result.items ≡ stop_line t }
{
    told(b"i2c", t, b"stop")
}
