//! A row is a serial engine of a chip with its number and, after a colon, what is done with a new one and what it asks for.
//!
//! - `uart 2`, `spi 0`, `i2c 27`: bits of 2 cycles, mode 0, address 0x27
//! - `a=H`, `b=L`: the level of RX, SCK or SCL, and of MOSI or SDA, in the cycle to come; before the first both are Z
//! - `asks=Fetch.0`, `asks=Store.0.5A`, `asks=None`: what it asks for in this cycle; after None the next cycle comes
//! - `to=40`: cycle by cycle up to this one, in which nothing is asked for
//! - `byte=55`, `answer=1`: what is handed in
//! - `start=2`, `busy=2`: a call of so many bytes begins, or finds it busy; `stop`, `idle`: a call that stops, or finds it idle
//! - `due=138`, `due=none`: its next event; `drive=H`, `drive=L`, `drive=none`: what it drives
ghost use Rattle.std.specs.Prelude.{◌≡◌, ◌+◌, ◌<◌, IfSome, None, Some};
ghost use Rattle.chip_engines.specs.Serial.{IsSerial};
ghost use Rattle.chip_engines.specs.Engine.{IsEngine};

use chip_engines::{Callbacks, Engine, Pins, Serial, first_engine};
use sim_base::{Drive, Level, MOST_CYCLES};
use slave_request::EngineRequest;
use slave_serial::Uart;

/// A cycle, whether its turn has come, what was asked for last in it, and the levels of both lines in the turn before and
/// in the one to come.
#[derive(Drop)]
struct Turn {
    cycle: u64,
    has_come: bool,
    asked: Option<EngineRequest>,
    before: [Level; 2],
    levels: [Level; 2],
}

/// The first word of a row that is none, or that comes out otherwise.
pub(crate) fn slave_difference(line: &str) -> Option<&str> {
    let (row, _) = line.split_once('#').unwrap_or((line, ""));
    let (engine, words) = row.split_once(':').unwrap_or((row, ""));
    match serial_of(engine) {
        Some(serial) => played(idle_engine(serial), words),
        None => Some(engine),
    }
}

fn serial_of(engine: &str) -> Option<Serial>
    ensures { IfSome result IsSerial }
{
    let (kind, number) = engine.split_once(' ').unwrap_or((engine, ""));
    match kind {
        "uart" => match number.parse::<u32>() {
            Ok(bit) if bit >= 2 && bit <= 16_000_000 => Some(Serial::Uart(Uart::new(bit))),
            _ => None,
        },
        "spi" => match number.parse::<u8>() {
            Ok(mode) if mode < 4 => Some(Serial::spi(u32::from(mode))),
            _ => None,
        },
        "i2c" => match u8::from_str_radix(number, 16) {
            Ok(address) if address < 128 => Some(Serial::i2c(u32::from(address))),
            _ => None,
        },
        _ => None,
    }
}

/// One that reads both lines, drives pin 2 and calls nothing back.
fn idle_engine(serial: Serial) -> Engine
    requires { IsSerial serial }
    ensures { IsEngine result }
{
    let pins = Pins {
        first: Some(0),
        second: Some(1),
        out: Some(2),
    };
    let calls = Callbacks {
        received: 0,
        sent: 0,
        done: 0,
        connect: 0,
        read: 0,
        write: 0,
        disconnect: 0,
    };
    Engine::new(serial, pins, 0, calls)
}

/// Plays the words on a new engine, and answers the first one that is none or comes out otherwise.
fn played(engine: Engine, words: &str) -> Option<&str>
    requires { IsEngine engine }
{
    let mut engine = engine;
    let mut turn = Turn {
        cycle: 0,
        has_come: false,
        asked: None,
        before: [Level::Z; 2],
        levels: [Level::Z; 2],
    };
    for word in words.split_whitespace() {
        if !plays(&mut engine, &mut turn, word) {
            return Some(word);
        }
    }
    None
}

fn plays(engine: &mut Engine, turn: &mut Turn, word: &str) -> bool
    requires { IsEngine engine.old }
    ensures { IsEngine engine.new }
{
    let (name, value) = word.split_once('=').unwrap_or((word, ""));
    match name {
        "a" => turn.set(0, value),
        "b" => turn.set(1, value),
        "asks" => asks(engine, turn, value),
        "to" => goes_to(engine, turn, value),
        "byte" => hands(engine, turn, value),
        "answer" => answers(engine, turn, value),
        "start" => starts(engine, turn, value) == Some(true),
        "busy" => starts(engine, turn, value) == Some(false),
        "stop" => stops(engine, turn) == Some(true),
        "idle" => stops(engine, turn) == Some(false),
        "due" => due(engine, turn) == value.parse::<u64>().ok(),
        "drive" => {
            value
                == match engine.drives(2) {
                    Some(Drive::High) => "H",
                    Some(Drive::Low) => "L",
                    _ => "none",
                }
        }
        _ => false,
    }
}

impl Turn {
    fn set(&mut self, line: usize, value: &str) -> bool
        requires { line < 2 }
    {
        self.levels[line] = match value {
            "H" => Level::High,
            "L" => Level::Low,
            "X" => Level::X,
            _ => Level::Z,
        };
        true
    }

    /// The cycle of the next turn.
    fn next(&self) -> u64 {
        if self.has_come {
            self.cycle.saturating_add(1)
        } else {
            self.cycle
        }
    }

    fn wants_byte(&self) -> bool {
        match self.asked {
            Some(EngineRequest::Fetch(_)) | Some(EngineRequest::Read) => true,
            _ => false,
        }
    }

    fn wants_answer(&self) -> bool {
        match self.asked {
            Some(EngineRequest::Connect(..)) | Some(EngineRequest::Write(_)) => true,
            _ => false,
        }
    }

    /// What the engine asks for first in this cycle. It keeps what it asks for then.
    fn come(&mut self, engine: &mut Engine) -> Option<EngineRequest>
        requires cycle { self.old.cycle < MOST_CYCLES }
        requires sound { IsEngine engine.old }
        ensures cycle { self.new.cycle ≡ self.old.cycle }
        ensures sound { IsEngine engine.new }
    {
        let asks = engine.turn(self.cycle, &self.before, &self.levels);
        self.has_come = true;
        self.before = self.levels;
        match asks.first {
            Some(request) => {
                engine.later = asks.second;
                Some(request)
            }
            None => asks.second,
        }
    }
}

/// The cycle of its next event, from that of its next turn on.
fn due(engine: &Engine, turn: &Turn) -> Option<u64> {
    let places = [Some(*engine)];
    first_engine(&places, turn.next())
}

/// What it asks for; after nothing the next cycle comes. None where a request is open, or at the end of a board's time.
fn asked(engine: &mut Engine, turn: &mut Turn) -> Option<Option<EngineRequest>>
    requires sound { IsEngine engine.old }
    ensures sound { IsEngine engine.new }
    ensures passes { result ≡ Some None → turn.new.cycle ≡ turn.old.cycle + 1 }
{
    if turn.wants_byte() || turn.wants_answer() || turn.cycle >= MOST_CYCLES {
        return None;
    }
    let request = if turn.has_come {
        engine.later.take()
    } else {
        turn.come(engine)
    };
    turn.asked = request;
    if request.is_none() {
        turn.cycle += 1;
        turn.has_come = false;
    }
    Some(request)
}

fn asks(engine: &mut Engine, turn: &mut Turn, value: &str) -> bool
    requires { IsEngine engine.old }
    ensures { IsEngine engine.new }
{
    match asked(engine, turn) {
        Some(request) => Some(request.unwrap_or(EngineRequest::None)) == request_of(value),
        None => false,
    }
}

fn goes_to(engine: &mut Engine, turn: &mut Turn, value: &str) -> bool
    requires { IsEngine engine.old }
    ensures { IsEngine engine.new }
{
    let Ok(to) = value.parse::<u64>() else {
        return false;
    };
    while turn.cycle < to && turn.cycle < MOST_CYCLES {
        match asked(engine, turn) {
            Some(None) => {}
            _ => return false,
        }
    }
    turn.cycle == to
}

fn hands(engine: &mut Engine, turn: &mut Turn, value: &str) -> bool
    requires { IsEngine engine.old }
    ensures { IsEngine engine.new }
{
    match u8::from_str_radix(value, 16) {
        Ok(byte) => {
            let wanted = turn.wants_byte();
            if wanted {
                *engine = engine.with_byte(byte);
                turn.asked = None;
            }
            wanted
        }
        Err(_) => false,
    }
}

fn answers(engine: &mut Engine, turn: &mut Turn, value: &str) -> bool
    requires { IsEngine engine.old }
    ensures { IsEngine engine.new }
{
    match value.parse::<u32>() {
        Ok(answer) => {
            let wanted = turn.wants_answer();
            if wanted {
                *engine = engine.with_answer(answer);
                turn.asked = None;
            }
            wanted
        }
        Err(_) => false,
    }
}

/// Whether it is busy; an exchange is until its Done is asked for, though no call of a chip comes between its end and that.
fn is_busy(engine: &Engine) -> bool {
    match engine.later {
        Some(EngineRequest::Done(_)) => true,
        _ => engine.is_busy(),
    }
}

/// Whether a call of so many bytes begins.
fn starts(engine: &mut Engine, turn: &Turn, value: &str) -> Option<bool>
    requires { IsEngine engine.old }
    ensures { IsEngine engine.new }
{
    let count = value.parse::<u32>().ok()?;
    if turn.cycle >= MOST_CYCLES {
        return None;
    }
    let busy = is_busy(engine);
    if !busy {
        *engine = match engine.serial {
            Serial::Uart(_) => engine.sends(turn.cycle, turn.next() == 0, 0, count),
            Serial::Spi(_) if count != 0 => engine.exchanges(turn.cycle, 0, count),
            _ => return None,
        };
    }
    Some(!busy)
}

/// Whether one is stopped.
fn stops(engine: &mut Engine, turn: &Turn) -> Option<bool>
    requires { IsEngine engine.old }
    ensures { IsEngine engine.new }
{
    if turn.cycle >= MOST_CYCLES {
        return None;
    }
    let busy = is_busy(engine);
    *engine = engine.stops(turn.cycle);
    Some(busy)
}

/// `Fetch.0`, `Store.1.5A`, `Received.55`, `Sent`, `Done.2`, `Connect.27.r`, `Read`, `Write.0C`, `Disconnect`.
fn request_of(text: &str) -> Option<EngineRequest> {
    let (name, rest) = text.split_once('.').unwrap_or((text, ""));
    let (first, second) = rest.split_once('.').unwrap_or((rest, ""));
    Some(match name {
        "None" => EngineRequest::None,
        "Fetch" => EngineRequest::Fetch(first.parse::<u32>().ok()?),
        "Store" => EngineRequest::Store(
            first.parse::<u32>().ok()?,
            u8::from_str_radix(second, 16).ok()?,
        ),
        "Received" => EngineRequest::Received(u8::from_str_radix(first, 16).ok()?),
        "Sent" => EngineRequest::Sent,
        "Done" => EngineRequest::Done(first.parse::<u32>().ok()?),
        "Connect" => EngineRequest::Connect(u8::from_str_radix(first, 16).ok()?, second == "r"),
        "Read" => EngineRequest::Read,
        "Write" => EngineRequest::Write(u8::from_str_radix(first, 16).ok()?),
        "Disconnect" => EngineRequest::Disconnect,
        _ => return None,
    })
}
