//! A compare channel (data sheet, "Output Compare Unit", "Compare Match Output Unit").
ghost use Rattle.std.specs.Prelude.{◌≡◌, ◌<◌, not};
ghost use Rattle.avr_timer.specs.Count.{still, loads, plain_act, fast_act, phase_act, pin_act, compared};
ghost use Rattle.avr_timer.specs.Outputs.{ocr_written, has_pin, turned_pin, compare_pad};

use crate::mode::{Com, Kind, is_buffered};
use avr_unit::{Pad, pins_if};
use part_law::Span;

/// OCRnx as it was written and as it is compared, OCFnx, and the compare latch OCnx.
#[derive(Clone, Copy, Debug, PartialEq, Eq)]
pub struct Channel {
    pub written: u16,
    pub active: u16,
    pub flag: bool,
    pub latch: bool,
}

impl Channel {
    pub(crate) fn still() -> Channel
        ensures { result ≡ still }
    {
        Channel {
            written: 0,
            active: 0,
            flag: false,
            latch: false,
        }
    }

    /// A tick's share of a channel.
    pub(crate) fn compared(&self, kind: Kind, how: Com, top: u16, count: u16, down: bool) -> Channel
        ensures { result ≡ compared kind how top count down self.now }
    {
        let hit = count == self.active;
        Channel {
            written: self.written,
            active: if loads(kind, top, count) {
                self.written
            } else {
                self.active
            },
            flag: self.flag | hit,
            latch: pin_act(kind, how, hit, count == top, down, self.latch),
        }
    }

    /// Writes OCRnx.
    pub fn write_ocr(&mut self, kind: Kind, value: u16)
        ensures { self.new ≡ ocr_written kind self.old value }
    {
        self.active = if is_buffered(kind) {
            self.active
        } else {
            value
        };
        self.written = value;
    }
}

/// Whether a tick makes written OCR values active.
pub(crate) fn loads(kind: Kind, top: u16, count: u16) -> bool
    ensures { result ≡ loads kind top count }
{
    match kind {
        Kind::Normal | Kind::Ctc => false,
        Kind::Fast => count == top,
        Kind::Phase => count >= top,
        Kind::PhaseFrequency => count == 0,
    }
}

fn pin_act(kind: Kind, how: Com, hit: bool, at_top: bool, down: bool, latch: bool) -> bool
    ensures { result ≡ pin_act kind how hit at_top down latch }
{
    match kind {
        Kind::Normal | Kind::Ctc => plain_act(how, hit, latch),
        Kind::Fast => fast_act(how, hit, at_top, latch),
        Kind::Phase | Kind::PhaseFrequency => phase_act(how, hit, down, latch),
    }
}

fn plain_act(how: Com, hit: bool, latch: bool) -> bool
    ensures { result ≡ plain_act how hit latch }
{
    match how {
        Com::Off => latch,
        Com::Toggle => if hit { !latch } else { latch },
        Com::Clear => if hit { false } else { latch },
        Com::Set => if hit { true } else { latch },
    }
}

fn fast_act(how: Com, hit: bool, at_top: bool, latch: bool) -> bool
    ensures { result ≡ fast_act how hit at_top latch }
{
    match how {
        Com::Off | Com::Toggle => latch,
        Com::Clear => if at_top {
            true
        } else if hit {
            false
        } else {
            latch
        },
        Com::Set => if at_top {
            false
        } else if hit {
            true
        } else {
            latch
        },
    }
}

fn phase_act(how: Com, hit: bool, down: bool, latch: bool) -> bool
    ensures { result ≡ phase_act how hit down latch }
{
    match how {
        Com::Off | Com::Toggle => latch,
        Com::Clear => if hit { down } else { latch },
        Com::Set => if hit { !down } else { latch },
    }
}

fn has_pin(kind: Kind, how: Com) -> bool
    ensures { result ≡ has_pin kind how }
{
    match how {
        Com::Off => false,
        Com::Toggle => !is_buffered(kind),
        Com::Clear | Com::Set => true,
    }
}

/// The pin of a channel, where the channel has it and its latch was another before.
pub(crate) fn turned_pin(kind: Kind, how: Com, before: bool, latch: bool, pin: u8) -> Span
    requires { pin < 255 }
    ensures { result ≡ turned_pin kind how before latch pin }
{
    pins_if(
        has_pin(kind, how) & ((before & !latch) | (!before & latch)),
        Span {
            from: pin,
            to: pin + 1,
        },
    )
}

/// What a channel asks of its pin.
pub(crate) fn compare_pad(kind: Kind, how: Com, latch: bool) -> Pad
    ensures { result ≡ compare_pad kind how latch }
{
    if has_pin(kind, how) {
        Pad::valued(latch)
    } else {
        Pad::untouched()
    }
}
