//! What a wave says of the pins of chips: from which cycle on each drives what.
ghost use Rattle.std.specs.Prelude.{◌≡◌, ◌<◌, length, map, replicate, slice_get, Some, false, IfOk, OnOk};
ghost use Rattle.std.specs.List.{list_all};
ghost use Rattle.vcd_text.specs.Variables.{source_of};
ghost use Rattle.vcd_text.specs.Tracks.{drive_of};
ghost use Rattle.wave_lines.specs.Gifts.{given_after};
ghost use Rattle.vcd_text.specs.TrackStates.{at_pin, blank, pins_after, strongly, weakly};

use crate::variable::Source;
use sim_base::{Drive, OutOfMemory};
use std::alloc::Global;
use std::marker::Model;
use wave_lines::{Given, set_row};

/// The drive of a pin whose variables have these values; a strong one counts before a weak one.
fn drive_of(strong: u8, weak: u8) -> Drive
    ensures { result ≡ drive_of strong weak }
{
    match (strong, weak) {
        (b'0', _) => Drive::Low,
        (b'1', _) => Drive::High,
        (_, b'0') => Drive::PullLow,
        (_, b'1') => Drive::PullHigh,
        _ => Drive::Z,
    }
}

/// What is said of a pin.
#[derive(Drop)]
pub(crate) struct Track {
    /// The values of its two variables.
    strong: u8,
    weak: u8,
    rows: Vec<(u32, Drive)>,
}

impl Model for Track {
    ghost use Rattle.vcd_text.specs.TrackStates.{TrackState};

    ghost Value = { TrackState };

    ghost view = { λ t. record { strong = t.strong; weak = t.weak; rows = t.rows.items } };
}

impl Track {
    fn new(alloc: Global) -> Result<Track, OutOfMemory>
        ensures { IfOk result (λ t. t ≡ blank) }
    {
        let mut rows = Vec::new(alloc);
        rows.push((0, Drive::Z))?;
        Ok(Track {
            strong: b'z',
            weak: b'z',
            rows,
        })
    }

    fn set_strong(&mut self, cycle: u32, value: u8) -> Result<(), OutOfMemory>
        ensures { OnOk result (self.new ≡ strongly self.old cycle value) }
    {
        self.strong = value;
        set_row(&mut self.rows, cycle, drive_of(value, self.weak))
    }

    fn set_weak(&mut self, cycle: u32, value: u8) -> Result<(), OutOfMemory>
        ensures { OnOk result (self.new ≡ weakly self.old cycle value) }
    {
        self.weak = value;
        set_row(&mut self.rows, cycle, drive_of(self.strong, value))
    }
}

/// What was said so far.
#[derive(Drop)]
pub(crate) struct Tracks {
    given: Given,
    pins: Vec<Track>,
}

impl Model for Tracks {
    ghost use Rattle.vcd_text.specs.TrackStates.{TrackStates};

    ghost Value = { TrackStates };

    ghost view = { λ t. record { given = t.given; pins = t.pins.items } };
}

fn blank_tracks(alloc: Global, count: usize) -> Result<Vec<Track>, OutOfMemory>
    ensures { IfOk result (λ v. v.items ≡ replicate count blank) }
{
    let mut tracks = Vec::new(alloc);
    for _ in 0..count {
        tracks.push(Track::new(alloc)?)?;
    }
    Ok(tracks)
}

fn set_strong(pins: &mut [Track], pin: u16, cycle: u32, value: u8) -> Result<(), OutOfMemory>
    ensures { OnOk result (pins.new ≡ at_pin (λ s. strongly s cycle value) pins.old pin) }
{
    let pin = usize::from(pin);
    if pin < pins.len() {
        pins[pin].set_strong(cycle, value)
    } else {
        Ok(())
    }
}

fn set_weak(pins: &mut [Track], pin: u16, cycle: u32, value: u8) -> Result<(), OutOfMemory>
    ensures { OnOk result (pins.new ≡ at_pin (λ s. weakly s cycle value) pins.old pin) }
{
    let pin = usize::from(pin);
    if pin < pins.len() {
        pins[pin].set_weak(cycle, value)
    } else {
        Ok(())
    }
}

impl Tracks {
    /// Of so many pins, and variables, where nothing is said yet.
    pub(crate) fn new(alloc: Global, variables: usize, pins: usize) -> Result<Tracks, OutOfMemory>
        ensures { IfOk result (λ t. t ≡ record { given = replicate variables false; pins = replicate pins blank }) }
    {
        Ok(Tracks {
            given: Given::new(alloc, variables)?,
            pins: blank_tracks(alloc, pins)?,
        })
    }

    /// A variable, which shows this, has a value in a cycle, the greatest so far.
    pub(crate) fn change(
        &mut self,
        i: usize,
        shows: Source,
        cycle: u32,
        value: u8,
    ) -> Result<(), OutOfMemory>
        requires { i < length self.old.given }
        ensures { OnOk result (self.new ≡ record {
          given = given_after self.old.given i cycle;
          pins = pins_after self.old.pins (source_of shows) cycle value;
        }) }
    {
        self.given.note(i, cycle);
        match shows {
            Source::Net(_) => Ok(()),
            Source::Strong(pin) => set_strong(&mut self.pins, pin, cycle, value),
            Source::Weak(pin) => set_weak(&mut self.pins, pin, cycle, value),
        }
    }

    /// Whether each variable has a value in cycle 0.
    pub(crate) fn are_given(&self) -> bool
        ensures { result ≡ list_all (λ g. g) self.now.given }
    {
        self.given.are_all()
    }

    pub(crate) fn into_rows(self) -> DriveRows
        ensures { result ≡ map (λ s. s.rows) self.pins }
    {
        DriveRows { pins: self.pins }
    }
}

/// The rows of each of the first pins of a board: from a row's cycle on, its drive. They begin at
/// cycle 0, their cycles rise, and no drive is that of the row before.
#[derive(Drop)]
pub struct DriveRows {
    pins: Vec<Track>,
}

impl Model for DriveRows {
    ghost use Rattle.std.specs.Prelude.{List, map};
    ghost use Rattle.vcd_text.specs.Tracks.{DriveRows as Rows};

    ghost Value = { List Rows };

    ghost view = { λ d. map (λ s. s.rows) d.pins.items };
}

impl DriveRows {
    /// The rows of a pin.
    pub fn rows(&self, pin: usize) -> &[(u32, Drive)]
        requires { pin < length self.now }
        ensures { slice_get self.now pin ≡ Some result.now }
    {
        self.pins[pin].rows.as_slice()
    }
}
