//! Rows of instructions: what is before, what is done, what is after, and behind `#` a comment.
//!
//! A row is `BEFORE | STEPS | AFTER`. `state` says how what is before and after is named; what is not named is as
//! `State::new` has it before, and unchanged after, but PC is one word on for each instruction.
ghost use Rattle.std.specs.Prelude.{◌<◌};

use crate::probe::{Probe, put_word};
use crate::ram::Ram;
use crate::state::State;
use crate::words::{byte, word};
use avr_core::{Core, Mode, decode_all};
use sim_base::{Flash, OutOfMemory};
use std::alloc::Global;

/// A core that does the steps of a row, each instruction read from the flash or from a table of the whole flash.
#[derive(Drop)]
struct Player {
    core: Core,
    flash: Flash,
    ram: Ram,
    cycles: u8,
    count: u16,
    is_decoded: bool,
}

impl Player {
    /// Does the steps of a row; false where one is none.
    fn does_all(&mut self, alloc: Global, steps: &str) -> Result<bool, OutOfMemory> {
        for text in steps.split_whitespace() {
            if self.step(alloc, text)?.is_none() {
                return Ok(false);
            }
        }
        Ok(true)
    }

    /// - `1301`, `1301,940E`: an instruction, with the word behind it
    /// - `enter=21`: the entry into an interrupt, by its vector
    /// - `[0053]=01`, `flash[0003]=5A`: a byte that changes
    fn step(&mut self, alloc: Global, text: &str) -> Result<Option<()>, OutOfMemory> {
        if let Some((name, value)) = text.split_once('=') {
            return Ok(self.change(name, value));
        }
        let (w0, w1) = text.split_once(',').unwrap_or((text, "0000"));
        match (word(w0), word(w1)) {
            (Some(w0), Some(w1)) => self.exec(alloc, w0, w1).map(Some),
            _ => Ok(None),
        }
    }

    fn change(&mut self, name: &str, value: &str) -> Option<()> {
        if name == "enter" {
            return self.enter(value.parse::<u8>().ok()?);
        }
        let value = byte(value)?;
        let (place, addr) = name.split_once('[')?;
        let addr = word(addr.strip_suffix(']')?)?;
        match place {
            "" => self.ram.set(addr, value),
            "flash" => self.flash.set(addr & 0x7FFF, value),
            _ => return None,
        }
        Some(())
    }

    fn enter(&mut self, vector: u8) -> Option<()> {
        match self.core.mode() {
            Mode::Run | Mode::Sleep if vector < 26 => {
                self.cycles = self.core.enter(&mut self.ram, vector);
                Some(())
            }
            _ => None,
        }
    }

    fn exec(&mut self, alloc: Global, w0: u16, w1: u16) -> Result<(), OutOfMemory> {
        put_word(&mut self.flash, self.core.pc(), w0);
        put_word(&mut self.flash, self.core.pc().wrapping_add(1), w1);
        self.count = self.count.wrapping_add(1);
        if self.is_decoded {
            return self.exec_decoded(alloc);
        }
        self.cycles = self.core.exec(&self.flash, &mut self.ram);
        Ok(())
    }

    fn exec_decoded(&mut self, alloc: Global) -> Result<(), OutOfMemory> {
        let program = decode_all(alloc, &self.flash)?;
        self.cycles = self
            .core
            .exec_decoded(program.as_slice(), &self.flash, &mut self.ram);
        Ok(())
    }
}

/// The state before a row, of which its steps go on.
fn state_of(before: &str) -> Option<State> {
    let mut state = State::new();
    state.set_all(before)?;
    Some(state)
}

/// What a row comes out with otherwise.
pub fn instruction_difference(alloc: Global, line: &str) -> Option<&'static str> {
    for is_decoded in [false, true] {
        match played(alloc, line, is_decoded) {
            Ok(None) => {}
            Ok(difference) => return difference,
            Err(OutOfMemory) => return Some("less memory"),
        }
    }
    None
}

fn played(
    alloc: Global,
    line: &str,
    is_decoded: bool,
) -> Result<Option<&'static str>, OutOfMemory> {
    let (row, _) = line.split_once('#').unwrap_or((line, ""));
    let (before, rest) = row.split_once('|').unwrap_or((row, ""));
    let Some((steps, after)) = rest.split_once('|') else {
        return Ok(Some("other words"));
    };
    match state_of(before) {
        Some(mut state) => play(alloc, is_decoded, &mut state, steps, after),
        None => Ok(Some("other words")),
    }
}

/// Plays the steps from a state, which it then makes the one that is to be seen.
fn play(
    alloc: Global,
    is_decoded: bool,
    state: &mut State,
    steps: &str,
    after: &str,
) -> Result<Option<&'static str>, OutOfMemory> {
    let mut probe = Probe::new(alloc)?;
    play_beside(alloc, &mut probe, is_decoded, state, steps, after)
}

fn play_beside(
    alloc: Global,
    probe: &mut Probe,
    is_decoded: bool,
    state: &mut State,
    steps: &str,
    after: &str,
) -> Result<Option<&'static str>, OutOfMemory> {
    let flash = Flash::blank(alloc)?;
    let core = probe.core_in(state);
    let mut ram = Ram::new();
    let bytes = state.ram.bytes;
    ram.bytes = bytes;
    let mut player = Player {
        core,
        flash,
        ram,
        cycles: 0,
        count: 0,
        is_decoded,
    };
    play_on(alloc, probe, &mut player, state, steps, after)
}

fn play_on(
    alloc: Global,
    probe: &mut Probe,
    player: &mut Player,
    state: &mut State,
    steps: &str,
    after: &str,
) -> Result<Option<&'static str>, OutOfMemory> {
    if !player.does_all(alloc, steps)? {
        return Ok(Some("other words"));
    }
    state.pc = state.pc.wrapping_add(player.count);
    if state.set_all(after).is_none() {
        return Ok(Some("other words"));
    }
    let seen = probe.state_of(&mut player.core, &player.ram, player.cycles);
    Ok(state.difference(&seen))
}
