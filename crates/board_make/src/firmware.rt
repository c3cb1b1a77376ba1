//! The generated firmware.
ghost use Rattle.std.specs.Prelude.{◌≡◌, ◌+◌, ◌*◌, ◌%◌, ◌++◌, ◌<◌, [], ℕ, List, length, IfOk};
ghost use Rattle.board_make.specs.Firmware.{flash_of, image, little, load, opening, put, turns};

use crate::draws::after;
use sim_base::{Flash, OutOfMemory};
use std::alloc::Global;

/// How many turns there are.
const TURNS: u16 = 64;

/// Writes word `at` of flash behind the words before it.
fn write_word(flash: &mut Flash, at: u16, word: u16)
    requires { at < 16384 }
    ensures { (bytes : List ℕ) → length bytes ≡ 2 * at → flash.old ≡ flash_of bytes → flash.new ≡ flash_of (bytes ++ little word) }
{
    flash.set(2 * at, (word % 256) as u8);
    flash.set(2 * at + 1, (word / 256) as u8);
}

/// LDI r16, k
fn load(k: u16) -> u16
    requires { k < 256 }
    ensures { result ≡ load k }
{
    0xE000 + k / 16 * 256 + k % 16
}

/// OUT PORTB, r16 in even turns and OUT PORTD, r16 in odd ones.
fn put(turn: u16) -> u16
    ensures { result ≡ put turn }
{
    if turn % 2 == 0 { 0xB905 } else { 0xB90B }
}

/// LDI r16, 0xFF; OUT DDRB, r16; OUT DDRD, r16
fn write_opening(flash: &mut Flash)
    ensures { flash.old ≡ flash_of [] → flash.new ≡ flash_of opening }
{
    write_word(flash, 0, 0xEF0F);
    write_word(flash, 1, 0xB904);
    write_word(flash, 2, 0xB90A);
}

/// Turn `j` with the value of a draw.
fn write_turn(flash: &mut Flash, j: u16, draw: u16)
    requires { j < 64 }
    ensures { (bytes : List ℕ) → length bytes ≡ 2 * (3 + 2 * j) → flash.old ≡ flash_of bytes
        → flash.new ≡ flash_of (bytes ++ (little (load (draw % 256)) ++ little (put j))) }
{
    write_word(flash, 3 + 2 * j, load(draw % 256));
    write_word(flash, 4 + 2 * j, put(j));
}

/// The turns behind the opening; the first two draws are not the firmware's.
fn write_turns(flash: &mut Flash, seed: u32)
    ensures { flash.old ≡ flash_of opening → flash.new ≡ flash_of (opening ++ turns seed 64) }
{
    let mut x = after(after(seed));
    for j in 0..TURNS {
        x = after(x);
        write_turn(flash, j, (x / 65536) as u16);
    }
}

/// The flash image of the firmware of a seed.
pub(crate) fn firmware(alloc: Global, seed: u32) -> Result<Flash, OutOfMemory>
    ensures { IfOk result (λ f. f ≡ image seed) }
{
    let mut flash = Flash::blank(alloc)?;
    write_opening(&mut flash);
    write_turns(&mut flash, seed);
    write_word(&mut flash, 131, 0xCF7F);
    Ok(flash)
}
