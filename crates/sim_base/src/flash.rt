//! The program memory of the processor.
ghost use Rattle.std.specs.Prelude.{◌≡◌, ℕ, List, ◌<◌, ◌+◌, ◌*◌, length, slice_index, slice_set, replicate, IfOk, vec_len};

use crate::fault::OutOfMemory;
use std::alloc::{AllocError, Global};
use std::marker::Model;

/// The 32,768 bytes of flash memory of the ATmega328P (data sheet, "In-System Reprogrammable Flash
/// Program Memory").
#[derive(Drop)]
pub struct Flash {
    bytes: Vec<u8>,
}

impl Model for Flash {
    ghost use Rattle.std.specs.Prelude.{List, ℕ, ◌≡◌, vec_len};

    ghost Value = { List ℕ };

    ghost view = { λ a. a.bytes.items };

    ghost invariant = { λ a. vec_len a.bytes ≡ 32768 };
}

fn filled(alloc: Global, count: usize, value: u8) -> Result<Vec<u8>, AllocError>
    ensures items { IfOk result (λ v. v.items ≡ replicate count value) }
    ensures len { IfOk result (λ v. vec_len v ≡ count) }
{
    vec![in alloc; value; count]
}

impl Flash {
    /// Erased flash: 0xFF everywhere.
    pub fn blank(alloc: Global) -> Result<Flash, OutOfMemory>
        ensures { IfOk result (λ f. f ≡ replicate 32768 255) }
    {
        Ok(Flash {
            bytes: filled(alloc, 32768, 0xFF)?,
        })
    }

    /// The byte at an address below 32,768.
    pub fn byte(&self, i: u16) -> u8
        requires { i < 32768 }
        ensures { result ≡ slice_index self.now i }
    {
        self.bytes[i as usize]
    }

    /// Changes the byte at an address below 32,768.
    pub fn set(&mut self, i: u16, value: u8)
        requires { i < 32768 }
        ensures { self.new ≡ slice_set self.old i value }
    {
        self.bytes[i as usize] = value;
    }

    /// The little-endian word at a word address below 16,384.
    pub fn word(&self, i: u16) -> u16
        requires { i < 16384 }
        ensures { result ≡ slice_index self.now (2 * i) + 256 * slice_index self.now (2 * i + 1) }
    {
        let low = self.bytes[2 * i as usize];
        let high = self.bytes[2 * i as usize + 1];
        u16::from(low) + 256 * u16::from(high)
    }
}
