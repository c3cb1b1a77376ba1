//! The display of a chip.
ghost use Rattle.std.specs.Prelude.{◌≡◌, ◌+◌, ◌*◌, ◌≤◌, [], ◌∷◌, length, replicate, true, IfOk};
ghost use Rattle.std.specs.Option.{option_to_list};
ghost use Rattle.wasm_code.specs.declared.types.ValType.TheVariants as types;
ghost use Rattle.wasm_semantics.specs.Values.{HasTypes};
ghost use Rattle.wasm_num.specs.Mem.{put};
ghost use Rattle.chip_output.specs.Output.{blank, bytes_at};
ghost use Rattle.chip_output.specs.Displays.{covers, give, draw, read_back};

use crate::memory::{bytes_of, put_bytes, put_word};
use sim_base::{Display, OutOfMemory};
use std::alloc::Global;
use std::marker::Model;
use wasm_num::{Memory, Trap, Value};

/// The pixels of a display, 4 bytes each, whose room is taken when it is made.
#[derive(Drop)]
pub struct FrameBuffer {
    size: Display,
    pixels: Vec<u8>,
    given: bool,
}

impl Model for FrameBuffer {
    ghost use Rattle.std.specs.Prelude.{◌≡◌, ◌*◌, length};
    ghost use Rattle.chip_output.specs.Output.{Frame};

    ghost Value = { Frame };

    ghost view = { λ f. record { size = f.size; pixels = f.pixels.items; given = f.given } };

    ghost invariant = { λ f. length f.pixels.items ≡ 4 * (f.size.width * f.size.height) };
}

fn zeros(alloc: Global, count: usize) -> Result<Vec<u8>, OutOfMemory>
    ensures { IfOk result (λ v. v.items ≡ replicate count 0) }
{
    Ok(vec![in alloc; 0; count]?)
}

impl FrameBuffer {
    /// A display of zeros, which is not given yet.
    pub fn new(alloc: Global, size: Display) -> Result<FrameBuffer, OutOfMemory>
        ensures { IfOk result (λ f. f ≡ blank size) }
    {
        let count = size.width() as usize * size.height() as usize;
        match count.checked_mul(4) {
            Some(bytes) => Ok(FrameBuffer {
                size,
                pixels: zeros(alloc, bytes)?,
                given: false,
            }),
            None => Err(OutOfMemory),
        }
    }

    pub fn width(&self) -> u32
        ensures { result ≡ self.now.size.width }
    {
        self.size.width()
    }

    pub fn height(&self) -> u32
        ensures { result ≡ self.now.size.height }
    {
        self.size.height()
    }

    pub fn pixels(&self) -> &[u8]
        ensures bytes { result.now ≡ self.now.pixels }
        ensures size { length result.now ≡ 4 * (self.now.size.width * self.now.size.height) }
    {
        self.pixels.as_slice()
    }

    /// Stores width and height, and is given to the chip.
    pub fn give(
        &mut self,
        width: u32,
        height: u32,
        memory: &mut Memory,
    ) -> Result<Option<Value>, Trap>
        ensures answer { result ≡ (give width height memory.old self.old).answer }
        ensures frame { self.new ≡ (give width height memory.old self.old).host }
        ensures memory { memory.new ≡ (give width height memory.old self.old).memory }
        ensures size { length memory.new.bytes ≡ length memory.old.bytes }
        ensures gives { IfOk result (λ v. HasTypes (option_to_list v) (types.I32 ∷ [])) }
    {
        if !memory.has(width, 4) || !memory.has(height, 4) {
            return Err(Trap::HostAddress);
        }
        put_word(memory, width, self.size.width());
        put_word(memory, height, self.size.height());
        self.given = true;
        Ok(Some(Value::I32(0)))
    }

    fn covers(&self, offset: u32, count: u32) -> bool
        ensures { result ≡ covers self.now offset count }
    {
        self.given && offset as usize + count as usize <= self.pixels.len()
    }

    fn put(&mut self, offset: u32, bytes: &[u8])
        requires { offset + length bytes.now ≤ length self.old.pixels }
        ensures { self.new ≡ record self.old { pixels = put offset bytes.now self.old.pixels } }
    {
        let start = offset as usize;
        self.pixels[start..start + bytes.len()].copy_from_slice(bytes);
    }

    /// Copies bytes of the memory to the display.
    pub fn draw(
        &mut self,
        offset: u32,
        address: u32,
        count: u32,
        memory: &Memory,
    ) -> Result<Option<Value>, Trap>
        ensures answer { result ≡ (draw offset address count memory.now self.old).answer }
        ensures frame { self.new ≡ (draw offset address count memory.now self.old).host }
        ensures memory { memory.now ≡ (draw offset address count memory.now self.old).memory }
        ensures gives { IfOk result (λ v. HasTypes (option_to_list v) []) }
    {
        if !self.covers(offset, count) {
            return Ok(None);
        }
        if !memory.has(address, count) {
            return Err(Trap::HostAddress);
        }
        self.put(offset, bytes_of(memory, address, count));
        Ok(None)
    }

    /// Copies bytes of the display to the memory.
    pub fn read_back(
        &self,
        offset: u32,
        address: u32,
        count: u32,
        memory: &mut Memory,
    ) -> Result<Option<Value>, Trap>
        ensures answer { result ≡ (read_back offset address count memory.old self.now).answer }
        ensures frame { self.now ≡ (read_back offset address count memory.old self.now).host }
        ensures memory { memory.new ≡ (read_back offset address count memory.old self.now).memory }
        ensures size { length memory.new.bytes ≡ length memory.old.bytes }
        ensures gives { IfOk result (λ v. HasTypes (option_to_list v) []) }
    {
        if !self.covers(offset, count) {
            return Ok(None);
        }
        if !memory.has(address, count) {
            return Err(Trap::HostAddress);
        }
        let start = offset as usize;
        put_bytes(
            memory,
            address,
            &self.pixels.as_slice()[start..start + count as usize],
        );
        Ok(None)
    }
}
