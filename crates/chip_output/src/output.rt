//! The output of a chip: the host calls on its console and its display.
ghost use Rattle.std.specs.Prelude.{◌≡◌, ◌*◌, ◌≤◌, [], ◌∷◌, length, IfOk, IfSome, Some, None, Ok, if◌then◌else◌};
ghost use Rattle.std.specs.Option.{option_to_list, option_map};
ghost use Rattle.wasm_code.specs.declared.types.ValType.TheVariants as types;
ghost use Rattle.wasm_semantics.specs.Values.{HasTypes};
ghost use Rattle.chip_output.specs.Output.{blank, new_output, picture};
ghost use Rattle.chip_output.specs.Files.{is_console, answers_of, pieces, total, is_readable, fd_write, fd_fdstat_get, fd_seek, fd_close};
ghost use Rattle.chip_output.specs.Displays.{framebuffer_init, buffer_write, buffer_read};

use crate::console::Console;
use crate::framebuffer::FrameBuffer;
use crate::memory::{put_bytes, put_word, total};
use sim_base::{Display, OutOfMemory};
use std::alloc::Global;
use std::marker::Model;
use wasm_num::{Memory, Trap, Value};

// errno of WASI: badf, inval, spipe
const NO_FILE: u32 = 8;

const INVALID: u32 = 28;

const NO_SEEK: u32 = 70;

/// The filetype of WASI that a console has.
const CHARACTER_DEVICE: u8 = 2;

/// How many pieces a write may have.
const MOST_PIECES: u32 = 16;

/// A chip's console and its display, if it has one.
#[derive(Drop)]
pub struct Output {
    console: Console,
    frame: Option<FrameBuffer>,
}

impl Model for Output {
    ghost use Rattle.chip_output.specs.Output.{OutputState};

    ghost Value = { OutputState };

    ghost view = { λ o. record { console = o.console; frame = o.frame } };
}

fn frame_of(alloc: Global, display: Option<Display>) -> Result<Option<FrameBuffer>, OutOfMemory>
    ensures { IfOk result (λ f. f ≡ option_map blank display) }
{
    match display {
        Some(size) => Ok(Some(FrameBuffer::new(alloc, size)?)),
        None => Ok(None),
    }
}

/// Whether a file is the console.
fn is_console(file: u32) -> bool
    ensures { result ≡ is_console file }
{
    file == 1 || file == 2
}

/// What a call that changes nothing answers of a file.
fn answer_of(answer: u32, file: u32) -> Result<Option<Value>, Trap>
    ensures answer { result ≡ Ok (Some (Value.I32 (answers_of answer file))) }
    ensures gives { IfOk result (λ v. HasTypes (option_to_list v) (types.I32 ∷ [])) }
{
    if is_console(file) {
        Ok(Some(Value::I32(answer)))
    } else {
        Ok(Some(Value::I32(NO_FILE)))
    }
}

/// How many bytes a write has, in all its pieces; None where the list, a piece or the word for
/// that number is outside the memory.
fn written(memory: &Memory, list: u32, count: u32, sum: u32) -> Option<u64>
    requires few { count ≤ 16 }
    ensures { result ≡ (if is_readable memory.now list count sum then Some (total (pieces memory.now list count)) else None) }
{
    if !memory.has(list, 8 * count) || !memory.has(sum, 4) {
        return None;
    }
    total(memory, u64::from(list), count)
}

impl Output {
    /// Nothing printed, and a display of zeros that is not given yet.
    pub fn new(alloc: Global, display: Option<Display>) -> Result<Output, OutOfMemory>
        ensures { IfOk result (λ o. o ≡ new_output display) }
    {
        let console = Console::new(alloc)?;
        match frame_of(alloc, display) {
            Ok(frame) => Ok(Output { console, frame }),
            Err(e) => {
                drop(console);
                Err(e)
            }
        }
    }

    /// The first 65,536 bytes that were printed.
    pub fn console(&self) -> &[u8]
        ensures { result.now ≡ self.now.console }
    {
        self.console.bytes()
    }

    /// Width, height and pixels of the display; None exactly where there is none.
    pub fn frame(&self) -> Option<(u32, u32, &[u8])>
        ensures picture { option_map (λ f. (f.0, (f.1, f.2.now))) result ≡ option_map picture self.now.frame }
        ensures size { IfSome result (λ f. length f.2.now ≡ 4 * (f.0 * f.1)) }
    {
        match &self.frame {
            Some(frame) => Some((frame.width(), frame.height(), frame.pixels())),
            None => None,
        }
    }

    /// Prints pieces of the memory, and stores how many bytes they have.
    pub fn fd_write(
        &mut self,
        file: u32,
        list: u32,
        count: u32,
        sum: u32,
        memory: &mut Memory,
    ) -> Result<Option<Value>, Trap>
        ensures answer { result ≡ (fd_write file list count sum memory.old self.old).answer }
        ensures output { self.new ≡ (fd_write file list count sum memory.old self.old).host }
        ensures memory { memory.new ≡ (fd_write file list count sum memory.old self.old).memory }
        ensures size { length memory.new.bytes ≡ length memory.old.bytes }
        ensures gives { IfOk result (λ v. HasTypes (option_to_list v) (types.I32 ∷ [])) }
    {
        if !is_console(file) {
            return Ok(Some(Value::I32(NO_FILE)));
        }
        if count > MOST_PIECES {
            return Ok(Some(Value::I32(INVALID)));
        }
        match written(memory, list, count, sum) {
            Some(bytes) => {
                self.console.print_pieces(memory, u64::from(list), count);
                put_word(memory, sum, (bytes % 0x1_0000_0000) as u32);
                Ok(Some(Value::I32(0)))
            }
            None => Err(Trap::HostAddress),
        }
    }

    /// Stores what kind of file the console is.
    pub fn fd_fdstat_get(
        &self,
        file: u32,
        address: u32,
        memory: &mut Memory,
    ) -> Result<Option<Value>, Trap>
        ensures answer { result ≡ (fd_fdstat_get file address memory.old self.now).answer }
        ensures output { self.now ≡ (fd_fdstat_get file address memory.old self.now).host }
        ensures memory { memory.new ≡ (fd_fdstat_get file address memory.old self.now).memory }
        ensures size { length memory.new.bytes ≡ length memory.old.bytes }
        ensures gives { IfOk result (λ v. HasTypes (option_to_list v) (types.I32 ∷ [])) }
    {
        if !is_console(file) {
            return Ok(Some(Value::I32(NO_FILE)));
        }
        if !memory.has(address, 24) {
            return Err(Trap::HostAddress);
        }
        let mut status = [0; 24];
        status[0] = CHARACTER_DEVICE;
        put_bytes(memory, address, &status);
        Ok(Some(Value::I32(0)))
    }

    /// The console has no place that could be sought.
    pub fn fd_seek(&self, file: u32, memory: &Memory) -> Result<Option<Value>, Trap>
        ensures answer { result ≡ (fd_seek file memory.now self.now).answer }
        ensures output { self.now ≡ (fd_seek file memory.now self.now).host }
        ensures memory { memory.now ≡ (fd_seek file memory.now self.now).memory }
        ensures gives { IfOk result (λ v. HasTypes (option_to_list v) (types.I32 ∷ [])) }
    {
        answer_of(NO_SEEK, file)
    }

    /// The console stays open.
    pub fn fd_close(&self, file: u32, memory: &Memory) -> Result<Option<Value>, Trap>
        ensures answer { result ≡ (fd_close file memory.now self.now).answer }
        ensures output { self.now ≡ (fd_close file memory.now self.now).host }
        ensures memory { memory.now ≡ (fd_close file memory.now self.now).memory }
        ensures gives { IfOk result (λ v. HasTypes (option_to_list v) (types.I32 ∷ [])) }
    {
        answer_of(0, file)
    }

    /// Gives the display to a chip that is being set up, and stores its size.
    pub fn framebuffer_init(
        &mut self,
        init: bool,
        width: u32,
        height: u32,
        memory: &mut Memory,
    ) -> Result<Option<Value>, Trap>
        ensures answer { result ≡ (framebuffer_init init width height memory.old self.old).answer }
        ensures output { self.new ≡ (framebuffer_init init width height memory.old self.old).host }
        ensures memory { memory.new ≡ (framebuffer_init init width height memory.old self.old).memory }
        ensures size { length memory.new.bytes ≡ length memory.old.bytes }
        ensures gives { IfOk result (λ v. HasTypes (option_to_list v) (types.I32 ∷ [])) }
    {
        if !init {
            return Err(Trap::HostPhase);
        }
        match &mut self.frame {
            Some(frame) => frame.give(width, height, memory),
            None => Ok(Some(Value::I32(u32::MAX))),
        }
    }

    /// Copies bytes of the memory to the display with an id.
    pub fn buffer_write(
        &mut self,
        id: u32,
        offset: u32,
        address: u32,
        count: u32,
        memory: &Memory,
    ) -> Result<Option<Value>, Trap>
        ensures answer { result ≡ (buffer_write id offset address count memory.now self.old).answer }
        ensures output { self.new ≡ (buffer_write id offset address count memory.now self.old).host }
        ensures memory { memory.now ≡ (buffer_write id offset address count memory.now self.old).memory }
        ensures gives { IfOk result (λ v. HasTypes (option_to_list v) []) }
    {
        if id != 0 {
            return Ok(None);
        }
        match &mut self.frame {
            Some(frame) => frame.draw(offset, address, count, memory),
            None => Ok(None),
        }
    }

    /// Copies bytes of the display with an id to the memory.
    pub fn buffer_read(
        &self,
        id: u32,
        offset: u32,
        address: u32,
        count: u32,
        memory: &mut Memory,
    ) -> Result<Option<Value>, Trap>
        ensures answer { result ≡ (buffer_read id offset address count memory.old self.now).answer }
        ensures output { self.now ≡ (buffer_read id offset address count memory.old self.now).host }
        ensures memory { memory.new ≡ (buffer_read id offset address count memory.old self.now).memory }
        ensures size { length memory.new.bytes ≡ length memory.old.bytes }
        ensures gives { IfOk result (λ v. HasTypes (option_to_list v) []) }
    {
        if id != 0 {
            return Ok(None);
        }
        match &self.frame {
            Some(frame) => frame.read_back(offset, address, count, memory),
            None => Ok(None),
        }
    }
}
