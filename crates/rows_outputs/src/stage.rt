//! The output of a chip and a memory, on which a row is played.
use crate::step::Step;
use crate::words::number;
use chip_output::Output;
use sim_base::{Display, OutOfMemory};
use std::alloc::{AllocError, Global};
use wasm_num::{Memory, Trap, Value};

#[derive(Drop)]
pub struct Stage {
    output: Output,
    memory: Memory,
}

/// The size that two numbers with an `x` between them are.
fn display_of(text: &str) -> Option<Display> {
    let (width, height) = text.split_once('x')?;
    Display::new(number(width), number(height))
}

const DIGITS: [&str; 16] = [
    "0", "1", "2", "3", "4", "5", "6", "7", "8", "9", "A", "B", "C", "D", "E", "F",
];

/// Bytes as hexadecimal digits.
fn hexadecimal(alloc: Global, bytes: &[u8]) -> Result<String, AllocError> {
    let mut text = String::new(alloc);
    for byte in bytes {
        text.push_str(DIGITS[(*byte / 16) as usize])?;
        text.push_str(DIGITS[(*byte % 16) as usize])?;
    }
    Ok(text)
}

/// How many bytes there are, and the first and the last four of them.
fn ends_of(alloc: Global, bytes: &[u8]) -> Result<String, AllocError> {
    let count = bytes.len();
    let few = count.min(4);
    let first = hexadecimal(alloc, &bytes[..few])?;
    let last = hexadecimal(alloc, &bytes[count - few..])?;
    format!(in alloc; "{count}:{first}:{last}")
}

/// What a host call answered.
fn answer_of(alloc: Global, end: Result<Option<Value>, Trap>) -> Result<String, AllocError> {
    match end {
        Ok(Some(Value::I32(n))) => format!(in alloc; "{n}"),
        Ok(_) => format!(in alloc; "none"),
        Err(trap) => {
            let number = trap.number();
            format!(in alloc; "trap{number}")
        }
    }
}

impl Stage {
    /// A display of this size, or none, and a memory of one page.
    pub fn new(alloc: Global, display: &str) -> Result<Stage, OutOfMemory> {
        let output = Output::new(alloc, display_of(display))?;
        match Memory::new(alloc, 1, Some(1)) {
            Ok(memory) => Ok(Stage { output, memory }),
            Err(e) => {
                drop(output);
                Err(e)
            }
        }
    }

    fn set(&mut self, address: u32, bytes: &[u8]) {
        let start = address as usize;
        if bytes.len() <= 65_536 && start + bytes.len() <= self.memory.as_slice().len() {
            self.memory.fill_from(start, bytes);
        }
    }

    fn bytes(&self, address: u32, count: u32) -> &[u8] {
        let start = address as usize;
        match self.memory.as_slice().get(start..start + count as usize) {
            Some(bytes) => bytes,
            None => &[],
        }
    }

    fn pixels(&self) -> &[u8] {
        match self.output.frame() {
            Some((_, _, pixels)) => pixels,
            None => &[],
        }
    }

    /// What a step answers.
    pub fn answer(&mut self, alloc: Global, step: &Step) -> Result<String, AllocError> {
        match step {
            Step::Set(address, bytes) => {
                self.set(*address, bytes);
                format!(in alloc; "set")
            }
            Step::Bytes(address, count) => hexadecimal(alloc, self.bytes(*address, *count)),
            Step::Console => ends_of(alloc, self.output.console()),
            Step::Pixels => hexadecimal(alloc, self.pixels()),
            call => answer_of(alloc, self.call(call)),
        }
    }

    fn call(&mut self, step: &Step) -> Result<Option<Value>, Trap> {
        match step {
            Step::Write([file, list, count, sum]) => {
                self.output
                    .fd_write(*file, *list, *count, *sum, &mut self.memory)
            }
            Step::Status(file, address) => {
                self.output.fd_fdstat_get(*file, *address, &mut self.memory)
            }
            Step::Seek(file) => self.output.fd_seek(*file, &self.memory),
            Step::Close(file) => self.output.fd_close(*file, &self.memory),
            Step::Init(early, width, height) => {
                self.output
                    .framebuffer_init(*early, *width, *height, &mut self.memory)
            }
            Step::Draw([id, offset, address, count]) => {
                self.output
                    .buffer_write(*id, *offset, *address, *count, &self.memory)
            }
            Step::ReadBack([id, offset, address, count]) => {
                self.output
                    .buffer_read(*id, *offset, *address, *count, &mut self.memory)
            }
            _ => Err(Trap::Unreachable),
        }
    }
}
