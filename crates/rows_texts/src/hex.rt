//! Rows of Intel HEX: `accepted`, or bytes of the flash, as `0000=25 7FFF=00`.
use crate::answer::Answer;
use crate::refused::refused;
use input_texts::read_hex;
use sim_base::Flash;
use std::alloc::{AllocError, Global};

pub fn hex_answer(alloc: Global, made: &mut Answer, text: &[u8], wanted: &str) {
    if text.len() > 1_048_576 {
        made.run_out();
        return;
    }
    match read_hex(alloc, text) {
        Ok(flash) => tell_bytes(alloc, made, &flash, wanted),
        Err(fault) => refused(made, &fault),
    }
}

/// The bytes at the addresses that are asked for.
fn tell_bytes(alloc: Global, made: &mut Answer, flash: &Flash, wanted: &str) {
    for place in wanted.split_whitespace() {
        made.separate(" ");
        tell_place(alloc, made, flash, place);
    }
}

fn tell_place(alloc: Global, made: &mut Answer, flash: &Flash, place: &str) {
    match place.split_once('=') {
        Some((addr, _)) => {
            let addr = u16::from_str_radix(addr, 16).unwrap_or(0) & 0x7FFF;
            made.tell_made(byte_text(alloc, addr, flash.byte(addr)));
        }
        None => made.tell("accepted"),
    }
}

fn byte_text(alloc: Global, addr: u16, byte: u8) -> Result<String, AllocError> {
    format!(in alloc; "{addr:04X}={byte:02X}")
}
