//! Words and texts in a module's memory.
ghost use Rattle.std.specs.Prelude.{◌≡◌, ◌<◌, ◌≤◌, ◌+◌, ◌^◌, drop, Ok, Err, IfOk, IfErr, length};
ghost use Rattle.chip_abi.specs.Reading.{word_at, text_in, TextIs};

use wasm_num::{Memory, Trap};

/// The word at an address and an offset. Trap: 10 HostAddress.
pub fn read_word(memory: &Memory, addr: u32, offset: u32) -> Result<u32, Trap>
    ensures { result ≡ word_at memory.now (addr + offset) }
{
    match memory.read32(u64::from(addr) + u64::from(offset)) {
        Ok(word) => Ok(word),
        Err(_) => Err(Trap::HostAddress),
    }
}

/// How long the text is that begins here, to its first 00. Traps: 10 HostAddress, 11 HostString.
fn text_len(bytes: &[u8], room: u32) -> Result<usize, Trap>
    ensures text { TextIs result room bytes.now }
    ensures within { IfOk result (λ n. n ≤ length bytes.now) }
    ensures short { IfOk result (λ n. n < room) }
{
    if room == 0 {
        return Err(Trap::HostString);
    }
    match bytes {
        [] => Err(Trap::HostAddress),
        [first, rest @ ..] => {
            if *first == 0 {
                return Ok(0);
            }
            match text_len(rest, room - 1) {
                Ok(n) => Ok(n + 1),
                Err(trap) => Err(trap),
            }
        }
    }
}

/// What stands from a place on; nothing beyond the end.
fn tail(bytes: &[u8], at: usize) -> &[u8]
    ensures { result.now ≡ drop at bytes.now }
{
    if at <= bytes.len() { &bytes[at..] } else { &[] }
}

/// The text at an address, to its first 00, which 64 bytes must hold. Traps: 10 HostAddress, 11 HostString.
pub fn read_string(memory: &Memory, addr: u32) -> Result<&[u8], Trap>
    ensures ok { IfOk result (λ t. text_in 64 (drop addr memory.now.bytes) ≡ Ok t.now) }
    ensures short { IfOk result (λ t. length t.now < 64) }
    ensures err { IfErr result (λ t. text_in 64 (drop addr memory.now.bytes) ≡ Err t) }
{
    let rest = tail(memory.as_slice(), addr as usize);
    match text_len(rest, 64) {
        Ok(n) => Ok(&rest[..n]),
        Err(trap) => Err(trap),
    }
}
