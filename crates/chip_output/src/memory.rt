//! Words, bytes and pieces of text in a module's memory, whose ranges were found inside.
ghost use Rattle.std.specs.Prelude.{◌≡◌, ◌+◌, ◌*◌, ◌≤◌, ◌<◌, ◌^◌, length, true, if◌then◌else◌, Some, None};
ghost use Rattle.std.specs.Int.{w32};
ghost use Rattle.std.specs.Option.{ForSome};
ghost use Rattle.wasm_num.specs.Mem.{has, put, written};
ghost use Rattle.chip_output.specs.Output.{bytes_at};
ghost use Rattle.chip_output.specs.Files.{word, pieces, are_inside, total};

use wasm_num::Memory;

/// The bytes of a range.
pub fn bytes_of(memory: &Memory, address: u32, count: u32) -> &[u8]
    requires { has memory.now address count ≡ true }
    ensures bytes { result.now ≡ bytes_at memory.now address count }
    ensures length { length result.now ≡ count }
{
    let start = address as usize;
    &memory.as_slice()[start..start + count as usize]
}

/// Writes bytes where there is room for them.
pub fn put_bytes(memory: &mut Memory, address: u32, bytes: &[u8])
    requires { has memory.old address (length bytes.now) ≡ true }
    ensures bytes { memory.new ≡ record memory.old { bytes = put address bytes.now memory.old.bytes } }
    ensures size { length memory.new.bytes ≡ length memory.old.bytes }
{
    memory.fill_from(address as usize, bytes);
}

/// Writes a word where there is room for it.
pub fn put_word(memory: &mut Memory, address: u32, value: u32)
    requires { has memory.old address 4 ≡ true }
    ensures bytes { memory.new ≡ written w32 memory.old address value }
    ensures size { length memory.new.bytes ≡ length memory.old.bytes }
{
    match memory.write32(u64::from(address), value) {
        Ok(()) => {}
        Err(_) => unreachable!(),
    }
}

fn word(memory: &Memory, address: u64) -> u32
    requires inside { has memory.now address 4 ≡ true }
    requires short { address < 2 ^ 33 }
    ensures { result ≡ word memory.now address }
{
    match memory.read32(address) {
        Ok(word) => word,
        Err(_) => unreachable!(),
    }
}

/// The address and the length of the first piece of a list.
pub fn piece(memory: &Memory, list: u64) -> (u32, u32)
    requires inside { has memory.now list 8 ≡ true }
    requires short { list + 8 < 2 ^ 33 }
    ensures address { result.0 ≡ word memory.now list }
    ensures length { result.1 ≡ word memory.now (list + 4) }
{
    (word(memory, list), word(memory, list + 4))
}

/// How many bytes the pieces of a list have; None where one is outside.
pub fn total(memory: &Memory, list: u64, count: u32) -> Option<u64>
    requires list { has memory.now list (8 * count) ≡ true }
    requires short { list + 8 * count < 2 ^ 33 }
    requires few { count ≤ 16 }
    ensures sum { result ≡ (if are_inside memory.now (pieces memory.now list count) then Some (total (pieces memory.now list count)) else None) }
    ensures most { ForSome result (λ n. n ≤ count * 2 ^ 32) }
{
    if count == 0 {
        return Some(0);
    }
    let (address, length) = piece(memory, list);
    if !memory.has(address, length) {
        return None;
    }
    match total(memory, list + 8, count - 1) {
        Some(rest) => Some(u64::from(length) + rest),
        None => None,
    }
}
