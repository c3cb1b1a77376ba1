//! One line of Intel HEX.
ghost use Rattle.std.specs.Prelude.{◌≡◌, ◌<◌, ◌≤◌, ◌+◌, ◌*◌, ◌%◌, length, slice_index, true, sum, ◌∷◌};
ghost use Rattle.std.specs.List.{list_all};
ghost use Rattle.std.specs.Char.{is_ascii_hexdigit, digit_value};
ghost use Rattle.text_model.specs.Hex.{hex_bytes, verdict, says, length_of};
ghost use Rattle.input_texts.specs.Records.{seen, IsFitting};

use arrayvec::ArrayVec;
use sim_refusals::numbers::{HEX_DIGIT, HEX_LENGTH, HEX_RANGE, HEX_START, HEX_SUM, HEX_TYPE};

/// The bytes of a record: length, address, type, data and check byte.
pub type Record = ArrayVec<u8, 260>;

/// What a line is for.
#[derive(Drop)]
pub enum Line {
    Passed,
    /// The address of the first data byte, and the whole record.
    Data(u32, Record),
    Base(u32),
    End,
    /// The number of the first rule that it breaks.
    Faulty(u8),
}

fn hex_value(c: u8) -> u8
    requires { is_ascii_hexdigit c ≡ true }
    ensures value { result ≡ digit_value c }
    ensures small { result < 16 }
{
    match c {
        b'0'..=b'9' => c - b'0',
        b'A'..=b'F' => c - b'A' + 10,
        _ => c - b'a' + 10,
    }
}

fn are_hex_digits(digits: &[u8]) -> bool
    ensures { result ≡ list_all is_ascii_hexdigit digits.now }
{
    digits.iter().all(|c| c.is_ascii_hexdigit())
}

fn byte_at(digits: &[u8], i: usize) -> u8
    requires digits { list_all is_ascii_hexdigit digits.now ≡ true }
    requires within { 2 * i + 1 < length digits.now }
    ensures { result ≡ slice_index (hex_bytes digits.now) i }
{
    16 * hex_value(digits[2 * i]) + hex_value(digits[2 * i + 1])
}

fn decode(digits: &[u8]) -> Record
    requires digits { list_all is_ascii_hexdigit digits.now ≡ true }
    requires short { length digits.now ≤ 520 }
    ensures { result.items ≡ hex_bytes digits.now }
{
    let mut bytes = ArrayVec::new();
    for i in 0..digits.len() / 2 {
        bytes.push(byte_at(digits, i));
    }
    bytes
}

fn check_sum(bytes: &[u8]) -> u8
    ensures { result ≡ sum bytes.now % 256 }
{
    let mut total: u8 = 0;
    for b in bytes {
        total = total.wrapping_add(*b);
    }
    total
}

fn two_bytes(high: u8, low: u8) -> u16
    ensures { result ≡ 256 * high + low }
{
    u16::from_be_bytes([high, low])
}

/// What a record of a good sum says.
fn meaning(base: u32, r: Record) -> Line
    requires base { base ≤ 4294901760 }
    requires long { 5 ≤ length r.items }
    requires count { length r.items ≡ length_of r.items + 5 }
    ensures seen { seen result ≡ says base r.items }
    ensures fits { IsFitting result }
{
    let address = base + u32::from(two_bytes(r[1], r[2]));
    let count = r[0];
    match (r[3], count) {
        (0, _) if count == 0 || u64::from(address) + u64::from(count) <= 32768 => {
            Line::Data(address, r)
        }
        (0, _) => Line::Faulty(HEX_RANGE),
        (1, 0) => Line::End,
        (2, 2) => Line::Base(16 * u32::from(two_bytes(r[4], r[5]))),
        (4, 2) => Line::Base(65536 * u32::from(two_bytes(r[4], r[5]))),
        (3 | 5, 4) => Line::Passed,
        _ => Line::Faulty(HEX_TYPE),
    }
}

/// The first rule that the digits of a line break, or what they say.
fn read_digits(digits: &[u8], base: u32) -> Line
    requires base { base ≤ 4294901760 }
    ensures seen { seen result ≡ verdict base (58 ∷ digits.now) }
    ensures fits { IsFitting result }
{
    if !are_hex_digits(digits) {
        return Line::Faulty(HEX_DIGIT);
    }
    if digits.len() < 10 || digits.len() != 2 * usize::from(byte_at(digits, 0)) + 10 {
        return Line::Faulty(HEX_LENGTH);
    }
    let bytes = decode(digits);
    if check_sum(&bytes) != 0 {
        return Line::Faulty(HEX_SUM);
    }
    meaning(base, bytes)
}

/// The first rule that a line breaks, or what it says.
pub fn read_line(line: &[u8], base: u32) -> Line
    requires base { base ≤ 4294901760 }
    ensures seen { seen result ≡ verdict base line.now }
    ensures fits { IsFitting result }
{
    match line {
        [] => Line::Passed,
        [b':', digits @ ..] => read_digits(digits, base),
        [_, ..] => Line::Faulty(HEX_START),
    }
}
