//! Names: a count of bytes, and bytes that are UTF-8.
ghost use Rattle.std.specs.Prelude.{◌≡◌, MatchOption, Ok, Err, length};
ghost use Rattle.wasm_binary.specs.Names.{name, name_of_length, judge_in_name, tails_after, tails_of};
ghost use Rattle.wasm_binary.specs.Reads.{Decodes, DecodesAs};
ghost use Rattle.wasm_binary.specs.NameViews.{spans_of};
ghost use Rattle.sim_refusals.specs.Refusals.{WasmUtf8};

use crate::leb::index;
use crate::reader::{Reader, refused};
use sim_base::{Fault, Text};
use sim_refusals::numbers::WASM_UTF8;
use std::alloc::Global;

/// The bytes that a character still wants: how many, and the bounds of the next.
#[derive(Clone, Copy)]
struct Tails {
    count: u8,
    least: u8,
    greatest: u8,
}

/// A name. Refuses with 61, 62 and 67 WasmUtf8, the last at the first byte that no UTF-8 of the
/// given length continues.
pub fn read_name(alloc: Global, reader: &mut Reader) -> Result<Text, Fault>
    ensures { Decodes name result reader.old reader.new }
{
    let count = index(reader)?;
    let bytes = name_bytes(alloc, reader, count)?;
    Ok(Text::from_utf8(bytes))
}

fn name_bytes(alloc: Global, reader: &mut Reader, count: u32) -> Result<Vec<u8>, Fault>
    ensures { DecodesAs (λ v. v.items) (name_of_length count) result reader.old reader.new }
{
    let mut bytes = Vec::new(alloc);
    let mut tails = Tails {
        count: 0,
        least: 0,
        greatest: 0,
    };
    for i in 0..count {
        let place = reader.at;
        let byte = reader.byte()?;
        match next_tails(tails, count - i, byte) {
            Some(next) => tails = next,
            None => return Err(refused(WASM_UTF8, place)),
        }
        bytes.push(byte)?;
    }
    Ok(bytes)
}

/// What is wanted behind this byte; none where it may not stand there.
fn next_tails(tails: Tails, left: u32, byte: u8) -> Option<Tails>
    ensures { MatchOption result
        (judge_in_name (record { left = left; tails = spans_of tails }) byte ≡ Err WasmUtf8)
        (λ next. (judge_in_name (record { left = left; tails = spans_of tails }) byte ≡ Ok byte) × (spans_of next ≡ tails_after (spans_of tails) byte)) }
{
    if tails.count == 0 {
        let first = first_tails(byte)?;
        return if u32::from(first.count) < left {
            Some(first)
        } else {
            None
        };
    }
    if byte < tails.least || tails.greatest < byte {
        return None;
    }
    Some(Tails {
        count: tails.count - 1,
        least: 0x80,
        greatest: 0xBF,
    })
}

/// What a character's first byte wants.
fn first_tails(byte: u8) -> Option<Tails>
    ensures { MatchOption result (tails_of byte ≡ None) (λ t. (tails_of byte ≡ Some (spans_of t)) × (length (spans_of t) ≡ t.count)) }
{
    match byte {
        0x00..=0x7F => tails_from(0, 0x80, 0xBF),
        0xC2..=0xDF => tails_from(1, 0x80, 0xBF),
        0xE0 => tails_from(2, 0xA0, 0xBF),
        0xED => tails_from(2, 0x80, 0x9F),
        0xE1..=0xEF => tails_from(2, 0x80, 0xBF),
        0xF0 => tails_from(3, 0x90, 0xBF),
        0xF1..=0xF3 => tails_from(3, 0x80, 0xBF),
        0xF4 => tails_from(3, 0x80, 0x8F),
        _ => None,
    }
}

fn tails_from(count: u8, least: u8, greatest: u8) -> Option<Tails>
    ensures { result ≡ Some (record { count = count; least = least; greatest = greatest }) }
{
    Some(Tails {
        count,
        least,
        greatest,
    })
}
