//! Intel HEX as flash.
ghost use Rattle.std.specs.Prelude.{◌≡◌, ◌<◌, ◌≤◌, ◌+◌, length, ◌⊎◌};
ghost use Rattle.sim_base.specs.Reads.{Reads};
ghost use Rattle.text_model.specs.Hex.{hex_image, put, length_of, data_of};

use crate::lines::next_line;
use crate::record::{Line, Record, read_line};
use sim_base::{Fault, Flash, Place, Refusal};
use sim_refusals::numbers::HEX_NO_END;
use std::alloc::Global;

fn write_data(flash: &mut Flash, address: u32, bytes: &[u8])
    requires { length bytes.now ≡ 0 ⊎ address + length bytes.now ≤ 32768 }
    ensures { flash.new ≡ put flash.old address bytes.now }
{
    for (i, b) in bytes.iter().enumerate() {
        flash.set(address as u16 + i as u16, *b);
    }
}

fn write_record(flash: &mut Flash, address: u32, source: &Record)
    requires whole { 4 + length_of source.now.items ≤ length source.now.items }
    requires fits { length_of source.now.items ≡ 0 ⊎ address + length_of source.now.items ≤ 32768 }
    ensures { flash.new ≡ put flash.old address (data_of source.now.items) }
{
    let count = source[0] as usize;
    write_data(flash, address, &source[4..4 + count]);
}

fn refused(number: u8, line: u32) -> Fault
    ensures { result ≡ Fault.Refused (record { number = number; place = Place.Line line }) }
{
    Fault::Refused(Refusal {
        number,
        place: Place::Line(line),
    })
}

/// The flash image of an Intel HEX text; bytes that are not given are 0xFF, and of a byte that is
/// given twice the later value stays.
/// Refuses with 20 HexStart to 26 HexNoEnd, each at a Line from 1; 26 names the line after the last.
/// Source: Intel, "Hexadecimal Object File Format Specification".
pub fn read_hex(alloc: Global, bytes: &[u8]) -> Result<Flash, Fault>
    requires { length bytes.now < 4294967295 }
    ensures { Reads (λ f. f) result (hex_image bytes.now) }
{
    let mut flash = Flash::blank(alloc)?;
    let mut base: u32 = 0;
    let mut number: u32 = 1;
    let mut rest = bytes;
    while !rest.is_empty() {
        let (line, more) = next_line(rest);
        match read_line(line, base) {
            Line::Passed => {}
            Line::Data(address, r) => write_record(&mut flash, address, &r),
            Line::Base(next) => base = next,
            Line::End => return Ok(flash),
            Line::Faulty(fault) => return Err(refused(fault, number)),
        }
        rest = more;
        number += 1;
    }
    Err(refused(HEX_NO_END, number))
}
