//! Vectors, and parts with a size.
ghost use Rattle.std.specs.Prelude.{ℕ};
ghost use Rattle.wasm_binary.specs.Form.{Form};
ghost use Rattle.wasm_binary.specs.Leb.{u32 as any_u32};
ghost use Rattle.wasm_binary.specs.Lists.{items as items_form, vec, vec_to, byte_vec, bytes_of_length as raw};
ghost use Rattle.wasm_binary.specs.Reads.{Decodes};

use crate::leb::{count_to, index};
use crate::reader::Reader;
use sim_base::{Fault, List};
use std::alloc::Global;

/// A value whose text has one form.
pub trait Decode: Sized {
    ghost form: { Form Self };

    fn decode(alloc: Global, reader: &mut Reader) -> Result<Self, Fault>
        ensures { Decodes form result reader.old reader.new };
}

impl Decode for u32 {
    ghost use Rattle.wasm_binary.specs.Leb.{u32 as any_u32};

    ghost form = { any_u32 };

    fn decode(_alloc: Global, reader: &mut Reader) -> Result<u32, Fault> {
        index(reader)
    }
}

/// A vec of bytes.
pub fn byte_list(alloc: Global, reader: &mut Reader) -> Result<List<u8>, Fault>
    ensures { Decodes byte_vec result reader.old reader.new }
{
    let count = index(reader)?;
    bytes_of_length(alloc, reader, count)
}

fn bytes_of_length(alloc: Global, reader: &mut Reader, count: u32) -> Result<List<u8>, Fault>
    ensures { Decodes (raw count) result reader.old reader.new }
{
    let bytes = reader.bytes(count)?;
    Ok(List::from_vec(bytes.to_vec(alloc)?))
}

/// A vec of items.
pub fn list<T: Decode + Drop>(alloc: Global, reader: &mut Reader) -> Result<List<T>, Fault>
    ensures { Decodes (vec T.form) result reader.old reader.new }
{
    let count = index(reader)?;
    items(alloc, reader, count)
}

/// A vec of at most so many items; its count breaks by 69.
pub fn list_to<T: Decode + Drop>(
    alloc: Global,
    reader: &mut Reader,
    greatest: u32,
) -> Result<List<T>, Fault>
    ensures { Decodes (vec_to greatest T.form) result reader.old reader.new }
{
    let count = count_to(reader, greatest)?;
    items(alloc, reader, count)
}

fn items<T: Decode + Drop>(alloc: Global, reader: &mut Reader, count: u32) -> Result<List<T>, Fault>
    ensures { Decodes (items_form T.form count) result reader.old reader.new }
{
    let mut items = List::new(alloc);
    for i in 0..count {
        items.push(T::decode(alloc, reader)?)?;
    }
    Ok(items)
}
