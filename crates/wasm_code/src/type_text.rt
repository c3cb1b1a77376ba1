//! The text of types.
ghost use Rattle.wasm_code.specs.TypeText.{func_type, limits, table_type, global_type};
ghost use Rattle.wasm_binary.specs.Reads.{Decodes};
ghost use Rattle.wasm_binary.specs.Lists.{vec, items};

use crate::types::{BlockType, FuncType, GlobalType, Limits, ValType};
use sim_base::{Fault, List};
use sim_refusals::numbers::WASM_TYPE;
use std::alloc::Global;
use wasm_binary::{Decode, FromByte, Reader, index, judged, list, list_to, tag};

/// At most so many parameters of a type.
const PARAMS: u32 = 16;

impl FromByte for ValType {
    ghost use Rattle.wasm_code.specs.TypeText.{judge_val_type};

    ghost judge = { judge_val_type };

    fn from_byte(byte: u8) -> Result<ValType, u8> {
        match byte {
            0x7F => Ok(ValType::I32),
            0x7E => Ok(ValType::I64),
            0x7D => Ok(ValType::F32),
            0x7C => Ok(ValType::F64),
            _ => Err(WASM_TYPE),
        }
    }
}

impl Decode for ValType {
    ghost use Rattle.wasm_code.specs.TypeText.{val_type};

    ghost form = { val_type };

    fn decode(_alloc: Global, reader: &mut Reader) -> Result<ValType, Fault> {
        judged(reader)
    }
}

impl FromByte for BlockType {
    ghost use Rattle.wasm_code.specs.TypeText.{judge_block_type};

    ghost judge = { judge_block_type };

    fn from_byte(byte: u8) -> Result<BlockType, u8> {
        if byte == 0x40 {
            return Ok(BlockType { result: None });
        }
        match ValType::from_byte(byte) {
            Ok(value) => Ok(BlockType {
                result: Some(value),
            }),
            Err(number) => Err(number),
        }
    }
}

impl Decode for FuncType {
    ghost use Rattle.wasm_code.specs.TypeText.{func_type};

    ghost form = { func_type };

    fn decode(alloc: Global, reader: &mut Reader) -> Result<FuncType, Fault> {
        tag(reader, 0x60, WASM_TYPE)?;
        let params = list_to(alloc, reader, PARAMS)?;
        let results = list(alloc, reader)?;
        Ok(FuncType { params, results })
    }
}

/// The limits of a memory.
impl Decode for Limits {
    ghost use Rattle.wasm_code.specs.TypeText.{limits};

    ghost form = { limits };

    fn decode(_alloc: Global, reader: &mut Reader) -> Result<Limits, Fault> {
        read_limits(reader)
    }
}

pub fn read_limits(reader: &mut Reader) -> Result<Limits, Fault>
    ensures { Decodes limits result reader.old reader.new }
{
    let bounded = judged::<bool>(reader)?;
    let least = index(reader)?;
    if !bounded {
        return Ok(Limits {
            least,
            greatest: None,
        });
    }
    let greatest = index(reader)?;
    Ok(Limits {
        least,
        greatest: Some(greatest),
    })
}

pub fn table_limits(reader: &mut Reader) -> Result<Limits, Fault>
    ensures { Decodes table_type result reader.old reader.new }
{
    tag(reader, 0x70, WASM_TYPE)?;
    read_limits(reader)
}

/// The types of the tables.
pub fn tables(alloc: Global, reader: &mut Reader) -> Result<List<Limits>, Fault>
    ensures { Decodes (vec table_type) result reader.old reader.new }
{
    let count = index(reader)?;
    table_items(alloc, reader, count)
}

fn table_items(alloc: Global, reader: &mut Reader, count: u32) -> Result<List<Limits>, Fault>
    ensures { Decodes (items table_type count) result reader.old reader.new }
{
    let mut tables = List::new(alloc);
    for i in 0..count {
        tables.push(table_limits(reader)?)?;
    }
    Ok(tables)
}

pub fn read_global_type(reader: &mut Reader) -> Result<GlobalType, Fault>
    ensures { Decodes global_type result reader.old reader.new }
{
    let value = judged(reader)?;
    let changeable = judged(reader)?;
    Ok(GlobalType { value, changeable })
}
