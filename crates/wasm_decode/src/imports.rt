//! Imports.
ghost use Rattle.std.specs.Prelude.{◌≡◌, ◌≤◌, ℕ, List, Ok, Err};
ghost use Rattle.wasm_decode.specs.ItemText.{judge_import, import_desc as desc_form, import_item as item_form, imports as imports_form, imports_of, imported as imported_of, is_function};
ghost use Rattle.wasm_binary.specs.Form.{byte};
ghost use Rattle.wasm_binary.specs.Reads.{Decodes};

use crate::module::{Extern, Import, ImportDesc};
use sim_base::{Fault, List};
use sim_refusals::numbers::{WASM_LIMIT, WASM_TYPE};
use std::alloc::Global;
use wasm_binary::{FromByte, Reader, index, read_name, refused};
use wasm_code::{read_global_type, read_limits, table_limits};

/// At most so many functions, imported ones with them.
pub const FUNCTIONS: u32 = 4096;

impl FromByte for Extern {
    ghost use Rattle.wasm_decode.specs.ItemText.{judge_extern};

    ghost judge = { judge_extern };

    fn from_byte(byte: u8) -> Result<Extern, u8> {
        match byte {
            0 => Ok(Extern::Function),
            1 => Ok(Extern::Table),
            2 => Ok(Extern::Memory),
            3 => Ok(Extern::Global),
            _ => Err(WASM_TYPE),
        }
    }
}

pub fn imports(alloc: Global, reader: &mut Reader) -> Result<List<Import>, Fault>
    ensures { Decodes imports_form result reader.old reader.new }
{
    let count = index(reader)?;
    import_items(alloc, reader, count)
}

fn import_items(alloc: Global, reader: &mut Reader, count: u32) -> Result<List<Import>, Fault>
    ensures { Decodes (imports_of count) result reader.old reader.new }
{
    let mut imports = List::new(alloc);
    let mut functions = 0;
    for i in 0..count {
        let import = import_item(alloc, reader, functions)?;
        functions += function_count(&import.desc);
        imports.push(import)?;
    }
    Ok(imports)
}

/// An import behind so many imported functions.
fn import_item(alloc: Global, reader: &mut Reader, functions: u32) -> Result<Import, Fault>
    ensures { Decodes (item_form functions) result reader.old reader.new }
{
    let from = read_name(alloc, reader)?;
    let item = read_name(alloc, reader)?;
    let kind = import_kind(reader, functions)?;
    let desc = import_desc(reader, kind)?;
    Ok(Import {
        module: from,
        name: item,
        desc,
    })
}

fn import_kind(reader: &mut Reader, functions: u32) -> Result<Extern, Fault>
    ensures { Decodes (byte (judge_import functions)) result reader.old reader.new }
{
    let place = reader.at;
    let byte = reader.byte()?;
    match judge(functions, byte) {
        Ok(kind) => Ok(kind),
        Err(number) => Err(refused(number, place)),
    }
}

fn judge(functions: u32, byte: u8) -> Result<Extern, u8>
    ensures { result ≡ judge_import functions byte }
{
    if byte == 0 && functions >= FUNCTIONS {
        return Err(WASM_LIMIT);
    }
    Extern::from_byte(byte)
}

fn import_desc(reader: &mut Reader, kind: Extern) -> Result<ImportDesc, Fault>
    ensures { Decodes (desc_form kind) result reader.old reader.new }
{
    match kind {
        Extern::Function => match index(reader) {
            Ok(n) => Ok(ImportDesc::Function(n)),
            Err(fault) => Err(fault),
        },
        Extern::Table => match table_limits(reader) {
            Ok(l) => Ok(ImportDesc::Table(l)),
            Err(fault) => Err(fault),
        },
        Extern::Memory => match read_limits(reader) {
            Ok(l) => Ok(ImportDesc::Memory(l)),
            Err(fault) => Err(fault),
        },
        Extern::Global => match read_global_type(reader) {
            Ok(g) => Ok(ImportDesc::Global(g)),
            Err(fault) => Err(fault),
        },
    }
}

fn function_count(desc: &ImportDesc) -> u32
    ensures is { result ≡ is_function desc.now }
    ensures one { result ≤ 1 }
{
    match desc {
        ImportDesc::Function(_) => 1,
        ImportDesc::Table(_) | ImportDesc::Memory(_) | ImportDesc::Global(_) => 0,
    }
}

/// How many of the imports are functions.
pub fn imported(imports: &[Import]) -> usize
    ensures is { result ≡ imported_of imports.now }
{
    let mut count = 0;
    for import in imports {
        count += function_count(&import.desc) as usize;
    }
    count
}
