//! The first entries of the table.
ghost use Rattle.std.specs.Prelude.{◌≡◌, ◌+◌, ◌≤◌, [], IfOk, map, length, slice_get};
ghost use Rattle.wasm_validate.specs.Rules.{offset_of, least_of, tables_of, imported_tables};
ghost use Rattle.wasm_exec.specs.Programs.{put_entries, with_elements, table_at_first};
ghost use Rattle.wasm_compile.specs.Emitting.{row_kind};
ghost use Rattle.wasm_exec.specs.Compiled.{entry_of, number_or};
ghost use Rattle.wasm_exec.specs.Whole.{ElementsFit};

use sim_base::{List, OutOfMemory};
use std::alloc::Global;
use wasm_code::{Instr, Limits};
use wasm_compile::TypeRow;
use wasm_decode::{ElementSegment, Module};
use wasm_interpreter::Entry;

/// The number of an offset, which is one constant.
pub fn offset(code: &[Instr]) -> u32
    ensures { result ≡ offset_of code.now }
{
    match code {
        [Instr::I32Const(n), ..] => *n,
        _ => 0,
    }
}

fn put_entries(table: &mut [Option<u32>], at: usize, functions: &[u32])
    requires { at + length functions.now ≤ length table.old }
    ensures { table.new ≡ put_entries at functions.now table.old }
{
    for i in 0..functions.len() {
        table[at + i] = Some(functions[i]);
    }
}

/// Puts the segments into the table in their order.
fn put_segments(table: &mut [Option<u32>], segments: &[ElementSegment])
    requires { ElementsFit (length table.old) segments.now }
    ensures { table.new ≡ with_elements segments.now table.old }
{
    for segment in segments {
        let at = offset(segment.offset.as_slice()) as usize;
        put_entries(table, at, segment.functions.as_slice());
    }
}

fn least(tables: &[Limits]) -> u32
    ensures { result ≡ least_of tables.now }
{
    match tables {
        [] => 0,
        [first, ..] => first.least,
    }
}

/// The table as it is at first, by the numbers of its functions.
pub fn first_table(alloc: Global, module: &Module) -> Result<Vec<Option<u32>>, OutOfMemory>
    requires tables { imported_tables module.now.imports ≡ [] }
    requires fit { ElementsFit (least_of (tables_of module.now)) module.now.elements }
    ensures { IfOk result (λ table. table.items ≡ table_at_first module.now) }
{
    let mut table = Vec::new(alloc);
    table.resize(least(module.tables.as_slice()) as usize, None)?;
    put_segments(table.as_mut_slice(), module.elements.as_slice());
    Ok(table)
}

fn entry(function: Option<u32>, rows: &[TypeRow], numbers: &[u32]) -> Option<Entry>
    ensures { result ≡ entry_of rows.now numbers.now function }
{
    match function {
        Some(function) => Some(Entry {
            function,
            kind: kind_at(rows, number_at(numbers, function)),
        }),
        None => None,
    }
}

fn kind_at(rows: &[TypeRow], number: u32) -> u32
    ensures { result ≡ row_kind (slice_get rows.now number) }
{
    match rows.get(number as usize) {
        Some(row) => row.kind,
        None => 0,
    }
}

fn number_at(numbers: &[u32], function: u32) -> u32
    ensures { result ≡ number_or (slice_get numbers.now function) }
{
    match numbers.get(function as usize) {
        Some(number) => *number,
        None => 0,
    }
}

/// The entries of a table, each with the number of its function's type.
pub fn entries(
    alloc: Global,
    table: &[Option<u32>],
    rows: &[TypeRow],
    numbers: &[u32],
) -> Result<List<Option<Entry>>, OutOfMemory>
    ensures { IfOk result (λ found. found ≡ map (entry_of rows.now numbers.now) table.now) }
{
    let mut found = List::new(alloc);
    for function in table {
        found.push(entry(*function, rows, numbers))?;
    }
    Ok(found)
}
