//! The types of a module's functions.
ghost use Rattle.std.specs.Prelude.{◌≡◌, ◌++◌, ◌∷◌, [], Some, true, IfOk, OnOk, map, slice_get};
ghost use Rattle.wasm_semantics.specs.Values.{HasType, HasTypes};
ghost use Rattle.wasm_num.specs.declared.value.Value.TheVariants.{I32};
ghost use Rattle.wasm_validate.specs.Rules.{functions_of, imported_functions};

use sim_base::{List, OutOfMemory};
use std::alloc::Global;
use wasm_decode::{FuncType, Import, ImportDesc, Module, ValType};
use wasm_num::Value;

fn copy_types(alloc: Global, types: &[ValType]) -> Result<List<ValType>, OutOfMemory>
    ensures { IfOk result (λ copy. copy ≡ types.now) }
{
    let mut copy = List::new(alloc);
    for kind in types {
        copy.push(*kind)?;
    }
    Ok(copy)
}

fn copy_type(alloc: Global, kind: &FuncType) -> Result<FuncType, OutOfMemory>
    ensures { IfOk result (λ copy. copy ≡ kind.now) }
{
    let params = copy_types(alloc, kind.params.as_slice())?;
    let results = copy_types(alloc, kind.results.as_slice())?;
    Ok(FuncType { params, results })
}

fn add_copy(alloc: Global, found: &mut List<FuncType>, kind: &FuncType) -> Result<(), OutOfMemory>
    ensures { OnOk result (map (λ t. Some t) found.new ≡ map (λ t. Some t) found.old ++ Some kind.now ∷ []) }
{
    let copy = copy_type(alloc, kind)?;
    found.push(copy)?;
    Ok(())
}

/// Adds the type with a number; a number without a type is answered as out of memory.
fn add_type(
    alloc: Global,
    found: &mut List<FuncType>,
    types: &[FuncType],
    number: u32,
) -> Result<(), OutOfMemory>
    ensures { OnOk result (map (λ t. Some t) found.new ≡ map (λ t. Some t) found.old ++ slice_get types.now number ∷ []) }
{
    match types.get(number as usize) {
        Some(kind) => add_copy(alloc, found, kind),
        None => Err(OutOfMemory),
    }
}

fn add_imported(
    alloc: Global,
    found: &mut List<FuncType>,
    types: &[FuncType],
    imports: &[Import],
) -> Result<(), OutOfMemory>
    ensures { OnOk result (map (λ t. Some t) found.new ≡ map (λ t. Some t) found.old ++ map (slice_get types.now) (imported_functions imports.now)) }
{
    match imports {
        [] => Ok(()),
        [import, rest @ ..] => {
            if let ImportDesc::Function(number) = import.desc {
                add_type(alloc, found, types, number)?;
            }
            add_imported(alloc, found, types, rest)
        }
    }
}

fn add_types(
    alloc: Global,
    found: &mut List<FuncType>,
    types: &[FuncType],
    numbers: &[u32],
) -> Result<(), OutOfMemory>
    ensures { OnOk result (map (λ t. Some t) found.new ≡ map (λ t. Some t) found.old ++ map (slice_get types.now) numbers.now) }
{
    match numbers {
        [] => Ok(()),
        [number, rest @ ..] => {
            add_type(alloc, found, types, *number)?;
            add_types(alloc, found, types, rest)
        }
    }
}

/// The types of all functions, imported ones first.
pub fn signatures(alloc: Global, module: &Module) -> Result<List<FuncType>, OutOfMemory>
    ensures { IfOk result (λ ts. map (λ t. Some t) ts ≡ map (slice_get module.now.types) (functions_of module.now)) }
{
    let types = module.types.as_slice();
    let mut found = List::new(alloc);
    add_imported(alloc, &mut found, types, module.imports.as_slice())?;
    add_types(alloc, &mut found, types, module.functions.as_slice())?;
    Ok(found)
}

fn is_word(_n: u32, kind: ValType) -> bool
    ensures { result ≡ true → HasType (I32 _n) kind }
{
    matches!(kind, ValType::I32)
}

fn has_type(value: Value, kind: ValType) -> bool
    ensures { result ≡ true → HasType value kind }
{
    match value {
        Value::I32(n) => is_word(n, kind),
        Value::I64(_) => matches!(kind, ValType::I64),
        _ => false,
    }
}

/// Whether values have these types.
pub fn fits(values: &[Value], types: &[ValType]) -> bool
    ensures { result ≡ true → HasTypes values.now types.now }
{
    match (values, types) {
        ([], []) => true,
        ([value, values @ ..], [kind, types @ ..]) => {
            has_type(*value, *kind) && fits(values, types)
        }
        _ => false,
    }
}
