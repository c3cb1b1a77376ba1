//! Functions by the numbers of their types.
ghost use Rattle.std.specs.Prelude.{◌≡◌, ◌<◌, ◌≤◌, ℕ, IfOk, Some, map, length, slice_get};
ghost use Rattle.wasm_code.specs.declared.types.FuncType.{FuncType};
ghost use Rattle.wasm_validate.specs.Rules.{imported_functions};
ghost use Rattle.wasm_exec.specs.Compiled.{arity_at, arity_or};
ghost use Rattle.wasm_exec.specs.Whole.{AllBelow};

use sim_base::{List, OutOfMemory};
use std::alloc::Global;
use wasm_code::{FuncType, ValType};
use wasm_compile::TypeRow;
use wasm_decode::{Import, ImportDesc};
use wasm_interpreter::Arity;

/// No function that `decode` accepts has more parameters.
const ARGUMENTS: usize = 16;

/// The numbers of the types of the imported functions.
pub fn imported_numbers(alloc: Global, imports: &[Import]) -> Result<List<u32>, OutOfMemory>
    ensures { IfOk result (λ found. found ≡ imported_functions imports.now) }
{
    let mut found = List::new(alloc);
    for import in imports {
        if let ImportDesc::Function(number) = import.desc {
            found.push(number)?;
        }
    }
    Ok(found)
}

fn copy_types(alloc: Global, types: &[ValType]) -> Result<List<ValType>, OutOfMemory>
    ensures { IfOk result (λ copy. copy ≡ types.now) }
{
    let mut copy = List::new(alloc);
    for kind in types {
        copy.push(*kind)?;
    }
    Ok(copy)
}

fn copy_type(alloc: Global, kind: &FuncType) -> Result<FuncType, OutOfMemory>
    ensures { IfOk result (λ copy. copy ≡ kind.now) }
{
    let params = copy_types(alloc, kind.params.as_slice())?;
    let results = copy_types(alloc, kind.results.as_slice())?;
    Ok(FuncType { params, results })
}

fn one_type(alloc: Global, types: &[FuncType], number: u32) -> Result<FuncType, OutOfMemory>
    requires { number < length types.now }
    ensures found { IfOk result (λ t. slice_get types.now number ≡ Some t) }
    ensures few { IfOk result (λ t. length t.params ≤ 16) }
{
    let kind = &types[number as usize];
    if kind.params.len() > ARGUMENTS {
        return Err(OutOfMemory);
    }
    copy_type(alloc, kind)
}

/// The types with these numbers.
pub fn types_of(
    alloc: Global,
    types: &[FuncType],
    numbers: &[u32],
) -> Result<List<FuncType>, OutOfMemory>
    requires { AllBelow (length types.now) numbers.now }
    ensures found { IfOk result (λ ts. map (λ t. Some t) ts ≡ map (slice_get types.now) numbers.now) }
    ensures few { IfOk result (λ ts. (i : ℕ) (t : FuncType) → slice_get ts i ≡ Some t → length t.params ≤ 16) }
{
    let mut found = List::new(alloc);
    for number in numbers {
        found.push(one_type(alloc, types, *number)?)?;
    }
    Ok(found)
}

fn arity_of(rows: &[TypeRow], number: u32) -> Arity
    ensures { result ≡ arity_at rows.now number }
{
    match rows.get(number as usize) {
        Some(row) => row.arity,
        None => Arity {
            params: 0,
            results: 0,
        },
    }
}

/// The arities of functions by the numbers of their types.
pub fn arities_of(
    alloc: Global,
    rows: &[TypeRow],
    numbers: &[u32],
) -> Result<List<Arity>, OutOfMemory>
    ensures { IfOk result (λ arities. arities ≡ map (arity_at rows.now) numbers.now) }
{
    let mut found = List::new(alloc);
    for number in numbers {
        found.push(arity_of(rows, *number))?;
    }
    Ok(found)
}
