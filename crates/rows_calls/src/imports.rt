//! What a module imports.
ghost use Rattle.std.specs.Prelude.{◌≡◌, ℕ, [], Some, true, IfSome, map, slice_get};
ghost use Rattle.wasm_code.specs.declared.types.FuncType.{FuncType};
ghost use Rattle.wasm_decode.specs.declared.module.ImportDesc.TheVariants as descs;
ghost use Rattle.wasm_validate.specs.Rules.{imported_functions, imported_globals, imported_tables};
ghost use Rattle.rows_calls.specs.Desk.{imports_of};

use wasm_decode::{FuncType, Import, ImportDesc, Module, ValType};

/// Whether nothing but functions and memories is imported.
pub fn is_plain(imports: &[Import]) -> bool
    ensures tables { result ≡ true → imported_tables imports.now ≡ [] }
    ensures globals { result ≡ true → imported_globals imports.now ≡ [] }
{
    match imports {
        [] => true,
        [import, rest @ ..] => match import.desc {
            ImportDesc::Function(_) | ImportDesc::Memory(_) => is_plain(rest),
            ImportDesc::Table(_) | ImportDesc::Global(_) => false,
        },
    }
}

fn are_same(found: &[ValType], wanted: &[ValType]) -> bool
    ensures { result ≡ true → found.now ≡ wanted.now }
{
    match (found, wanted) {
        ([], []) => true,
        ([ValType::I32, found @ ..], [ValType::I32, wanted @ ..]) => are_same(found, wanted),
        ([ValType::I64, found @ ..], [ValType::I64, wanted @ ..]) => are_same(found, wanted),
        _ => false,
    }
}

fn is_type(kind: &FuncType, params: &[ValType], results: &[ValType]) -> bool
    ensures { result ≡ true → kind.now ≡ record { params = params.now; results = results.now } }
{
    are_same(kind.params.as_slice(), params) && are_same(kind.results.as_slice(), results)
}

fn is_function(types: &[FuncType], import: &Import, params: &[ValType], results: &[ValType]) -> bool
    ensures { result ≡ true → (k : ℕ) × (import.now.desc ≡ descs.Function k) × (slice_get types.now k ≡ Some (record { params = params.now; results = results.now })) }
{
    match import.desc {
        ImportDesc::Function(number) => match types.get(number as usize) {
            Some(kind) => is_type(kind, params, results),
            None => false,
        },
        _ => false,
    }
}

/// Whether the functions of the desk are imported, all in their order.
fn is_desk(types: &[FuncType], imports: &[Import]) -> bool
    ensures { result ≡ true → map (λ t. Some t) (imports_of true) ≡ map (slice_get types.now) (imported_functions imports.now) }
{
    match imports {
        [count, mark, fail, twice] => {
            is_function(types, count, &[], &[ValType::I32])
                && is_function(types, mark, &[ValType::I32], &[])
                && is_function(types, fail, &[], &[])
                && is_function(types, twice, &[ValType::I64], &[ValType::I64])
        }
        _ => false,
    }
}

/// Whether the functions of the desk are imported, or none.
pub fn desk_imports(module: &Module) -> Option<bool>
    ensures { IfSome result (λ b. map (λ t. Some t) (imports_of b) ≡ map (slice_get module.now.types) (imported_functions module.now.imports)) }
{
    match module.imports.as_slice() {
        [] => Some(false),
        imports => {
            if is_desk(module.types.as_slice(), imports) {
                return Some(true);
            }
            None
        }
    }
}
