//! Calls of an instance's functions, by their numbers and through the table.
ghost use Rattle.std.specs.Prelude.{◌≡◌, ◌<◌, ℕ, Bool, Option, Some, true, [], ◌∷◌, option_map, length, map, slice_get, if◌then◌else◌};
ghost use Rattle.wasm_code.specs.declared.types.ValType.TheVariants as types;
ghost use Rattle.wasm_code.specs.declared.types.FuncType.{FuncType};
ghost use Rattle.wasm_semantics.specs.Eval.{Program, call as calls, same_type, same_types, same_signature};
ghost use Rattle.wasm_semantics.specs.Values.{HasType, HasTypes};
ghost use Rattle.wasm_validate.specs.Rules.{functions_of, imported_functions, type_of};
ghost use Rattle.wasm_exec.specs.Programs.{IsProgram};
ghost use Rattle.wasm_exec.specs.Instances.{EndsAs, GivesTypes, state_of};
ghost use Rattle.wasm_exec.specs.Slots.{type_of_value, slot_type};
ghost use Rattle.wasm_exec.specs.Ready.{IsEntry, IsReady, running};

use crate::parts::{CALLS, Parts};
use crate::values::{answer, put_args, result_type, type_at};
use wasm_code::{FuncType, ValType};
use wasm_decode::Module;
use wasm_interpreter::{Entry, call};
use wasm_num::{Trap, Value};
use wasm_semantics::Host;

/// Calls a function of the module that these are the parts of.
pub fn invoke<H: Host>(
    parts: &mut Parts,
    module: &Module,
    f: u32,
    args: &[Value],
    host: &mut H,
    budget: u32,
) -> Result<Option<Value>, Trap>
    requires ready { IsReady module.now parts.old.compiled parts.old.room parts.old.store parts.old.slots.items }
    requires numbers { parts.old.numbers ≡ functions_of module.now }
    requires hosts { map (λ t. Some t) (H.imports host.old) ≡ map (slice_get module.now.types) (imported_functions module.now.imports) }
    requires typed { (t : FuncType) × (type_of module.now f ≡ Some t) × HasTypes args.now t.params }
    ensures ends { (p : Program) → IsProgram module.now p → EndsAs result (running module.now parts.new.store) (H.state host.new) (calls H.answers p 256 f args.now (state_of (running module.now parts.old.store) (H.state host.old) budget)) }
    ensures ready { IsReady module.now parts.new.compiled parts.new.room parts.new.store parts.new.slots.items }
    ensures numbers { parts.new.numbers ≡ functions_of module.now }
    ensures program { (p : Program) × IsProgram module.now p }
    ensures typed { (t : FuncType) → type_of module.now f ≡ Some t → GivesTypes t.results result }
    ensures imports { H.imports host.new ≡ H.imports host.old }
{
    let slots = parts.slots.as_mut_slice();
    put_args(slots, args);
    let ending = call(
        &parts.compiled,
        f,
        slots,
        &mut parts.store,
        host,
        budget,
        CALLS,
    );
    answer(
        ending,
        result_type(module, parts.numbers.as_slice(), f),
        slots,
    )
}

fn is_of(kind: ValType, value: Value) -> bool
    ensures same { result ≡ same_type kind (type_of_value value) }
    ensures typed { result ≡ true → HasType value kind }
{
    match value {
        Value::I32(_) => matches!(kind, ValType::I32),
        Value::I64(_) => matches!(kind, ValType::I64),
        Value::F32(_) => matches!(kind, ValType::F32),
        Value::F64(_) => matches!(kind, ValType::F64),
    }
}

fn are_of(types: &[ValType], args: &[Value]) -> bool
    ensures same { result ≡ same_types types.now (map type_of_value args.now) }
    ensures typed { result ≡ true → HasTypes args.now types.now }
{
    match types {
        [] => args.is_empty(),
        [kind, types @ ..] => match args {
            [] => false,
            [arg, args @ ..] => is_of(*kind, *arg) && are_of(types, args),
        },
    }
}

fn is_word(results: &[ValType], gives: bool) -> bool
    ensures { result ≡ same_types results.now (if gives then types.I32 ∷ [] else []) }
{
    match results {
        [] => !gives,
        [ValType::I32] => gives,
        _ => false,
    }
}

/// Whether a type is that of these arguments, with an i32 where there is to be a result.
fn is_asked(kind: &FuncType, args: &[Value], gives: bool) -> bool
    ensures same { result ≡ same_signature kind.now (slot_type args.now gives) }
    ensures typed { result ≡ true → HasTypes args.now kind.now.params }
{
    are_of(kind.params.as_slice(), args) && is_word(kind.results.as_slice(), gives)
}

/// An entry of the table, where there is one.
fn entry_at(parts: &Parts, entry: u32) -> Option<Option<Entry>>
    ensures { result ≡ slice_get parts.now.compiled.table entry }
{
    parts.compiled.table.as_slice().get(entry as usize).copied()
}

/// The function that an entry of the table calls. Traps: 5 TableBounds, 6 NoElement, 7 TypeMismatch.
pub fn entered(
    parts: &Parts,
    module: &Module,
    entry: u32,
    args: &[Value],
    gives: bool,
) -> Result<u32, Trap>
    requires ready { IsReady module.now parts.now.compiled parts.now.room parts.now.store parts.now.slots.items }
    requires numbers { parts.now.numbers ≡ functions_of module.now }
    ensures { IsEntry module.now entry args.now gives result }
{
    match entry_at(parts, entry) {
        Some(Some(found)) => match type_at(module, parts.numbers.as_slice(), found.function) {
            Some(kind) if is_asked(kind, args, gives) => Ok(found.function),
            _ => Err(Trap::TypeMismatch),
        },
        Some(None) => Err(Trap::NoElement),
        None => Err(Trap::TableBounds),
    }
}
