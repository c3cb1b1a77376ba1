//! Arguments and results in slots.
ghost use Rattle.std.specs.Prelude.{◌≡◌, ◌≤◌, ℕ, Some, Option, option_map, length, map, take, slice_get};
ghost use Rattle.wasm_code.specs.declared.types.FuncType.{FuncType};
ghost use Rattle.wasm_interpreter.specs.Machine.{slot};
ghost use Rattle.wasm_interpreter.specs.Calling.{as_type};
ghost use Rattle.wasm_validate.specs.Rules.{functions_of, type_of};
ghost use Rattle.wasm_exec.specs.Ready.{first_value, answer_of};

use wasm_code::{FuncType, ValType};
use wasm_decode::Module;
use wasm_interpreter::Ending;
use wasm_num::{Trap, Value};

fn slot_of(value: Value) -> u64
    ensures { result ≡ slot value }
{
    match value {
        Value::I32(n) => u64::from(n),
        Value::I64(n) => n,
        Value::F32(n) => u64::from(n),
        Value::F64(n) => n,
    }
}

/// Puts arguments into the lowest slots.
pub fn put_args(slots: &mut [u64], args: &[Value])
    requires { length args.now ≤ length slots.old }
    ensures { take (length args.now) slots.new ≡ map slot args.now }
{
    for i in 0..args.len() {
        slots[i] = slot_of(args[i]);
    }
}

/// The type of a function, by the numbers of all functions' types.
pub fn type_at<'a>(module: &'a Module, numbers: &[u32], f: u32) -> Option<&'a FuncType>
    requires { numbers.now ≡ functions_of module.now }
    ensures { option_map (λ r. r.now) result ≡ type_of module.now f }
{
    match numbers.get(f as usize) {
        Some(number) => module.types.get(*number as usize),
        None => None,
    }
}

/// The type of a function's result.
pub fn result_type(module: &Module, numbers: &[u32], f: u32) -> Option<ValType>
    requires { numbers.now ≡ functions_of module.now }
    ensures { (t : FuncType) → type_of module.now f ≡ Some t → result ≡ slice_get t.results 0 }
{
    match type_at(module, numbers, f) {
        Some(kind) => kind.results.as_slice().first().copied(),
        None => None,
    }
}

/// A result of this type, from the lowest slot.
fn result_of(kind: Option<ValType>, slots: &[u64]) -> Option<Value>
    requires { 1 ≤ length slots.now }
    ensures { result ≡ first_value kind slots.now }
{
    match kind {
        Some(ValType::I32) => Some(Value::I32((slots[0] % 0x1_0000_0000) as u32)),
        Some(ValType::I64) => Some(Value::I64(slots[0])),
        Some(ValType::F32) => Some(Value::F32((slots[0] % 0x1_0000_0000) as u32)),
        Some(ValType::F64) => Some(Value::F64(slots[0])),
        None => None,
    }
}

/// What a call that ended so answers, with a result of this type.
pub fn answer(ending: Ending, kind: Option<ValType>, slots: &[u64]) -> Result<Option<Value>, Trap>
    requires { 1 ≤ length slots.now }
    ensures { result ≡ answer_of ending kind slots.now }
{
    match ending {
        Ending::Gives(_) => Ok(result_of(kind, slots)),
        Ending::Stops(trap, _) => Err(trap),
    }
}
