//! The arguments of a host call, by the types that its import has.
ghost use Rattle.std.specs.Prelude.{◌≡◌, [], ◌∷◌};
ghost use Rattle.wasm_code.specs.declared.types.ValType.TheVariants as types;
ghost use Rattle.wasm_semantics.specs.Values.{HasTypes};
ghost use Rattle.wasm_num.specs.declared.value.Value.TheVariants as values;
ghost use Rattle.chip_host.specs.Arguments.{number_of, long_of};

use wasm_num::Value;

#[inline]
fn number(value: Value) -> u32
    ensures { result ≡ number_of value }
{
    match value {
        Value::I32(n) => n,
        _ => 0,
    }
}

#[inline]
fn long(value: Value) -> u64
    ensures { result ≡ long_of value }
{
    match value {
        Value::I64(n) => n,
        _ => 0,
    }
}

/// No argument.
#[inline]
pub(crate) fn none(args: &[Value])
    requires { HasTypes args.now [] }
    ensures { args.now ≡ [] }
{}

#[inline]
pub(crate) fn one(args: &[Value]) -> u32
    requires { HasTypes args.now (types.I32 ∷ []) }
    ensures { args.now ≡ values.I32 result ∷ [] }
{
    number(args[0])
}

#[inline]
pub(crate) fn two(args: &[Value]) -> (u32, u32)
    requires { HasTypes args.now (types.I32 ∷ types.I32 ∷ []) }
    ensures { args.now ≡ values.I32 result.0 ∷ values.I32 result.1 ∷ [] }
{
    (number(args[0]), number(args[1]))
}

#[inline]
pub(crate) fn three(args: &[Value]) -> (u32, u32, u32)
    requires { HasTypes args.now (types.I32 ∷ types.I32 ∷ types.I32 ∷ []) }
    ensures { args.now ≡ values.I32 result.0 ∷ values.I32 result.1 ∷ values.I32 result.2 ∷ [] }
{
    (number(args[0]), number(args[1]), number(args[2]))
}

/// Three, of which the second has 64 bits.
#[inline]
pub(crate) fn with_long(args: &[Value]) -> (u32, u64, u32)
    requires { HasTypes args.now (types.I32 ∷ types.I64 ∷ types.I32 ∷ []) }
    ensures { args.now ≡ values.I32 result.0 ∷ values.I64 result.1 ∷ values.I32 result.2 ∷ [] }
{
    (number(args[0]), long(args[1]), number(args[2]))
}
