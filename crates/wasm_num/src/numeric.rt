//! The operators on values ("Numeric Instructions" of the core specification).
ghost use Rattle.std.specs.Prelude.{◌≡◌};
ghost use Rattle.std.specs.Int.{w64};
ghost use Rattle.wasm_code.specs.Opcodes.{word_result, long_result, pair_result};
ghost use Rattle.wasm_code.specs.declared.operators.Binary.TheVariants as binaries;
ghost use Rattle.wasm_num.specs.Numeric.{unary, binary, plain, unary32, unary64, value_of, IsUnary, IsBinary};

use crate::trap::Trap;
use crate::value::Value;
use crate::{int32, int64};
use wasm_code::{Binary, BinaryOp, Plain, Unary32, Unary64, UnaryOp, compares};

/// The operator on one integer of its type.
pub fn unary(op: UnaryOp, a: Value) -> Value
    requires { IsUnary op a }
    ensures { result ≡ unary op a }
{
    match (op, a) {
        (UnaryOp::I32(operator), Value::I32(a)) => unary32(operator, a),
        (UnaryOp::I64(operator), Value::I64(a)) => unary64(operator, a),
        _ => unreachable!(),
    }
}

/// The operator on two integers of its type. Traps: 3 DivideByZero, 4 Overflow.
pub fn binary(op: BinaryOp, a: Value, b: Value) -> Result<Value, Trap>
    requires { IsBinary op a b }
    ensures { result ≡ binary op a b }
{
    match (op, a, b) {
        (BinaryOp::I32(operator), Value::I32(a), Value::I32(b)) => {
            Ok(Value::I32(int32::computed(operator, a, b)?))
        }
        (BinaryOp::I64(Binary::Plain(operator)), Value::I64(a), Value::I64(b)) => {
            Ok(plain64(operator, a, b))
        }
        (BinaryOp::I64(Binary::Division(operator)), Value::I64(a), Value::I64(b)) => {
            Ok(Value::I64(int64::divided(operator, a, b)?))
        }
        _ => unreachable!(),
    }
}

fn unary32(operator: Unary32, a: u32) -> Value
    ensures { result ≡ value_of (word_result operator) (unary32 operator a) }
{
    match operator {
        Unary32::Eqz => Value::I32(u32::from(a == 0)),
        Unary32::Clz => Value::I32(a.leading_zeros()),
        Unary32::Ctz => Value::I32(a.trailing_zeros()),
        Unary32::Popcnt => Value::I32(a.count_ones()),
        Unary32::ExtendS => Value::I64(int64::extend32_s(a)),
        Unary32::ExtendU => Value::I64(u64::from(a)),
        Unary32::Extend8S => Value::I32(int32::extend8_s((a % 0x100) as u8)),
        Unary32::Extend16S => Value::I32(int32::extend16_s((a % 0x1_0000) as u16)),
    }
}

fn unary64(operator: Unary64, a: u64) -> Value
    ensures { result ≡ value_of (long_result operator) (unary64 operator a) }
{
    match operator {
        Unary64::Eqz => Value::I32(u32::from(a == 0)),
        Unary64::Clz => Value::I64(u64::from(a.leading_zeros())),
        Unary64::Ctz => Value::I64(u64::from(a.trailing_zeros())),
        Unary64::Popcnt => Value::I64(u64::from(a.count_ones())),
        Unary64::Wrap => Value::I32(int32::wrap(a)),
        Unary64::Extend8S => Value::I64(int64::extend8_s((a % 0x100) as u8)),
        Unary64::Extend16S => Value::I64(int64::extend16_s((a % 0x1_0000) as u16)),
        Unary64::Extend32S => Value::I64(int64::extend32_s(int32::wrap(a))),
    }
}

fn plain64(operator: Plain, a: u64, b: u64) -> Value
    ensures { result ≡ value_of (pair_result (binaries.Plain operator)) (plain w64 operator a b) }
{
    let n = int64::plain(operator, a, b);
    if compares(operator) {
        return Value::I32(int32::wrap(n));
    }
    Value::I64(n)
}
