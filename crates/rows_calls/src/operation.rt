//! Operations by their opcodes.
ghost use Rattle.std.specs.Prelude.{◌≡◌, true};
ghost use Rattle.wasm_num.specs.Numeric.{IsBinary, IsUnary};

use crate::answer::Answer;
use wasm_code::{BinaryOp, UnaryOp, binary_of, unary_of};
use wasm_num::{Value, binary, unary};

fn is_unary(op: UnaryOp, a: Value) -> bool
    ensures { result ≡ true → IsUnary op a }
{
    match (op, a) {
        (UnaryOp::I32(_), Value::I32(_)) => true,
        (UnaryOp::I64(_), Value::I64(_)) => true,
        _ => false,
    }
}

fn is_binary(op: BinaryOp, a: Value, b: Value) -> bool
    ensures { result ≡ true → IsBinary op a b }
{
    match (op, a, b) {
        (BinaryOp::I32(_), Value::I32(_), Value::I32(_)) => true,
        (BinaryOp::I64(_), Value::I64(_), Value::I64(_)) => true,
        _ => false,
    }
}

fn on_one(op: u8, a: Value) -> Answer {
    match unary_of(op) {
        Some(op) if is_unary(op, a) => Answer::Value(unary(op, a)),
        _ => Answer::Unfit,
    }
}

fn on_two(op: u8, a: Value, b: Value) -> Answer {
    match binary_of(op) {
        Some(op) if is_binary(op, a, b) => match binary(op, a, b) {
            Ok(value) => Answer::Value(value),
            Err(trap) => Answer::Trap(trap),
        },
        _ => Answer::Unfit,
    }
}

/// What the operation of an opcode answers.
pub fn operate(op: u8, operands: &[Value]) -> Answer {
    match *operands {
        [a] => on_one(op, a),
        [a, b] => on_two(op, a, b),
        _ => Answer::Unfit,
    }
}
