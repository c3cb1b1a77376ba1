//! What is answered.
use std::fmt;
use std::fmt::{Display, Formatter, Write};
use wasm_num::{Trap, Value};

#[derive(Clone, Copy)]
pub enum Answer {
    Nothing,
    Value(Value),
    Trap(Trap),
    Byte(u8),
    Pages(u32),
    /// There is no module, no such function, byte or operation, or the arguments are not of its types.
    Unfit,
}

/// The answer of a call.
pub fn answer_of(end: Result<Option<Value>, Trap>) -> Answer {
    match end {
        Ok(None) => Answer::Nothing,
        Ok(Some(value)) => Answer::Value(value),
        Err(trap) => Answer::Trap(trap),
    }
}

impl Display for Answer {
    fn fmt<W: Write>(&self, f: &mut Formatter<W>) -> fmt::Result {
        match self {
            Answer::Nothing => write!(f, "none"),
            Answer::Value(Value::I32(n)) => write!(f, "i32 {n}"),
            Answer::Value(Value::I64(n)) => write!(f, "i64 {n}"),
            Answer::Value(Value::F32(n)) => write!(f, "f32 by bits {n}"),
            Answer::Value(Value::F64(n)) => write!(f, "f64 by bits {n}"),
            Answer::Trap(trap) => write!(f, "trap {}", trap.number()),
            Answer::Byte(n) => write!(f, "byte {n}"),
            Answer::Pages(n) => write!(f, "{n} pages"),
            Answer::Unfit => write!(f, "unfit"),
        }
    }
}
