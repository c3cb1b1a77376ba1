//! Bytes that stand for a value each.
ghost use Rattle.std.specs.Prelude.{◌≡◌, ℕ, Result};
ghost use Rattle.wasm_binary.specs.Form.{byte, judge_tag};
ghost use Rattle.wasm_binary.specs.Reads.{Decodes};

use crate::reader::{Reader, refused};
use sim_base::Fault;
use sim_refusals::numbers::WASM_TYPE;

/// A value that one byte spells.
pub trait FromByte: Sized {
    ghost judge: { ℕ → Result Self ℕ };

    /// The value, or the rule that the byte breaks.
    fn from_byte(byte: u8) -> Result<Self, u8>
        ensures { result ≡ judge byte };
}

impl FromByte for bool {
    ghost use Rattle.wasm_binary.specs.Form.{judge_flag};

    ghost judge = { judge_flag };

    fn from_byte(byte: u8) -> Result<bool, u8> {
        match byte {
            0 => Ok(false),
            1 => Ok(true),
            _ => Err(WASM_TYPE),
        }
    }
}

/// Reads a byte and judges it; 61 where the bytes end.
pub fn judged<T: FromByte + Drop>(reader: &mut Reader) -> Result<T, Fault>
    ensures { Decodes (byte T.judge) result reader.old reader.new }
{
    let place = reader.at;
    let byte = reader.byte()?;
    match T::from_byte(byte) {
        Ok(value) => Ok(value),
        Err(number) => Err(refused(number, place)),
    }
}

/// A byte that must be this one; else `rule`.
pub fn tag(reader: &mut Reader, wanted: u8, rule: u8) -> Result<(), Fault>
    ensures { Decodes (byte (judge_tag wanted rule)) result reader.old reader.new }
{
    let place = reader.at;
    let byte = reader.byte()?;
    if byte != wanted {
        return Err(refused(rule, place));
    }
    Ok(())
}
