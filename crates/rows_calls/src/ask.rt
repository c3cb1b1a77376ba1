//! What a line of a script asks for.
use std::alloc::{AllocError, Global};
use wasm_num::Value;

#[derive(Drop)]
pub enum Ask {
    /// An operation by its opcode, with its operands.
    Operation(u8, Vec<Value>),
    /// A call of a function, with its arguments and its budget.
    Call(u32, Vec<Value>, u32),
    /// A call of an entry of the table, with its arguments, whether it has a result, and its budget.
    Slot(u32, Vec<Value>, bool, u32),
    /// The byte of the memory at an address.
    Byte(u32),
    /// A byte for the memory.
    StoreByte(u32, u8),
    /// How many pages the memory has.
    Pages,
    Unknown,
}

/// What the words of a line ask for.
pub fn read_ask(alloc: Global, line: &str) -> Result<Ask, AllocError> {
    let words: Vec<&str> = line.split_whitespace().collect(alloc)?;
    match words.as_slice() {
        [] => Ok(Ask::Unknown),
        [first, rest @ ..] => read_words(alloc, first, rest),
    }
}

fn read_words(alloc: Global, first: &str, rest: &[&str]) -> Result<Ask, AllocError> {
    match first {
        "pages" => Ok(Ask::Pages),
        "byte" => Ok(read_byte(rest)),
        "slot" => read_slot(alloc, rest),
        "operation" => read_operation(alloc, rest),
        _ => read_call(alloc, number(first), rest),
    }
}

fn read_byte(words: &[&str]) -> Ask {
    match words {
        [address] => Ask::Byte(number(address)),
        [address, _, byte] => Ask::StoreByte(number(address), small(byte)),
        _ => Ask::Unknown,
    }
}

fn read_operation(alloc: Global, words: &[&str]) -> Result<Ask, AllocError> {
    match words {
        [op, operands @ ..] => Ok(Ask::Operation(small(op), values(alloc, operands)?)),
        [] => Ok(Ask::Unknown),
    }
}

fn read_call(alloc: Global, function: u32, words: &[&str]) -> Result<Ask, AllocError> {
    match words {
        [args @ .., _, budget] => { Ok(Ask::Call(function, values(alloc, args)?, number(budget))) }
        _ => Ok(Ask::Unknown),
    }
}

fn read_slot(alloc: Global, words: &[&str]) -> Result<Ask, AllocError> {
    match words {
        [slot, args @ .., _, budget] => {
            let gives = is_giving(args);
            Ok(Ask::Slot(number(slot), values(alloc, args)?, gives, number(budget)))
        }
        _ => Ok(Ask::Unknown),
    }
}

/// Whether the words end with `gives i32`, which are no value.
fn is_giving(words: &[&str]) -> bool {
    match words {
        [.., word, _] => *word == "gives",
        _ => false,
    }
}

/// The values of words such as `i32 7 i64 9`.
fn values(alloc: Global, words: &[&str]) -> Result<Vec<Value>, AllocError> {
    let mut values = Vec::new(alloc);
    for pair in words.chunks(2) {
        match *pair {
            ["i32", n] => values.push(Value::I32(number(n)))?,
            ["i64", n] => values.push(Value::I64(n.parse::<u64>().unwrap_or(0)))?,
            _ => {}
        }
    }
    Ok(values)
}

fn number(word: &str) -> u32 {
    word.parse::<u32>().unwrap_or(0)
}

fn small(word: &str) -> u8 {
    word.parse::<u8>().unwrap_or(0)
}
