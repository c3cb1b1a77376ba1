//! An open block.
use wasm_code::ValType;

/// What an open block is.
#[derive(Clone, Copy)]
pub enum Frame {
    Block,
    Loop,
    If,
    Else,
}

/// A block around, with its operands as they stood when the block in it was opened, and what was opened.
#[derive(Drop)]
pub struct Open {
    pub known: Vec<Option<ValType>>,
    pub missing: bool,
    pub frame: Frame,
    pub result: Option<ValType>,
}
