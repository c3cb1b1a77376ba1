//! What a module gives to a body.
use wasm_code::{FuncType, GlobalType, ValType};

/// Functions and globals begin with the imported ones.
#[derive(Drop)]
pub struct BodyContext<'a> {
    pub types: &'a [FuncType],
    pub functions: &'a [u32],
    pub tables: usize,
    pub memories: usize,
    pub globals: &'a [GlobalType],
    pub locals: &'a [ValType],
    pub returns: Option<ValType>,
}
