//! Types ("Types" of the core specification).
use sim_base::List;

/// A value type.
#[derive(Clone, Copy)]
pub enum ValType {
    I32,
    I64,
    F32,
    F64,
}

/// The type of a block: no result, or one.
#[derive(Clone, Copy)]
pub struct BlockType {
    pub result: Option<ValType>,
}

/// A function type.
#[derive(Drop)]
pub struct FuncType {
    pub params: List<ValType>,
    pub results: List<ValType>,
}

/// The limits of a memory, in pages, or of a table, in entries.
#[derive(Clone, Copy)]
pub struct Limits {
    pub least: u32,
    pub greatest: Option<u32>,
}

/// The type of a global, and whether it may be changed.
#[derive(Clone, Copy)]
pub struct GlobalType {
    pub value: ValType,
    pub changeable: bool,
}
