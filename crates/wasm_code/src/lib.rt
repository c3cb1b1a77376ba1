//! The instructions of WebAssembly modules, their nesting and their typing
//! (WebAssembly core specification, "Structure" and "Validation").
//! The calls look a row of the table of opcodes up, or keep nested instructions; one may answer out of memory.
#![tactic(auto)]

mod expr;
mod instr;
mod labels;
mod opcodes;
mod operators;
mod type_text;
mod types;

pub use expr::Expr;
pub use instr::{FloatInstr, Instr, MemArg};
pub use labels::Labels;
pub use opcodes::{
    binary_of, binary_row, compares, float_binary_row, float_load_row, float_store_row,
    float_unary_row, load_of, load_row, store_of, store_row, truncate_row, unary_of, unary_row,
};
pub use operators::{
    Binary, BinaryOp, Division, LoadOp, Plain, StoreOp, Unary32, Unary64, UnaryOp,
};
pub use type_text::{read_global_type, read_limits, table_limits, tables};
pub use types::{BlockType, FuncType, GlobalType, Limits, ValType};
