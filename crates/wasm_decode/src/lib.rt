//! The WebAssembly binary format, read into a module (WebAssembly core specification, "Binary Format").
//! `decode` answers Ok exactly for the text of a module, with the module; it refuses other bytes with
//! 60 WasmMagic to 69 WasmLimit at the byte at which they break.
//! It may answer out of memory, and takes no more than a small multiple of the bytes.
#![tactic(auto)]

mod bodies;
mod decoding;
mod expressions;
mod imports;
mod instructions;
mod items;
mod module;
mod prefixed;
mod progress;
mod sections;

pub use decoding::decode;
pub use module::{
    Body, DataSegment, ElementSegment, Export, Extern, GlobalDef, Import, ImportDesc, LocalRun,
    Module,
};
pub use wasm_code::{
    Expr, FloatInstr, FuncType, GlobalType, Instr, Labels, Limits, MemArg, ValType,
};
