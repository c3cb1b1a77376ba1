//! The index spaces of a module.
ghost use Rattle.std.specs.Prelude.{◌≡◌, ◌++◌, IfOk, List};
ghost use Rattle.wasm_validate.specs.Rules.{functions_of, tables_of, memories_of, globals_of};

use sim_base::OutOfMemory;
use std::alloc::Global;
use wasm_code::{GlobalType, Limits};
use wasm_decode::{ImportDesc, Module};

/// The module, and its functions by their types, tables, memories and globals, the imported ones first.
#[derive(Drop)]
pub struct Space<'a> {
    pub module: &'a Module,
    pub functions: Vec<u32>,
    pub tables: Vec<Limits>,
    pub memories: Vec<Limits>,
    pub globals: Vec<GlobalType>,
    ghost functions_are: { functions.items ≡ functions_of module.now },
    ghost tables_are: { tables.items ≡ tables_of module.now },
    ghost memories_are: { memories.items ≡ memories_of module.now },
    ghost globals_are: { globals.items ≡ globals_of module.now },
}
