//! What an instance is made of.
ghost use Rattle.std.specs.Prelude.{◌≡◌, ◌*◌, ℕ, List, [], IfOk, map, length};
ghost use Rattle.wasm_semantics.specs.Values.{HasTypes};
ghost use Rattle.wasm_interpreter.specs.Machine.{slot};
ghost use Rattle.wasm_interpreter.specs.Loaded.{value_types};
ghost use Rattle.wasm_compile.specs.declared.open.TypeRow.{TypeRow};
ghost use Rattle.wasm_validate.specs.Rules.{functions_of, imported_tables, imported_globals, kinds_of};
ghost use Rattle.wasm_validate.specs.Validity.{IsValid};
ghost use Rattle.wasm_exec.specs.Programs.{constants, first_globals, memory_at_first};
ghost use Rattle.wasm_exec.specs.Compiled.{CompiledOf};
ghost use Rattle.wasm_exec.specs.Whole.{IsWhole};
ghost use Rattle.wasm_exec.specs.Ready.{IsReady, globals_in};

use crate::compiling::compile;
use crate::first::{first_globals, memory_of};
use crate::made::CompiledModule;
use sim_base::{List, OutOfMemory};
use std::alloc::Global;
use std::mem::drop;
use wasm_decode::Module;
use wasm_interpreter::{Compiled, Store};
use wasm_validate::{Space, spaces};

/// How many calls may be nested.
pub const CALLS: u32 = 256;

/// The compiled module and the room of a call; the numbers of functions' types; memory and globals; and the slots.
#[derive(Drop)]
pub struct Parts {
    pub compiled: Compiled,
    pub room: u32,
    pub numbers: List<u32>,
    pub store: Store,
    pub slots: Vec<u64>,
}

fn free_slots(alloc: Global, room: u32) -> Result<Vec<u64>, OutOfMemory>
    ensures { IfOk result (λ slots. length slots.items ≡ 256 * room) }
{
    let mut slots = Vec::new(alloc);
    slots.resize(CALLS as usize * room as usize, 0)?;
    Ok(slots)
}

/// Memory and globals as they are at first, and slots for calls of so much room.
fn store_and_slots(
    alloc: Global,
    space: &Space,
    room: u32,
) -> Result<(Store, Vec<u64>), OutOfMemory>
    requires { IsWhole space.now.module.now }
    ensures memory { IfOk result (λ kept. kept.0.memory ≡ memory_at_first space.now.module.now) }
    ensures globals { IfOk result (λ kept. kept.0.globals ≡ map slot (constants space.now.module.now.globals)) }
    ensures typed { IfOk result (λ kept. HasTypes (constants space.now.module.now.globals) (value_types (kinds_of space.now.module.now.globals))) }
    ensures long { IfOk result (λ kept. length kept.1.items ≡ 256 * room) }
{
    let memory = memory_of(alloc, space)?;
    let globals = first_globals(alloc, space.module.globals.as_slice())?;
    let slots = free_slots(alloc, room)?;
    Ok((Store { memory, globals }, slots))
}

/// What is made of a module: what of it runs, and what its calls use.
fn made_parts(
    alloc: Global,
    space: &Space,
) -> Result<(CompiledModule, (Store, Vec<u64>)), OutOfMemory>
    requires whole { IsWhole space.now.module.now }
    requires tables { imported_tables space.now.module.now.imports ≡ [] }
    ensures compiled { IfOk result (λ p. (rows : List TypeRow) × CompiledOf space.now.module.now p.0.compiled rows p.0.room) }
    ensures memory { IfOk result (λ p. p.1.0.memory ≡ memory_at_first space.now.module.now) }
    ensures globals { IfOk result (λ p. p.1.0.globals ≡ map slot (constants space.now.module.now.globals)) }
    ensures typed { IfOk result (λ p. HasTypes (constants space.now.module.now.globals) (value_types (kinds_of space.now.module.now.globals))) }
    ensures long { IfOk result (λ p. length p.1.1.items ≡ 256 * p.0.room) }
{
    let made = compile(alloc, space)?;
    match store_and_slots(alloc, space, made.room) {
        Ok(kept) => Ok((made, kept)),
        Err(error) => {
            // One call, where a drop at the end of the scope is proved list by list.
            drop(made);
            Err(error)
        }
    }
}

/// The parts of an instance of a module that is whole.
fn whole_parts(alloc: Global, module: &Module) -> Result<Parts, OutOfMemory>
    requires whole { IsWhole module.now }
    requires valid { (init : ℕ) × IsValid module.now init }
    requires tables { imported_tables module.now.imports ≡ [] }
    requires globals { imported_globals module.now.imports ≡ [] }
    ensures ready { IfOk result (λ parts. IsReady module.now parts.compiled parts.room parts.store parts.slots.items) }
    ensures numbers { IfOk result (λ parts. parts.numbers ≡ functions_of module.now) }
    ensures memory { IfOk result (λ parts. parts.store.memory ≡ memory_at_first module.now) }
    ensures first { IfOk result (λ parts. globals_in module.now parts.store.globals ≡ first_globals module.now) }
{
    let space = spaces(alloc, module)?;
    match made_parts(alloc, &space) {
        Ok((made, (store, slots))) => Ok(Parts {
            compiled: made.compiled,
            room: made.room,
            numbers: List::from_vec(space.functions),
            store,
            slots,
        }),
        Err(error) => {
            drop(space);
            Err(error)
        }
    }
}

/// The parts of a new instance.
pub fn parts_of(alloc: Global, module: &Module) -> Result<Parts, OutOfMemory>
    requires valid { (init : ℕ) × IsValid module.now init }
    requires tables { imported_tables module.now.imports ≡ [] }
    requires globals { imported_globals module.now.imports ≡ [] }
    ensures ready { IfOk result (λ parts. IsReady module.now parts.compiled parts.room parts.store parts.slots.items) }
    ensures numbers { IfOk result (λ parts. parts.numbers ≡ functions_of module.now) }
    ensures memory { IfOk result (λ parts. parts.store.memory ≡ memory_at_first module.now) }
    ensures first { IfOk result (λ parts. globals_in module.now parts.store.globals ≡ first_globals module.now) }
{
    // `decode` reads a body for each function.
    if module.functions.len() != module.bodies.len() {
        return Err(OutOfMemory);
    }
    whole_parts(alloc, module)
}
