//! Collecting index spaces.
ghost use Rattle.std.specs.Prelude.{◌≡◌, ◌++◌, IfOk, OnOk};
ghost use Rattle.wasm_validate.specs.Rules.{functions_of, tables_of, memories_of, globals_of, kinds_of, imported_functions as imported_functions_form, imported_tables as imported_tables_form, imported_memories as imported_memories_form, imported_globals as imported_globals_form};

use crate::space::Space;
use sim_base::OutOfMemory;
use std::alloc::Global;
use wasm_code::{GlobalType, Limits};
use wasm_decode::{GlobalDef, Import, ImportDesc, Module};

/// The index spaces of a module.
pub fn spaces<'a>(alloc: Global, known: &'a Module) -> Result<Space<'a>, OutOfMemory>
    ensures { IfOk result (λ s. s.module.now ≡ known.now) }
{
    let functions = functions(alloc, known)?;
    let tables = tables(alloc, known)?;
    let memories = memories(alloc, known)?;
    let globals = globals(alloc, known)?;
    Ok(Space {
        module: known,
        functions,
        tables,
        memories,
        globals,
    })
}

fn functions(alloc: Global, known: &Module) -> Result<Vec<u32>, OutOfMemory>
    ensures { IfOk result (λ v. v.items ≡ functions_of known.now) }
{
    let mut found = imported_functions(alloc, known.imports.as_slice())?;
    add_functions(&mut found, known.functions.as_slice())?;
    Ok(found)
}

fn imported_functions(alloc: Global, imports: &[Import]) -> Result<Vec<u32>, OutOfMemory>
    ensures { IfOk result (λ v. v.items ≡ imported_functions_form imports.now) }
{
    let mut found = Vec::new(alloc);
    for import in imports {
        if let ImportDesc::Function(one) = import.desc {
            found.push(one)?;
        }
    }
    Ok(found)
}

fn add_functions(found: &mut Vec<u32>, more: &[u32]) -> Result<(), OutOfMemory>
    ensures { OnOk result (found.new.items ≡ found.old.items ++ more.now) }
{
    for one in more {
        found.push(*one)?;
    }
    Ok(())
}

fn tables(alloc: Global, known: &Module) -> Result<Vec<Limits>, OutOfMemory>
    ensures { IfOk result (λ v. v.items ≡ tables_of known.now) }
{
    let mut found = imported_tables(alloc, known.imports.as_slice())?;
    add_tables(&mut found, known.tables.as_slice())?;
    Ok(found)
}

fn imported_tables(alloc: Global, imports: &[Import]) -> Result<Vec<Limits>, OutOfMemory>
    ensures { IfOk result (λ v. v.items ≡ imported_tables_form imports.now) }
{
    let mut found = Vec::new(alloc);
    for import in imports {
        if let ImportDesc::Table(one) = import.desc {
            found.push(one)?;
        }
    }
    Ok(found)
}

fn add_tables(found: &mut Vec<Limits>, more: &[Limits]) -> Result<(), OutOfMemory>
    ensures { OnOk result (found.new.items ≡ found.old.items ++ more.now) }
{
    for one in more {
        found.push(*one)?;
    }
    Ok(())
}

fn memories(alloc: Global, known: &Module) -> Result<Vec<Limits>, OutOfMemory>
    ensures { IfOk result (λ v. v.items ≡ memories_of known.now) }
{
    let mut found = imported_memories(alloc, known.imports.as_slice())?;
    add_memories(&mut found, known.memories.as_slice())?;
    Ok(found)
}

fn imported_memories(alloc: Global, imports: &[Import]) -> Result<Vec<Limits>, OutOfMemory>
    ensures { IfOk result (λ v. v.items ≡ imported_memories_form imports.now) }
{
    let mut found = Vec::new(alloc);
    for import in imports {
        if let ImportDesc::Memory(one) = import.desc {
            found.push(one)?;
        }
    }
    Ok(found)
}

fn add_memories(found: &mut Vec<Limits>, more: &[Limits]) -> Result<(), OutOfMemory>
    ensures { OnOk result (found.new.items ≡ found.old.items ++ more.now) }
{
    for one in more {
        found.push(*one)?;
    }
    Ok(())
}

fn globals(alloc: Global, known: &Module) -> Result<Vec<GlobalType>, OutOfMemory>
    ensures { IfOk result (λ v. v.items ≡ globals_of known.now) }
{
    let mut found = imported_globals(alloc, known.imports.as_slice())?;
    add_globals(&mut found, known.globals.as_slice())?;
    Ok(found)
}

fn imported_globals(alloc: Global, imports: &[Import]) -> Result<Vec<GlobalType>, OutOfMemory>
    ensures { IfOk result (λ v. v.items ≡ imported_globals_form imports.now) }
{
    let mut found = Vec::new(alloc);
    for import in imports {
        if let ImportDesc::Global(one) = import.desc {
            found.push(one)?;
        }
    }
    Ok(found)
}

fn add_globals(found: &mut Vec<GlobalType>, more: &[GlobalDef]) -> Result<(), OutOfMemory>
    ensures { OnOk result (found.new.items ≡ found.old.items ++ kinds_of more.now) }
{
    for one in more {
        found.push(one.kind)?;
    }
    Ok(())
}
