//! The imports of a module by their names.
ghost use Rattle.std.specs.Prelude.{◌≡◌, IfOk};
ghost use Rattle.wasm_validate.specs.Validity.{import_texts, kind_of as kind_form};

use sim_base::{List, OutOfMemory, Text};
use std::alloc::Global;
use wasm_decode::{Import, ImportDesc};

/// What is imported; a function by the number of its type.
#[derive(Clone, Copy)]
pub enum ImportKind {
    Function(u32),
    Table,
    Memory,
    Global,
}

/// An import by its two names.
#[derive(Drop)]
pub struct ImportText {
    pub module: Text,
    pub name: Text,
    pub kind: ImportKind,
}

/// The imports in order.
pub fn texts(alloc: Global, imports: &[Import]) -> Result<List<ImportText>, OutOfMemory>
    ensures { IfOk result (λ texts. texts ≡ import_texts imports.now) }
{
    let mut texts = List::new(alloc);
    for import in imports {
        let module = Text::from_str(alloc, import.module.as_str())?;
        let name = Text::from_str(alloc, import.name.as_str())?;
        let kind = kind_of(&import.desc);
        texts.push(ImportText { module, name, kind })?;
    }
    Ok(texts)
}

fn kind_of(desc: &ImportDesc) -> ImportKind
    ensures { result ≡ kind_form desc.now }
{
    match desc {
        ImportDesc::Function(t) => ImportKind::Function(*t),
        ImportDesc::Table(_) => ImportKind::Table,
        ImportDesc::Memory(_) => ImportKind::Memory,
        ImportDesc::Global(_) => ImportKind::Global,
    }
}
